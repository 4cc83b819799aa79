//! The program of a group: the least that it pays at given prices, and a timetable that pays so much.

use crate::day::{DayProgram, open_in};
use crate::layer::{Layer, below};
use crate::limits::Limits;
use crate::shape::Shape;
use crate::tables::{Tables, run_layers, table, tables_of};
use crate::targets::Targets;
use crate::week::{Days, week_of};
use rand_pcg::Pcg32;
use std::alloc::{AllocError, Global};
use tt_instance::Instance;

/// The layers of the days and of the week of a group, which are the same at all prices.
#[derive(Debug, Drop)]
pub struct Program {
    shape: Shape,
    courses: Vec<u32>,
    days: Days,
    week: Vec<Layer>,
    periods: usize,
    slots: usize,
    steps: u64,
}

/// A day, and the word of the week that it has.
#[derive(Clone, Copy)]
struct DayWord {
    day: usize,
    word: usize,
}

/// Returns the programs of all days, or `None` if one is too large; days with the same availability share a program.
fn days_of(
    alloc: Global,
    instance: &Instance<'_>,
    shape: &Shape,
    limits: Limits,
) -> Result<Option<Days>, AllocError> {
    let mut days = Days {
        programs: Vec::new(alloc),
        of_day: Vec::new(alloc),
    };
    let mut seen: Vec<Vec<u64>> = Vec::new(alloc);
    let mut left = limits;
    for day in 0..instance.days() {
        let open = open_in(alloc, instance, shape, day)?;
        let known = seen
            .iter()
            .position(|other| other.as_slice() == open.as_slice());
        if let Some(known) = known {
            days.of_day.push(known)?;
            left.steps = left.steps.saturating_sub(days.edges(known));
            continue;
        }
        let Some(program) = DayProgram::new(alloc, shape, &open, left)? else {
            return Ok(None);
        };
        left.steps = left.steps.saturating_sub(program.edges());
        days.of_day.push(days.programs.len())?;
        days.programs.push(program)?;
        seen.push(open)?;
    }
    Ok(Some(days))
}

/// Returns the number of edges of all days and of the week.
fn edges_of(days: &Days, week: &[Layer]) -> u64 {
    let mut edges: u64 = 0;
    for (day, layer) in week.iter().enumerate() {
        let more = days.program(day).map_or(0, |program| program.edges());
        edges = edges
            .saturating_add(more)
            .saturating_add(layer.edges() as u64);
    }
    edges
}

impl Program {
    /// Returns the program of a group, or `None` if the group is too large, or has no relaxed timetable.
    pub fn new(
        alloc: Global,
        instance: &Instance<'_>,
        targets: Targets<'_>,
        limits: Limits,
    ) -> Result<Option<Program>, AllocError> {
        let Some(shape) = Shape::new(alloc, instance, &targets, limits)? else {
            return Ok(None);
        };
        let Some(days) = days_of(alloc, instance, &shape, limits)? else {
            return Ok(None);
        };
        let Some(week) = week_of(alloc, &shape, &days, limits)? else {
            return Ok(None);
        };
        let mut courses = Vec::new(alloc);
        for member in &shape.members {
            courses.push(member.course)?;
        }
        let periods = instance.periods() as usize;
        let slots = periods.saturating_mul(instance.days() as usize);
        let sets = (shape.sets.len() as u64).saturating_mul(slots as u64);
        let steps = edges_of(&days, &week).saturating_add(sets);
        Ok(Some(Program {
            shape,
            courses,
            days,
            week,
            periods,
            slots,
            steps,
        }))
    }

    /// Returns the courses that the group concerns, in order.
    pub fn courses(&self) -> &[u32] {
        &self.courses
    }

    /// Returns the number of steps of an evaluation: edges, and sets in all slots.
    pub fn steps(&self) -> u64 {
        self.steps
    }

    /// Returns the number of sets that a check tries after some first periods, in all days.
    pub fn tries(&self) -> u64 {
        let mut tries: u64 = 0;
        for day in 0..self.week.len() {
            let more = self.days.program(day).map_or(0, |program| program.tries);
            tries = tries.saturating_add(more);
        }
        tries
    }

    /// Returns the maximum number of days that a check tries after some first days.
    pub fn relaxations(&self) -> u64 {
        let mut words: u64 = 0;
        for day in 0..self.week.len() {
            let more = self
                .days
                .program(day)
                .map_or(0, |program| program.words.len() as u64);
            words = words.saturating_add(more);
        }
        words.saturating_mul(self.shape.states)
    }

    /// Returns the number of sets in which no two courses conflict.
    pub fn sets(&self) -> usize {
        self.shape.sets.len()
    }

    /// Returns tables for evaluations.
    pub fn tables(&self, alloc: Global) -> Result<Tables, AllocError> {
        let mut tables = Tables {
            sets: Vec::new(alloc),
            days: Vec::new(alloc),
            week: tables_of(alloc, &self.week)?,
        };
        for _ in 0..self.slots {
            tables
                .sets
                .push(vec![in alloc; 0i64; self.shape.sets.len()]?)?;
        }
        for index in &self.days.of_day {
            if let Some(program) = self.days.programs.get(*index) {
                tables.days.push(tables_of(alloc, &program.layers)?)?;
            }
        }
        Ok(tables)
    }

    /// Finds what each set pays in a slot in which the courses have these prices.
    fn price_sets(&self, prices: &[i64], costs: &mut [i64]) {
        for (label, set) in self.shape.sets.iter().enumerate() {
            let first = costs.get(set.parent).copied().unwrap_or(0);
            let more = prices.get(set.last).copied().unwrap_or(0);
            if let Some(place) = costs.get_mut(label) {
                *place = first.wrapping_add(more);
            }
        }
    }

    /// Returns the prices of a slot.
    fn prices_in<'a>(&self, prices: &'a [i64], slot: usize) -> &'a [i64] {
        let width = self.courses.len();
        let begin = slot.wrapping_mul(width);
        prices.get(begin..begin.wrapping_add(width)).unwrap_or(&[])
    }

    /// Returns the least that the group pays, where a point has `scale` units. The prices are those of all courses in the first slot, then in the
    /// second, and so on.
    pub fn evaluate(&self, scale: i64, prices: &[i64], tables: &mut Tables) -> i64 {
        for (slot, costs) in tables.sets.iter_mut().enumerate() {
            self.price_sets(self.prices_in(prices, slot), costs);
        }
        for (day, rows) in tables.days.iter_mut().enumerate() {
            let begin = day.wrapping_mul(self.periods);
            let end = begin.wrapping_add(self.periods);
            if let Some(program) = self.days.program(day) {
                let costs = tables.sets.get(begin..end).unwrap_or(&[]);
                run_layers(&program.layers, costs, scale, rows);
            }
        }
        for (day, layer) in self.week.iter().enumerate() {
            let costs = words_of(&tables.days, day);
            let Some((done, rest)) = tables.week.split_at_mut_checked(day.saturating_add(1)) else {
                break;
            };
            if let Some(after) = rest.first_mut() {
                layer.run(table(done, day), costs, scale, after);
            }
        }
        let base = i64::try_from(self.shape.base).unwrap_or(0);
        let least = self.ends(tables).iter().copied().min().unwrap_or(0);
        least.wrapping_add(scale.wrapping_mul(base))
    }

    /// Returns what is paid on the way to each state at the end of the week.
    fn ends<'a>(&self, tables: &'a Tables) -> &'a [i64] {
        table(&tables.week, self.week.len())
    }

    /// Returns one of the states at the end of the week whose ways pay least.
    fn last_state(&self, tables: &Tables, rng: &mut Pcg32) -> usize {
        let (mut found, mut least, mut ties) = (0, i64::MAX, 0u32);
        for (state, paid) in self.ends(tables).iter().enumerate() {
            if *paid < least {
                (found, least, ties) = (state, *paid, 1);
            } else if *paid == least {
                ties = ties.saturating_add(1);
                if below(rng, ties) == 0 {
                    found = state;
                }
            }
        }
        found
    }

    /// Writes the sets of a day that has a word of the week and pays least.
    fn trace_day(
        &self,
        scale: i64,
        tables: &Tables,
        at: DayWord,
        rng: &mut Pcg32,
        plan: &mut [u64],
    ) {
        let DayWord { day, word } = at;
        let (Some(program), Some(rows)) = (self.days.program(day), tables.days.get(day)) else {
            return;
        };
        let first = day.wrapping_mul(self.periods);
        let mut state = word;
        for (index, layer) in program.layers.iter().enumerate().rev() {
            let slot = first.wrapping_add(index);
            let costs = if index < self.periods {
                table(&tables.sets, slot)
            } else {
                &[]
            };
            let Some(edge) = layer.trace(table(rows, index), costs, scale, state, rng) else {
                return;
            };
            state = edge.from as usize;
            if index < self.periods {
                if let Some(place) = plan.get_mut(slot) {
                    *place = self
                        .shape
                        .sets
                        .get(edge.label as usize)
                        .map_or(0, |set| set.courses);
                }
            }
        }
    }

    /// Writes the set of courses in each slot, a bit for each, of a timetable that pays least at the prices of the last evaluation.
    pub fn trace(&self, scale: i64, tables: &Tables, rng: &mut Pcg32, plan: &mut [u64]) {
        let mut state = self.last_state(tables, rng);
        for (day, layer) in self.week.iter().enumerate().rev() {
            let costs = words_of(&tables.days, day);
            let before = table(&tables.week, day);
            let Some(edge) = layer.trace(before, costs, scale, state, rng) else {
                return;
            };
            state = edge.from as usize;
            let word = edge.label as usize;
            self.trace_day(scale, tables, DayWord { day, word }, rng, plan);
        }
    }
}

/// Returns the least that a day pays, for each of its words of the week.
fn words_of(days: &[Vec<Vec<i64>>], day: usize) -> &[i64] {
    match days.get(day).and_then(|rows| rows.last()) {
        Some(paid) => paid,
        None => &[],
    }
}
