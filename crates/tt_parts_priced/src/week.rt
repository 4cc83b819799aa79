//! The program of the week of a group, day by day.

use crate::day::DayProgram;
use crate::layer::{Arrow, Edge, Key, Layer, Reached};
use crate::limits::Limits;
use crate::shape::Shape;
use std::alloc::{AllocError, Global};
use tt_instance::MISSING_DAY_COST;

/// The programs of days, and the number of the program that each day has.
#[derive(Debug, Drop)]
pub struct Days {
    pub programs: Vec<DayProgram>,
    pub of_day: Vec<usize>,
}

impl Days {
    /// Returns the program of a day.
    pub fn program(&self, day: usize) -> Option<&DayProgram> {
        self.programs.get(*self.of_day.get(day)?)
    }

    /// Returns the number of edges of a program.
    pub fn edges(&self, number: usize) -> u64 {
        self.programs
            .get(number)
            .map_or(0, |program| program.edges())
    }

    /// Returns the words of the week that a day can have.
    fn words(&self, day: usize) -> &[u64] {
        match self.program(day) {
            Some(program) => &program.words,
            None => &[],
        }
    }
}

/// Returns for each day the counts that the week has to reach with it, since the later days can't add more than the rest.
fn least_counts(alloc: Global, shape: &Shape, days: &Days) -> Result<Vec<u64>, AllocError> {
    let count = days.of_day.len();
    let mut least = vec![in alloc; 0u64; count]?;
    let mut need = shape.week.full();
    need = shape.week.less(need, 0);
    for day in (0..count).rev() {
        if let Some(place) = least.get_mut(day) {
            *place = need;
        }
        let mut most = 0;
        for word in days.words(day) {
            most = shape.week.greater(most, *word);
        }
        need = shape.week.less(need, most);
    }
    Ok(least)
}

/// Returns the arrows of a day after some states of the week, or `None` if there are too many.
fn arrows_of(
    alloc: Global,
    shape: &Shape,
    keys: &[Key],
    words: &[u64],
    least: u64,
    most: usize,
) -> Result<Option<Vec<Arrow>>, AllocError> {
    let mut arrows = Vec::new(alloc);
    for (label, word) in words.iter().enumerate() {
        for (from, key) in keys.iter().enumerate() {
            let Some(sum) = shape.week.sum(key.packed, *word) else {
                continue;
            };
            if shape.week.reaches(sum.packed, least) {
                let points = sum.beyond.saturating_mul(u64::from(MISSING_DAY_COST));
                arrows.push(Arrow {
                    key: Key::of(sum.packed),
                    edge: Edge::new(from, label, points),
                })?;
            }
        }
        if most < arrows.len() {
            return Ok(None);
        }
    }
    Ok(Some(arrows))
}

/// Returns the layers of the days of a week, or `None` if they are too large, or no week has all lectures.
pub fn week_of(
    alloc: Global,
    shape: &Shape,
    days: &Days,
    limits: Limits,
) -> Result<Option<Vec<Layer>>, AllocError> {
    let least = least_counts(alloc, shape, days)?;
    let mut layers = Vec::new(alloc);
    let mut keys = vec![in alloc; Key::FIRST; 1]?;
    let mut edges: u64 = 0;
    for (day, need) in least.iter().enumerate() {
        let words = days.words(day);
        let Some(arrows) = arrows_of(alloc, shape, &keys, words, *need, limits.edges)? else {
            return Ok(None);
        };
        edges = edges.saturating_add(arrows.len() as u64);
        let reached = Reached::new(alloc, arrows)?;
        layers.push(reached.layer)?;
        keys = reached.keys;
        if keys.is_empty() || limits.steps < edges {
            return Ok(None);
        }
    }
    Ok(Some(layers))
}
