//! Layers of a program: the states after a step, and the edges that lead to each.

use rand_core::Rng;
use rand_pcg::Pcg32;
use std::alloc::{AllocError, Global};

/// A state: counts that are packed into a word, and the curricula of the last period: all of them, and those that were not in the period before.
#[derive(Clone, Copy, Debug, PartialEq, Eq, PartialOrd, Ord)]
pub struct Key {
    pub packed: u64,
    pub occupied: u64,
    pub pending: u64,
}

impl Key {
    /// The state before the first step.
    pub const FIRST: Key = Key {
        packed: 0,
        occupied: 0,
        pending: 0,
    };

    /// Returns a state of counts alone.
    pub fn of(packed: u64) -> Key {
        Key {
            packed,
            occupied: 0,
            pending: 0,
        }
    }
}

/// A step from a state of the layer before: the number of what is chosen, which has a price, and the points that it costs.
#[derive(Clone, Copy, Debug)]
pub struct Edge {
    pub from: u32,
    pub label: u16,
    pub points: u16,
}

impl Edge {
    /// Returns an edge.
    pub fn new(from: usize, label: usize, points: u64) -> Edge {
        Edge {
            from: u32::try_from(from).unwrap_or(u32::MAX),
            label: u16::try_from(label).unwrap_or(u16::MAX),
            points: u16::try_from(points).unwrap_or(u16::MAX),
        }
    }

    /// Returns what is paid by the way over this edge.
    fn paid(&self, before: &[i64], costs: &[i64], scale: i64) -> i64 {
        let first = before.get(self.from as usize).copied().unwrap_or(0);
        let cost = costs.get(self.label as usize).copied().unwrap_or(0);
        let points = scale.wrapping_mul(i64::from(self.points));
        first.wrapping_add(cost).wrapping_add(points)
    }
}

/// An edge, and the state that it leads to.
#[derive(Clone, Copy, Debug)]
pub struct Arrow {
    pub key: Key,
    pub edge: Edge,
}

/// The edges that lead to each state, one state behind the other, and the index at which those of each state end.
#[derive(Debug, Drop)]
pub struct Layer {
    edges: Vec<Edge>,
    ends: Vec<usize>,
}

/// A layer, and its states.
#[derive(Debug, Drop)]
pub struct Reached {
    pub layer: Layer,
    pub keys: Vec<Key>,
}

/// Returns a random number below a bound; 0 if the bound is 0.
pub fn below(rng: &mut Pcg32, bound: u32) -> u32 {
    rng.next_u32().checked_rem(bound).unwrap_or(0)
}

/// The arrows that lead to a state, as places in a list.
#[derive(Clone, Copy)]
struct Run {
    key: Key,
    begin: usize,
    end: usize,
}

/// Returns the runs of arrows with the same state in a sorted list, the shortest first, so that the loops over the edges of many states have the
/// same length.
fn runs_of(alloc: Global, arrows: &[Arrow]) -> Result<Vec<Run>, AllocError> {
    let mut runs: Vec<Run> = Vec::new(alloc);
    for (place, arrow) in arrows.iter().enumerate() {
        if !runs.last().is_some_and(|run| run.key == arrow.key) {
            runs.push(Run {
                key: arrow.key,
                begin: place,
                end: place,
            })?;
        }
        if let Some(run) = runs.last_mut() {
            run.end = place.saturating_add(1);
        }
    }
    runs.sort_unstable_by_key(|run| (run.end.wrapping_sub(run.begin), run.begin));
    Ok(runs)
}

impl Reached {
    /// Returns the layer of all states that arrows lead to, those with the fewest arrows first.
    pub fn new(alloc: Global, mut arrows: Vec<Arrow>) -> Result<Reached, AllocError> {
        arrows.sort_unstable_by_key(|arrow| arrow.key);
        let runs = runs_of(alloc, &arrows)?;
        let mut edges = Vec::with_capacity(alloc, arrows.len())?;
        let mut ends = Vec::with_capacity(alloc, runs.len())?;
        let mut keys = Vec::with_capacity(alloc, runs.len())?;
        for run in &runs {
            for arrow in arrows.get(run.begin..run.end).unwrap_or(&[]) {
                edges.push(arrow.edge)?;
            }
            ends.push(edges.len())?;
            keys.push(run.key)?;
        }
        Ok(Reached {
            layer: Layer { edges, ends },
            keys,
        })
    }
}

impl Layer {
    /// Returns the number of edges.
    pub fn edges(&self) -> usize {
        self.edges.len()
    }

    /// Returns the number of states.
    pub fn states(&self) -> usize {
        self.ends.len()
    }

    /// Finds the least that is paid on the way to each state.
    pub fn run(&self, before: &[i64], costs: &[i64], scale: i64, after: &mut [i64]) {
        let mut begin = 0;
        for (end, place) in self.ends.iter().zip(after.iter_mut()) {
            let mut least = i64::MAX;
            for edge in self.edges.get(begin..*end).unwrap_or(&[]) {
                least = least.min(edge.paid(before, costs, scale));
            }
            *place = least;
            begin = *end;
        }
    }

    /// Returns the edges that lead to a state.
    fn edges_to(&self, state: usize) -> &[Edge] {
        let begin = match state.checked_sub(1) {
            Some(other) => self.ends.get(other).copied().unwrap_or(0),
            None => 0,
        };
        let end = self.ends.get(state).copied().unwrap_or(0);
        self.edges.get(begin..end).unwrap_or(&[])
    }

    /// Returns one of the edges on which the way to a state pays least.
    pub fn trace(
        &self,
        before: &[i64],
        costs: &[i64],
        scale: i64,
        state: usize,
        rng: &mut Pcg32,
    ) -> Option<Edge> {
        let mut found = None;
        let mut least = i64::MAX;
        let mut ties: u32 = 0;
        for edge in self.edges_to(state) {
            let paid = edge.paid(before, costs, scale);
            if paid < least {
                found = Some(*edge);
                least = paid;
                ties = 1;
            } else if paid == least {
                ties = ties.saturating_add(1);
                if below(rng, ties) == 0 {
                    found = Some(*edge);
                }
            }
        }
        found
    }
}
