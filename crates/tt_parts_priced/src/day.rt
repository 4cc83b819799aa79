//! The program of a day of a group.

use crate::layer::{Arrow, Edge, Key, Layer, Reached};
use crate::limits::Limits;
use crate::sets::Set;
use crate::shape::Shape;
use std::alloc::{AllocError, Global};
use tt_instance::{ISOLATED_COST, Instance, MISSING_DAY_COST};

/// The maximum number of words of the week that a day can have.
const WORDS: usize = 65_536;

/// The layers of the periods of a day and of its end, the words of the week that the day can have, and the number of sets that were tried
/// after some first periods.
#[derive(Debug, Drop)]
pub struct DayProgram {
    pub layers: Vec<Layer>,
    pub words: Vec<u64>,
    pub tries: u64,
}

/// Returns the courses that are available in each period of a day, a bit for each.
pub fn open_in(
    alloc: Global,
    instance: &Instance<'_>,
    shape: &Shape,
    day: u32,
) -> Result<Vec<u64>, AllocError> {
    let mut periods = Vec::new(alloc);
    for period in 0..instance.periods() {
        let mut word = 0;
        for (place, member) in shape.members.iter().enumerate() {
            if !instance.unavailable(member.course, day, period) {
                word |= 1 << (place % 64);
            }
        }
        periods.push(word)?;
    }
    Ok(periods)
}

/// Returns the points of a number of isolated lectures and of a number of further lectures.
fn points_of(isolated: u32, further: u64) -> u64 {
    let first = u64::from(isolated).saturating_mul(u64::from(ISOLATED_COST));
    first.saturating_add(further.saturating_mul(u64::from(MISSING_DAY_COST)))
}

/// Returns the arrow of a set in the period after a state, or `None` if a course would have too many lectures.
fn arrow_of(shape: &Shape, from: usize, key: &Key, label: usize, set: &Set) -> Option<Arrow> {
    let sum = shape.day.sum(key.packed, set.units)?;
    let isolated = (key.pending & !set.curricula).count_ones();
    Some(Arrow {
        key: Key {
            packed: sum.packed,
            occupied: set.curricula,
            pending: set.curricula & !key.occupied,
        },
        edge: Edge::new(from, label, points_of(isolated, sum.beyond)),
    })
}

/// Returns the number of sets of courses that are available.
fn count_open(sets: &[Set], open: u64) -> usize {
    sets.iter().filter(|set| set.courses & !open == 0).count()
}

/// Returns the arrows of a period in which some courses are available, or `None` if there are too many.
fn arrows_of(
    alloc: Global,
    shape: &Shape,
    keys: &[Key],
    open: u64,
    most: usize,
) -> Result<Option<Vec<Arrow>>, AllocError> {
    let mut arrows = Vec::new(alloc);
    for (label, set) in shape.sets.iter().enumerate() {
        if set.courses & !open != 0 {
            continue;
        }
        for (from, key) in keys.iter().enumerate() {
            if let Some(arrow) = arrow_of(shape, from, key, label, set) {
                arrows.push(arrow)?;
            }
        }
        if most < arrows.len() {
            return Ok(None);
        }
    }
    Ok(Some(arrows))
}

/// Returns the arrows of the end of a day.
fn ends_of(alloc: Global, shape: &Shape, keys: &[Key]) -> Result<Vec<Arrow>, AllocError> {
    let mut arrows = Vec::new(alloc);
    for (from, key) in keys.iter().enumerate() {
        let ended = shape.end(key.packed);
        let points = points_of(key.pending.count_ones(), 0).saturating_add(ended.points);
        arrows.push(Arrow {
            key: Key::of(ended.packed),
            edge: Edge::new(from, 0, points),
        })?;
    }
    Ok(arrows)
}

impl DayProgram {
    /// Returns the program of a day in whose periods these courses are available, or `None` if it is too large.
    pub fn new(
        alloc: Global,
        shape: &Shape,
        open: &[u64],
        limits: Limits,
    ) -> Result<Option<DayProgram>, AllocError> {
        let mut layers = Vec::new(alloc);
        let mut keys = vec![in alloc; Key::FIRST; 1]?;
        let (mut tries, mut edges): (u64, u64) = (0, 0);
        for courses in open {
            let able = count_open(&shape.sets, *courses) as u64;
            tries = tries.saturating_add(able.saturating_mul(keys.len() as u64));
            let Some(arrows) = arrows_of(alloc, shape, &keys, *courses, limits.edges)? else {
                return Ok(None);
            };
            edges = edges.saturating_add(arrows.len() as u64);
            if limits.steps < edges {
                return Ok(None);
            }
            let reached = Reached::new(alloc, arrows)?;
            layers.push(reached.layer)?;
            keys = reached.keys;
        }
        let arrows = ends_of(alloc, shape, &keys)?;
        let reached = Reached::new(alloc, arrows)?;
        layers.push(reached.layer)?;
        let mut words = Vec::new(alloc);
        for key in &reached.keys {
            words.push(key.packed)?;
        }
        if WORDS < words.len() {
            return Ok(None);
        }
        Ok(Some(DayProgram {
            layers,
            words,
            tries,
        }))
    }

    /// Returns the number of edges.
    pub fn edges(&self) -> u64 {
        let mut edges: u64 = 0;
        for layer in &self.layers {
            edges = edges.saturating_add(layer.edges() as u64);
        }
        edges
    }
}
