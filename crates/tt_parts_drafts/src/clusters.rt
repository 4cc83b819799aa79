//! Curricula joined where their courses have few sets together.

use crate::crowd::count_sets;
use crate::draft::Draft;
use std::alloc::{AllocError, Global};
use std::mem;
use tt_instance::Instance;
use tt_parts_least::{lectures_of, members_of};

/// The maximum number of courses of a cluster.
const COURSES: usize = 16;

/// The maximum number of curricula of a cluster.
const CURRICULA: usize = 64;

/// The number of units of a score in which the sets together are as many as the sets apart.
const EVEN: u64 = 64_000_000;

/// The score of clusters that aren't to be joined.
const NEVER: u64 = u64::MAX;

/// Some curricula, their courses that have lectures, and the number of sets of these in which no two conflict.
#[derive(Drop)]
struct Cluster {
    curricula: Vec<u32>,
    courses: Vec<u32>,
    sets: usize,
}

/// The clusters so far, and the score of each pair: the lower, the better. A cluster that is joined to another has no curricula.
#[derive(Drop)]
struct Clusters {
    alloc: Global,
    all: Vec<Cluster>,
    scores: Vec<u64>,
    most: usize,
}

/// Returns the courses of a curriculum that have lectures, in order.
fn taught_in(
    alloc: Global,
    instance: &Instance<'_>,
    curriculum: u32,
) -> Result<Vec<u32>, AllocError> {
    let mut courses = Vec::new(alloc);
    for course in members_of(instance, curriculum) {
        if lectures_of(instance, *course) > 0 {
            courses.push(*course)?;
        }
    }
    courses.sort_unstable();
    Ok(courses)
}

/// Returns all courses of two lists, in order.
fn joined(alloc: Global, first: &[u32], second: &[u32]) -> Result<Vec<u32>, AllocError> {
    let mut courses = Vec::from_slice(alloc, first)?;
    for course in second {
        if !courses.contains(course) {
            courses.push(*course)?;
        }
    }
    courses.sort_unstable();
    Ok(courses)
}

/// Returns a score of two clusters: the sets together for each set apart, then the courses that they share.
fn score_of(
    alloc: Global,
    instance: &Instance<'_>,
    first: &Cluster,
    second: &Cluster,
    most: usize,
) -> Result<u64, AllocError> {
    let courses = joined(alloc, &first.courses, &second.courses)?;
    let apart = first.courses.len().saturating_add(second.courses.len());
    let shared = apart.saturating_sub(courses.len()) as u64;
    let curricula = first.curricula.len().saturating_add(second.curricula.len());
    if shared == 0 || COURSES < courses.len() || CURRICULA < curricula {
        return Ok(NEVER);
    }
    let sets = count_sets(alloc, instance, &courses, most)?;
    if most < sets {
        return Ok(NEVER);
    }
    let before = (first.sets as u64).saturating_add(second.sets as u64);
    let ratio = (sets as u64)
        .saturating_mul(EVEN)
        .checked_div(before)
        .unwrap_or(NEVER);
    Ok(ratio.saturating_sub(shared))
}

impl Clusters {
    /// Returns a cluster of each curriculum, of those with the same courses one.
    fn new(alloc: Global, instance: &Instance<'_>, most: usize) -> Result<Clusters, AllocError> {
        let mut all: Vec<Cluster> = Vec::new(alloc);
        for curriculum in 0..instance.curricula() {
            let courses = taught_in(alloc, instance, curriculum)?;
            let same = all.iter_mut().find(|other| {
                other.courses.as_slice() == courses.as_slice() && other.curricula.len() < CURRICULA
            });
            if let Some(other) = same {
                other.curricula.push(curriculum)?;
                continue;
            }
            let sets = count_sets(alloc, instance, &courses, most)?;
            let mut curricula = Vec::new(alloc);
            curricula.push(curriculum)?;
            all.push(Cluster {
                curricula,
                courses,
                sets,
            })?;
        }
        let pairs = all.len().saturating_mul(all.len());
        Ok(Clusters {
            alloc,
            all,
            scores: vec![in alloc; NEVER; pairs]?,
            most,
        })
    }

    /// Finds the scores of a cluster and all others.
    fn score(&mut self, instance: &Instance<'_>, index: usize) -> Result<(), AllocError> {
        let count = self.all.len();
        let Some(one) = self.all.get(index) else {
            return Ok(());
        };
        for (number, other) in self.all.iter().enumerate() {
            let is_joined = one.curricula.is_empty() || other.curricula.is_empty();
            let score = if number == index || is_joined {
                NEVER
            } else {
                score_of(self.alloc, instance, one, other, self.most)?
            };
            let (low, high) = (index.min(number), index.max(number));
            let place = low.wrapping_mul(count).wrapping_add(high);
            if let Some(entry) = self.scores.get_mut(place) {
                *entry = score;
            }
        }
        Ok(())
    }

    /// Returns the pair with the lowest score, if two clusters may be joined.
    fn best(&self) -> Option<(usize, usize)> {
        let (mut found, mut least) = (0, NEVER);
        for (place, score) in self.scores.iter().enumerate() {
            if *score < least {
                (found, least) = (place, *score);
            }
        }
        if least == NEVER {
            return None;
        }
        let count = self.all.len();
        Some((found.checked_div(count)?, found.checked_rem(count)?))
    }

    /// Joins the second cluster to the first.
    fn join(
        &mut self,
        instance: &Instance<'_>,
        first: usize,
        second: usize,
    ) -> Result<(), AllocError> {
        let alloc = self.alloc;
        let Some(other) = self.all.get_mut(second) else {
            return Ok(());
        };
        let curricula = mem::replace(&mut other.curricula, Vec::new(alloc));
        let courses = mem::replace(&mut other.courses, Vec::new(alloc));
        if let Some(one) = self.all.get_mut(first) {
            one.curricula.extend_from_slice(&curricula)?;
            let all = joined(alloc, &one.courses, &courses)?;
            one.sets = count_sets(alloc, instance, &all, self.most)?;
            one.courses = all;
        }
        self.score(instance, second)?;
        self.score(instance, first)
    }
}

/// Returns the curricula in groups whose courses have at most so many sets, as far as two could be joined.
pub fn join_curricula(
    alloc: Global,
    instance: &Instance<'_>,
    most: usize,
) -> Result<Vec<Draft>, AllocError> {
    let mut clusters = Clusters::new(alloc, instance, most)?;
    let count = clusters.all.len();
    for index in 0..count {
        clusters.score(instance, index)?;
    }
    for _ in 0..count {
        let Some((first, second)) = clusters.best() else {
            break;
        };
        clusters.join(instance, first, second)?;
    }
    let mut drafts = Vec::new(alloc);
    for cluster in clusters.all {
        let Cluster {
            mut curricula,
            courses: _,
            sets: _,
        } = cluster;
        if !curricula.is_empty() {
            curricula.sort_unstable();
            drafts.push(Draft::of(alloc, curricula))?;
        }
    }
    Ok(drafts)
}
