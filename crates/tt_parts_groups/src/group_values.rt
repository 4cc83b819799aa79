//! The values of groups, with a memory.

use crate::draft::Draft;
use crate::guide::Guide;
use std::alloc::{AllocError, Global};
use std::collections::HashMap;
use tt_instance::Instance;
use tt_parts_least::{Aim, Allowance, Layout, Least, courses_of, least_cost};
use tt_watch::Watch;

/// The maximum amount of work for one group at once.
const GROUP_WORK: u64 = 2_147_483_648;

/// Computes the values of groups, within the work that is left.
pub struct GroupValues<'s, 'i, W: Watch> {
    pub alloc: Global,
    pub instance: &'s Instance<'i>,
    pub guide: Guide,
    /// The maximum number of states of a group.
    pub states: u32,
    pub work: Allowance<'s, W>,
    known: HashMap<u64, Option<Least>>,
}

impl<'s, 'i, W: Watch> Drop for GroupValues<'s, 'i, W> {
    fn drop(self) {
        let GroupValues {
            alloc: _,
            instance: _,
            guide: _,
            states: _,
            work: _,
            known: _,
        } = self;
    }
}

/// Returns a word for a number, spread over all its bits.
fn spread(number: u64) -> u64 {
    let word = number.wrapping_mul(0x9E37_79B9_7F4A_7C15);
    let word = (word ^ (word >> 30)).wrapping_mul(0xBF58_476D_1CE4_E5B9);
    let word = (word ^ (word >> 27)).wrapping_mul(0x94D0_49BB_1331_11EB);
    word ^ (word >> 31)
}

/// Returns a word for a group that is hardly shared by other groups.
fn word_of(curricula: &[u32], courses: &[u32]) -> u64 {
    let mut word: u64 = 0;
    for curriculum in curricula {
        word = word.wrapping_add(spread(u64::from(*curriculum).wrapping_mul(2).wrapping_add(1)));
    }
    for course in courses {
        word = word.wrapping_add(spread(u64::from(*course).wrapping_mul(2).wrapping_add(2)));
    }
    word
}

impl<'s, 'i, W: Watch> GroupValues<'s, 'i, W> {
    /// Returns group values, none of which is known.
    pub fn new(
        alloc: Global,
        instance: &'s Instance<'i>,
        guide: Guide,
        work: Allowance<'s, W>,
    ) -> GroupValues<'s, 'i, W> {
        GroupValues {
            alloc,
            instance,
            guide,
            states: 0,
            work,
            known: HashMap::new(alloc),
        }
    }

    /// Returns the number of states of a group's table, or `None` if it has too many.
    pub fn states_of(&self, curricula: &[u32], courses: &[u32]) -> Result<Option<u32>, AllocError> {
        let layout = Layout::new(self.alloc, self.instance, curricula, courses)?;
        Ok(
            layout
                .map(|layout| layout.states)
                .filter(|states| *states <= self.states),
        )
    }

    /// Returns the value of a group, which is known to be at most `most`. If the value is at most `enough`, the result may be higher than the
    /// value. Returns `None` if the value isn't found.
    pub fn worth(
        &mut self,
        curricula: &[u32],
        courses: &[u32],
        enough: u64,
        most: u64,
    ) -> Result<Option<u64>, AllocError> {
        let word = word_of(curricula, courses);
        if let Some(known) = self.known.get(&word) {
            match known {
                None => return Ok(None),
                Some(least) if least.is_exact || least.cost <= enough => return Ok(Some(
                    least.cost,
                )),
                Some(_) => {}
            }
        }
        let most = most.min(self.guide.most(curricula, courses));
        if most <= enough {
            return Ok(Some(most));
        }
        if self.work.is_ended() {
            return Ok(None);
        }
        self.work.begin_group(GROUP_WORK);
        let aim = Aim { enough, most };
        let least = least_cost(
            self.alloc,
            self.instance,
            curricula,
            courses,
            aim,
            &mut self.work,
        )?;
        self.known.insert(word, least)?;
        Ok(least.map(|least| least.cost))
    }

    /// Checks whether a group, whose value is known to be at most `value`, has this value.
    pub fn is_worth(
        &mut self,
        curricula: &[u32],
        courses: &[u32],
        value: u64,
    ) -> Result<bool, AllocError> {
        let worth = self.worth(curricula, courses, value.saturating_sub(1), value)?;
        Ok(worth.is_some_and(|worth| value <= worth))
    }

    /// Returns a draft of a group, or `None` if it has too many states, or is too much work. If the draft's value is at most `enough`, the group's
    /// value may be lower.
    pub fn draft(
        &mut self,
        curricula: &[u32],
        courses: Vec<u32>,
        enough: u64,
    ) -> Result<Option<Draft>, AllocError> {
        let Some(states) = self.states_of(curricula, &courses)? else {
            return Ok(None);
        };
        let Some(value) = self.worth(curricula, &courses, enough, u64::MAX)? else {
            return Ok(None);
        };
        Ok(Some(Draft {
            curricula: Vec::from_slice(self.alloc, curricula)?,
            concerned: courses_of(self.alloc, self.instance, curricula, &courses)?,
            courses,
            value,
            states,
            is_core: false,
        }))
    }
}
