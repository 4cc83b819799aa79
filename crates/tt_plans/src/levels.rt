//! The levels of a slot.

/// What a slot has left at each level.
#[derive(Clone, Copy)]
pub struct Levels<'p> {
    pub(crate) spare: &'p [u32],
    /// The lectures at each level that the slot had beyond its rooms when the plan was read.
    pub(crate) beyond: &'p [i32],
}

impl Levels<'_> {
    /// Returns how many more lectures fit at a level; a negative number if there are more than fit.
    pub fn left(&self, level: usize) -> i32 {
        let spare = self.spare.get(level).copied().unwrap_or(0);
        let beyond = self.beyond.get(level).copied().unwrap_or(0);
        i32::try_from(spare)
            .unwrap_or(i32::MAX)
            .wrapping_sub(beyond)
    }
}
