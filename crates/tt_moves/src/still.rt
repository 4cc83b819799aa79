//! The conditions under which the moved entry makes no difference.

ghost use Rattle.std.specs.Prelude.{◌≡◌, ℕ, true, false, List};
ghost use Rattle.tt_instance.specs.Courses.{in_curriculum};
ghost use Rattle.tt_instance.specs.declared.cell.Cell.{Cell};
ghost use Rattle.tt_moves.specs.Inner.Rests.{IsRest, IsStill};

use crate::rest::WithoutEntry;

impl WithoutEntry<'_, '_, '_> {
    /// Checks whether the moved entry is of a course that shares no curriculum with the one left out.
    fn is_stranger(&self) -> bool
        ensures { result ≡ true → (q : ℕ)
            → in_curriculum self.now.occupied.now.problem q self.now.gone.course ≡ true
            → in_curriculum self.now.occupied.now.problem q self.now.from.course ≡ false }
    {
        let (own, other) = (self.gone.course, self.from.course);
        own != other && !self.occupied.instance().conflict(own, other)
    }

    /// Checks whether the moved entry makes no difference on a day, in any curriculum of the course left out.
    pub fn is_still(&self, day: u32) -> bool
        requires { (u : List Cell) × IsRest self.now u }
        ensures { result ≡ true → IsStill self.now day }
    {
        if self.from.day != day && self.to.day != day {
            return true;
        }
        if self.from.day == self.to.day && self.from.period == self.to.period {
            return true;
        }
        self.is_stranger()
    }
}
