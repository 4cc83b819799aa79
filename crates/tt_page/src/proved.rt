//! What a page says is proved.

ghost use Rattle.std.specs.Prelude.{◌≡◌};
ghost use Rattle.tt_page.specs.Proofs.{courses_of, kept_of};

use tt_leaf::{Bound, CourseList};

/// What is proved about all feasible timetables of an instance, or about those of them that keep wishes.
#[derive(Debug, Drop)]
pub enum Proved {
    Unproved,
    /// None of them costs less, in cost points.
    AtLeast(u64),
    /// There is none.
    Infeasible,
    /// There is none: any two of these courses conflict, and they have more lectures than open periods.
    Clique(CourseList),
    /// There is none: these courses have more lectures than there are rooms in all their open periods.
    Slots(CourseList),
    /// None of those that keep the wishes costs less, in cost points.
    KeptAtLeast(u64),
    /// None of them keeps the wishes.
    NoneKept,
}

impl Proved {
    /// Returns what a bound of the timetables that keep wishes says.
    pub fn kept(bound: Bound) -> Proved
        ensures { result ≡ kept_of bound }
    {
        match bound {
            Bound::AtLeast(points) => Proved::KeptAtLeast(points),
            Bound::Nothing => Proved::NoneKept,
        }
    }

    /// Returns the courses for which every timetable breaks a hard rule, if a proof names them.
    pub fn courses(&self) -> &[u32]
        ensures { result.now ≡ courses_of self.now }
    {
        match self {
            Proved::Clique(courses) | Proved::Slots(courses) => courses.as_slice(),
            _ => &[],
        }
    }
}
