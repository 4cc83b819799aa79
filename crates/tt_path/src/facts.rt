//! Facts about a timetable.

ghost use Rattle.std.specs.Prelude.{◌≡◌};
ghost use Rattle.tt_path.specs.Facts.{agrees, is_who, matches};
ghost use Rattle.tt_path.specs.Live.{gives, is_pinned_by};
ghost use Rattle.tt_path.specs.Inner.Nested.{has_place_of};

use tt_instance::{Cell, Instance};

/// The course or the curriculum whose cells a pattern matches.
#[derive(Clone, Copy, Debug, PartialEq, Eq)]
pub enum Who {
    Course(u32),
    Curriculum(u32),
}

impl Who {
    /// Returns whether a course is the one that is meant, or a member of the curriculum that is meant.
    pub fn has_course(self, instance: &Instance<'_>, course: u32) -> bool
        ensures { result ≡ is_who instance.now self course }
    {
        match self {
            Who::Course(meant) => course == meant,
            Who::Curriculum(curriculum) => instance.in_curriculum(curriculum, course),
        }
    }

    /// Returns whether a fact about the other is about this one: a fact about a member is also about its curriculum.
    pub fn is_pinned_by(self, instance: &Instance<'_>, other: Who) -> bool
        ensures { result ≡ is_pinned_by instance.now self other }
    {
        match (self, other) {
            (Who::Course(meant), Who::Course(named)) => named == meant,
            (Who::Course(_), Who::Curriculum(_)) => false,
            (Who::Curriculum(meant), Who::Course(named)) => instance.in_curriculum(meant, named),
            (Who::Curriculum(meant), Who::Curriculum(named)) => named == meant,
        }
    }
}

/// A set of cells: those of a course or of a curriculum's members that agree with the numbers given.
#[derive(Clone, Copy, Debug, PartialEq, Eq)]
pub struct Pattern {
    pub who: Who,
    pub room: Option<u32>,
    pub day: Option<u32>,
    pub period: Option<u32>,
}

/// Returns whether a number agrees with the one given; if none is given, each number agrees.
pub fn is_none_or_equal(given: Option<u32>, number: u32) -> bool
    ensures { result ≡ agrees given number }
{
    given.is_none_or(|wanted| wanted == number)
}

/// Returns whether this number is given.
pub fn is_given(given: Option<u32>, number: u32) -> bool
    ensures { result ≡ gives given number }
{
    given == Some(number)
}

impl Pattern {
    /// Returns whether the room, the day and the period of a cell are the pattern's, if it gives them.
    pub fn has_place_of(&self, cell: Cell) -> bool
        ensures { result ≡ has_place_of self.now cell }
    {
        is_none_or_equal(self.room, cell.room)
            && is_none_or_equal(self.day, cell.day)
            && is_none_or_equal(self.period, cell.period)
    }

    /// Returns whether the pattern matches a cell.
    pub fn is_match(&self, instance: &Instance<'_>, cell: Cell) -> bool
        ensures { result ≡ matches instance.now self.now cell }
    {
        self.who.has_course(instance, cell.course) && self.has_place_of(cell)
    }
}

/// Says that some entry of the timetable matches the pattern (if it holds), or that none does.
#[derive(Clone, Copy, Debug, PartialEq, Eq)]
pub struct Fact {
    pub pattern: Pattern,
    pub holds: bool,
}
