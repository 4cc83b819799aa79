//! The eight counts of a score, as a page names them.

ghost use Rattle.std.specs.Prelude.{◌≡◌};
ghost use Rattle.tt_rules.specs.Score.{IsScore};
ghost use Rattle.tt_page_lists.specs.Rules.{rule_count, is_hard, rule_word, rule_title, rule_meaning};

use tt_page_text::Plan;
use tt_rules::Score;

/// A count of a score.
#[derive(Clone, Copy, Debug, PartialEq, Eq)]
pub enum Rule {
    Lectures,
    Conflicts,
    Availability,
    RoomOccupancy,
    RoomCapacity,
    WorkingDays,
    Compactness,
    RoomStability,
}

impl Rule {
    /// Returns the count of a timetable's score.
    pub fn count(self, plan: &Plan<'_, '_>, score: &Score) -> u64
        requires { IsScore plan.now.problem plan.now.table score.now }
        ensures { result ≡ rule_count plan.now.problem plan.now.table self }
    {
        match self {
            Rule::Lectures => score.lectures,
            Rule::Conflicts => score.conflicts,
            Rule::Availability => score.availability,
            Rule::RoomOccupancy => score.room_occupancy,
            Rule::RoomCapacity => score.room_capacity,
            Rule::WorkingDays => score.min_working_days,
            Rule::Compactness => score.compactness,
            Rule::RoomStability => score.room_stability,
        }
    }

    /// Checks whether the count is 0 for every feasible timetable.
    pub fn is_hard(self) -> bool
        ensures { result ≡ is_hard self }
    {
        matches!(
            self,
            Rule::Lectures | Rule::Conflicts | Rule::Availability | Rule::RoomOccupancy
        )
    }

    /// Returns the word in links.
    pub fn word(self) -> &'static str
        ensures { result.now ≡ rule_word self }
    {
        match self {
            Rule::Lectures => "lectures",
            Rule::Conflicts => "conflicts",
            Rule::Availability => "availability",
            Rule::RoomOccupancy => "occupancy",
            Rule::RoomCapacity => "capacity",
            Rule::WorkingDays => "days",
            Rule::Compactness => "compactness",
            Rule::RoomStability => "stability",
        }
    }

    /// Returns the heading of the list of the rule's violations.
    pub fn title(self) -> &'static str
        ensures { result.now ≡ rule_title self }
    {
        match self {
            Rule::Lectures => "Lectures",
            Rule::Conflicts => "Conflicts",
            Rule::Availability => "Availability",
            Rule::RoomOccupancy => "Room occupancy",
            Rule::RoomCapacity => "Room capacity",
            Rule::WorkingDays => "Working days",
            Rule::Compactness => "Compactness",
            Rule::RoomStability => "Room stability",
        }
    }

    /// Returns a description of the count, in words.
    pub fn meaning(self) -> &'static str
        ensures { result.now ≡ rule_meaning self }
    {
        match self {
            Rule::Lectures => "missing, surplus, or two of a course in one period",
            Rule::Conflicts => "pairs of one teacher or curriculum in one period",
            Rule::Availability => "in a period unavailable for the course",
            Rule::RoomOccupancy => "beside another lecture in a room and period",
            Rule::RoomCapacity => "students without a seat",
            Rule::WorkingDays => "5 for each day below a course's minimum",
            Rule::Compactness => "2 for each isolated lecture of a curriculum",
            Rule::RoomStability => "rooms of a course beside its first",
        }
    }
}
