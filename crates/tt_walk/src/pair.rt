//! The pair of a timetable.

ghost use Rattle.tt_walk.specs.Inner.Pairs.{IsPairOf};

use tt_occupancy::Occupied;
use tt_watch::Pair;

/// Returns the hard count and the cost of a timetable.
pub fn pair_of(occupied: &Occupied<'_, '_>) -> Pair
    ensures { IsPairOf occupied.now.problem occupied.now.entries result }
{
    let score = occupied.score();
    Pair {
        hard: score.hard(),
        cost: score.cost(),
    }
}
