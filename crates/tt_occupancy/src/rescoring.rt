//! A score that is updated by weights.

ghost use Rattle.std.specs.Prelude.{◌≡◌, ℕ, List, ◌∷◌};
ghost use Rattle.tt_instance.specs.Problem.{Problem};
ghost use Rattle.tt_instance.specs.declared.cell.Cell.{Cell};
ghost use Rattle.tt_rules.specs.Score.{IsScore};
ghost use Rattle.tt_occupancy.specs.Inner.Weights.{IsExchange, IsExchanged};

use crate::weight::Weight;
use tt_instance::ISOLATED_COST;
use tt_rules::Score;

/// Returns a count minus one weight plus another.
fn exchanged(total: u64, from: u32, to: u32) -> u64
    requires { (n : ℕ) × IsExchanged n total from to }
    ensures { (n : ℕ) → IsExchanged n total from to → result ≡ n }
{
    total + u64::from(to) - u64::from(from)
}

/// Returns the score after an entry is replaced by another of its course, from the weights of both
/// next to the other entries.
pub fn rescored(score: Score, from: Weight, to: Weight) -> Score
    requires { (p : Problem) × (u : List Cell) × (x : Cell) × (y : Cell)
        × IsExchange p u x y score from to }
    ensures { (p : Problem) (u : List Cell) (x y : Cell) → IsExchange p u x y score from to
        → IsScore p (y ∷ u) result }
{
    let lectures = exchanged(score.lectures, from.repeats, to.repeats);
    let conflicts = exchanged(score.conflicts, from.against, to.against);
    let availability = exchanged(score.availability, from.barred, to.barred);
    let room_occupancy = exchanged(score.room_occupancy, from.shares, to.shares);
    let room_capacity = exchanged(score.room_capacity, from.excess, to.excess);
    let min_working_days = exchanged(score.min_working_days, from.days, to.days);
    let compactness = exchanged(
        score.compactness,
        ISOLATED_COST * (from.alone + to.joined),
        ISOLATED_COST * (to.alone + from.joined),
    );
    let room_stability = exchanged(score.room_stability, from.rooms, to.rooms);
    Score {
        lectures,
        conflicts,
        availability,
        room_occupancy,
        room_capacity,
        min_working_days,
        compactness,
        room_stability,
    }
}
