//! The counts of a solution as an object.

ghost use Rattle.std.specs.Prelude.{◌≡◌, IfOk};
ghost use Rattle.serde_json.specs.View.{view};
ghost use Rattle.tt_call_texts.specs.Counts.{counts_object, counts_with, wishes_data};

use serde_json::{Value, json};
use std::alloc::{AllocError, Global};
use tt_rules::Score;

/// Returns a number of broken wishes, or `null` if there is none.
fn wishes_value(broken: Option<u64>) -> Value
    ensures { view result ≡ wishes_data broken }
{
    match broken {
        Some(broken) => Value::from(broken),
        None => Value::Null,
    }
}

/// Returns the object of a score and of a value for the wishes.
fn object_of(alloc: Global, score: &Score, wishes: &Value) -> Result<Value, AllocError>
    ensures { IfOk result (λ v. view v ≡ counts_with score.now (view wishes.now)) }
{
    json!(in alloc; {
        "lectures": score.lectures,
        "conflicts": score.conflicts,
        "availability": score.availability,
        "room_occupancy": score.room_occupancy,
        "room_capacity": score.room_capacity,
        "min_working_days": score.min_working_days,
        "compactness": score.compactness,
        "room_stability": score.room_stability,
        "hard": score.hard(),
        "cost": score.cost(),
        "wishes": wishes
    })
}

/// Returns the object of a score and of a number of broken wishes.
pub fn counts_value(alloc: Global, score: &Score, broken: Option<u64>) -> Result<Value, AllocError>
    ensures { IfOk result (λ v. view v ≡ counts_object score.now broken) }
{
    let wishes = wishes_value(broken);
    object_of(alloc, score, &wishes)
}
