//! The facts as a list, and the list of those that have no place in the table.

ghost use Rattle.std.specs.Prelude.{◌≡◌, ◌<◌, [], ◌∷◌, ◌++◌, length, OnOk, OnErr};
ghost use Rattle.tt_path.specs.Facts.{has_fact};
ghost use Rattle.tt_path_pins.specs.Inner.FactTable.{unplaced_of};

use crate::bit_places::has_bit_place;
use std::alloc::AllocError;
use tt_instance::Instance;
use tt_path::{Fact, Pattern};

/// Adds a fact to the lists it belongs in. Not inlined, since inlining copies the fact field by field.
#[inline(never)]
pub fn list_fact(
    instance: &Instance<'_>,
    facts: &mut Vec<Fact>,
    unplaced: &mut Vec<Fact>,
    fact: Fact,
) -> Result<(), AllocError>
    requires { unplaced.old.items ≡ unplaced_of instance.now facts.old.items }
    ensures ok { OnOk result (facts.new.items ≡ facts.old.items ++ fact ∷ []) }
    ensures err { OnErr result (facts.new.items ≡ facts.old.items) }
    ensures unplaced { unplaced.new.items ≡ unplaced_of instance.now facts.new.items }
{
    facts.push(fact)?;
    if has_bit_place(instance, &fact) {
        return Ok(());
    }
    if let Err(fault) = unplaced.push(fact) {
        let _ = facts.pop();
        return Err(fault.into());
    }
    Ok(())
}

/// Removes the newest fact from the lists and returns it.
#[inline(always)]
pub fn unlist_fact(instance: &Instance<'_>, facts: &mut Vec<Fact>, unplaced: &mut Vec<Fact>) -> Fact
    requires positive { 0 < length facts.old.items }
    requires unplaced { unplaced.old.items ≡ unplaced_of instance.now facts.old.items }
    ensures fact { facts.old.items ≡ facts.new.items ++ result ∷ [] }
    ensures unplaced { unplaced.new.items ≡ unplaced_of instance.now facts.new.items }
{
    let fact = facts.take_last();
    if !has_bit_place(instance, &fact) {
        let _ = unplaced.pop();
    }
    fact
}

/// Returns whether a fact that has no place in the table is one of these facts.
pub fn is_listed(unplaced: &[Fact], pattern: &Pattern, holds: bool) -> bool
    ensures { result ≡ has_fact unplaced.now pattern.now holds }
{
    unplaced
        .iter()
        .any(|fact| fact.holds == holds && fact.pattern == *pattern)
}
