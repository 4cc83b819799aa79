//! Adding a fact to the table of facts.

ghost use Rattle.std.specs.Prelude.{◌≡◌, length, OnOk};
ghost use Rattle.tt_path_pins.specs.Inner.FactTable.{fact_table_size, AddsFact};

use crate::bit_places::find_bit_place;
use crate::sets::put;
use std::alloc::AllocError;
use tt_bits::Trail;
use tt_instance::Instance;
use tt_path::Fact;

/// Writes a fact into the table, if the table has a place for it.
pub fn add_fact(
    instance: &Instance<'_>,
    fact_table: &mut Trail,
    fact: &Fact,
) -> Result<(), AllocError>
    requires size { length fact_table.old.words ≡ fact_table_size instance.now }
    ensures ok { OnOk result (AddsFact instance.now fact.now fact_table.old.words fact_table.new.words) }
    ensures unchanged { fact_table.new.earlier ≡ fact_table.old.earlier }
{
    let periods = instance.periods();
    prove!(periods <= 64);
    let Some(found) = find_bit_place(instance, &fact.pattern, fact.holds) else {
        return Ok(());
    };
    put(fact_table, found.place, found.number)?;
    Ok(())
}
