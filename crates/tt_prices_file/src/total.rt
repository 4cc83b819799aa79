//! The total of a file, compared with its bound.

ghost use Rattle.std.specs.Prelude.{◌≡◌, ◌↔◌, ◌<◌, ◌^◌, List, false, length, IfOk, IsTrue};
ghost use Rattle.tt_text.specs.Stops.{IfFault, is_read_failed};
ghost use Rattle.tt_groups.specs.Limits.{IsWithin};
ghost use Rattle.tt_prices_text.specs.Readers.{IsHeader};
ghost use Rattle.tt_prices_text.specs.Reading.{Part};
ghost use Rattle.tt_prices_text.specs.declared.header.Header.{Header};
ghost use Rattle.tt_prices_file.specs.Claims.{Claims};
ghost use Rattle.tt_prices_file.specs.Files.{HasTotal, IsRight, Reaches};
ghost use Rattle.tt_prices_file.specs.Inner.Accounts.{IsAccountOf, ExplainsEnd};
ghost use Rattle.tt_prices_file.specs.Inner.Terms.{IsTermFault};

use crate::account::Account;
use crate::claim::PricesClaim;
use crate::fault::PricesFault;
use crate::terms::sum_of_terms;
use std::alloc::Global;
use tt_instance::Instance;
use tt_prices_text::Header;
use tt_text::Stop;

/// Returns whether a total reaches a bound: whether the bound is at most the total, divided by the scale and rounded up.
fn reaches(header: Header, total: i128) -> bool
    requires header { IsHeader header }
    requires total { IsWithin (2 ^ 100) total }
    ensures { IsTrue result ↔ Reaches header total }
{
    let scale = i128::from(header.scale);
    scale * i128::from(header.bound) < total + scale
}

/// Returns the total of a file: what its groups pay at least and the terms of all courses, less the rents.
fn total_of(
    alloc: Global,
    instance: &Instance<'_>,
    account: &Account,
) -> Result<i128, Stop<PricesFault>>
    requires account { (h : Header) × (xs : List Part) × IsAccountOf instance.now h xs account.now × IsHeader h × (length xs < 2 ^ 32) }
    ensures total { IfOk result (λ total. (h : Header) (xs : List Part) → IsAccountOf instance.now h xs account.now → HasTotal instance.now h xs total) }
    ensures small { IfOk result (IsWithin (2 ^ 100)) }
    ensures fault { IfFault result (IsTermFault instance.now) }
    ensures unread { is_read_failed result ≡ false }
{
    // Brings the instance's limits into the proof.
    prove!(instance.days() > 0);
    let terms = sum_of_terms(alloc, instance, &account.prices, &account.rents)?;
    Ok(account.total + terms - i128::from(account.rents.total()))
}

/// Returns what a file claims that has been read to its end, if its total reaches its bound.
pub fn finish(
    alloc: Global,
    instance: &Instance<'_>,
    header: Header,
    account: Account,
) -> Result<PricesClaim, Stop<PricesFault>>
    requires header { IsHeader header }
    requires account { (xs : List Part) × IsAccountOf instance.now header xs account × (length xs < 2 ^ 32) }
    ensures right { IfOk result (λ k. (xs : List Part) → IsAccountOf instance.now header xs account → IsRight instance.now header xs × Claims header xs k) }
    ensures fault { IfFault result (λ f. (xs : List Part) → IsAccountOf instance.now header xs account → ExplainsEnd instance.now header xs f) }
    ensures unread { is_read_failed result ≡ false }
{
    let total = total_of(alloc, instance, &account)?;
    if !reaches(header, total) {
        return Err(Stop::Fault(PricesFault::TooCheap));
    }
    Ok(PricesClaim {
        bound: header.bound,
        has_rooms: header.has_rooms,
        curricula: account.targets.curricula,
        courses: account.targets.courses,
    })
}
