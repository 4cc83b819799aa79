//! What a group of a file pays at least.

ghost use Rattle.std.specs.Prelude.{◌≡◌, ◌+◌, ◌<◌, ◌≤◌, ◌^◌, true, false, Some, None, IfOk, OnOk};
ghost use Rattle.tt_text.specs.Stops.{IfFault, is_read_failed};
ghost use Rattle.tt_groups.specs.Limits.{IsWithin};
ghost use Rattle.tt_groups.specs.Rows.{group_of};
ghost use Rattle.tt_groups.specs.declared.price.TheConstants.{MAX_SCALE};
ghost use Rattle.tt_prices_check.specs.Groups.{IsGroupOf, IsLeast, IsWithinLimits};
ghost use Rattle.tt_prices_file.specs.Inner.Groups.{stop_from_group, IsGroupFault};

use crate::fault::PricesFault;
use std::alloc::Global;
use tt_groups::PricedGroup;
use tt_instance::Instance;
use tt_prices_check::{PricedFault, PricedWork, least_of_group};
use tt_text::Stop;

/// Each group counts as at least so many steps, also if it has no day to try, so that a file of many small groups ends soon.
const GROUP_STEPS: u64 = 4_096;

/// Returns why a file is stopped by a group.
fn stop_from_group(number: u32, stop: Stop<PricedFault>) -> Stop<PricesFault>
    ensures { result ≡ stop_from_group number stop }
{
    match stop {
        Stop::Fault(fault) => Stop::Fault(PricesFault::Group(number, fault)),
        Stop::ReadFailed => Stop::ReadFailed,
        Stop::OutOfMemory => Stop::OutOfMemory,
    }
}

/// Subtracts the steps that each group takes, and returns whether they were left.
fn pay_group(work: &mut PricedWork) -> bool
    ensures paid { result ≡ true → work.new.steps + GROUP_STEPS ≡ work.old.steps }
    ensures too_few { result ≡ false → work.old.steps < GROUP_STEPS }
    ensures fewer { work.new.steps ≤ work.old.steps }
    ensures relaxations { work.new.relaxations ≡ work.old.relaxations }
{
    match work.steps.checked_sub(GROUP_STEPS) {
        Some(left) => {
            work.steps = left;
            true
        }
        None => false,
    }
}

/// Returns the least that a group of a file, the one with this number, pays in a relaxed timetable.
pub fn find_least(
    alloc: Global,
    instance: &Instance<'_>,
    group: &PricedGroup,
    scale: u32,
    number: u32,
    work: &mut PricedWork,
) -> Result<i64, Stop<PricesFault>>
    requires group { IsGroupOf instance.now (group_of group.now) }
    requires scale { scale ≤ MAX_SCALE }
    ensures least { IfOk result (λ least. IsLeast instance.now scale (group_of group.now) (Some least)) }
    ensures small { IfOk result (IsWithin (2 ^ 58)) }
    ensures within { OnOk result (IsWithinLimits instance.now (group_of group.now)) }
    ensures fault { IfFault result (IsGroupFault instance.now scale (group_of group.now) number) }
    ensures unread { is_read_failed result ≡ false }
    // The work that is left never rises.
    ensures steps { work.new.steps ≤ work.old.steps }
    ensures relaxations { work.new.relaxations ≤ work.old.relaxations }
{
    match least_of_group(alloc, instance, group, scale, work) {
        Ok(Some(least)) => {
            if pay_group(work) {
                Ok(least)
            } else {
                Err(Stop::Fault(PricesFault::Group(number, PricedFault::TooMuchWork)))
            }
        }
        Ok(None) => Err(Stop::Fault(PricesFault::NoTimetable(number))),
        Err(stop) => Err(stop_from_group(number, stop)),
    }
}
