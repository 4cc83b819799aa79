//! The working days that a course lacks.

ghost use Rattle.std.specs.Prelude.{◌≡◌, ◌<◌, ◌≤◌, ◌*◌, length};
ghost use Rattle.tt_leaf_rules.specs.Claims.{live_days, pinned_day, pinned_days, value_of};
ghost use Rattle.tt_leaf.specs.declared.leaf.Claim.TheVariants.{Days, Stacked};
ghost use Rattle.tt_instance.specs.declared.limit.TheConstants.{MAX_DAYS, MAX_MIN_DAYS};

use crate::pinned::pinned_periods;
use tt_bits::is_empty;
use tt_instance::{MAX_PERIODS, MISSING_DAY_COST};
use tt_path::{Path, Who};

#[tactic(auto, using(tt_list_laws::proofs::Numbers::count_more))]
fn live_days<'i, P: Path<'i>>(path: &P, course: u32) -> u32
    requires { course < length (P.problem path.now).courses }
    ensures value { result ≡ live_days (P.problem path.now) (P.facts path.now) course }
    ensures within { result ≤ MAX_DAYS }
{
    let mut total = 0;
    for day in 0..path.instance().days() {
        if path.live_day(course, day) {
            total += 1;
        }
    }
    total
}

/// Returns the value of a claim on the working days of a course, in cost points.
pub fn days_value<'i, P: Path<'i>>(path: &P, course: u32) -> u64
    requires { course < length (P.problem path.now).courses }
    ensures value { result ≡ value_of (P.problem path.now) (P.facts path.now) (Days course) }
    ensures within { result ≤ MISSING_DAY_COST * MAX_MIN_DAYS }
{
    let instance = path.instance();
    let most = instance.lectures(course).min(live_days(path, course));
    u64::from(MISSING_DAY_COST) * u64::from(instance.min_days(course).saturating_sub(most))
}

fn is_pinned_day<'i, P: Path<'i>>(path: &P, course: u32, day: u32) -> bool
    requires course { course < length (P.problem path.now).courses }
    requires day { day < (P.problem path.now).days }
    ensures { result ≡ pinned_day (P.problem path.now) (P.facts path.now) course day }
{
    // Brings the instance's limits into the proof.
    prove!(path.instance().periods() <= MAX_PERIODS);
    !is_empty(path.pinned_periods(Who::Course(course), day))
}

#[tactic(auto, using(tt_list_laws::proofs::Numbers::count_more))]
fn pinned_days<'i, P: Path<'i>>(path: &P, course: u32) -> u32
    requires { course < length (P.problem path.now).courses }
    ensures value { result ≡ pinned_days (P.problem path.now) (P.facts path.now) course }
    ensures within { result ≤ MAX_DAYS }
{
    let mut total = 0;
    for day in 0..path.instance().days() {
        if is_pinned_day(path, course, day) {
            total += 1;
        }
    }
    total
}

/// Returns the value of a claim on the days that the pinned periods of a course share, in cost points.
pub fn stacked_value<'i, P: Path<'i>>(path: &P, course: u32) -> u64
    requires { course < length (P.problem path.now).courses }
    ensures value { result ≡ value_of (P.problem path.now) (P.facts path.now) (Stacked course) }
    ensures within { result ≤ MISSING_DAY_COST * MAX_MIN_DAYS }
{
    let instance = path.instance();
    let free = instance
        .lectures(course)
        .saturating_sub(pinned_periods(path, Who::Course(course)));
    let most = live_days(path, course).min(pinned_days(path, course) + free);
    u64::from(MISSING_DAY_COST) * u64::from(instance.min_days(course).saturating_sub(most))
}
