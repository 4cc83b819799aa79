//! The meaning of the least that a week pays.

ghost use Rattle.std.specs.Prelude.{◌≡◌, ℕ, ◌<◌, ℤ, true, length, Option};
ghost use Rattle.tt_instance.specs.Problem.{Problem};
ghost use Rattle.tt_groups.specs.Prices.{PricedGroup, concerns};
ghost use Rattle.tt_prices_check.specs.Week.{IsLeastPlan, IsLeastTimetable};

/// The least that a plan pays is the least that the group pays in a relaxed timetable. The courses that the group concerns are the instance's.
pub fn least_plans_are_least_timetables()
    ensures { (p : Problem) (scale : ℕ) (g : PricedGroup) (least : Option ℤ) → ((c : ℕ) → concerns p g c ≡ true → c < length p.courses) →
        IsLeastPlan p scale g least → IsLeastTimetable p scale g least }
{}
