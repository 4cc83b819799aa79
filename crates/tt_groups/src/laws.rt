//! The meaning of bounds of groups.

ghost use Rattle.std.specs.Prelude.{◌≡◌, ℕ, ◌+◌, ◌<◌, ◌≤◌, List, length, true};
ghost use Rattle.tt_instance.specs.Courses.{lectures, min_days};
ghost use Rattle.tt_instance.specs.Problem.{Problem};
ghost use Rattle.tt_instance.specs.declared.cell.Cell.{Cell};
ghost use Rattle.tt_rules.specs.Score.{IsFeasible};
ghost use Rattle.tt_groups.specs.Group.{Group, group_cost, concerns, IsRelaxedTimetable, IsGroupBound};
ghost use Rattle.tt_groups.specs.Plans.{Week, week_of, IsPlan, base_cost, spent};
ghost use Rattle.tt_groups.specs.Tables.{Vector, IsDayTable, Extends, Starts, Reaches};

/// A feasible timetable is a relaxed timetable of each group, so the group costs at least its bound in it.
pub fn feasible_timetables_are_relaxed()
    ensures relaxed { (p : Problem) (g : Group) (t : List Cell) → IsFeasible p t → IsRelaxedTimetable p g t }
    ensures bound { (p : Problem) (g : Group) (b : ℕ) → IsGroupBound p g b → (t : List Cell) → IsFeasible p t → b ≤ group_cost p g t }
{}

/// The week of a relaxed timetable is a plan, and the group's cost in the timetable is exactly the cost of the plan.
pub fn relaxed_timetables_are_plans()
    ensures plan { (p : Problem) (g : Group) (t : List Cell) → IsRelaxedTimetable p g t → IsPlan p g (week_of t) }
    ensures paid { (p : Problem) (g : Group) (t : List Cell) → IsRelaxedTimetable p g t → base_cost p g + spent p g (week_of t) p.days ≡ group_cost p g t }
{}

/// A plan is the week of some relaxed timetable, and the group's cost in that timetable is exactly the cost of the plan. The courses that
/// the group concerns are the instance's.
pub fn plans_are_relaxed_timetables()
    ensures { (p : Problem) (g : Group) (week : Week) → IsPlan p g week → ((c : ℕ) → concerns p g c ≡ true → c < length p.courses) →
        (t : List Cell) × IsRelaxedTimetable p g t × (group_cost p g t ≡ base_cost p g + spent p g week p.days) }
{}

/// Tables of all days that are never above the truth bound the group's cost in each relaxed timetable.
pub fn tables_bound()
    ensures { (p : Problem) (g : Group) (b : ℕ) (days : ℕ → Vector → ℕ) (weeks : ℕ → Vector → Vector → ℕ) →
        Starts (weeks 0) →
        ((d : ℕ) → d < p.days → IsDayTable p g b d (days d)) →
        ((d : ℕ) → d < p.days → Extends p g b (days d) (weeks d) (weeks (d + 1))) →
        Reaches p g b (weeks p.days) → IsGroupBound p g (base_cost p g + b) }
{}
