//! The meaning of a file of groups with prices.

ghost use Rattle.std.specs.Prelude.{◌≡◌, ℕ, ◌+◌, ◌≤◌, List, ℤ, sum_by, if◌then◌else◌};
ghost use Rattle.tt_instance.specs.Problem.{Problem};
ghost use Rattle.tt_instance.specs.declared.cell.Cell.{Cell};
ghost use Rattle.tt_prices_text.specs.Reading.{Part};
ghost use Rattle.tt_prices_text.specs.declared.header.Header.{Header};
ghost use Rattle.tt_prices_file.specs.Files.{HasTotal, IsRight, curricula_in, courses_in};
ghost use Rattle.tt_rules.specs.Score.{IsFeasible};
ghost use Rattle.tt_rules.specs.Soft.{capacity_count, compactness_cost, days_cost, stability_count};

/// The bound of a file that is right is at most what any feasible timetable pays for the curricula and the courses of its groups, and for all
/// rooms if the file claims them.
pub fn files_hold()
    ensures { (p : Problem) (h : Header) (parts : List Part) → IsRight p h parts → (t : List Cell) → IsFeasible p t →
        h.bound ≤ (sum_by (compactness_cost p t) (curricula_in parts) + sum_by (days_cost p t) (courses_in parts))
        + (if h.has_rooms then capacity_count p t + stability_count p t else 0) }
{}

/// A file has at most one total.
pub fn files_have_one_total()
    ensures { (p : Problem) (h : Header) (parts : List Part) (m n : ℤ) → HasTotal p h parts m → HasTotal p h parts n → m ≡ n }
{}
