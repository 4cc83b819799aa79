//! Definitions on lists, and the comparison of sums and counts over lists.
#![tactic(auto)]

ghost use Rattle.std.specs.Prelude.{◌≡◌, ◌≤◌, ℕ, List, sum_by};
ghost use Rattle.std.specs.List.{AllByRecursion};

/// If each term of a sum is at most its sum over all places, the sum is at most the sum over all places.
/// The one counting principle: every pigeonhole argument of the project is an instance.
pub fn sums_spread()
    ensures { (f : ℕ → ℕ) (w : ℕ → ℕ → ℕ) (xs places : List ℕ) →
        AllByRecursion (λ x. f x ≤ sum_by (λ y. w y x) places) xs → sum_by f xs ≤ sum_by (λ y. sum_by (w y) xs) places }
{}
