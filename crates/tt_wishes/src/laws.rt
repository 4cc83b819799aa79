//! The facts that wishes are.

ghost use Rattle.std.specs.Prelude.{◌≡◌, ◌↔◌, ℕ, true, List, All};
ghost use Rattle.tt_instance.specs.Problem.{Problem};
ghost use Rattle.tt_instance.specs.declared.cell.Cell.{Cell};
ghost use Rattle.tt_table.specs.Table.{IsTimetable};
ghost use Rattle.tt_path.specs.Facts.{Fits, IsPattern};
ghost use Rattle.tt_wishes.specs.Facts.{facts_of, facts_of_all, root_of};
ghost use Rattle.tt_wishes.specs.Spelling.{AreWishes};
ghost use Rattle.tt_wishes.specs.Wishes.{is_kept, broken_wishes};
ghost use Rattle.tt_wishes.specs.declared.wish.Wish.{Wish};

/// A timetable keeps a wish exactly if the facts of the wish hold for it; so it breaks none of some wishes exactly if it fits the path of all
/// their facts.
pub fn wishes_are_facts()
    ensures one { (p : Problem) (t : List Cell) → IsTimetable p t → (w : Wish) → (is_kept t w ≡ true) ↔ Fits p t (facts_of p w) }
    ensures all { (p : Problem) (t : List Cell) → IsTimetable p t → (ws : List Wish) →
        (broken_wishes t ws ≡ 0) ↔ Fits p t (facts_of_all p ws) }
{}

/// A timetable that breaks none of some wishes fits the root that they make. The numbers of the root's facts are in the range of the instance if those
/// of the wishes are.
pub fn kept_wishes_fit()
    ensures root { (p : Problem) (t : List Cell) (ws : List Wish) → broken_wishes t ws ≡ 0 → Fits p t (root_of p ws) }
    ensures patterns { (p : Problem) (ws : List Wish) → AreWishes p ws → All (λ f. IsPattern p f.pattern) (root_of p ws) }
{}
