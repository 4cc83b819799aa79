//! Which nodes the leaves that are tried close.

ghost use Rattle.std.specs.Prelude.{List};
ghost use Rattle.tt_instance.specs.Problem.{Problem};
ghost use Rattle.tt_instance.specs.Limits.{IsInstance};
ghost use Rattle.tt_instance.specs.declared.cell.Cell.{Cell};
ghost use Rattle.tt_rules.specs.Score.{IsFeasible, cost};
ghost use Rattle.tt_path.specs.Facts.{Fits};
ghost use Rattle.tt_path.specs.declared.facts.Fact.{Fact};
ghost use Rattle.tt_leaf_rules.specs.Bounds.{Respects};
ghost use Rattle.tt_leaf.specs.declared.leaf.Bound.{Bound};
ghost use Rattle.tt_leaf_find.specs.Pinned.{IsPinnedDown, IsOpen};

/// If the path has each live cell's own pattern as a yes-fact, one of the leaves that are tried is
/// right for each bound that the feasible timetables on the path respect: for each bound up to their
/// cost, and for every bound if no such timetable exists.
pub fn pinned_paths_close()
    ensures { (p : Problem) (path : List Fact) (b : Bound) → IsInstance p → IsPinnedDown p path →
        ((t : List Cell) → IsFeasible p t → Fits p t path → Respects b (cost p t)) → ¬ IsOpen p path b }
{}
