//! The meaning of the leaf rules.

ghost use Rattle.std.specs.Prelude.{List};
ghost use Rattle.tt_instance.specs.Problem.{Problem};
ghost use Rattle.tt_instance.specs.declared.cell.Cell.{Cell};
ghost use Rattle.tt_rules.specs.Score.{IsFeasible, cost};
ghost use Rattle.tt_path.specs.Facts.{Fits};
ghost use Rattle.tt_path.specs.declared.facts.Fact.{Fact};
ghost use Rattle.tt_leaf_rules.specs.Bounds.{Respects};
ghost use Rattle.tt_leaf_rules.specs.Leaves.{IsRight};
ghost use Rattle.tt_leaf.specs.declared.leaf.Bound.{Bound};
ghost use Rattle.tt_leaf.specs.declared.leaf.Leaf.{Leaf};

/// If a leaf is right, every feasible timetable that fits its path costs at least the bound, or no such timetable exists.
pub fn right_leaves_hold()
    ensures { (p : Problem) (path : List Fact) (b : Bound) (leaf : Leaf) → IsRight p path b leaf →
        (t : List Cell) → IsFeasible p t → Fits p t path → Respects b (cost p t) }
{}
