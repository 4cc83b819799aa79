//! The meaning of a path on which no cell is free.

ghost use Rattle.std.specs.Prelude.{List};
ghost use Rattle.tt_instance.specs.Problem.{Problem};
ghost use Rattle.tt_instance.specs.Limits.{IsInstance};
ghost use Rattle.tt_path.specs.declared.facts.Fact.{Fact};
ghost use Rattle.tt_leaf_find.specs.Pinned.{IsPinnedDown};
ghost use Rattle.tt_branch.specs.Alone.{LeavesOne};
ghost use Rattle.tt_branch.specs.Proofs.{IsUnclosed};

/// If the path has each live cell's own pattern as a yes-fact, and no Empty leaf of a yes-fact, no Many leaf and no Clique of one course is right on it,
/// then it leaves a single feasible timetable. Its entries are the live cells, in some order, and its cost is the value of the best claims.
pub fn pinned_paths_leave_one_timetable()
    ensures { (p : Problem) (path : List Fact) → IsInstance p → IsPinnedDown p path → IsUnclosed p path → LeavesOne p path }
{}
