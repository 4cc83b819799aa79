//! What the first fault of a solution says about other solutions.

ghost use Rattle.std.specs.Prelude.{◌≡◌, ℕ, List, Any, Some, Err};
ghost use Rattle.tt_text.specs.Tokens.{tokens_of};
ghost use Rattle.tt_instance.specs.Beginnings.{BeginsAs};
ghost use Rattle.tt_instance.specs.Limits.{IsInstance};
ghost use Rattle.tt_instance.specs.Problem.{Problem};
ghost use Rattle.tt_instance.specs.declared.cell.Cell.{Cell};
ghost use Rattle.tt_table.specs.Beginnings.{token_offset};
ghost use Rattle.tt_table.specs.Reading.{solution_of};
ghost use Rattle.tt_table.specs.Spelling.{SpellsTable};
ghost use Rattle.tt_table.specs.declared.fault.SolutionFault.{SolutionFault};

/// If reading a solution of an instance fails at a token, the bytes have a token at that offset, and no bytes whose tokens have the same texts up
/// to and including that one spell a solution of this instance, whichever tokens follow.
pub fn faulty_beginnings_spell_none()
    ensures token { (p : Problem) (bytes : List ℕ) (e : SolutionFault) (at : ℕ) →
        solution_of p bytes ≡ Err e → token_offset e ≡ Some at → Any (λ t. t.at ≡ at) (tokens_of bytes) }
    ensures none { (p : Problem) → IsInstance p → (bytes other : List ℕ) (e : SolutionFault) (at : ℕ) →
        solution_of p bytes ≡ Err e → token_offset e ≡ Some at → BeginsAs at bytes other → (t : List Cell) → ¬ SpellsTable p other t }
{}
