//! What the first fault of a file says about other files.

ghost use Rattle.std.specs.Prelude.{◌≡◌, ℕ, List, Any, Some, Err};
ghost use Rattle.tt_text.specs.Tokens.{tokens_of};
ghost use Rattle.tt_instance.specs.Beginnings.{BeginsAs};
ghost use Rattle.tt_instance_read.specs.Beginnings.{token_offset};
ghost use Rattle.tt_instance.specs.Problem.{Problem};
ghost use Rattle.tt_instance_read.specs.Reading.{instance_of};
ghost use Rattle.tt_instance.specs.Spelling.{Spells};
ghost use Rattle.tt_instance_read.specs.declared.fault.InstanceFault.{InstanceFault};

/// If reading an instance fails at a token, the bytes have a token at that offset, and no bytes whose tokens have the same texts up to and
/// including that one spell an instance, whichever tokens follow.
pub fn faulty_beginnings_spell_none()
    ensures token { (bytes : List ℕ) (e : InstanceFault) (at : ℕ) → instance_of bytes ≡ Err e → token_offset e ≡ Some at →
        Any (λ t. t.at ≡ at) (tokens_of bytes) }
    ensures none { (bytes other : List ℕ) (e : InstanceFault) (at : ℕ) → instance_of bytes ≡ Err e → token_offset e ≡ Some at →
        BeginsAs at bytes other → (p : Problem) → ¬ Spells other p }
{}
