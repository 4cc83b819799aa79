//! The claims of a cost leaf.

ghost use Rattle.std.specs.Prelude.{◌≡◌, ◌++◌, ◌∷◌, [], OnOk, All, flat_map, codes};
ghost use Rattle.tt_text.specs.Pieces.{Text};
ghost use Rattle.tt_proof_write.specs.Inner.Numbers.{IsNarrowPair, IsNarrowClaim};
ghost use Rattle.tt_proof_write.specs.Written.{priced_pieces, claim_word, claim_rest, claim_pieces, tail_text};

use crate::fields::{put_index, put_price};
use std::alloc::AllocError;
use tt_leaf::Claim;
use tt_text::put_next_token;

/// Writes numbers of one kind, each with its price.
fn put_prices(out: &mut Vec<u8>, letter: u8, prices: &[(u32, u32)]) -> Result<(), AllocError>
    ensures text { OnOk result (out.new.items ≡ out.old.items ++ tail_text (flat_map (priced_pieces letter) prices.now)) }
    ensures narrow { OnOk result (All IsNarrowPair prices.now) }
{
    for (number, price) in prices {
        put_index(out, letter, *number)?;
        put_price(out, *price)?;
    }
    Ok(())
}

fn claim_word(claim: &Claim) -> &'static [u8]
    ensures { result.now ≡ claim_word claim.now }
{
    match claim {
        Claim::Capacity { .. } => b"C",
        Claim::Days(_) => b"D",
        Claim::Compact(_) => b"Q",
        Claim::Stable(_) => b"R",
        Claim::Prices { .. } => b"P",
        Claim::Stacked(_) => b"T",
    }
}

/// Writes the pieces after the word of a claim.
fn put_claim_rest(out: &mut Vec<u8>, claim: &Claim) -> Result<(), AllocError>
    ensures text { OnOk result (out.new.items ≡ out.old.items ++ tail_text (claim_rest claim.now)) }
    ensures narrow { OnOk result (IsNarrowClaim claim.now) }
{
    match claim {
        Claim::Capacity { course, price } => {
            put_index(out, b'c', *course)?;
            put_price(out, *price)
        }
        Claim::Days(course) | Claim::Stable(course) | Claim::Stacked(course) => {
            put_index(out, b'c', *course)
        }
        Claim::Compact(curriculum) => put_index(out, b'q', *curriculum),
        Claim::Prices { courses, rooms } => {
            put_prices(out, b'c', courses.as_slice())?;
            put_prices(out, b'r', rooms.as_slice())?;
            put_next_token(out, b"/")
        }
    }
}

fn put_claim(out: &mut Vec<u8>, claim: &Claim) -> Result<(), AllocError>
    ensures text { OnOk result (out.new.items ≡ out.old.items ++ tail_text (claim_pieces claim.now)) }
    ensures narrow { OnOk result (IsNarrowClaim claim.now) }
{
    put_next_token(out, claim_word(claim))?;
    put_claim_rest(out, claim)
}

/// Writes claims up to `;`.
pub fn put_claims(out: &mut Vec<u8>, claims: &[Claim]) -> Result<(), AllocError>
    ensures text { OnOk result (out.new.items ≡ out.old.items
        ++ tail_text (flat_map claim_pieces claims.now ++ Text (codes ";") ∷ [])) }
    ensures narrow { OnOk result (All IsNarrowClaim claims.now) }
{
    for claim in claims {
        put_claim(out, claim)?;
    }
    put_next_token(out, b";")
}
