//! The number of bytes in the text of a proof, counted without writing it.
//!
//! Each piece of a line is counted with one separator: the space before it or, for the first, the end of the line.
//! Sums over lists are capped at the greatest number, since a caller's lists may be of any length.

ghost use Rattle.std.specs.Prelude.{◌≡◌, ◌+◌, ◌≤◌, ◌++◌, ◌∷◌, [], ℕ, length, map, flat_map, codes};
ghost use Rattle.std.specs.Fmt.{decimal};
ghost use Rattle.tt_text.specs.Pieces.{Text, Number};
ghost use Rattle.tt_text.specs.Lines.{line_text, lines_text};
ghost use Rattle.tt_proof_read.specs.Spelling.{given_piece, who_piece, bound_piece, pattern_pieces, listed_pieces};
ghost use Rattle.tt_proof_write.specs.Inner.Bytes.{clipped};
ghost use Rattle.tt_proof_write.specs.Written.{priced_pieces, claim_rest, claim_pieces, node_rest, node_pieces, header_pieces, proof_text, tail_text};

use crate::fields::version_text;
use tt_leaf::{Bound, Claim, Leaf};
use tt_path::{Pattern, Who};
use tt_proof_read::{Node, Word};
use tt_text::digit_count;

/// A token of one byte, with its separator.
const ONE_BYTE_TOKEN: u64 = 2;

/// Counts the bytes of a token.
fn token_bytes(token: &[u8]) -> u64
    ensures { result ≡ length (tail_text (Text token.now ∷ [])) }
{
    token.len() as u64 + 1
}

/// Counts the bytes of a number.
fn number_bytes(number: u64) -> u64
    ensures text { result ≡ length (tail_text (Number number ∷ [])) }
    ensures short { result ≤ 21 }
{
    digit_count(number) as u64 + 1
}

/// Counts the bytes of a letter and a number.
fn index_bytes(number: u32) -> u64
    ensures text { result ≡ 2 + length (decimal number) }
    ensures short { result ≤ 22 }
{
    digit_count(u64::from(number)) as u64 + 2
}

/// Counts the bytes of a letter and a number, or of `*`.
fn given_bytes(number: Option<u32>) -> u64
    ensures text { (letter : ℕ) → result ≡ length (tail_text (given_piece letter number ∷ [])) }
    ensures short { result ≤ 22 }
{
    match number {
        Some(number) => index_bytes(number),
        None => ONE_BYTE_TOKEN,
    }
}

fn who_bytes(who: Who) -> u64
    ensures text { result ≡ length (tail_text (who_piece who ∷ [])) }
    ensures short { result ≤ 22 }
{
    match who {
        Who::Course(number) | Who::Curriculum(number) => index_bytes(number),
    }
}

/// Counts the bytes of who, room, day and period.
fn pattern_bytes(pattern: &Pattern) -> u64
    ensures { result ≡ length (tail_text (pattern_pieces pattern.now)) }
{
    let room = given_bytes(pattern.room);
    let day = given_bytes(pattern.day);
    let period = given_bytes(pattern.period);
    who_bytes(pattern.who) + room + day + period
}

/// Counts the bytes of courses up to `;`.
fn courses_bytes(courses: &[u32]) -> u64
    ensures { result ≡ clipped (length (tail_text (listed_pieces courses.now))) }
{
    let mut total = ONE_BYTE_TOKEN;
    for course in courses {
        total = total.saturating_add(index_bytes(*course));
    }
    total
}

/// Counts the bytes of numbers of one kind, each with its price.
fn prices_bytes(prices: &[(u32, u32)]) -> u64
    ensures { (letter : ℕ) → result ≡ clipped (length (tail_text (flat_map (priced_pieces letter) prices.now))) }
{
    let mut total: u64 = 0;
    for (number, price) in prices {
        let priced = index_bytes(*number) + number_bytes(u64::from(*price));
        total = total.saturating_add(priced);
    }
    total
}

/// Counts the bytes after the word of a claim.
fn claim_rest_bytes(claim: &Claim) -> u64
    ensures { result ≡ clipped (length (tail_text (claim_rest claim.now))) }
{
    match claim {
        Claim::Capacity { course, price } => index_bytes(*course) + number_bytes(u64::from(*price)),
        Claim::Days(course) | Claim::Stable(course) | Claim::Stacked(course) => {
            index_bytes(*course)
        }
        Claim::Compact(curriculum) => index_bytes(*curriculum),
        Claim::Prices { courses, rooms } => {
            let of_courses = prices_bytes(courses.as_slice());
            let of_rooms = prices_bytes(rooms.as_slice());
            of_courses
                .saturating_add(of_rooms)
                .saturating_add(ONE_BYTE_TOKEN)
        }
    }
}

fn claim_bytes(claim: &Claim) -> u64
    ensures { result ≡ clipped (length (tail_text (claim_pieces claim.now))) }
{
    claim_rest_bytes(claim).saturating_add(ONE_BYTE_TOKEN)
}

/// Counts the bytes of claims up to `;`.
fn claims_bytes(claims: &[Claim]) -> u64
    ensures { result ≡ clipped (length (tail_text (flat_map claim_pieces claims.now ++ Text (codes ";") ∷ []))) }
{
    let mut total = ONE_BYTE_TOKEN;
    for claim in claims {
        total = total.saturating_add(claim_bytes(claim));
    }
    total
}

/// Counts the bytes after the word of a node.
fn node_rest_bytes(node: &Node) -> u64
    ensures { result ≡ clipped (length (tail_text (node_rest node.now))) }
{
    match node {
        Node::Split(pattern) | Node::Leaf(Leaf::Empty(pattern)) => pattern_bytes(pattern),
        Node::Leaf(Leaf::Many(course)) => index_bytes(*course),
        Node::Leaf(Leaf::Clique(courses) | Leaf::Slots(courses)) => {
            courses_bytes(courses.as_slice())
        }
        Node::Leaf(Leaf::Cost(claims)) => claims_bytes(claims.as_slice()),
    }
}

/// Counts the bytes of a node's line.
fn node_bytes(node: &Node) -> u64
    ensures { result ≡ clipped (length (line_text (node_pieces node.now))) }
{
    node_rest_bytes(node).saturating_add(ONE_BYTE_TOKEN)
}

/// Counts the bytes of one line for each node.
fn nodes_bytes(nodes: &[Node]) -> u64
    ensures { result ≡ clipped (length (lines_text (map node_pieces nodes.now))) }
{
    let mut total: u64 = 0;
    for node in nodes {
        total = total.saturating_add(node_bytes(node));
    }
    total
}

fn bound_bytes(bound: Bound) -> u64
    ensures text { result ≡ length (tail_text (bound_piece bound ∷ [])) }
    ensures short { result ≤ 21 }
{
    match bound {
        Bound::AtLeast(points) => number_bytes(points),
        Bound::Nothing => token_bytes(b"none"),
    }
}

/// Counts the bytes of the first line.
fn header_bytes(version: u8, bound: Bound) -> u64
    ensures text { result ≡ length (line_text (header_pieces version bound)) }
    ensures short { result ≤ 40 }
{
    let words = token_bytes(Word::Cttp.text()) + token_bytes(Word::Bound.text());
    words + token_bytes(version_text(version)) + bound_bytes(bound)
}

/// Returns the number of bytes of the whole text of a proof, or the greatest number if the text has more bytes.
pub fn proof_bytes(version: u8, bound: Bound, nodes: &[Node]) -> u64
    ensures { result ≡ clipped (length (proof_text version bound nodes.now)) }
{
    let ends = header_bytes(version, bound) + token_bytes(Word::End.text());
    nodes_bytes(nodes).saturating_add(ends)
}
