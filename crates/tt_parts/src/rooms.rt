//! Bounds on the seats that rooms lack.

ghost use Rattle.tt_leaf_find.specs.Found.{IsAnswer};

use std::alloc::{AllocError, Global};
use tt_instance::Instance;
use tt_leaf::{Bound, Claim, ClaimList, Leaf};
use tt_leaf_find::{best_claims, priced_claims};
use tt_leaf_rules::claim_value;
use tt_parts_prices::find_rents;
use tt_path::{Fact, Path, PathFault};
use tt_proof_check::start_path;
use tt_proof_read::Node;
use tt_proof_write::{WriteFault, write_proof};

/// The version of the proof.
const VERSION: u8 = 2;

/// Claims, and their total value in cost points.
#[derive(Drop)]
struct Claims {
    list: Vec<Claim>,
    points: u64,
}

/// Extracts the claims about seats from a leaf of claims; there are none in another leaf.
fn seats_of<'i, P: Path<'i>>(alloc: Global, path: &P, leaf: Leaf) -> Result<Claims, AllocError>
    requires { IsAnswer (P.problem path.now) leaf }
{
    let mut seats = Claims {
        list: Vec::new(alloc),
        points: 0,
    };
    let Leaf::Cost(claims) = leaf else {
        return Ok(seats);
    };
    for claim in claims.into_vec() {
        if matches!(claim, Claim::Capacity { .. } | Claim::Prices { .. }) {
            seats.points = seats.points.saturating_add(claim_value(path, &claim));
            seats.list.push(claim)?;
        }
    }
    Ok(seats)
}

/// The text of a proof about the rooms, and its bound in cost points.
#[derive(Drop)]
pub struct RoomsProof {
    pub text: Vec<u8>,
    pub points: u64,
}

/// Returns the claims about seats that are worth more: those of each course alone, or, below facts, those with prices over groups of courses that
/// compete for rooms. Without facts a file of rents proves no less than these.
fn find_seats<'i, P: Path<'i>>(alloc: Global, path: &P) -> Result<Claims, AllocError> {
    let alone = seats_of(alloc, path, best_claims(alloc, path)?)?;
    if path.depth() == 0 {
        return Ok(alone);
    }
    let Some(leaf) = priced_claims(alloc, path)? else {
        return Ok(alone);
    };
    let together = seats_of(alloc, path, leaf)?;
    Ok(if alone.points < together.points {
        together
    } else {
        alone
    })
}

/// Returns a proof of one leaf below a root, which prices the seats that the rooms lack; `None` if its value would be 0.
fn find_leaf(
    alloc: Global,
    instance: &Instance<'_>,
    root: &[Fact],
) -> Result<Option<RoomsProof>, AllocError> {
    let path = match start_path(alloc, instance, root) {
        Ok(path) => path,
        Err(PathFault::TooDeep) => return Ok(None),
        Err(PathFault::OutOfMemory) => return Err(AllocError),
    };
    let seats = find_seats(alloc, &path)?;
    let points = seats.points;
    if points == 0 {
        return Ok(None);
    }
    let bound = Bound::AtLeast(points);
    let leaf = Node::Leaf(Leaf::Cost(ClaimList::new(seats.list)));
    match write_proof(alloc, VERSION, bound, &[leaf]) {
        Ok(text) => Ok(Some(RoomsProof { text, points })),
        Err(WriteFault::OutOfMemory) => Err(AllocError),
        Err(_) => Ok(None),
    }
}

/// Returns the bound of a proof; 0 if there is none.
fn points_of(proof: Option<&RoomsProof>) -> u64 {
    proof.map_or(0, |proof| proof.points)
}

/// Returns a proof about the rooms: one leaf below the root, or a file of rents if that proves more. It is `None` if neither proves a point.
pub fn find_rooms(
    alloc: Global,
    instance: &Instance<'_>,
    root: &[Fact],
) -> Result<Option<RoomsProof>, AllocError> {
    let leaf = find_leaf(alloc, instance, root)?;
    let rents = find_rents(alloc, instance)?.map(|rents| RoomsProof {
        text: rents.text,
        points: rents.points,
    });
    if points_of(leaf.as_ref()) < points_of(rents.as_ref()) {
        Ok(rents)
    } else {
        Ok(leaf)
    }
}
