//! The limits of a file, and the claims of a version. The checks here allocate no memory.

ghost use Rattle.std.specs.Prelude.{◌↔◌, ◌≤◌, IsTrue, All};
ghost use Rattle.tt_proof_read.specs.Limits.{IsShortClaim, IsClaimIn};
ghost use Rattle.tt_proof_read.specs.Spelling.{IsBound};
ghost use Rattle.tt_proof_read.specs.Trees.{IsPreorder};
ghost use Rattle.tt_proof_write.specs.Within.{HasShortPrices, IsNodeIn, AreWithin};

use crate::depth::is_shallow;
use tt_leaf::{Bound, Claim, Leaf};
use tt_proof_read::{MAX_POINTS, MAX_PRICE, MAX_PROOF_NODES, Node};

fn are_short_prices(prices: &[(u32, u32)]) -> bool
    ensures { IsTrue result ↔ All (λ k. k.1 ≤ MAX_PRICE) prices.now }
{
    prices.iter().all(|priced| priced.1 <= MAX_PRICE)
}

fn is_short_claim(claim: &Claim) -> bool
    ensures { IsTrue result ↔ IsShortClaim claim.now }
{
    match claim {
        Claim::Capacity { price, .. } => *price <= MAX_PRICE,
        Claim::Prices { courses, rooms } => {
            are_short_prices(courses.as_slice()) && are_short_prices(rooms.as_slice())
        }
        _ => true,
    }
}

fn are_short_claims(claims: &[Claim]) -> bool
    ensures { IsTrue result ↔ All IsShortClaim claims.now }
{
    claims.iter().all(is_short_claim)
}

fn is_short_node(node: &Node) -> bool
    ensures { IsTrue result ↔ HasShortPrices node.now }
{
    match node {
        Node::Leaf(Leaf::Cost(claims)) => are_short_claims(claims.as_slice()),
        _ => true,
    }
}

fn has_short_prices(nodes: &[Node]) -> bool
    ensures { IsTrue result ↔ All HasShortPrices nodes.now }
{
    nodes.iter().all(is_short_node)
}

fn is_bound(bound: Bound) -> bool
    ensures { IsTrue result ↔ IsBound bound }
{
    match bound {
        Bound::AtLeast(points) => points <= MAX_POINTS,
        Bound::Nothing => true,
    }
}

/// Checks that a bound and the nodes of a tree are within the limits of a file, except the limit on its bytes.
pub fn are_within(bound: Bound, nodes: &[Node]) -> bool
    requires { IsPreorder nodes.now }
    ensures { IsTrue result ↔ AreWithin bound nodes.now }
{
    is_bound(bound)
        && nodes.len() <= MAX_PROOF_NODES as usize
        && has_short_prices(nodes)
        && is_shallow(nodes)
}

fn is_claim_in(version: u8, claim: &Claim) -> bool
    ensures { IsTrue result ↔ IsClaimIn version claim.now }
{
    match claim {
        Claim::Prices { .. } | Claim::Stacked(_) => version == 2,
        _ => true,
    }
}

fn are_claims_in(version: u8, claims: &[Claim]) -> bool
    ensures { IsTrue result ↔ All (IsClaimIn version) claims.now }
{
    claims.iter().all(|claim| is_claim_in(version, claim))
}

fn is_node_in(version: u8, node: &Node) -> bool
    ensures { IsTrue result ↔ IsNodeIn version node.now }
{
    match node {
        Node::Leaf(Leaf::Cost(claims)) => are_claims_in(version, claims.as_slice()),
        _ => true,
    }
}

/// Checks that each claim of the nodes is of the version.
pub fn are_nodes_in(version: u8, nodes: &[Node]) -> bool
    ensures { IsTrue result ↔ All (IsNodeIn version) nodes.now }
{
    nodes.iter().all(|node| is_node_in(version, node))
}
