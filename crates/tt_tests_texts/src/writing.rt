//! The proofs that `write_proof` refuses, and the texts that it writes.

use std::test::Fail;
use tt_leaf::{Bound, Claim, ClaimList, Leaf};
use tt_path::{Pattern, Who};
use tt_proof_read::Node;
use tt_proof_write::{WriteFault, write_proof};

const BOUND: Bound = Bound::AtLeast(0);

fn split() -> Node {
    Node::Split(Pattern {
        who: Who::Course(0),
        room: Some(1),
        day: None,
        period: Some(2),
    })
}

#[test]
fn nodes_that_are_no_tree(rt: HostRuntime) -> Result<(), Fail> {
    let none = write_proof(rt.alloc(), 1, BOUND, &[]);
    assert_eq!(rt; none.err(), Some(WriteFault::NotATree));
    let alone = write_proof(rt.alloc(), 1, BOUND, &[split()]);
    assert_eq!(rt; alone.err(), Some(WriteFault::NotATree));
    let leaves = [Node::Leaf(Leaf::Many(0)), Node::Leaf(Leaf::Many(0))];
    let two = write_proof(rt.alloc(), 1, BOUND, &leaves);
    assert_eq!(rt; two.err(), Some(WriteFault::NotATree));
    Ok(())
}

#[test]
fn numbers_above_their_limits(rt: HostRuntime) -> Result<(), Fail> {
    let nodes = [Node::Leaf(Leaf::Many(0))];
    for (bound, fault) in [
        (1_000_000_000_000, None),
        (1_000_000_000_001, Some(WriteFault::OverLimit)),
    ] {
        let written = write_proof(rt.alloc(), 1, Bound::AtLeast(bound), &nodes);
        assert_eq!(rt; written.err(), fault);
    }
    Ok(())
}

#[test]
fn claims_of_version_two(rt: HostRuntime) -> Result<(), Fail> {
    let mut claims = Vec::new(rt.alloc());
    claims.push(Claim::Stacked(0))?;
    let nodes = [Node::Leaf(Leaf::Cost(ClaimList::new(claims)))];
    let one = write_proof(rt.alloc(), 1, BOUND, &nodes);
    assert_eq!(rt; one.err(), Some(WriteFault::NotInVersion));
    let two = write_proof(rt.alloc(), 2, BOUND, &nodes)?;
    assert_eq!(rt;
        two.as_slice(),
        b"CTTP 2 bound 0\nB T c0 ;\nend\n".as_slice()
    );
    Ok(())
}

#[test]
fn a_split_and_its_leaves(rt: HostRuntime) -> Result<(), Fail> {
    let nodes = [
        split(),
        Node::Leaf(Leaf::Many(3)),
        Node::Leaf(Leaf::Many(4)),
    ];
    let text = write_proof(rt.alloc(), 1, Bound::Nothing, &nodes)?;
    assert_eq!(rt;
        text.as_slice(),
        b"CTTP 1 bound none\nS c0 r1 * p2\nM c3\nM c4\nend\n".as_slice()
    );
    Ok(())
}
