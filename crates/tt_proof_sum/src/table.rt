//! The files that claimed each target.

ghost use Rattle.std.specs.Prelude.{◌≡◌, ℕ, ◌+◌, ◌*◌, ◌<◌, ◌∷◌, [], map, flat_map, Some, None, IfOk, IfSome, IfNone};
ghost use Rattle.tt_list_laws.specs.Words.{range_below};
ghost use Rattle.std.specs.Option.{option_or};
ghost use Rattle.tt_leaf_rules.specs.Inner.NumberSet.{place, places_of};
ghost use Rattle.tt_proof_sum.specs.Sums.{claimed_in};
ghost use Rattle.tt_proof_sum.specs.Tables.{Claims, at_node, IsTableOf, owner, first_owner, Marks, group_places, claim_places};
ghost use Rattle.tt_proof_sum.specs.Inner.Owned.{FirstOwned, FirstTarget};
ghost use Rattle.tt_proof_sum.specs.Sums.{targets_of_claim};

use crate::claimed::{ClaimedTarget, Owned};
use std::alloc::{AllocError, Global};
use std::marker::Model;
use tt_groups::Group;
use tt_leaf::{Claim, Leaf};
use tt_prices_file::PricesClaim;
use tt_proof_check::NodeVisitor;
use tt_proof_read::Node;

/// The places of targets are below this limit: four for each number of a course or a curriculum.
pub const PLACES: usize = 32_768;

/// The place of the working days of course 0.
const WORKING_DAYS: usize = 1;

/// The place of the room capacity of course 0.
const CAPACITY: usize = 0;

/// The place of the compactness of curriculum 0.
const COMPACTNESS: usize = 2;

/// The place of the room stability of course 0.
const STABILITY: usize = 3;

/// A node that claims a target which an earlier file claims, and the number of that file, counted from 1.
#[derive(Clone, Copy, Debug, PartialEq, Eq)]
pub struct Clash {
    pub node: u32,
    pub earlier: u64,
}

/// A curriculum or a course, and the number of the file that owns its target.
#[derive(Clone, Copy, Debug, PartialEq, Eq)]
struct Numbered {
    number: u32,
    owner: u64,
}

/// For each target, the number of the file that claimed it first, counted from 1, and 0 for none.
#[derive(Drop)]
pub struct Table {
    owners: Vec<u64>,
    proof: u64,
    clash: Option<Clash>,
}

impl Model for Table {
    ghost use Rattle.std.specs.Prelude.{◌≡◌, length};
    ghost use Rattle.tt_proof_sum.specs.Tables.{State};
    ghost use Rattle.tt_proof_sum.specs.declared.table.TheConstants.{PLACES};

    ghost Value = { State };

    ghost view = { λ t. record { owners = t.owners.items; proof = t.proof; clash = t.clash } };

    ghost invariant = { λ t. length t.owners.items ≡ PLACES };
}

impl Table {
    /// Creates a table with no target claimed and no file begun.
    pub fn new(alloc: Global) -> Result<Table, AllocError>
        ensures { IfOk result (λ t. IsTableOf t []) }
    {
        Ok(Table {
            owners: vec![in alloc; 0u64; PLACES]?,
            proof: 0,
            clash: None,
        })
    }

    /// Returns the first claim of the newest proof whose target another file has claimed.
    pub fn clash(&self) -> Option<Clash>
        ensures { result ≡ self.now.clash }
    {
        self.clash
    }

    /// Returns the number of the newest file, counted from 1, and 0 before the first.
    pub fn proof(&self) -> u64
        ensures { result ≡ self.now.proof }
    {
        self.proof
    }

    /// Begins the next file.
    pub fn begin(&mut self)
        requires { self.old.proof < u64.MAX }
        ensures { self.new ≡ record self.old { proof = self.old.proof + 1 } }
    {
        self.proof += 1;
    }

    fn note(&mut self, node: u32, earlier: u64)
        ensures { self.new ≡ record self.old { clash = option_or self.old.clash (Some (record { node = node; earlier = earlier })) } }
    {
        if self.clash.is_none() {
            self.clash = Some(Clash { node, earlier });
        }
    }

    fn claim(&mut self, node: u32, place: usize)
        ensures { Claims self.old ((node, place) ∷ []) self.new }
    {
        if place >= PLACES {
            self.note(node, 0);
            return;
        }
        let owner = self.owners[place];
        if owner == 0 {
            self.owners[place] = self.proof;
        } else if owner != self.proof {
            self.note(node, owner);
        }
    }

    fn claim_capacities(&mut self, node: u32, courses: &[(u32, u32)])
        requires { 0 < self.old.proof }
        ensures { Claims self.old (flat_map (λ k. (node, 4 * k.0) ∷ []) courses.now) self.new }
    {
        for course in courses {
            self.claim(node, 4 * course.0 as usize);
        }
    }

    fn claim_targets(&mut self, node: u32, claim: &Claim)
        requires { 0 < self.old.proof }
        ensures { Claims self.old (at_node node (places_of claim.now)) self.new }
    {
        match claim {
            Claim::Capacity { course, .. } => self.claim(node, 4 * *course as usize),
            Claim::Days(course) | Claim::Stacked(course) => {
                self.claim(node, 4 * *course as usize + WORKING_DAYS)
            }
            Claim::Compact(curriculum) => {
                self.claim(node, 4 * *curriculum as usize + COMPACTNESS)
            }
            Claim::Stable(course) => self.claim(node, 4 * *course as usize + STABILITY),
            Claim::Prices { courses, .. } => self.claim_capacities(node, courses.as_slice()),
        }
    }

    fn claim_each(&mut self, node: u32, claims: &[Claim])
        requires { 0 < self.old.proof }
        ensures { Claims self.old (flat_map (λ c. at_node node (places_of c)) claims.now) self.new }
    {
        for claim in claims {
            self.claim_targets(node, claim);
        }
    }

    fn claim_leaf(&mut self, node: u32, leaf: &Leaf)
        requires { 0 < self.old.proof }
        ensures { Claims self.old (at_node node (map place (claimed_in leaf.now))) self.new }
    {
        if let Leaf::Cost(claims) = leaf {
            self.claim_each(node, claims.as_slice());
        }
    }

    fn owner(&self, place: usize) -> u64
        ensures { result ≡ owner self.now place }
    {
        match self.owners.get(place) {
            Some(owner) => *owner,
            None => 0,
        }
    }

    /// Returns the owner of the first target of these curricula or courses that has an owner.
    fn first_owner(&self, numbers: &[u32], kind: usize) -> Option<u64>
        requires { kind < 4 }
        ensures { result ≡ first_owner self.now (map (λ n. 4 * n + kind) numbers.now) }
    {
        for number in numbers {
            let owner = self.owner(4 * *number as usize + kind);
            if owner != 0 {
                return Some(owner);
            }
        }
        None
    }

    /// Returns the file that claims the first claimed target of the group: first of its curricula, and then of its courses.
    pub fn owner_of_group(&self, group: &Group) -> Option<u64>
        ensures { result ≡ first_owner self.now (group_places group.now) }
    {
        match self.first_owner(group.curricula(), COMPACTNESS) {
            Some(owner) => Some(owner),
            None => self.first_owner(group.courses(), WORKING_DAYS),
        }
    }

    /// Returns the first of these curricula or courses whose target has an owner, with that owner.
    fn first_owned(&self, numbers: &[u32], kind: usize) -> Option<Numbered>
        requires { kind < 4 }
        ensures none { IfNone result (first_owner self.now (map (λ n. 4 * n + kind) numbers.now) ≡ None) }
        ensures some { IfSome result (λ x. FirstOwned self.now kind numbers.now x.number x.owner) }
    {
        for number in numbers {
            let owner = self.owner(4 * *number as usize + kind);
            if owner != 0 {
                return Some(Numbered {
                    number: *number,
                    owner,
                });
            }
        }
        None
    }

    /// Returns the first owner of a target of a room, of so many courses.
    fn first_owner_of_rooms(&self, courses: u32, kind: usize) -> Option<u64>
        requires { kind < 4 }
        ensures { result ≡ first_owner self.now (map (λ n. 4 * n + kind) (range_below courses)) }
    {
        for course in 0..courses {
            let owner = self.owner(4 * course as usize + kind);
            if owner != 0 {
                return Some(owner);
            }
        }
        None
    }

    /// Returns the first target of groups with prices that has an owner: first of their curricula, then of their courses, and then of all rooms.
    pub fn owner_of_claim(&self, courses: u32, claim: &PricesClaim) -> Option<Owned>
        ensures none { IfNone result (first_owner self.now (claim_places courses claim.now) ≡ None) }
        ensures some { IfSome result (λ x. FirstTarget self.now (targets_of_claim courses claim.now) x.target x.owner) }
    {
        if let Some(found) = self.first_owned(&claim.curricula, COMPACTNESS) {
            return Some(Owned {
                target: ClaimedTarget::Curriculum(found.number),
                owner: found.owner,
            });
        }
        if let Some(found) = self.first_owned(&claim.courses, WORKING_DAYS) {
            return Some(Owned {
                target: ClaimedTarget::Course(found.number),
                owner: found.owner,
            });
        }
        if !claim.has_rooms {
            return None;
        }
        let capacity = self.first_owner_of_rooms(courses, CAPACITY);
        let owner = capacity.or(self.first_owner_of_rooms(courses, STABILITY))?;
        Some(Owned {
            target: ClaimedTarget::Rooms,
            owner,
        })
    }

    fn mark(&mut self, place: usize)
        ensures { Marks self.old (place ∷ []) self.new }
    {
        if place < PLACES {
            self.owners[place] = self.proof;
        }
    }

    fn mark_each(&mut self, numbers: &[u32], kind: usize)
        requires { kind < 4 }
        ensures { Marks self.old (map (λ n. 4 * n + kind) numbers.now) self.new }
    {
        for number in numbers {
            self.mark(4 * *number as usize + kind);
        }
    }

    /// Claims the targets of the group for the newest file.
    pub fn mark_group(&mut self, group: &Group)
        ensures { Marks self.old (group_places group.now) self.new }
    {
        self.mark_each(group.curricula(), COMPACTNESS);
        self.mark_each(group.courses(), WORKING_DAYS);
    }

    /// Claims a target of the rooms of so many courses for the newest file.
    fn mark_rooms(&mut self, courses: u32, kind: usize)
        requires { kind < 4 }
        ensures { Marks self.old (map (λ n. 4 * n + kind) (range_below courses)) self.new }
    {
        for course in 0..courses {
            self.mark(4 * course as usize + kind);
        }
    }

    /// Claims the targets of groups with prices for the newest file.
    pub fn mark_claim(&mut self, courses: u32, claim: &PricesClaim)
        ensures { Marks self.old (claim_places courses claim.now) self.new }
    {
        self.mark_each(&claim.curricula, COMPACTNESS);
        self.mark_each(&claim.courses, WORKING_DAYS);
        if claim.has_rooms {
            self.mark_rooms(courses, CAPACITY);
            self.mark_rooms(courses, STABILITY);
        }
    }
}

impl NodeVisitor for Table {
    ghost use Rattle.std.specs.Prelude.{◌<◌};
    ghost use Rattle.tt_proof_sum.specs.Tables.{Claims, at_node, places_in};

    // Before the first file begins, there are no nodes to visit.
    ghost visits = { λ old number node new. 0 < old.proof → Claims old (at_node number (places_in node)) new };

    fn visit(&mut self, number: u32, node: &Node) {
        if self.proof == 0 {
            return;
        }
        if let Node::Leaf(leaf) = node {
            self.claim_leaf(number, leaf);
        }
    }
}
