//! Bounds, leaves and claims.

use crate::lists::{CourseList, PriceList};
use std::marker::Model;
use tt_path::Pattern;

/// A bound on the cost, in cost points, or the claim that there is no feasible timetable.
#[derive(Clone, Copy, Debug, PartialEq, Eq)]
pub enum Bound {
    AtLeast(u64),
    Nothing,
}

/// A part of the cost that a path forces. Prices are in cost points.
#[derive(Debug, Drop)]
pub enum Claim {
    /// The seats that a course lacks, at a price for each of its lectures.
    Capacity {
        course: u32,
        price: u32,
    },
    /// The working days that a course lacks.
    Days(u32),
    /// The isolated entries of a curriculum.
    Compact(u32),
    /// The rooms of a course except the first.
    Stable(u32),
    /// The seats that several courses lack, with prices of courses and of rooms.
    Prices {
        courses: PriceList,
        rooms: PriceList,
    },
    /// The working days that a course lacks because its pinned periods share days.
    Stacked(u32),
}

/// Claims in order.
#[derive(Debug, Drop)]
pub struct ClaimList {
    items: Vec<Claim>,
}

impl Model for ClaimList {
    ghost use Rattle.std.specs.Prelude.{List};
    ghost use Rattle.tt_leaf.specs.declared.leaf.Claim.{Claim};

    ghost Value = { List Claim };

    ghost view = { λ s. s.items.items };
}

impl ClaimList {
    ghost use Rattle.std.specs.Prelude.{◌≡◌};

    /// Creates a list of the claims of a vector, in its order.
    pub fn new(items: Vec<Claim>) -> ClaimList
        ensures { result ≡ items.items }
    {
        ClaimList { items }
    }

    /// Returns the claims in order.
    pub fn as_slice(&self) -> &[Claim]
        ensures { result.now ≡ self.now }
    {
        self.items.as_slice()
    }

    /// Returns the vector from which it was created.
    pub fn into_vec(self) -> Vec<Claim>
        ensures { result.items ≡ self }
    {
        self.items
    }
}

/// A leaf, which closes a node of a proof.
#[derive(Debug, Drop)]
pub enum Leaf {
    /// Each cell that a yes-fact of the path matches is dead.
    Empty(Pattern),
    /// A course has more pinned periods than lectures.
    Many(u32),
    /// Courses that conflict with each other have more lectures than periods.
    Clique(CourseList),
    /// Courses have more lectures than rooms in periods.
    Slots(CourseList),
    /// Claims that add up to the bound.
    Cost(ClaimList),
}
