//! Short lists in leaves: contracts see them as lists.

ghost use Rattle.std.specs.Prelude.{◌≡◌};

use std::marker::Model;

/// Courses, by number.
#[derive(Debug, Drop)]
pub struct CourseList {
    items: Vec<u32>,
}

impl Model for CourseList {
    ghost use Rattle.std.specs.Prelude.{List, ℕ};

    ghost Value = { List ℕ };

    ghost view = { λ s. s.items.items };
}

impl CourseList {
    /// Creates a list of the courses of a vector, in its order.
    pub fn new(items: Vec<u32>) -> CourseList
        ensures { result ≡ items.items }
    {
        CourseList { items }
    }

    /// Returns the courses in order.
    pub fn as_slice(&self) -> &[u32]
        ensures { result.now ≡ self.now }
    {
        self.items.as_slice()
    }

    /// Returns the vector from which it was created.
    pub fn into_vec(self) -> Vec<u32>
        ensures { result.items ≡ self }
    {
        self.items
    }
}

/// Courses or rooms, by number, each with its price in cost points.
#[derive(Debug, Drop)]
pub struct PriceList {
    items: Vec<(u32, u32)>,
}

impl Model for PriceList {
    ghost use Rattle.std.specs.Prelude.{List, ℕ};

    ghost Value = { List (ℕ × ℕ) };

    ghost view = { λ s. s.items.items };
}

impl PriceList {
    /// Creates a list of the pairs of a vector, in its order.
    pub fn new(items: Vec<(u32, u32)>) -> PriceList
        ensures { result ≡ items.items }
    {
        PriceList { items }
    }

    /// Returns the pairs in order.
    pub fn as_slice(&self) -> &[(u32, u32)]
        ensures { result.now ≡ self.now }
    {
        self.items.as_slice()
    }

    /// Returns the vector from which it was created.
    pub fn into_vec(self) -> Vec<(u32, u32)>
        ensures { result.items ≡ self }
    {
        self.items
    }
}
