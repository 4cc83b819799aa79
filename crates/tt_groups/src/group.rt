//! A choice of curricula and courses.

ghost use Rattle.std.specs.Prelude.{◌≡◌};

use std::marker::Model;

/// Curricula and courses of an instance, by their numbers.
#[derive(Debug, Drop)]
pub struct Group {
    curricula: Vec<u32>,
    courses: Vec<u32>,
}

impl Model for Group {
    ghost use Rattle.tt_groups.specs.Group as spec;

    ghost Value = { spec.Group };

    ghost view = { λ s. record { curricula = s.curricula.items; courses = s.courses.items } };
}

impl Group {
    /// Returns the group of these curricula, whose compactness counts, and these courses, whose working days count.
    pub fn new(curricula: Vec<u32>, courses: Vec<u32>) -> Group
        ensures { result ≡ record { curricula = curricula.items; courses = courses.items } }
    {
        Group { curricula, courses }
    }

    /// Returns the curricula in order.
    pub fn curricula(&self) -> &[u32]
        ensures { result.now ≡ self.now.curricula }
    {
        self.curricula.as_slice()
    }

    /// Returns the courses in order.
    pub fn courses(&self) -> &[u32]
        ensures { result.now ≡ self.now.courses }
    {
        self.courses.as_slice()
    }
}
