//! The targets that the groups of a file claim.

ghost use Rattle.std.specs.Prelude.{◌≡◌};
ghost use Rattle.std.specs.List.{list_any};
ghost use Rattle.tt_list_laws.specs.Words.{has_number};

use std::alloc::{AllocError, Global};
use tt_groups::PricedGroup;

/// Checks whether one of the numbers is in the list.
fn has_any(list: &[u32], numbers: &[u32]) -> bool
    ensures { result ≡ list_any (has_number list.now) numbers.now }
{
    numbers.iter().any(|number| list.contains(number))
}

/// The curricula of the groups so far, and their courses whose working days count, in order.
#[derive(Debug, Drop)]
pub struct Targets {
    pub curricula: Vec<u32>,
    pub courses: Vec<u32>,
}

impl Targets {
    ghost use Rattle.std.specs.Prelude.{◌≡◌, ◌++◌, ◌||◌, [], OnOk};
    ghost use Rattle.std.specs.List.{list_any};
    ghost use Rattle.tt_list_laws.specs.Words.{has_number};
    ghost use Rattle.tt_groups.specs.Rows.{group_of};

    /// Creates an empty list.
    pub fn new(alloc: Global) -> Targets
        ensures curricula { result.curricula.items ≡ [] }
        ensures courses { result.courses.items ≡ [] }
    {
        Targets {
            curricula: Vec::new(alloc),
            courses: Vec::new(alloc),
        }
    }

    /// Checks whether a group has one of the targets.
    pub fn has_any_of(&self, group: &PricedGroup) -> bool
        ensures { result ≡ (list_any (has_number self.now.curricula.items) (group_of group.now).curricula
            || list_any (has_number self.now.courses.items) (group_of group.now).courses) }
    {
        has_any(&self.curricula, &group.curricula) || has_any(&self.courses, &group.courses)
    }

    /// Adds the targets of a group.
    pub fn add(&mut self, group: &PricedGroup) -> Result<(), AllocError>
        ensures curricula { OnOk result (self.new.curricula.items ≡ self.old.curricula.items ++ (group_of group.now).curricula) }
        ensures courses { OnOk result (self.new.courses.items ≡ self.old.courses.items ++ (group_of group.now).courses) }
    {
        self.curricula.extend_from_slice(&group.curricula)?;
        self.courses.extend_from_slice(&group.courses)?;
        Ok(())
    }
}
