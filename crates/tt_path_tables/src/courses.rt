//! The courses whose cells a pattern matches.

ghost use Rattle.std.specs.Prelude.{◌≡◌};
ghost use Rattle.tt_path.specs.Inner.Nested.{courses_of};

use std::slice;
use tt_instance::Instance;
use tt_path::Who;

/// Returns the course that is meant, or the members of the curriculum that is meant.
pub fn courses_of<'a>(instance: &'a Instance<'_>, who: &'a Who) -> &'a [u32]
    ensures { result.now ≡ courses_of instance.now who.now }
{
    match who {
        Who::Course(course) => slice::from_ref(course),
        Who::Curriculum(curriculum) => {
            if *curriculum < instance.curricula() {
                instance.members(*curriculum)
            } else {
                &[]
            }
        }
    }
}
