//! Solutions that may be given.

ghost use Rattle.std.specs.Prelude.{IfOk, IfErr};
ghost use Rattle.std.specs.Option.{option_copied};
ghost use Rattle.tt_call_searches.specs.Given.{IsGiven, FailsGiven};

use std::alloc::Global;
use tt_instance::Instance;
use tt_table::{SolutionFault, Timetable, read_solution};

/// Reads a solution, if one is given.
pub fn read_given(
    alloc: Global,
    instance: &Instance<'_>,
    given: Option<&[u8]>,
) -> Result<Option<Timetable>, SolutionFault>
    ensures found { IfOk result (IsGiven instance.now (option_copied given.entry)) }
    ensures fault { IfErr result (λ f. FailsGiven f instance.now (option_copied given.entry)) }
{
    match given {
        Some(bytes) => Ok(Some(read_solution(alloc, instance, bytes)?)),
        None => Ok(None),
    }
}
