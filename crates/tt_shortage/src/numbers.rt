//! Lists of numbers in ascending order.

ghost use Rattle.std.specs.Prelude.{◌+◌, IfOk, OnOk};
ghost use Rattle.tt_shortage.specs.Numbers.{AreNumbers};

use std::alloc::{AllocError, Global};

/// Adds the next number to a list if it belongs to it.
fn push_number(list: &mut Vec<u32>, number: u32, belongs: bool) -> Result<(), AllocError>
    requires { AreNumbers number list.old.items }
    ensures { OnOk result (AreNumbers (number + 1) list.new.items) }
{
    if !belongs {
        return Ok(());
    }
    list.push(number)?;
    Ok(())
}

/// Returns the numbers below a count that are marked, in ascending order.
pub fn numbers_in(alloc: Global, count: u32, marked: &[bool]) -> Result<Vec<u32>, AllocError>
    ensures { IfOk result (λ numbers. AreNumbers count numbers.items) }
{
    let mut numbers = Vec::new(alloc);
    for number in 0..count {
        let belongs = marked.get(number as usize).copied().unwrap_or(false);
        push_number(&mut numbers, number, belongs)?;
    }
    Ok(numbers)
}
