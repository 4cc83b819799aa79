//! Plays the files of scenarios that its words name, and prints how many scenarios each has.
#![tactic(auto)]

use std::test::Fail;
use std::{env, fs};
use tt_testing_runs::play;

fn main(rt: HostRuntime) -> Result<(), Fail> {
    for name in env::args(&rt)?.skip(1) {
        let text = fs::read_to_string(&rt, &name)?;
        let count = play(rt.alloc(), &text)?;
        println!(rt; "{name}: {count} scenarios")?;
    }
    Ok(())
}
