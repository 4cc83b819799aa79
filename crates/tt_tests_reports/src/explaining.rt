//! Why there is no timetable, by the library's calls.

use std::alloc::Global;
use std::test::Fail;
use tt_inspect::{explain_shortages, explain_tree};
use tt_instance_read::read_instance;
use tt_testing_samples::{MINI, SAME, TRIO};

/// Returns why an instance has no timetable, or an empty text.
fn shortages(alloc: Global, instance: &str) -> Result<String, Fail> {
    let read = read_instance(alloc, instance.as_bytes())?;
    match explain_shortages(alloc, &read)? {
        Some(text) => Ok(text),
        None => Ok(String::new(alloc)),
    }
}

/// Returns what is said of the proof of an instance, or an empty text.
fn tree(alloc: Global, instance: &str, proof: &str) -> Result<String, Fail> {
    let read = read_instance(alloc, instance.as_bytes())?;
    match explain_tree(alloc, &read, proof.as_bytes())? {
        Some(text) => Ok(text),
        None => Ok(String::new(alloc)),
    }
}

#[test]
fn plain_reasons(rt: HostRuntime) -> Result<(), Fail> {
    for (instance, said) in [
        (MINI, ""),
        (
            TRIO,
            "can't be: there are 3 lectures, the rooms have 1 place in the week\ncan't be: curriculum q has 3 lectures, the week has 1 period\n",
        ),
    ] {
        let text = shortages(rt.alloc(), instance)?;
        assert_eq!(rt; text.as_str(), said);
    }
    Ok(())
}

#[test]
fn courses_of_trees(rt: HostRuntime) -> Result<(), Fail> {
    for (proof, said) in [
        (
            "CTTP 1 bound none K c0 c1 ; end",
            "no timetable: 1 case was tried, and each fails at some of these courses: x and y\n",
        ),
        (
            "CTTP 1 bound none S c0 * d0 p0 K c1 ; K c0 ; end",
            "no timetable: 2 cases were tried, and each fails at some of these courses: x and y\n",
        ),
        ("CTTP 1 bound 1 K c0 c1 ; end", ""),
        ("CTTP 1 bound none K c0", ""),
    ] {
        let text = tree(rt.alloc(), SAME, proof)?;
        assert_eq!(rt; text.as_str(), said);
    }
    Ok(())
}
