//! Reports over writers that stop.

use crate::writers::StoppingOnce;
use std::alloc::Global;
use std::io::ErrorKind;
use tt_app::{AppFault, report};
use tt_report::By;
use tt_testing_samples::MINI;
use tt_text::{Sink, Writing};

/// Mini's first course in the first period, and its second course in the next.
const SOLUTION: &str = "a R 0 0 b R 0 1";

const BY_ROOM: &str = "room R\n0 0 a\n0 1 b\n0 2\n";

/// Returns the result of `report` by rooms over a writer, and whether the sink had failed by then.
pub fn reported_to(
    alloc: Global,
    instance: &str,
    solution: &str,
    writer: &mut StoppingOnce,
) -> (Result<u8, AppFault>, bool) {
    let mut sink = Writing::new(writer);
    let answer = report(
        alloc,
        instance.as_bytes(),
        solution.as_bytes(),
        By::Room,
        &mut sink,
    );
    (answer, sink.failed())
}

#[test]
fn an_interrupted_write_has_failed(rt: HostRuntime) {
    let mut writer = StoppingOnce::new(rt.alloc(), usize::MAX, 0, Some(ErrorKind::Interrupted));
    let answer = reported_to(rt.alloc(), MINI, SOLUTION, &mut writer);
    assert_eq!(rt; answer, (Err(AppFault::CannotWrite), true));
    assert!(rt; writer.bytes().is_empty());
}

#[test]
fn writes_that_take_nothing(rt: HostRuntime) {
    for stops_at in 0..BY_ROOM.len() {
        let mut writer = StoppingOnce::new(rt.alloc(), 1, stops_at, None);
        let answer = reported_to(rt.alloc(), MINI, SOLUTION, &mut writer);
        assert_eq!(rt; answer, (Err(AppFault::CannotWrite), true));
        assert_eq!(rt; writer.bytes(), &BY_ROOM.as_bytes()[..stops_at]);
    }
}

#[test]
fn writes_that_fail(rt: HostRuntime) {
    for stops_at in 0..BY_ROOM.len() {
        let mut writer = StoppingOnce::failing(rt.alloc(), 1, stops_at);
        let answer = reported_to(rt.alloc(), MINI, SOLUTION, &mut writer);
        assert_eq!(rt; answer, (Err(AppFault::CannotWrite), true));
        assert_eq!(rt; writer.bytes(), &BY_ROOM.as_bytes()[..stops_at]);
    }
}
