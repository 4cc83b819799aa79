//! Calls that allocate memory, each between two marks: hostile/run.py refuses their allocations in turn. A call returns the same result as
//! without a refusal, or that memory ran out, and then its borrowed arguments are unchanged.

use std::test::Fail;
use tt_instance_read::read_instance;
use tt_instance_write::write_instance;
use tt_leaf::{Bound, ClaimList, Leaf};
use tt_proof_read::{Node, NodeReader, TextFault};
use tt_proof_write::write_proof;
use tt_table::{Entry, PushFault, Timetable, read_solution, write_solution};
use tt_testing_samples::{GAP, GAP_PROOF, MARK, MINI, MINI_SOLUTION};
use tt_text::{
    Feed, Pieces, put_line_end, put_next_number, put_next_token, put_number, put_token, read_whole,
};

#[test]
fn the_call_feed_new(rt: HostRuntime) -> Result<(), Fail> {
    println!(rt; "{MARK}")?;
    let feed = Feed::new(rt.alloc());
    println!(rt; "{MARK}")?;
    assert_eq!(rt; feed?.token(), b"".as_slice());
    Ok(())
}

#[test]
fn the_call_read_whole(rt: HostRuntime) -> Result<(), Fail> {
    let mut source = Pieces::new(MINI.as_bytes(), 100, 0);
    println!(rt; "{MARK}")?;
    let whole = read_whole(rt.alloc(), &mut source, 188);
    println!(rt; "{MARK}")?;
    assert_eq!(rt; whole?.as_slice(), MINI.as_bytes());
    Ok(())
}

#[test]
fn the_call_put_token(rt: HostRuntime) -> Result<(), Fail> {
    let mut bytes = b"ab".to_vec(rt.alloc())?;
    println!(rt; "{MARK}")?;
    let put = put_token(&mut bytes, b"course");
    println!(rt; "{MARK}")?;
    let after = if put.is_ok() {
        b"abcourse".as_slice()
    } else {
        b"ab"
    };
    assert_eq!(rt; bytes.as_slice(), after);
    Ok(put?)
}

#[test]
fn the_call_put_number(rt: HostRuntime) -> Result<(), Fail> {
    let mut bytes = b"ab".to_vec(rt.alloc())?;
    println!(rt; "{MARK}")?;
    let put = put_number(&mut bytes, u64::MAX);
    println!(rt; "{MARK}")?;
    let after = if put.is_ok() {
        b"ab18446744073709551615".as_slice()
    } else {
        b"ab"
    };
    assert_eq!(rt; bytes.as_slice(), after);
    Ok(put?)
}

#[test]
fn the_call_put_next_token(rt: HostRuntime) -> Result<(), Fail> {
    let mut bytes = b"ab".to_vec(rt.alloc())?;
    println!(rt; "{MARK}")?;
    let put = put_next_token(&mut bytes, b"a long identifier");
    println!(rt; "{MARK}")?;
    let after = if put.is_ok() {
        b"ab a long identifier".as_slice()
    } else {
        b"ab"
    };
    assert_eq!(rt; bytes.as_slice(), after);
    Ok(put?)
}

#[test]
fn the_call_put_next_number(rt: HostRuntime) -> Result<(), Fail> {
    let mut bytes = b"ab".to_vec(rt.alloc())?;
    println!(rt; "{MARK}")?;
    let put = put_next_number(&mut bytes, u64::MAX);
    println!(rt; "{MARK}")?;
    let after = if put.is_ok() {
        b"ab 18446744073709551615".as_slice()
    } else {
        b"ab"
    };
    assert_eq!(rt; bytes.as_slice(), after);
    Ok(put?)
}

#[test]
fn the_call_put_line_end(rt: HostRuntime) -> Result<(), Fail> {
    let mut bytes = b"ab".to_vec(rt.alloc())?;
    println!(rt; "{MARK}")?;
    let put = put_line_end(&mut bytes);
    println!(rt; "{MARK}")?;
    let after = if put.is_ok() {
        b"ab\n".as_slice()
    } else {
        b"ab"
    };
    assert_eq!(rt; bytes.as_slice(), after);
    Ok(put?)
}

#[test]
fn the_call_read_instance(rt: HostRuntime) -> Result<(), Fail> {
    println!(rt; "{MARK}")?;
    let instance = read_instance(rt.alloc(), GAP.as_bytes());
    println!(rt; "{MARK}")?;
    let instance = instance?;
    let written = write_instance(rt.alloc(), &instance)?;
    assert_eq!(rt; written.as_slice(), GAP.as_bytes());
    Ok(())
}

#[test]
fn the_call_write_instance(rt: HostRuntime) -> Result<(), Fail> {
    let instance = read_instance(rt.alloc(), GAP.as_bytes())?;
    println!(rt; "{MARK}")?;
    let written = write_instance(rt.alloc(), &instance);
    println!(rt; "{MARK}")?;
    assert_eq!(rt; written?.as_slice(), GAP.as_bytes());
    Ok(())
}

#[test]
fn the_call_read_solution(rt: HostRuntime) -> Result<(), Fail> {
    let instance = read_instance(rt.alloc(), MINI.as_bytes())?;
    println!(rt; "{MARK}")?;
    let table = read_solution(rt.alloc(), &instance, MINI_SOLUTION.as_bytes());
    println!(rt; "{MARK}")?;
    assert_eq!(rt; table?.len(), 2);
    Ok(())
}

#[test]
fn the_call_write_solution(rt: HostRuntime) -> Result<(), Fail> {
    let instance = read_instance(rt.alloc(), MINI.as_bytes())?;
    let table = read_solution(rt.alloc(), &instance, MINI_SOLUTION.as_bytes())?;
    println!(rt; "{MARK}")?;
    let written = write_solution(rt.alloc(), &instance, &table);
    println!(rt; "{MARK}")?;
    assert_eq!(rt; written?.as_slice(), MINI_SOLUTION.as_bytes());
    Ok(())
}

#[test]
fn the_call_copy(rt: HostRuntime) -> Result<(), Fail> {
    let instance = read_instance(rt.alloc(), MINI.as_bytes())?;
    let table = read_solution(rt.alloc(), &instance, MINI_SOLUTION.as_bytes())?;
    println!(rt; "{MARK}")?;
    let copy = table.copy();
    println!(rt; "{MARK}")?;
    assert_eq!(rt; copy?.entries(), table.entries());
    Ok(())
}

/// Pushes a lecture of each of forty courses, until one is refused.
fn push_forty(table: &mut Timetable) -> Result<(), PushFault> {
    for course in 0..40 {
        table.push(Entry {
            course,
            room: 0,
            day: 0,
            period: 0,
        })?;
    }
    Ok(())
}

#[test]
fn the_call_push_of_timetables(rt: HostRuntime) -> Result<(), Fail> {
    let mut table = Timetable::new(rt.alloc());
    println!(rt; "{MARK}")?;
    let pushed = push_forty(&mut table);
    println!(rt; "{MARK}")?;
    for (place, entry) in table.entries().iter().enumerate() {
        assert_eq!(rt; entry.course as usize, place);
    }
    pushed?;
    assert_eq!(rt; table.len(), 40);
    Ok(())
}

#[test]
fn the_call_node_reader_new(rt: HostRuntime) -> Result<(), Fail> {
    let instance = read_instance(rt.alloc(), GAP.as_bytes())?;
    let mut source = Pieces::new(GAP_PROOF.as_bytes(), 64, 0);
    println!(rt; "{MARK}")?;
    let reader = NodeReader::new(rt.alloc(), &instance, &mut source);
    let bound = reader.map(|reader| reader.bound());
    println!(rt; "{MARK}")?;
    assert_eq!(rt; bound?, Bound::AtLeast(5));
    Ok(())
}

/// Reads nodes until there are no more, and returns their number.
fn nodes_read(reader: &mut NodeReader, source: &mut Pieces<'_>) -> Result<usize, TextFault> {
    for count in 0..20 {
        if reader.next_node(source)?.is_none() {
            return Ok(count);
        }
    }
    Ok(20)
}

/// Reads nodes between the marks until there are no more, and returns their number.
fn nodes_between_marks(
    rt: &impl Print,
    reader: &mut NodeReader,
    source: &mut Pieces<'_>,
) -> Result<usize, Fail> {
    println!(rt; "{MARK}")?;
    let count = nodes_read(reader, source);
    println!(rt; "{MARK}")?;
    // After an error it returns the same error again, although there is memory now.
    if count.is_err() && nodes_read(reader, source) != count {
        return Err(Fail::new(format_args!("another answer after a fault")));
    }
    Ok(count?)
}

#[test]
fn the_call_next_node(rt: HostRuntime) -> Result<(), Fail> {
    let instance = read_instance(rt.alloc(), GAP.as_bytes())?;
    let mut source = Pieces::new(GAP_PROOF.as_bytes(), 64, 0);
    let mut reader = NodeReader::new(rt.alloc(), &instance, &mut source)?;
    let count = nodes_between_marks(&rt, &mut reader, &mut source)?;
    assert_eq!(rt; count, 9);
    Ok(())
}

#[test]
fn the_call_write_proof(rt: HostRuntime) -> Result<(), Fail> {
    let nodes = [Node::Leaf(Leaf::Cost(ClaimList::new(Vec::new(rt.alloc()))))];
    println!(rt; "{MARK}")?;
    let text = write_proof(rt.alloc(), 1, Bound::AtLeast(0), &nodes);
    println!(rt; "{MARK}")?;
    assert_eq!(rt; text?.as_slice(), b"CTTP 1 bound 0\nB ;\nend\n".as_slice());
    Ok(())
}
