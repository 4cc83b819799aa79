//! Why there is no timetable.

use crate::impossible::put_impossible;
use std::alloc::{AllocError, Global};
use tt_inspect_words::{Counted, Counts, Noun, put_names};
use tt_instance::Instance;
use tt_leaf::{Bound, Leaf};
use tt_path::Who;
use tt_proof_read::{MAX_PROOF_NODES, Node, NodeReader, TextFault};
use tt_text::Pieces;

/// How many bytes of a proof are read at once.
const PIECE: usize = 65_536;

/// Says, in lines that each end with a line feed, why no timetable breaks no hard rule; `None` if no plain reason is found.
pub fn explain_shortages(
    alloc: Global,
    instance: &Instance<'_>,
) -> Result<Option<String>, AllocError> {
    let counts = Counts::of(alloc, instance)?;
    let mut text = String::new(alloc);
    if put_impossible(&mut text, instance, &counts)? {
        Ok(Some(text))
    } else {
        Ok(None)
    }
}

/// The leaves of a tree, and how many of them name each course.
#[derive(Drop)]
struct Ends {
    leaves: u64,
    named: Vec<u64>,
}

impl Ends {
    fn name(&mut self, course: u32) {
        if let Some(count) = self.named.get_mut(course as usize) {
            *count = count.saturating_add(1);
        }
    }

    fn name_each(&mut self, courses: &[u32]) {
        for course in courses {
            self.name(*course);
        }
    }

    /// Counts a leaf, and the courses that it names.
    fn take(&mut self, instance: &Instance<'_>, leaf: &Leaf) {
        self.leaves = self.leaves.saturating_add(1);
        match leaf {
            Leaf::Empty(pattern) => match pattern.who {
                Who::Course(course) => self.name(course),
                Who::Curriculum(curriculum) => {
                    if curriculum < instance.curricula() {
                        self.name_each(instance.members(curriculum));
                    }
                }
            },
            Leaf::Many(course) => self.name(*course),
            Leaf::Clique(courses) => self.name_each(courses.as_slice()),
            Leaf::Slots(courses) => self.name_each(courses.as_slice()),
            Leaf::Cost(_) => {}
        }
    }

    fn count(&self, course: u32) -> u64 {
        self.named.get(course as usize).copied().unwrap_or(0)
    }

    /// Returns the courses that are named, those that most leaves name first.
    fn courses(&self, alloc: Global, instance: &Instance<'_>) -> Result<Vec<u32>, AllocError> {
        let mut courses = Vec::new(alloc);
        for course in 0..instance.courses() {
            if self.count(course) > 0 {
                courses.push(course)?;
            }
        }
        courses.sort_unstable_by_key(|course| (
            u64::MAX.saturating_sub(self.count(*course)),
            *course,
        ));
        Ok(courses)
    }
}

/// Returns what was read; `None` if the text is faulty.
fn if_read<T>(read: Result<T, TextFault>) -> Result<Option<T>, AllocError> {
    match read {
        Ok(read) => Ok(Some(read)),
        Err(TextFault::OutOfMemory) => Err(AllocError),
        Err(_) => Ok(None),
    }
}

/// Reads the leaves of a proof that there is no timetable; `None` if the text is none.
fn read_ends(
    alloc: Global,
    instance: &Instance<'_>,
    proof: &[u8],
) -> Result<Option<Ends>, AllocError> {
    let mut source = Pieces::new(proof, PIECE, 0);
    let Some(mut reader) = if_read(NodeReader::new(alloc, instance, &mut source))? else {
        return Ok(None);
    };
    if reader.bound() != Bound::Nothing {
        return Ok(None);
    }
    let mut ends = Ends {
        leaves: 0,
        named: vec![in alloc; 0u64; instance.courses() as usize]?,
    };
    for _ in 0..MAX_PROOF_NODES {
        match if_read(reader.next_node(&mut source))? {
            Some(Some(Node::Leaf(leaf))) => ends.take(instance, &leaf),
            Some(Some(Node::Split(_))) => {}
            Some(None) => break,
            None => return Ok(None),
        }
    }
    Ok(Some(ends))
}

/// Names, in a line, the courses of the leaves of a proof that there is no timetable, those that most leaves name first; `None` if the text
/// is no such proof. It isn't checked.
pub fn explain_tree(
    alloc: Global,
    instance: &Instance<'_>,
    proof: &[u8],
) -> Result<Option<String>, AllocError> {
    let Some(ends) = read_ends(alloc, instance, proof)? else {
        return Ok(None);
    };
    let courses = ends.courses(alloc, instance)?;
    let cases = Counted(ends.leaves, Noun::CaseThatWas);
    let mut text = String::new(alloc);
    write!(
        text,
        "no timetable: {cases} tried, and each fails at some of these courses: "
    )?;
    put_names(&mut text, instance, &courses)?;
    text.push_str("\n")?;
    Ok(Some(text))
}
