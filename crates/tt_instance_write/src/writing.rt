//! The canonical text of an instance.

ghost use Rattle.std.specs.Prelude.{◌≡◌, ◌<◌, [], ◌∷◌, ◌++◌, length, map, All, OnOk, IfOk};
ghost use Rattle.std.specs.Fmt.{decimal};
ghost use Rattle.tt_text.specs.Pieces.{Text};
ghost use Rattle.tt_text.specs.Lines.{line_text, lines_text};
ghost use Rattle.tt_instance_read.specs.declared.fault.Word.TheVariants as word;
ghost use Rattle.tt_instance_read.specs.Words.{fixed};
ghost use Rattle.tt_instance.specs.Limits.{IsInstance};
ghost use Rattle.tt_instance.specs.Spelling.{course_pieces, room_pieces, curriculum_pieces, unavailability_pieces, Spells};
ghost use Rattle.tt_instance_write.specs.Writing.{counted_line, section, header_lines, instance_text};
ghost use Rattle.tt_instance.specs.Seen.{name_seen, course_seen, courses_seen, room_seen, rooms_seen, curriculum_seen, curricula_seen, unavailability_seen, unavailabilities_seen, problem_seen};

use std::alloc::{AllocError, Global};
use tt_instance::{CourseRow, CurriculumRow, Instance, Parts, RoomRow, UnavailabilityRow};
use tt_instance_read::Word;
use tt_text::{put_number, put_token};

/// Appends a space and a token.
fn put_text(out: &mut Vec<u8>, token: &[u8]) -> Result<(), AllocError>
    ensures { OnOk result (out.new.items ≡ out.old.items ++ 32 ∷ token.now) }
{
    put_token(out, b" ")?;
    put_token(out, token)
}

/// Appends a space and a number.
fn put_value(out: &mut Vec<u8>, number: u64) -> Result<(), AllocError>
    ensures { OnOk result (out.new.items ≡ out.old.items ++ 32 ∷ decimal number) }
{
    put_token(out, b" ")?;
    put_number(out, number)
}

/// Appends the end of a line.
fn put_end(out: &mut Vec<u8>) -> Result<(), AllocError>
    ensures { OnOk result (out.new.items ≡ out.old.items ++ 10 ∷ []) }
{
    put_token(out, b"\n")
}

/// Appends a line of a word and a number.
fn put_count(out: &mut Vec<u8>, word: Word, count: usize) -> Result<(), AllocError>
    ensures { OnOk result (out.new.items ≡ out.old.items ++ line_text (counted_line word count)) }
{
    put_token(out, word.text())?;
    put_value(out, count as u64)?;
    put_end(out)
}

/// Appends an empty line and the word of a section.
fn put_section(out: &mut Vec<u8>, word: Word) -> Result<(), AllocError>
    ensures { OnOk result (out.new.items ≡ out.old.items ++ lines_text (section word)) }
{
    put_end(out)?;
    put_token(out, word.text())?;
    put_end(out)
}

/// Appends the line of the name.
fn put_name(out: &mut Vec<u8>, name: &[&[u8]]) -> Result<(), AllocError>
    ensures { OnOk result (out.new.items ≡ out.old.items
        ++ line_text (fixed word.Name ∷ map Text (name_seen name.now))) }
{
    put_token(out, Word::Name.text())?;
    for token in name {
        put_text(out, token)?;
    }
    put_end(out)
}

/// Appends the lines before the first section.
fn put_header(out: &mut Vec<u8>, parts: &Parts<'_>) -> Result<(), AllocError>
    ensures { OnOk result (out.new.items ≡ out.old.items
        ++ lines_text (header_lines (problem_seen parts.now))) }
{
    put_name(out, &parts.name)?;
    put_count(out, Word::Courses, parts.courses.rows.len())?;
    put_count(out, Word::Rooms, parts.rooms.len())?;
    put_count(out, Word::Days, parts.days as usize)?;
    put_count(out, Word::PeriodsPerDay, parts.periods as usize)?;
    put_count(out, Word::Curricula, parts.curricula.len())?;
    put_count(out, Word::Constraints, parts.unavailabilities.rows.len())
}

/// Appends the line of a course.
fn put_course(out: &mut Vec<u8>, row: &CourseRow<'_>) -> Result<(), AllocError>
    ensures { OnOk result (out.new.items ≡ out.old.items
        ++ line_text (course_pieces (course_seen row.now))) }
{
    put_token(out, row.id)?;
    put_text(out, row.teacher_name)?;
    put_value(out, u64::from(row.lectures))?;
    put_value(out, u64::from(row.min_days))?;
    put_value(out, u64::from(row.students))?;
    put_end(out)
}

/// Appends the section of the courses.
fn put_courses(out: &mut Vec<u8>, rows: &[CourseRow<'_>]) -> Result<(), AllocError>
    ensures { OnOk result (out.new.items ≡ out.old.items
        ++ lines_text (section word.CoursesPart ++ map course_pieces (courses_seen rows.now))) }
{
    put_section(out, Word::CoursesPart)?;
    for row in rows {
        put_course(out, row)?;
    }
    Ok(())
}

/// Appends the line of a room.
fn put_room(out: &mut Vec<u8>, row: &RoomRow<'_>) -> Result<(), AllocError>
    ensures { OnOk result (out.new.items ≡ out.old.items
        ++ line_text (room_pieces (room_seen row.now))) }
{
    put_token(out, row.id)?;
    put_value(out, u64::from(row.capacity))?;
    put_end(out)
}

/// Appends the section of the rooms.
fn put_rooms(out: &mut Vec<u8>, rows: &[RoomRow<'_>]) -> Result<(), AllocError>
    ensures { OnOk result (out.new.items ≡ out.old.items
        ++ lines_text (section word.RoomsPart ++ map room_pieces (rooms_seen rows.now))) }
{
    put_section(out, Word::RoomsPart)?;
    for row in rows {
        put_room(out, row)?;
    }
    Ok(())
}

/// Appends the line of a curriculum.
fn put_curriculum(
    out: &mut Vec<u8>,
    courses: &[CourseRow<'_>],
    row: &CurriculumRow<'_>,
) -> Result<(), AllocError>
    requires { All (λ c. c < length courses.now) row.now.members.courses.items }
    ensures { OnOk result (out.new.items ≡ out.old.items
        ++ line_text (curriculum_pieces (courses_seen courses.now) (curriculum_seen row.now))) }
{
    put_token(out, row.id)?;
    put_value(out, row.members.courses.len() as u64)?;
    for member in &row.members.courses {
        put_text(out, courses[*member as usize].id)?;
    }
    put_end(out)
}

/// Appends the section of the curricula.
fn put_curricula(
    out: &mut Vec<u8>,
    courses: &[CourseRow<'_>],
    rows: &[CurriculumRow<'_>],
) -> Result<(), AllocError>
    requires { All (λ q. All (λ c. c < length courses.now) q.members.courses.items) rows.now }
    ensures { OnOk result (out.new.items ≡ out.old.items
        ++ lines_text (section word.CurriculaPart
        ++ map (curriculum_pieces (courses_seen courses.now)) (curricula_seen rows.now))) }
{
    put_section(out, Word::CurriculaPart)?;
    for row in rows {
        put_curriculum(out, courses, row)?;
    }
    Ok(())
}

/// Appends the line of an unavailability.
fn put_unavailability(
    out: &mut Vec<u8>,
    courses: &[CourseRow<'_>],
    row: UnavailabilityRow,
) -> Result<(), AllocError>
    requires { row.course < length courses.now }
    ensures { OnOk result (out.new.items ≡ out.old.items
        ++ line_text (unavailability_pieces (courses_seen courses.now) (unavailability_seen row))) }
{
    put_token(out, courses[row.course as usize].id)?;
    put_value(out, u64::from(row.day))?;
    put_value(out, u64::from(row.period))?;
    put_end(out)
}

/// Appends the section of the unavailabilities.
fn put_unavailabilities(
    out: &mut Vec<u8>,
    courses: &[CourseRow<'_>],
    rows: &[UnavailabilityRow],
) -> Result<(), AllocError>
    requires { All (λ b. b.course < length courses.now) rows.now }
    ensures { OnOk result (out.new.items ≡ out.old.items
        ++ lines_text (section word.UnavailabilityPart
        ++ map (unavailability_pieces (courses_seen courses.now)) (unavailabilities_seen rows.now))) }
{
    put_section(out, Word::UnavailabilityPart)?;
    for row in rows {
        put_unavailability(out, courses, *row)?;
    }
    Ok(())
}

/// Returns the text of the parts of an instance.
fn write_parts(alloc: Global, parts: &Parts<'_>) -> Result<Vec<u8>, AllocError>
    requires { IsInstance (problem_seen parts.now) }
    ensures { IfOk result (λ t. t.items ≡ instance_text (problem_seen parts.now)) }
{
    let mut out = Vec::new(alloc);
    put_header(&mut out, parts)?;
    put_courses(&mut out, &parts.courses.rows)?;
    put_rooms(&mut out, &parts.rooms)?;
    put_curricula(&mut out, &parts.courses.rows, &parts.curricula)?;
    put_unavailabilities(&mut out, &parts.courses.rows, &parts.unavailabilities.rows)?;
    put_section(&mut out, Word::End)?;
    Ok(out)
}

/// Returns the canonical text of an instance: `read_instance` of it gives this instance again.
pub fn write_instance(alloc: Global, instance: &Instance<'_>) -> Result<Vec<u8>, AllocError>
    ensures text { IfOk result (λ t. t.items ≡ instance_text instance.now) }
    ensures again { IfOk result (λ t. Spells t.items instance.now) }
{
    write_parts(alloc, instance.parts())
}
