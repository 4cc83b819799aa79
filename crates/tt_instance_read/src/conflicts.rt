//! Which courses conflict.

ghost use Rattle.std.specs.Prelude.{◌≡◌, ◌<◌, ◌==◌, ℕ, not, ◌||◌, ◌&&◌, length, map, All, IfOk, slice_index_or};
ghost use Rattle.std.specs.List.{list_any};
ghost use Rattle.tt_list_laws.specs.Words.{has_number};
ghost use Rattle.tt_instance.specs.Inner.Indexed.{IsMarked, IsIndexedParts, IsExcluding, IsSquare, mark_at};
ghost use Rattle.tt_instance.specs.Seen.{problem_seen};

use std::alloc::{AllocError, Global};
use tt_instance::{CourseRow, CurriculumRow, Marks, MemberList, Parts};

/// Returns marks of the courses that have this teacher.
fn marks_of_teacher(
    alloc: Global,
    courses: &[CourseRow<'_>],
    teacher: u32,
) -> Result<Marks, AllocError>
    ensures { IfOk result (λ m. m ≡ map (λ r. r.teacher == teacher) courses.now) }
{
    let mut marks = Marks::new(alloc, courses.len())?;
    for (course, row) in courses.iter().enumerate() {
        marks.mark_if(course, row.teacher == teacher);
    }
    Ok(marks)
}

/// Returns for each course the courses that have its teacher.
fn teacher_rows(alloc: Global, courses: &[CourseRow<'_>]) -> Result<Vec<Marks>, AllocError>
    ensures { IfOk result (λ v. v.items ≡ map (λ x. map (λ r. r.teacher == x.teacher) courses.now) courses.now) }
{
    let mut rows = Vec::new(alloc);
    for course in courses {
        rows.push(marks_of_teacher(alloc, courses, course.teacher)?)?;
    }
    Ok(rows)
}

/// Marks the members of a curriculum in the row of each member.
fn add_members(rows: &mut Vec<Marks>, members: &MemberList)
    requires square { IsSquare rows.old.items }
    requires within { All (λ c. c < length rows.old.items) members.now.courses.items }
    requires marked { IsMarked (length rows.old.items) members.now }
    ensures len { length rows.new.items ≡ length rows.old.items }
    ensures square { IsSquare rows.new.items }
    ensures marked { (a b : ℕ) → mark_at rows.new.items a b
        ≡ (mark_at rows.old.items a b || (has_number members.now.courses.items a && has_number members.now.courses.items b)) }
{
    for member in &members.courses {
        rows[*member as usize].mark_all(&members.marks);
    }
}

/// Marks the members of each curriculum in the row of each member.
fn add_curricula(rows: &mut Vec<Marks>, curricula: &[CurriculumRow<'_>])
    requires square { IsSquare rows.old.items }
    requires within { All (λ q. All (λ c. c < length rows.old.items) q.members.courses.items) curricula.now }
    requires each_marked { All (λ q. IsMarked (length rows.old.items) q.members) curricula.now }
    ensures len { length rows.new.items ≡ length rows.old.items }
    ensures square { IsSquare rows.new.items }
    ensures marked { (a b : ℕ) → mark_at rows.new.items a b
        ≡ (mark_at rows.old.items a b
        || list_any (λ q. has_number q.members.courses.items a && has_number q.members.courses.items b) curricula.now) }
{
    for curriculum in curricula {
        add_members(rows, &curriculum.members);
    }
}

/// Removes the mark of each course in its own row.
fn clear_own(rows: &mut Vec<Marks>)
    requires { IsSquare rows.old.items }
    ensures len { length rows.new.items ≡ length rows.old.items }
    ensures square { IsSquare rows.new.items }
    ensures marked { (a b : ℕ) → mark_at rows.new.items a b ≡ (not (a == b) && mark_at rows.old.items a b) }
{
    for course in 0..rows.len() {
        rows[course].clear(course);
    }
}

/// Returns for each course the courses with which it conflicts: teacher by teacher and curriculum by curriculum.
pub fn conflict_rows(alloc: Global, parts: &Parts<'_>) -> Result<Vec<Marks>, AllocError>
    requires { IsIndexedParts parts.now }
    ensures { IfOk result (λ v. IsExcluding (problem_seen parts.now) v.items) }
{
    let mut rows = teacher_rows(alloc, &parts.courses.rows)?;
    add_curricula(&mut rows, &parts.curricula);
    clear_own(&mut rows);
    Ok(rows)
}
