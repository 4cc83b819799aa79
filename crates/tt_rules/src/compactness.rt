//! Curriculum compactness: 2 for each isolated entry of a curriculum.

ghost use Rattle.std.specs.Prelude.{◌≡◌, ℕ, ◌+◌, ◌-◌, ◌*◌, ◌<◌, ◌≤◌, ◌==◌, ◌&&◌, ◌||◌, not, false, length, slice_index_or, sum_by, count_by, All};
ghost use Rattle.std.specs.List.{list_any};
ghost use Rattle.tt_instance.specs.Cells.{InRange, is_of};
ghost use Rattle.tt_instance.specs.Courses.{in_curriculum};
ghost use Rattle.tt_rules.specs.Soft.{is_isolated, compactness_count};
ghost use Rattle.tt_rules.specs.Inner.Places.{place_of, is_alone};
ghost use Rattle.tt_table.specs.declared.groups.GroupBy.TheVariants as by;
ghost use Rattle.tt_table.specs.declared.table.TheConstants.{MAX_ENTRIES};
ghost use Rattle.tt_instance.specs.declared.limit.TheConstants.{MAX_COURSES, MAX_MEMBERS};
ghost use Rattle.tt_rules.specs.declared.marks.TheConstants.{PLACES};
ghost use Rattle.tt_rules.specs.declared.limit.TheConstants.{MAX_COUNT, MAX_PLACE};

use crate::marks::Marks;
use tt_instance::{ISOLATED_COST, Instance};
use tt_table::{Entry, Group, Groups};

/// Returns the place of an entry's period, from 1: day by day, with one free place between two days, so
/// that they do not join.
#[tactic(auto, using(crate::proofs::Neighbours::place_below))]
fn place(instance: &Instance<'_>, entry: &Entry) -> usize
    ensures value { result ≡ place_of instance.now entry.now }
    ensures within { result < MAX_PLACE }
    ensures at_most { InRange instance.now entry.now → result < PLACES }
{
    entry.day as usize * (instance.periods() as usize + 1) + entry.period as usize + 1
}

/// Marks the places of a group's entries.
fn mark_places(instance: &Instance<'_>, group: Group<'_>, marks: &mut Marks)
    requires { All (InRange instance.now) group }
    ensures { (k : ℕ) → slice_index_or marks.new k false
        ≡ (slice_index_or marks.old k false || list_any (λ e. place_of instance.now e == k) group.entry) }
{
    for entry in group {
        marks.add(place(instance, entry));
    }
}

/// Returns the places in which some of the courses are taught.
fn taught(instance: &Instance<'_>, by_course: &Groups<'_>, courses: &[u32]) -> Marks
    requires by { by_course.now.by ≡ by.Course }
    requires courses { All (λ c. c < MAX_COURSES) courses.now }
    requires in_range { All (InRange instance.now) by_course.now.entries }
    ensures { (k : ℕ) → slice_index_or result k false
        ≡ list_any (λ c. list_any (λ e. is_of c e && (place_of instance.now e == k)) by_course.now.entries) courses.now }
{
    let mut marks = Marks::none();
    for course in courses {
        mark_places(instance, by_course.of_course(*course), &mut marks);
    }
    marks
}

/// Counts the entries of a group with no mark immediately before or after their place.
fn alone(instance: &Instance<'_>, group: Group<'_>, taught: &Marks) -> u64
    requires at_most { length group ≤ MAX_ENTRIES }
    ensures count { result ≡ count_by (is_alone instance.now taught.now) group.entry }
    ensures at_most { result ≤ length group.entry }
{
    group
        .filter(|entry| {
            let place = place(instance, entry);
            !(taught.has(place + 1) || taught.has(place - 1))
        })
        .count() as u64
}

/// Counts the entries of courses with no mark immediately before or after their place.
fn alone_of(instance: &Instance<'_>, by_course: &Groups<'_>, courses: &[u32], taught: &Marks) -> u64
    requires by { by_course.now.by ≡ by.Course }
    requires courses { All (λ c. c < MAX_COURSES) courses.now }
    requires listed { length courses.now ≤ MAX_MEMBERS }
    requires at_most { length by_course.now.entries ≤ MAX_ENTRIES }
    ensures count { result
        ≡ sum_by (λ c. count_by (λ e. is_of c e && is_alone instance.now taught.now e) by_course.now.entries) courses.now }
{
    let mut total: u64 = 0;
    for course in courses {
        total += alone(instance, by_course.of_course(*course), taught);
    }
    total
}

/// Counts the isolated entries of a curriculum.
fn isolated(instance: &Instance<'_>, by_course: &Groups<'_>, curriculum: u32) -> u64
    requires by { by_course.now.by ≡ by.Course }
    requires curriculum { curriculum < length instance.now.curricula }
    requires in_range { All (InRange instance.now) by_course.now.entries }
    requires at_most { length by_course.now.entries ≤ MAX_ENTRIES }
    ensures count { result ≡ count_by (λ e. in_curriculum instance.now curriculum e.course
        && is_isolated instance.now by_course.now.entries curriculum e) by_course.now.entries }
    ensures at_most { result ≤ length by_course.now.entries }
{
    // Brings the instance's limits into the proof.
    prove!(instance.days() > 0);
    let members = instance.members(curriculum);
    let taught = taught(instance, by_course, members);
    alone_of(instance, by_course, members, &taught)
}

/// Returns the cost of all curricula.
#[tactic(auto, using(tt_list_laws::proofs::Numbers::sum_more))]
pub fn cost(instance: &Instance<'_>, by_course: &Groups<'_>) -> u64
    requires by { by_course.now.by ≡ by.Course }
    requires in_range { All (InRange instance.now) by_course.now.entries }
    requires at_most { length by_course.now.entries ≤ MAX_ENTRIES }
    ensures cost { result ≡ compactness_count instance.now by_course.now.entries }
    ensures within { result ≤ MAX_COUNT }
{
    let mut total: u64 = 0;
    for curriculum in 0..instance.curricula() {
        total += u64::from(ISOLATED_COST) * isolated(instance, by_course, curriculum);
    }
    total
}
