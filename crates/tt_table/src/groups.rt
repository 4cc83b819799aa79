//! The entries of a timetable by course, by room or by period, each group in the timetable's order.

ghost use Rattle.std.specs.Prelude.{◌≡◌, ◌+◌, ◌<◌, ◌≤◌, length, filter, drop, All, Some, slice_get, IfSome};
ghost use Rattle.tt_instance.specs.Cells.{InRange, is_of, is_in, is_at, slot};
ghost use Rattle.tt_table.specs.declared.groups.GroupBy.TheVariants as by;
ghost use Rattle.tt_table.specs.Groups.{group_of, in_group, first_at, IsLinked, Grouped};

use crate::table::MAX_ENTRIES;
use std::marker::Model;
use tt_instance::{Cell as Entry, Instance, MAX_COURSES, MAX_ROOMS};

/// At least the number of courses, of rooms, and of periods of the week.
pub const GROUPS: usize = 2048;

/// The criterion by which entries are grouped.
#[derive(Clone, Copy)]
pub enum GroupBy {
    Course,
    Room,
    /// By period of the week; a day has this many periods.
    Period(u32),
}

impl GroupBy {
    /// Returns the number of an entry's group.
    fn group_of(self, entry: &Entry) -> usize
        requires { group_of self entry.now < GROUPS }
        ensures { result ≡ group_of self entry.now }
    {
        let number = match self {
            GroupBy::Course => entry.course,
            GroupBy::Room => entry.room,
            GroupBy::Period(periods) => entry.day * periods + entry.period,
        };
        number as usize
    }
}

/// The first entry of each group, and for each entry the next one of its group.
#[derive(Drop)]
struct Links {
    first: [u16; GROUPS],
    next: [u16; MAX_ENTRIES],
}

/// Links the entries from the last to the first.
fn link(entries: &[Entry], by: GroupBy) -> Links
    requires at_most { length entries.now ≤ MAX_ENTRIES }
    requires inside { All (λ e. group_of by e < GROUPS) entries.now }
    ensures { IsLinked by entries.now result.first result.next }
{
    let none = entries.len() as u16;
    let mut links = Links {
        first: [none; GROUPS],
        next: [none; MAX_ENTRIES],
    };
    for behind in 0..entries.len() {
        let index = entries.len() - 1 - behind;
        let group = by.group_of(&entries[index]);
        links.next[index] = links.first[group];
        links.first[group] = index as u16;
    }
    links
}

/// The entries of a timetable in groups.
#[derive(Drop)]
pub struct Groups<'t> {
    entries: &'t [Entry],
    by: GroupBy,
    links: Links,
}

impl<'t> Model for Groups<'t> {
    ghost use Rattle.tt_table.specs.Groups.{Grouped, IsLinked};

    ghost Value = { Grouped };

    ghost view = { λ g. record { by = g.by; entries = g.entries.now } };

    ghost invariant = { λ g. IsLinked g.by g.entries.now g.links.first g.links.next };
}

impl<'t> Groups<'t> {
    /// Groups the entries in one pass, without allocating memory.
    pub fn new(entries: &'t [Entry], by: GroupBy) -> Groups<'t>
        requires at_most { length entries.now ≤ MAX_ENTRIES }
        requires inside { All (λ e. group_of by e < GROUPS) entries.now }
        ensures { result ≡ record { by = by; entries = entries.now } }
    {
        let links = link(entries, by);
        Groups { entries, by, links }
    }

    /// Groups the entries by course.
    pub fn by_course(instance: &Instance<'_>, entries: &'t [Entry]) -> Groups<'t>
        requires in_range { All (InRange instance.now) entries.now }
        requires at_most { length entries.now ≤ MAX_ENTRIES }
        ensures { result ≡ record { by = by.Course; entries = entries.now } }
    {
        // Brings the instance's limits into the proof.
        prove!(instance.courses() <= MAX_COURSES);
        Groups::new(entries, GroupBy::Course)
    }

    /// Groups the entries by room.
    pub fn by_room(instance: &Instance<'_>, entries: &'t [Entry]) -> Groups<'t>
        requires in_range { All (InRange instance.now) entries.now }
        requires at_most { length entries.now ≤ MAX_ENTRIES }
        ensures { result ≡ record { by = by.Room; entries = entries.now } }
    {
        // Brings the instance's limits into the proof.
        prove!(instance.rooms() <= MAX_ROOMS);
        Groups::new(entries, GroupBy::Room)
    }

    /// Groups the entries by period of the week.
    pub fn by_period(instance: &Instance<'_>, entries: &'t [Entry]) -> Groups<'t>
        requires in_range { All (InRange instance.now) entries.now }
        requires at_most { length entries.now ≤ MAX_ENTRIES }
        ensures { result ≡ record { by = by.Period instance.now.periods; entries = entries.now } }
    {
        Groups::new(entries, GroupBy::Period(instance.periods()))
    }

    /// Returns the entries of a course, if entries are grouped by course.
    pub fn of_course(&self, course: u32) -> Group<'_>
        requires by { self.now.by ≡ by.Course }
        requires course { course < GROUPS }
        ensures group { result ≡ filter (is_of course) self.now.entries }
        ensures at_most { length result ≤ length self.now.entries }
    {
        self.of(course as usize)
    }

    /// Returns the entries in a room, if entries are grouped by room.
    pub fn in_room(&self, room: u32) -> Group<'_>
        requires by { self.now.by ≡ by.Room }
        requires room { room < GROUPS }
        ensures group { result ≡ filter (is_in room) self.now.entries }
        ensures at_most { length result ≤ length self.now.entries }
    {
        self.of(room as usize)
    }

    /// Returns the entries in a period, if entries are grouped by period.
    pub fn in_period(&self, instance: &Instance<'_>, day: u32, period: u32) -> Group<'_>
        requires by { self.now.by ≡ by.Period instance.now.periods }
        requires in_range { All (InRange instance.now) self.now.entries }
        requires day { day < instance.now.days }
        requires period { period < instance.now.periods }
        ensures group { result ≡ filter (is_at (slot day period)) self.now.entries }
        ensures at_most { length result ≤ length self.now.entries }
    {
        let periods = instance.periods();
        self.of((day * periods + period) as usize)
    }

    /// Returns the entries of a group.
    #[tactic(auto, using(crate::proofs::Grouping::led_few))]
    fn of(&self, group: usize) -> Group<'_>
        requires { group < GROUPS }
        ensures group { result ≡ filter (in_group self.now.by group) self.now.entries }
        ensures at_most { length result ≤ length self.now.entries }
    {
        Group {
            entries: self.entries,
            by: self.by,
            next: &self.links.next,
            at: self.links.first[group] as usize,
        }
    }

    /// Returns the entries after this one of the same group.
    #[tactic(auto, using(crate::proofs::Grouping::led_few))]
    pub fn after(&self, index: u32) -> Group<'_>
        requires { index < length self.now.entries }
        ensures group { IfSome (slice_get self.now.entries index)
            (λ e. result ≡ filter (in_group self.now.by (group_of self.now.by e)) (drop (index + 1) self.now.entries)) }
        ensures at_most { length result ≤ length self.now.entries }
    {
        Group {
            entries: self.entries,
            by: self.by,
            next: &self.links.next,
            at: self.links.next[index as usize] as usize,
        }
    }
}

/// Entries of one group, from one of them on.
#[derive(Drop)]
pub struct Group<'g> {
    entries: &'g [Entry],
    by: GroupBy,
    next: &'g [u16],
    at: usize,
}

impl<'g> Model for Group<'g> {
    ghost use Rattle.std.specs.Prelude.{List, drop};
    ghost use Rattle.tt_instance.specs.declared.cell.Cell.{Cell};
    ghost use Rattle.tt_table.specs.Groups.{led_group, IsChained};

    ghost Value = { List Cell };

    ghost view = { λ g. led_group g.by (drop g.at g.entries.now) };

    ghost invariant = { λ g. IsChained g.by g.entries.now g.next.now };
}

impl<'g> Group<'g> {
    /// Returns the number of entries.
    pub fn len(self) -> u64
        requires { length self ≤ MAX_ENTRIES }
        ensures { result ≡ length self.entry }
    {
        self.count() as u64
    }
}

impl<'g> Iterator for Group<'g> {
    ghost use Rattle.std.specs.Iterator.{YieldsFirstRef, item_count};

    type Item = &'g Entry;

    ghost next_gives = { YieldsFirstRef (λ group. group) };

    ghost remaining = { item_count (λ group. group) };

    #[tactic(auto, using(crate::proofs::Grouping::led_here))]
    fn next(&mut self) -> Option<&'g Entry> {
        let entry = self.entries.get(self.at)?;
        self.at = self.next[self.at] as usize;
        Some(entry)
    }
}
