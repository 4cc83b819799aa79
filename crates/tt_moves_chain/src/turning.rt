//! Chains whose entries change periods.

ghost use Rattle.std.specs.Prelude.{◌≡◌, ℕ, ◌<◌, ◌↔◌, true, false, length, All, EachIndex, slice_index, IsTrue};
ghost use Rattle.tt_list_laws.specs.Words.{has_number};
ghost use Rattle.tt_rules.specs.Hard.{entries_of};
ghost use Rattle.tt_rules.specs.Score.{IsFeasible};
ghost use Rattle.tt_occupancy.specs.Filled.{entry_at};
ghost use Rattle.tt_moves_chain.specs.Answers.{IsOf, IsPeriod, MayTurn};
ghost use Rattle.tt_moves_chain.specs.Chains.{linked, swapped};

use crate::kempe::Chain;
use crate::seeking::{is_barred, other_period};
use crate::spreading::is_linked;
use tt_instance::{Instance, Slot};
use tt_occupancy::Occupied;

/// Checks whether a period is one of the week.
fn is_period(instance: &Instance<'_>, slot: Slot) -> bool
    ensures { IsTrue result ↔ IsPeriod instance.now slot }
{
    slot.day < instance.days() && slot.period < instance.periods()
}

impl Chain {
    /// Checks whether an entry is a member.
    fn has(&self, index: u32) -> bool
        ensures { result ≡ has_number self.now.members index }
    {
        self.members.contains(&index)
    }

    /// Checks that another entry is a member if it is linked to a given one.
    fn has_link(&self, occupied: &Occupied<'_, '_>, index: u32, other: u32) -> bool
        requires index { index < length occupied.now.entries }
        requires other { other < length occupied.now.entries }
        ensures { IsTrue result ↔ (linked occupied.now.problem self.now.from self.now.to
            (entry_at occupied.now.entries index) (entry_at occupied.now.entries other) ≡ true
            → has_number self.now.members other ≡ true) }
    {
        let one = occupied.entry(index);
        let two = occupied.entry(other);
        !is_linked(occupied.instance(), self.pair, &one, &two) || self.has(other)
    }

    /// Checks that each entry that is linked to a given one is a member.
    fn has_links_of(&self, occupied: &Occupied<'_, '_>, index: u32) -> bool
        requires { index < length occupied.now.entries }
        ensures { IsTrue result ↔ ((j : ℕ) → j < length occupied.now.entries
            → linked occupied.now.problem self.now.from self.now.to
            (entry_at occupied.now.entries index) (entry_at occupied.now.entries j) ≡ true
            → has_number self.now.members j ≡ true) }
    {
        for other in 0..occupied.table().len() as u32 {
            if !self.has_link(occupied, index, other) {
                return false;
            }
        }
        true
    }

    /// Checks whether a member may change its period.
    fn can_turn(&self, occupied: &Occupied<'_, '_>, index: u32) -> bool
        ensures { IsTrue result ↔ MayTurn occupied.now.problem occupied.now.entries self.now.from self.now.to
            self.now.members index }
    {
        if index as usize >= occupied.table().len() {
            return false;
        }
        let entry = occupied.entry(index);
        let is_in_either = entry.is_at(self.pair.from) || entry.is_at(self.pair.to);
        is_in_either && !is_barred(occupied, self.pair, index) && self.has_links_of(occupied, index)
    }

    /// Checks whether the members can change periods in a timetable: each entry that is linked to
    /// one of them is a member, and their other periods are available.
    pub fn is_of(&self, occupied: &Occupied<'_, '_>) -> bool
        ensures { IsTrue result ↔ IsOf occupied.now.problem occupied.now.entries self.now }
    {
        let instance = occupied.instance();
        if !is_period(instance, self.pair.from) || !is_period(instance, self.pair.to) {
            return false;
        }
        for member in self.members() {
            if !self.can_turn(occupied, *member) {
                return false;
            }
        }
        true
    }
}

/// Moves each member to the other period, and leaves it in its room.
pub fn swap_chain(occupied: &mut Occupied<'_, '_>, chain: &Chain)
    requires { IsOf occupied.old.problem occupied.old.entries chain.now }
    ensures swapped { occupied.new ≡ record {
      problem = occupied.old.problem;
      entries = swapped chain.now.from chain.now.to (has_number chain.now.members) occupied.old.entries;
    } }
    ensures courses { (c : ℕ) → entries_of occupied.new.entries c ≡ entries_of occupied.old.entries c }
    ensures feasible { IsFeasible occupied.old.problem occupied.old.entries
        → IsFeasible occupied.old.problem occupied.new.entries }
{
    for member in chain.members() {
        let entry = occupied.entry(*member);
        let place = other_period(chain.pair, entry);
        occupied.move_entry(*member, entry.room, place.day, place.period);
    }
}
