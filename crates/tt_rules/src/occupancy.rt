//! Room occupancy: one for each entry of a room and a period except the first.

ghost use Rattle.std.specs.Prelude.{◌≡◌, ◌<◌, ◌≤◌, ◌-◌, ◌&&◌, length, sum_by, count_by, All};
ghost use Rattle.std.specs.List.{list_any};
ghost use Rattle.tt_instance.specs.Cells.{InRange, all_slots, is_in, is_at};
ghost use Rattle.tt_rules.specs.Hard.{entries_in, occupancy_count};
ghost use Rattle.tt_table.specs.declared.groups.GroupBy.TheVariants as by;
ghost use Rattle.tt_table.specs.declared.table.TheConstants.{MAX_ENTRIES};
ghost use Rattle.tt_table.specs.declared.groups.TheConstants.{GROUPS};
ghost use Rattle.tt_rules.specs.declared.limit.TheConstants.{MAX_COUNT};

use crate::distinct;
use tt_instance::Instance;
use tt_table::Groups;

/// Counts the entries in a room.
fn entries_in(by_room: &Groups<'_>, room: u32) -> u64
    requires by { by_room.now.by ≡ by.Room }
    requires room { room < GROUPS }
    requires at_most { length by_room.now.entries ≤ MAX_ENTRIES }
    ensures count { result ≡ count_by (is_in room) by_room.now.entries }
    ensures at_most { result ≤ length by_room.now.entries }
{
    by_room.in_room(room).len()
}

/// Counts the periods in which the room is used.
fn periods_of(instance: &Instance<'_>, by_room: &Groups<'_>, room: u32) -> u64
    requires by { by_room.now.by ≡ by.Room }
    requires room { room < GROUPS }
    requires in_range { All (InRange instance.now) by_room.now.entries }
    ensures { result
        ≡ count_by (λ s. list_any (λ e. is_in room e && is_at s e) by_room.now.entries)
        (all_slots instance.now) }
{
    distinct::periods(instance, by_room.in_room(room))
}

/// Counts the entries of a room except the first of each period.
fn doubled(instance: &Instance<'_>, by_room: &Groups<'_>, room: u32) -> u64
    requires by { by_room.now.by ≡ by.Room }
    requires room { room < GROUPS }
    requires in_range { All (InRange instance.now) by_room.now.entries }
    requires at_most { length by_room.now.entries ≤ MAX_ENTRIES }
    ensures count { result
        ≡ sum_by (λ s. entries_in by_room.now.entries room s - 1) (all_slots instance.now) }
    ensures at_most { result ≤ MAX_ENTRIES }
{
    entries_in(by_room, room).saturating_sub(periods_of(instance, by_room, room))
}

/// Counts the entries of each room and period except the first, in total.
#[tactic(auto, using(tt_list_laws::proofs::Numbers::sum_more))]
pub fn count(instance: &Instance<'_>, by_room: &Groups<'_>) -> u64
    requires by { by_room.now.by ≡ by.Room }
    requires in_range { All (InRange instance.now) by_room.now.entries }
    requires at_most { length by_room.now.entries ≤ MAX_ENTRIES }
    ensures count { result ≡ occupancy_count instance.now by_room.now.entries }
    ensures within { result ≤ MAX_COUNT }
{
    let mut total: u64 = 0;
    for room in 0..instance.rooms() {
        total += doubled(instance, by_room, room);
    }
    total
}
