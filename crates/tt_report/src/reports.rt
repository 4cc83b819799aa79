//! The text of a report, and writing it to a sink.

ghost use Rattle.std.specs.Prelude.{◌≡◌, ◌<◌, length, flat_map, is_ok, All, OnOk, OnErr, true, if◌then◌else◌};
ghost use Rattle.std.specs.Io.KnownBytes.{Appends};
ghost use Rattle.tt_list_laws.specs.Words.{range_below};
ghost use Rattle.tt_text.specs.Lines.{line_text};
ghost use Rattle.tt_instance.specs.Cells.{InRange, slot};
ghost use Rattle.tt_instance.specs.Courses.{teachers};
ghost use Rattle.tt_table.specs.Table.{IsTimetable};
ghost use Rattle.tt_table.specs.declared.groups.GroupBy.TheVariants as group;
ghost use Rattle.tt_report.specs.Inner.Blocks.{IsBlock, entries_text, slot_text, day_text, block_text};
ghost use Rattle.tt_report.specs.Reports.{report_text};
ghost use Rattle.tt_text.specs.Sinks.{TakesPart};
ghost use Rattle.tt_report.specs.Puts.{Puts};
ghost use Rattle.tt_report.specs.declared.blocks.Block.TheVariants as of;

use crate::blocks::Block;
use crate::output::Output;
use tt_instance::Instance;
use tt_table::{Group, Groups, Kind as By, Timetable};
use tt_text::{Sink, WriteFailed};

/// Puts the texts of the entries that belong to a block.
fn put_entries<W: Sink>(
    out: &mut Output<'_, W>,
    instance: &Instance<'_>,
    block: Block,
    entries: Group<'_>,
)
    requires block { IsBlock instance.now block }
    requires in_range { All (InRange instance.now) entries }
    ensures { Puts W.contents W.has_failed out.old out.new (entries_text instance.now block entries.entry) }
{
    for entry in entries {
        if block.has(instance, entry) {
            block.put_entry(out, instance, entry);
        }
    }
}

/// Puts the line of a period.
fn put_slot<W: Sink>(
    out: &mut Output<'_, W>,
    instance: &Instance<'_>,
    by_period: &Groups<'_>,
    block: Block,
    day: u32,
    period: u32,
)
    requires block { IsBlock instance.now block }
    requires by { by_period.now.by ≡ group.Period instance.now.periods }
    requires in_range { All (InRange instance.now) by_period.now.entries }
    requires day { day < instance.now.days }
    requires period { period < instance.now.periods }
    ensures { Puts W.contents W.has_failed out.old out.new (slot_text instance.now by_period.now.entries block (slot day period)) }
{
    out.put_number(u64::from(day));
    out.put_next_number(u64::from(period));
    let entries = by_period.in_period(instance, day, period);
    put_entries(out, instance, block, entries);
    out.put_line_end();
}

/// Puts the lines of a day.
#[tactic(auto, using(crate::proofs::Written::puts_further, crate::proofs::Putting::puts_nothing))]
fn put_day<W: Sink>(
    out: &mut Output<'_, W>,
    instance: &Instance<'_>,
    by_period: &Groups<'_>,
    block: Block,
    day: u32,
)
    requires block { IsBlock instance.now block }
    requires by { by_period.now.by ≡ group.Period instance.now.periods }
    requires in_range { All (InRange instance.now) by_period.now.entries }
    requires day { day < instance.now.days }
    ensures { Puts W.contents W.has_failed out.old out.new (day_text instance.now by_period.now.entries block day) }
{
    for period in 0..instance.periods() {
        put_slot(out, instance, by_period, block, day, period);
    }
}

/// Puts the lines of a block.
#[tactic(auto, using(crate::proofs::Written::puts_further, crate::proofs::Putting::puts_nothing))]
fn put_block<W: Sink>(
    out: &mut Output<'_, W>,
    instance: &Instance<'_>,
    by_period: &Groups<'_>,
    block: Block,
)
    requires block { IsBlock instance.now block }
    requires by { by_period.now.by ≡ group.Period instance.now.periods }
    requires in_range { All (InRange instance.now) by_period.now.entries }
    ensures { Puts W.contents W.has_failed out.old out.new (block_text instance.now by_period.now.entries block) }
{
    if out.has_failed() {
        return;
    }
    block.put_head(out, instance);
    for day in 0..instance.days() {
        put_day(out, instance, by_period, block, day);
    }
}

#[tactic(auto, using(crate::proofs::Putting::puts_nothing))]
fn put_rooms<W: Sink>(out: &mut Output<'_, W>, instance: &Instance<'_>, by_period: &Groups<'_>)
    requires by { by_period.now.by ≡ group.Period instance.now.periods }
    requires in_range { All (InRange instance.now) by_period.now.entries }
    ensures { Puts W.contents W.has_failed out.old out.new (flat_map (λ r. block_text instance.now by_period.now.entries (of.Room r)) (range_below (length instance.now.rooms))) }
{
    for room in 0..instance.rooms() {
        put_block(out, instance, by_period, Block::Room(room));
    }
}

#[tactic(auto, using(crate::proofs::Putting::puts_nothing))]
fn put_teachers<W: Sink>(out: &mut Output<'_, W>, instance: &Instance<'_>, by_period: &Groups<'_>)
    requires by { by_period.now.by ≡ group.Period instance.now.periods }
    requires in_range { All (InRange instance.now) by_period.now.entries }
    ensures { Puts W.contents W.has_failed out.old out.new (flat_map (λ k. block_text instance.now by_period.now.entries (of.Teacher k)) (range_below (length (teachers instance.now)))) }
{
    for teacher in 0..instance.teachers() {
        put_block(out, instance, by_period, Block::Teacher(teacher));
    }
}

#[tactic(auto, using(crate::proofs::Putting::puts_nothing))]
fn put_curricula<W: Sink>(out: &mut Output<'_, W>, instance: &Instance<'_>, by_period: &Groups<'_>)
    requires by { by_period.now.by ≡ group.Period instance.now.periods }
    requires in_range { All (InRange instance.now) by_period.now.entries }
    ensures { Puts W.contents W.has_failed out.old out.new (flat_map (λ q. block_text instance.now by_period.now.entries (of.Curriculum q)) (range_below (length instance.now.curricula))) }
{
    for curriculum in 0..instance.curricula() {
        put_block(out, instance, by_period, Block::Curriculum(curriculum));
    }
}

/// Puts the text of a report.
fn put_report<W: Sink>(out: &mut Output<'_, W>, instance: &Instance<'_>, table: &Timetable, by: By)
    requires { IsTimetable instance.now table.now }
    ensures { Puts W.contents W.has_failed out.old out.new (report_text instance.now table.now by) }
{
    let by_period = Groups::by_period(instance, table.entries());
    match by {
        By::Room => put_rooms(out, instance, &by_period),
        By::Teacher => put_teachers(out, instance, &by_period),
        By::Curriculum => put_curricula(out, instance, &by_period),
    }
}

/// Writes the week of each room, teacher or curriculum through a buffer of a fixed size. Allocates nothing.
pub fn report<W: Sink>(
    instance: &Instance<'_>,
    table: &Timetable,
    by: By,
    sink: &mut W,
) -> Result<(), WriteFailed>
    requires { IsTimetable instance.now table.now }
    ensures written { OnOk result (Appends (W.contents sink.old) (W.contents sink.new) (report_text instance.now table.now by)) }
    // After a failed write, a part from the front of the text was taken.
    ensures part { OnErr result (TakesPart (W.contents sink.old) (W.contents sink.new) (report_text instance.now table.now by)) }
    ensures failed { W.has_failed sink.new ≡ (if is_ok result then W.has_failed sink.old else true) }
{
    let mut out = Output::new(sink);
    put_report(&mut out, instance, table, by);
    out.flush()
}
