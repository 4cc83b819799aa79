//! The blocks of a report: one for each room, teacher or curriculum.

ghost use Rattle.std.specs.Prelude.{◌≡◌, ◌<◌, [], ◌∷◌, length, slice_index_or};
ghost use Rattle.tt_text.specs.Lines.{line_text};
ghost use Rattle.tt_text.specs.Pieces.{Text};
ghost use Rattle.tt_instance.specs.Cells.{InRange};
ghost use Rattle.tt_instance.specs.Courses.{no_course, no_room, no_curriculum, teachers};
ghost use Rattle.tt_report.specs.Puts.{Puts};
ghost use Rattle.tt_report.specs.Names.{shown};
ghost use Rattle.tt_report.specs.Inner.Blocks.{IsBlock, head_of, shown_in, belongs_to, next_texts};

use crate::output::Output;
use crate::showing::put_next_name;
use tt_instance::Instance;
use tt_table::Entry;
use tt_text::Sink;

/// The room, teacher or curriculum whose week a block shows, by number.
#[derive(Clone, Copy)]
pub enum Block {
    Room(u32),
    Teacher(u32),
    Curriculum(u32),
}

fn course_id<'a>(instance: &Instance<'a>, course: u32) -> &'a [u8]
    requires { course < length instance.now.courses }
    ensures { result.now ≡ (slice_index_or instance.now.courses course no_course).id }
{
    instance.course_id(course)
}

fn room_id<'a>(instance: &Instance<'a>, room: u32) -> &'a [u8]
    requires { room < length instance.now.rooms }
    ensures { result.now ≡ (slice_index_or instance.now.rooms room no_room).id }
{
    instance.room_id(room)
}

fn curriculum_id<'a>(instance: &Instance<'a>, curriculum: u32) -> &'a [u8]
    requires { curriculum < length instance.now.curricula }
    ensures { result.now ≡ (slice_index_or instance.now.curricula curriculum no_curriculum).id }
{
    instance.curriculum_id(curriculum)
}

fn teacher_name<'a>(instance: &Instance<'a>, teacher: u32) -> &'a [u8]
    requires { teacher < length (teachers instance.now) }
    ensures { result.now ≡ slice_index_or (teachers instance.now) teacher [] }
{
    instance.teacher_name(teacher)
}

/// Returns the name of a course's teacher.
fn name_of_teacher<'a>(instance: &Instance<'a>, course: u32) -> &'a [u8]
    requires { course < length instance.now.courses }
    ensures { result.now ≡ (slice_index_or instance.now.courses course no_course).teacher }
{
    teacher_name(instance, instance.teacher_of(course))
}

impl Block {
    /// Returns whether an entry belongs to the block.
    pub fn has(self, instance: &Instance<'_>, entry: &Entry) -> bool
        requires block { IsBlock instance.now self }
        requires entry { InRange instance.now entry.now }
        ensures { result ≡ belongs_to instance.now self entry.now }
    {
        match self {
            Block::Room(room) => entry.room == room,
            Block::Teacher(teacher) => {
                teacher_name(instance, teacher) == name_of_teacher(instance, entry.course)
            }
            Block::Curriculum(curriculum) => instance.in_curriculum(curriculum, entry.course),
        }
    }

    /// Returns the word that begins the head line, and the name after it.
    fn kind_and_name<'a>(self, instance: &Instance<'a>) -> (&'static str, &'a [u8])
        requires { IsBlock instance.now self }
        ensures { head_of instance.now self ≡ Text result.0.now ∷ Text (shown result.1.now) ∷ [] }
    {
        match self {
            Block::Room(room) => ("room", room_id(instance, room)),
            Block::Teacher(teacher) => ("teacher", teacher_name(instance, teacher)),
            Block::Curriculum(curriculum) => ("curriculum", curriculum_id(instance, curriculum)),
        }
    }

    /// Puts the head line.
    pub fn put_head<W: Sink>(self, out: &mut Output<'_, W>, instance: &Instance<'_>)
        requires { IsBlock instance.now self }
        ensures { Puts W.contents W.has_failed out.old out.new (line_text (head_of instance.now self)) }
    {
        let (kind, name) = self.kind_and_name(instance);
        out.put(kind.as_bytes());
        put_next_name(out, name);
        out.put_line_end();
    }

    /// Puts the text shown for an entry.
    pub fn put_entry<W: Sink>(self, out: &mut Output<'_, W>, instance: &Instance<'_>, entry: &Entry)
        requires { InRange instance.now entry.now }
        ensures { Puts W.contents W.has_failed out.old out.new (next_texts (shown_in instance.now self entry.now)) }
    {
        put_next_name(out, course_id(instance, entry.course));
        match self {
            Block::Room(_) => {}
            Block::Teacher(_) | Block::Curriculum(_) => {
                put_next_name(out, room_id(instance, entry.room));
            }
        }
    }
}
