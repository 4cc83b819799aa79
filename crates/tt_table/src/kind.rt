//! The kinds of weeks: those of rooms, of teachers and of curricula.

ghost use Rattle.std.specs.Prelude.{◌≡◌, ◌<◌, [], length, slice_index_or};
ghost use Rattle.tt_instance.specs.Courses.{no_room, no_curriculum, teachers};
ghost use Rattle.tt_table.specs.Kinds.{count_of, name_of, word_of};

use tt_instance::Instance;

/// The word for a room.
const ROOM_WORD: &str = "room";

/// The word for a teacher.
const TEACHER_WORD: &str = "teacher";

/// The word for a curriculum.
const CURRICULUM_WORD: &str = "curriculum";

/// The kind of a week: the lectures in a room, those of a teacher or those of a curriculum.
#[derive(Clone, Copy, Debug, PartialEq, Eq)]
pub enum Kind {
    Room,
    Teacher,
    Curriculum,
}

fn room_name<'a>(instance: &Instance<'a>, room: u32) -> &'a [u8]
    requires { room < length instance.now.rooms }
    ensures { result.now ≡ (slice_index_or instance.now.rooms room no_room).id }
{
    instance.room_id(room)
}

fn teacher_name<'a>(instance: &Instance<'a>, teacher: u32) -> &'a [u8]
    requires { teacher < length (teachers instance.now) }
    ensures { result.now ≡ slice_index_or (teachers instance.now) teacher [] }
{
    instance.teacher_name(teacher)
}

fn curriculum_name<'a>(instance: &Instance<'a>, curriculum: u32) -> &'a [u8]
    requires { curriculum < length instance.now.curricula }
    ensures { result.now ≡ (slice_index_or instance.now.curricula curriculum no_curriculum).id }
{
    instance.curriculum_id(curriculum)
}

impl Kind {
    /// The words for rooms, for teachers and for curricula.
    pub const WORDS: [&'static str; 3] = [ROOM_WORD, TEACHER_WORD, CURRICULUM_WORD];

    /// Returns the number of weeks.
    pub fn count(self, instance: &Instance<'_>) -> u32
        ensures { result ≡ count_of instance.now self }
    {
        match self {
            Kind::Room => instance.rooms(),
            Kind::Teacher => instance.teachers(),
            Kind::Curriculum => instance.curricula(),
        }
    }

    /// Returns the name of the week's room, teacher or curriculum.
    pub fn name<'a>(self, instance: &Instance<'a>, number: u32) -> &'a [u8]
        requires { number < count_of instance.now self }
        ensures { result.now ≡ name_of instance.now self number }
    {
        match self {
            Kind::Room => room_name(instance, number),
            Kind::Teacher => teacher_name(instance, number),
            Kind::Curriculum => curriculum_name(instance, number),
        }
    }

    /// Returns the word for a week's room, teacher or curriculum.
    pub fn word(self) -> &'static str
        ensures { result.now ≡ word_of self }
    {
        match self {
            Kind::Room => ROOM_WORD,
            Kind::Teacher => TEACHER_WORD,
            Kind::Curriculum => CURRICULUM_WORD,
        }
    }
}
