//! Random groups of tiny instances: six periods, three courses, two curricula.

use rand_core::{Rng, SeedableRng};
use rand_pcg::Pcg32;
use std::alloc::{AllocError, Global};

/// The number of periods of a week, on one, two or three days.
pub const SLOTS: u32 = 6;

/// A tiny instance and a group of it. Sets are words of bits: of slots, of courses or of curricula.
#[derive(Clone, Copy)]
pub struct Drawn {
    pub days: u32,
    pub periods: u32,
    pub courses: [Course; 3],
    pub curricula: [u32; 2],
    pub group_curricula: u32,
    pub group_courses: u32,
}

/// A course with a random number of lectures and of wanted days, and the set of its available slots.
#[derive(Clone, Copy)]
pub struct Course {
    pub teacher: u32,
    pub lectures: u32,
    pub wanted_days: u32,
    pub available: u32,
}

/// Checks whether a word has a bit.
pub fn has_bit(word: u32, number: u32) -> bool {
    (word >> (number % 32)) & 1 == 1
}

/// Returns a random number below `bound`, which is positive.
fn below(rng: &mut Pcg32, bound: u32) -> u32 {
    rng.next_u32() % bound.max(1)
}

/// Draws a course of up to three lectures; it may need more days than it has lectures, and is unavailable in some slots.
fn draw_course(rng: &mut Pcg32) -> Course {
    Course {
        teacher: below(rng, 4),
        lectures: below(rng, 4),
        wanted_days: below(rng, 4).saturating_add(1),
        available: rng.next_u32() | rng.next_u32() | rng.next_u32(),
    }
}

/// Draws a curriculum of at least one course.
fn draw_curriculum(rng: &mut Pcg32) -> u32 {
    below(rng, 7).saturating_add(1)
}

/// Draws the instance and the group of a seed.
pub fn draw(seed: u64) -> Drawn {
    let mut rng = Pcg32::seed_from_u64(seed);
    let days = below(&mut rng, 3).saturating_add(1);
    Drawn {
        days,
        periods: SLOTS / days.max(1),
        courses: [
            draw_course(&mut rng),
            draw_course(&mut rng),
            draw_course(&mut rng),
        ],
        curricula: [draw_curriculum(&mut rng), draw_curriculum(&mut rng)],
        group_curricula: below(&mut rng, 4),
        group_courses: below(&mut rng, 8),
    }
}

impl Drawn {
    /// Returns the lines of the periods in which a course is unavailable, and their number.
    fn unavailable_lines(&self, alloc: Global) -> Result<(String, u32), AllocError> {
        let mut lines = String::new(alloc);
        let mut count: u32 = 0;
        for (number, course) in self.courses.iter().enumerate() {
            for slot in 0..SLOTS {
                if !has_bit(course.available, slot) {
                    let day = slot / self.periods.max(1);
                    let period = slot % self.periods.max(1);
                    let line = format!(in alloc; "c{number} {day} {period}\n")?;
                    lines.push_str(line.as_str())?;
                    count = count.saturating_add(1);
                }
            }
        }
        Ok((lines, count))
    }

    /// Returns the lines of the courses.
    fn course_lines(&self, alloc: Global) -> Result<String, AllocError> {
        let mut lines = String::new(alloc);
        for (number, course) in self.courses.iter().enumerate() {
            let Course {
                teacher,
                lectures,
                wanted_days,
                ..
            } = *course;
            let line = format!(in alloc; "c{number} t{teacher} {lectures} {wanted_days} 1\n")?;
            lines.push_str(line.as_str())?;
        }
        Ok(lines)
    }

    /// Returns the lines of the curricula.
    fn curriculum_lines(&self, alloc: Global) -> Result<String, AllocError> {
        let mut lines = String::new(alloc);
        for (number, courses) in self.curricula.iter().enumerate() {
            let count = (*courses).count_ones();
            let names = names(alloc, 'c', *courses)?;
            let line = format!(in alloc; "q{number} {count}{names}\n")?;
            lines.push_str(line.as_str())?;
        }
        Ok(lines)
    }

    /// Returns the text of the instance.
    pub fn instance_text(&self, alloc: Global) -> Result<String, AllocError> {
        let (unavailable, constraints) = self.unavailable_lines(alloc)?;
        let courses = self.course_lines(alloc)?;
        let curricula = self.curriculum_lines(alloc)?;
        let Drawn { days, periods, .. } = *self;
        let head = format!(in alloc;
            "Name: drawn\nCourses: 3\nRooms: 1\nDays: {days}\nPeriods_per_day: {periods}\n"
        )?;
        format!(in alloc;
            "{head}Curricula: 2\nConstraints: {constraints}\n\nCOURSES:\n{courses}\nROOMS:\nR 1\n\nCURRICULA:\n{curricula}\nUNAVAILABILITY_CONSTRAINTS:\n{unavailable}\nEND.\n"
        )
    }

    /// Returns the text of one claim about the group.
    pub fn claim_text(&self, alloc: Global, value: u64) -> Result<String, AllocError> {
        let curricula = names(alloc, 'q', self.group_curricula)?;
        let courses = names(alloc, 'c', self.group_courses)?;
        format!(in alloc; "CTTG 1 bound {value}\nG {value}{curricula} /{courses} ;\nend\n")
    }
}

/// Returns the names of the first three numbers in a set, each after a space.
fn names(alloc: Global, letter: char, set: u32) -> Result<String, AllocError> {
    let mut names = String::new(alloc);
    for number in 0..3 {
        if has_bit(set, number) {
            let name = format!(in alloc; " {letter}{number}")?;
            names.push_str(name.as_str())?;
        }
    }
    Ok(names)
}
