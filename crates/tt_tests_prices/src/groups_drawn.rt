//! Random groups with prices of one tiny instance. Sets are words of bits: of slots, of courses or of curricula.

use crate::drawn::below;
use rand_core::{Rng, SeedableRng};
use rand_pcg::Pcg32;
use std::alloc::{AllocError, Global};

/// Two days of three periods, and three courses. The first and the second share a curriculum, and so do the second and the third. The first two
/// have more lectures than there are periods.
pub const INSTANCE: &str =
    "Name: Tiny\nCourses: 3\nRooms: 1\nDays: 2\nPeriods_per_day: 3\nCurricula: 2\nConstraints: 2\n\nCOURSES:\na t1 3 2 1\nb t2 4 2 1\nc t3 2 3 1\n\nROOMS:\nR 1\n\nCURRICULA:\nq 2 a b\nr 2 b c\n\nUNAVAILABILITY_CONSTRAINTS:\na 0 1\nc 1 0\n\nEND.\n";

/// The number of slots of the week.
pub const SLOTS: u32 = 6;

/// The number of courses.
pub const COURSES: usize = 3;

/// A group with prices. Those that a row doesn't have are 0.
#[derive(Clone, Copy)]
pub struct DrawnGroup {
    pub scale: u32,
    pub curricula: u32,
    pub courses: u32,
    pub further: u32,
    pub uncounted: u32,
    pub rows: [DrawnRow; COURSES],
}

/// The first prices of a course, so many of them.
#[derive(Clone, Copy)]
pub struct DrawnRow {
    pub count: u32,
    pub prices: [i32; SLOTS as usize],
}

/// Checks whether a word has a bit.
pub fn has_bit(word: u32, number: u32) -> bool {
    (word >> (number % 32)) & 1 == 1
}

/// Draws a row of up to six prices from -9 to 9.
fn draw_row(rng: &mut Pcg32) -> DrawnRow {
    let count = below(rng, SLOTS + 1);
    let mut prices = [0; SLOTS as usize];
    for (slot, price) in prices.iter_mut().enumerate() {
        if slot < count as usize {
            *price = (below(rng, 19) % 19) as i32 - 9;
        }
    }
    DrawnRow { count, prices }
}

/// Draws the group of a seed.
pub fn draw_group(seed: u64) -> DrawnGroup {
    let mut rng = Pcg32::seed_from_u64(seed);
    DrawnGroup {
        scale: below(&mut rng, 4).saturating_add(1),
        curricula: below(&mut rng, 4),
        courses: below(&mut rng, 8),
        further: below(&mut rng, 8),
        uncounted: below(&mut rng, 8),
        rows: [draw_row(&mut rng), draw_row(&mut rng), draw_row(&mut rng)],
    }
}

/// Returns the numbers of a set, each after a space and a letter, and the end of a list.
fn list_text(alloc: Global, letter: char, set: u32) -> Result<String, AllocError> {
    let mut text = String::new(alloc);
    for number in (0..3).filter(|number| has_bit(set, *number)) {
        text.push_str(format!(in alloc; " {letter}{number}")?.as_str())?;
    }
    text.push_str(" /")?;
    Ok(text)
}

impl DrawnGroup {
    /// Returns the rows as text.
    fn rows_text(&self, alloc: Global) -> Result<String, AllocError> {
        let mut text = String::new(alloc);
        for (course, row) in self.rows.iter().enumerate() {
            text.push_str(format!(in alloc; " c{course}")?.as_str())?;
            for price in row.prices.iter().take(row.count as usize) {
                let sign = if *price < 0 { "" } else { "+" };
                text.push_str(format!(in alloc; " {sign}{price}")?.as_str())?;
            }
        }
        Ok(text)
    }

    /// Returns a file that has the group.
    pub fn file_text(&self, alloc: Global) -> Result<String, AllocError> {
        let curricula = list_text(alloc, 'q', self.curricula)?;
        let courses = list_text(alloc, 'c', self.courses)?;
        let further = list_text(alloc, 'c', self.further)?;
        let uncounted = list_text(alloc, 'c', self.uncounted)?;
        let rows = self.rows_text(alloc)?;
        let scale = self.scale;
        format!(in alloc;
            "CTTG 2 bound 0 scale {scale} periods\nG{curricula}{courses}{further}{uncounted}{rows} ;\nend\n"
        )
    }
}
