//! Random entries of three days, for two counted courses, the second with working days.

use rand_core::{Rng, SeedableRng};
use rand_pcg::Pcg32;

/// The entries of a day.
pub const ENTRIES: usize = 4;

/// The points for each further lecture beyond the slack.
const DAY_POINTS: i64 = 5;

/// An entry of a day: the lectures of both courses and the further lectures of the second, and what the day pays.
#[derive(Clone, Copy)]
pub struct Entry {
    pub amounts: [u8; 3],
    pub paid: i32,
}

/// The lectures of both courses, the slack of the second, the scale, and the entries of each day.
#[derive(Clone, Copy)]
pub struct Drawn {
    pub tops: [u8; 3],
    pub scale: u32,
    pub days: [[Entry; ENTRIES]; 3],
}

/// Returns a random number below `bound`, which is positive.
pub fn below(rng: &mut Pcg32, bound: u32) -> u32 {
    rng.next_u32() % bound.max(1)
}

/// Returns a random number of at most `most`.
fn amount(rng: &mut Pcg32, most: u8) -> u8 {
    (below(rng, u32::from(most) + 1) % 256) as u8
}

/// Draws an entry, which may pay less than nothing.
fn draw_entry(rng: &mut Pcg32) -> Entry {
    let amounts = [amount(rng, 2), amount(rng, 2), amount(rng, 2)];
    let paid = (below(rng, 41) % 41) as i32 - 20;
    Entry { amounts, paid }
}

/// Draws the entries of a day.
fn draw_day(rng: &mut Pcg32) -> [Entry; ENTRIES] {
    [
        draw_entry(rng),
        draw_entry(rng),
        draw_entry(rng),
        draw_entry(rng),
    ]
}

/// Draws the week of a seed.
pub fn draw(seed: u64) -> Drawn {
    let mut rng = Pcg32::seed_from_u64(seed);
    Drawn {
        tops: [
            amount(&mut rng, 4),
            amount(&mut rng, 4),
            amount(&mut rng, 2),
        ],
        scale: below(&mut rng, 5),
        days: [draw_day(&mut rng), draw_day(&mut rng), draw_day(&mut rng)],
    }
}

/// Returns the sum of three entries' amounts of a digit.
fn total(plan: &[Entry; 3], digit: usize) -> i64 {
    let mut total: i64 = 0;
    for entry in plan {
        total = total.saturating_add(i64::from(entry.amounts[digit % 3]));
    }
    total
}

/// Returns what the entries pay together, or `None` if a course doesn't have all its lectures.
fn paid(drawn: &Drawn, plan: &[Entry; 3]) -> Option<i64> {
    for digit in 0..2 {
        if total(plan, digit) != i64::from(drawn.tops[digit]) {
            return None;
        }
    }
    let beyond = total(plan, 2).saturating_sub(i64::from(drawn.tops[2]));
    let mut paid = i64::from(drawn.scale).saturating_mul(DAY_POINTS.saturating_mul(beyond.max(0)));
    for entry in plan {
        paid = paid.saturating_add(i64::from(entry.paid));
    }
    Some(paid)
}

/// Returns the least that any choice of an entry a day pays, or `None` if none has all lectures.
pub fn least_paid(drawn: &Drawn) -> Option<i64> {
    let mut least: Option<i64> = None;
    for first in &drawn.days[0] {
        for second in &drawn.days[1] {
            for third in &drawn.days[2] {
                if let Some(paid) = paid(drawn, &[*first, *second, *third]) {
                    least = Some(least.map_or(paid, |least| least.min(paid)));
                }
            }
        }
    }
    least
}
