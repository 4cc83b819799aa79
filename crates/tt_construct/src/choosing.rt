//! The choice of a place for a lecture.

use crate::instance_data::InstanceData;
use crate::place::Place;
use crate::placed::PlacedLectures;
use crate::ranking::{Lecture, Rank, period_rank, place_rank};
use rand_core::Rng;
use rand_pcg::Pcg32;

/// A place and its rank.
#[derive(Clone, Copy)]
pub struct Choice {
    pub place: Place,
    pub rank: Rank,
}

impl Choice {
    /// A choice that is worse than any place.
    const WORST: Choice = Choice {
        place: Place { room: 0, slot: 0 },
        rank: Rank::HIGHEST,
    };
}

/// Returns the best room in a period.
fn best_room(
    data: &InstanceData,
    placed: &PlacedLectures,
    lecture: Lecture<'_>,
    slot: u32,
    rng: &mut Pcg32,
) -> Choice {
    let period = period_rank(data, placed, lecture, slot);
    let mut best = Choice::WORST;
    for room in 0..data.room_count {
        let place = Place { room, slot };
        let rank = place_rank(data, placed, lecture, place, period, rng.next_u32());
        if rank < best.rank {
            best = Choice { place, rank };
        }
    }
    best
}

/// Returns the best place for a lecture.
pub fn best_place(
    data: &InstanceData,
    placed: &PlacedLectures,
    lecture: Lecture<'_>,
    rng: &mut Pcg32,
) -> Choice {
    let mut best = Choice::WORST;
    for slot in 0..data.slots {
        if placed.broken(lecture.number, slot) <= best.rank.broken {
            let here = best_room(data, placed, lecture, slot, rng);
            if here.rank < best.rank {
                best = here;
            }
        }
    }
    best
}
