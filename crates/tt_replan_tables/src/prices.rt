//! The cost of a lecture of each member in each period, by its room.

use crate::drawing::at_most;
use crate::group::{Group, MOST_MEMBERS};
use crate::places::put;
use crate::rooms::POINT;
use crate::seating::Seating;
use rand_pcg::Pcg32;
use std::alloc::{AllocError, Global};

/// The maximum price of a seat; a more expensive seat counts as this.
const DEAREST: u32 = 200 * POINT;

/// A price without and with noise.
#[derive(Clone, Copy)]
pub struct Price {
    pub plain: u32,
    pub noisy: u32,
}

impl Price {
    const NONE: Price = Price { plain: 0, noisy: 0 };
}

/// The prices of a group.
#[derive(Drop)]
pub struct Prices {
    prices: Vec<Price>,
}

fn index(slot: usize, member: usize) -> usize {
    slot.wrapping_mul(MOST_MEMBERS).wrapping_add(member)
}

impl Prices {
    /// Makes room for the prices of each member in this many slots. Fails if memory runs out.
    pub fn new(alloc: Global, slots: usize) -> Result<Prices, AllocError> {
        Ok(Prices {
            prices: vec![in alloc; Price::NONE; slots.saturating_mul(MOST_MEMBERS)]?,
        })
    }

    /// Returns the price of a member in a period in which it may be taught.
    pub fn get(&self, slot: usize, member: usize) -> Price {
        self.prices
            .get(index(slot, member))
            .copied()
            .unwrap_or(Price::NONE)
    }

    /// Finds the prices, each with a noise of its own.
    pub fn find(
        &mut self,
        seating: &Seating<'_, '_, '_>,
        group: &Group,
        rng: &mut Pcg32,
        noise: u32,
    ) {
        let week = seating.week;
        for slot in 0..week.len() {
            for (number, member) in group.members().iter().enumerate() {
                if week.slot(slot).open & member.set != 0
                    && let Some(seat) = seating.cheapest(member.course, slot)
                {
                    let plain = seat.cost.min(DEAREST);
                    let noisy = plain.wrapping_add(at_most(rng, noise));
                    put(
                        &mut self.prices,
                        index(slot, number),
                        Price { plain, noisy },
                    );
                }
            }
        }
    }
}
