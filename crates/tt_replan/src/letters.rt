//! Sets of members that can be taught in one period.

use crate::board::Board;
use tt_replan_tables::{Group, Links, MOST_MEMBERS, Slot};

/// The maximum number of sets of members.
pub const MOST_LETTERS: usize = 1 << MOST_MEMBERS;

/// A set of members, and the effects of teaching them in a period.
#[derive(Clone, Copy)]
pub struct Letter {
    /// The group's curricula that are taught in the period, as a set.
    pub curricula: u128,
    /// The members, a byte each.
    pub counts: u32,
    /// The amount that it adds to the state.
    pub index: u32,
    pub price: u32,
    pub members: u8,
}

impl Letter {
    pub const NONE: Letter = Letter {
        curricula: 0,
        counts: 0,
        index: 0,
        price: 0,
        members: 0,
    };
}

/// Checks whether a set of members may be taught in a period, given the other lectures in it.
fn is_open(slot: Slot, members: u8) -> bool {
    members & !slot.open == 0 && members.count_ones() <= slot.free.count_ones()
}

/// Returns a set of members in a period, or `None` if two of them conflict.
fn letter_of(links: &Links, group: &Group, members: u8) -> Option<Letter> {
    let mut letter = Letter {
        members,
        ..Letter::NONE
    };
    for member in group.members() {
        if members & member.set != 0 {
            let link = links.get(member.course);
            if link.excluded & members != 0 {
                return None;
            }
            letter.curricula |= link.curricula;
            letter.counts = letter.counts.wrapping_add(member.unit);
            letter.index = letter.index.wrapping_add(member.stride);
        }
    }
    Some(letter)
}

/// The sets of members without a conflict.
#[derive(Clone, Copy)]
pub struct Alphabet {
    letters: [Letter; MOST_LETTERS],
    len: usize,
}

impl Alphabet {
    pub const EMPTY: Alphabet = Alphabet {
        letters: [Letter::NONE; MOST_LETTERS],
        len: 0,
    };

    /// Finds the sets of members of a group without a conflict.
    pub fn find(&mut self, links: &Links, group: &Group) {
        self.len = 0;
        for members in 0..group.sets() {
            if let Some(letter) = letter_of(links, group, members)
                && let Some(place) = self.letters.get_mut(self.len)
            {
                *place = letter;
                self.len = self.len.saturating_add(1);
            }
        }
    }

    /// Returns the sets of members without a conflict.
    pub fn letters(&self) -> &[Letter] {
        self.letters.get(..self.len).unwrap_or(&[])
    }
}

/// Returns a set of members with its price in a period, or `None` if it may not be taught in it.
pub fn priced(letter: Letter, board: &Board, group: &Group, slot: usize) -> Option<Letter> {
    let place = board.week.slot(slot);
    if !is_open(place, letter.members) {
        return None;
    }
    let mut price: u32 = 0;
    for (number, member) in group.members().iter().enumerate() {
        if letter.members & member.set != 0 {
            price = price.wrapping_add(board.prices.get(slot, number).noisy);
        }
    }
    Some(Letter {
        curricula: letter.curricula | place.fixed,
        price,
        ..letter
    })
}
