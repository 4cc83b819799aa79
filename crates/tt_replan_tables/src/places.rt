//! Writes to the places of a list.

/// Puts an item in a place. Nothing is written if there is no such place.
pub fn put<T: Copy + Drop>(items: &mut Vec<T>, index: usize, item: T) {
    if let Some(place) = items.get_mut(index) {
        *place = item;
    }
}

/// Puts an item behind the first `count` items, if there is a place, and returns how many items there are then.
pub fn put_next<T: Copy + Drop>(items: &mut Vec<T>, count: usize, item: T) -> usize {
    if count >= items.len() {
        return count;
    }
    put(items, count, item);
    count.saturating_add(1)
}
