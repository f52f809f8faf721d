//! Looking ahead: the places that touches of some slots would read.
use crate::cell::Cell;
use crate::links::HEADS;
use sessions::MOST_AHEAD;

/// The place of no slot.
const NOWHERE: usize = usize::MAX;

/// How many of the slots of these numbers seem to be watched, by the places beside them in their queues. All of their
/// places are read before any of those beside them, so that these are waited for together. If no slot has a place, as
/// if all packets are of new flows, nothing is read.
pub fn count_joined(links: &[Cell], slots: &[usize; MOST_AHEAD]) -> usize {
    if slots.iter().all(|slot| *slot >= links.len()) {
        return 0;
    }
    let mut places = [[NOWHERE; 3]; MOST_AHEAD];
    for (place, slot) in places.iter_mut().zip(slots.iter()) {
        *place = beside(links, slot.saturating_add(HEADS));
    }
    places.iter().filter(|it| are_joined(links, it)).count()
}

// The place before this one in its queue, this one, and the one behind.
fn beside(links: &[Cell], place: usize) -> [usize; 3] {
    match links.get(place) {
        Some(cell) => [cell.previous(), place, cell.next()],
        None => [NOWHERE; 3],
    }
}

// Whether the places before and behind lead to the one between them.
fn are_joined(links: &[Cell], places: &[usize; 3]) -> bool {
    let [before, place, behind] = *places;
    match (links.get(before), links.get(behind)) {
        (Some(before), Some(behind)) => before.next() == place && behind.previous() == place,
        _ => false,
    }
}
