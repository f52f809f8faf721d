//! Looking ahead: the memory that packets and ends of sessions are going to read is fetched before, for several of them
//! at once; none is allocated. Nothing rests on what is told here but time.
use hairpin::Translations;
use packet::{Endpoint, Proto};
use sessions::{Coming, MOST_AHEAD, Session, Slot, Table};

/// How many slots are too many for a processor's near caches to hold their sessions, with all that leads to them.
const WIDE: usize = 4_096;

/// For how many sessions that end it is looked ahead.
const MOST_ENDING: usize = 128;

/// Whether so many sessions have been held at once that a processor's near caches don't hold all of them.
pub fn is_wide(table: &Table) -> bool {
    table.slots() >= WIDE
}

/// How many of these packets seem to be of an inside endpoint that has a mapping, of those whose session's slot isn't
/// told: such a packet may begin a session. Of a packet from wan that endpoint is an outside one, of which no map by
/// inside endpoints tells: it isn't counted.
pub fn count_mapped(
    table: &Table,
    translations: &Translations,
    coming: &[Coming; MOST_AHEAD],
    slots: &[usize; MOST_AHEAD],
) -> usize {
    let mut count: usize = 0;
    for (it, slot) in coming.iter().zip(slots.iter()) {
        if *slot >= table.slots() {
            let outside = translations.likely_outside(it.near);
            let is_mapped = are_mapped(table, translations, it.proto, it.near, outside);
            count = count.saturating_add(usize::from(is_mapped));
        }
    }
    count
}

/// How many of the sessions of the first 128 of these slots, which are going to end, seem to have their mappings still;
/// 0 where the table isn't wide. All sessions are read before any of their mappings.
pub fn count_ending(table: &Table, translations: &Translations, slots: &[Slot]) -> usize {
    let slots = &slots[..slots.len().min(MOST_ENDING)];
    if !is_wide(table) || count_held(table, slots) == 0 {
        return 0;
    }
    let mut count: usize = 0;
    for slot in slots {
        if let Some(session) = table.get(*slot) {
            count = count.saturating_add(usize::from(has_mapping(table, translations, &session)));
        }
    }
    count
}

fn count_held(table: &Table, slots: &[Slot]) -> usize {
    slots
        .iter()
        .filter(|slot| table.get(**slot).is_some())
        .count()
}

fn has_mapping(table: &Table, translations: &Translations, session: &Session) -> bool {
    are_mapped(
        table,
        translations,
        session.proto,
        session.inside,
        session.outside,
    )
}

// Whether sessions of both endpoints, and a mapping of the outside one, seem to be held. All maps are asked in any
// case.
fn are_mapped(
    table: &Table,
    translations: &Translations,
    proto: Proto,
    inside: Endpoint,
    outside: Endpoint,
) -> bool {
    table.seems_mapped(proto, inside, outside) & translations.seems_mapped(proto, outside)
}
