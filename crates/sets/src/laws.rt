//! What follows from the definitions: each function is proved to meet its clause.
ghost use Rattle.sets.specs.Laws.{NoneHoldNothing, UnionHoldsBoth, AdjoiningIsJoined, RangesShare, MapsToOne};

/// The union of no elements holds nothing.
pub fn none_hold_nothing()
    ensures { NoneHoldNothing }
{}

/// The union of two lists of elements holds what either holds, so neither order nor repetition matters.
pub fn union_holds_both()
    ensures { UnionHoldsBoth }
{}

/// A range and the one that begins right behind it hold together what the joined range holds.
pub fn adjoining_is_joined()
    ensures { AdjoiningIsJoined }
{}

/// Two ranges share a number exactly where neither ends before the other begins.
pub fn ranges_share()
    ensures { RangesShare }
{}

/// Where no two keys share a value, a value maps to one verdict at most.
pub fn maps_to_one<V>()
    ensures { MapsToOne V }
{}
