//! The joining of elements that touch.

ghost use Rattle.std.specs.Prelude.{◌≡◌, ◌↔◌, ◌+◌, ◌<◌, ◌≤◌, false, IfSome, IfNone, length};
ghost use Rattle.std.specs.Bool.{MatchBool};
ghost use Rattle.std.specs.List.Sorted.{IsSortedBy};
ghost use Rattle.sets.specs.Intervals.{AreIntervals, IsApart};
ghost use Rattle.sets.specs.Joining.{IsJoined, Joins};
ghost use Rattle.sets.specs.Members.{Fact, IsMember};
ghost use Rattle.sets.specs.Order.{is_before};

use crate::element::{Element, Range};
use crate::parts::are_same;

/// What an element and the next one in order are beside each other.
#[derive(Clone, Copy, Drop)]
pub(crate) enum Join {
    /// There is something between them, or they are two names.
    Apart,
    /// They are one name.
    Same,
    /// They touch: together they are this range.
    Spans(Range),
}

// The range from where the first begins to where the later of both ends, unless there is a gap between them.
fn spanned(one: Range, next: Range) -> Option<Range>
    ensures touching { IfSome result (λ range. next.low ≤ one.high + 1) }
    ensures low { IfSome result (λ range. range.low ≡ one.low) }
    ensures end { IfSome result (λ range. one.high ≤ range.high) }
    ensures later_end { IfSome result (λ range. next.high ≤ range.high) }
    ensures within { IfSome result (λ range. one.high < range.high → range.high ≡ next.high) }
    ensures apart { IfNone result (one.high + 1 < next.low) }
{
    if next.low.saturating_sub(1) > one.high {
        return None;
    }
    if next.high > one.high {
        return Some(Range::new(one.low, next.high));
    }
    Some(one)
}

fn beside(one: &Element, next: &Element) -> Join
    ensures { is_before next.now one.now ≡ false → Joins result one.now next.now }
{
    match (one, next) {
        (Element::Numbers(range), Element::Numbers(later)) => match spanned(*range, *later) {
            Some(both) => Join::Spans(both),
            None => Join::Apart,
        },
        (Element::Name(name), Element::Name(later)) => {
            if are_same(name, later) {
                return Join::Same;
            }
            Join::Apart
        }
        _ => Join::Apart,
    }
}

// Takes the next element in order in, unless the two are apart.
fn takes_in(last: &mut Element, next: &Element) -> bool
    ensures { is_before next.now last.old ≡ false
        → MatchBool result (IsJoined last.old next.now last.new) (IsApart last.old next.now
        × (last.new ≡ last.old)) }
{
    match beside(last, next) {
        Join::Apart => false,
        Join::Same => true,
        Join::Spans(range) => {
            *last = Element::Numbers(range);
            true
        }
    }
}

/// Joins elements in order where they touch, in place.
pub(crate) fn join_touching(elements: &mut Vec<Element>)
    requires { IsSortedBy is_before elements.old.items }
    ensures intervals { AreIntervals elements.new.items }
    ensures same { (fact : Fact) → IsMember fact elements.new.items
        ↔ IsMember fact elements.old.items }
    ensures fewer { length elements.new.items ≤ length elements.old.items }
{
    elements.dedup_by(|next, last| takes_in(last, next));
}
