//! The search for a value among elements in order, by halving.

ghost use Rattle.std.specs.Prelude.{◌≡◌, ◌<◌, ◌≤◌, ◌+◌, ◌-◌, ◌^◌, ℕ, IfSome, IfNone, length};
ghost use Rattle.std.specs.List.{Any, AllPairs, Contains};
ghost use Rattle.sets.specs.Intervals.{StandsBesideElement, IsBelow};
ghost use Rattle.sets.specs.Members.{fact_of, IsIn};

use crate::element::{Element, Pair, Value};
use packet::Steps;
use std::cmp::Ordering;

/// What stands in a row by its element.
pub(crate) trait Keyed {
    ghost use Rattle.sets.specs.declared.element.Element.{Element as Part};

    ghost key_of: { Self → Part };

    /// The element.
    fn key(&self) -> &Element
        ensures { result.now ≡ key_of self.now };
}

impl Keyed for Element {
    ghost key_of = { λ element. element };

    fn key(&self) -> &Element {
        self
    }
}

impl<V> Keyed for Pair<V> {
    ghost key_of = { λ pair. pair.key };

    fn key(&self) -> &Element {
        &self.key
    }
}

// Compares one element with the value: a probe, which is the step that is counted.
fn probe(element: &Element, value: Value<'_>, steps: &mut Steps) -> Ordering
    requires { steps.old < 64 }
    ensures place { StandsBesideElement result (fact_of value.entry) element.now }
    ensures counted { steps.new ≡ steps.old + 1 }
{
    steps.tick();
    element.compare(value)
}

/// The one of the row in whose element the value lies, and how many elements were compared with it: no more
/// than their number has binary digits.
pub(crate) fn search<'a, K: Keyed>(row: &'a [K], value: Value<'_>) -> (Option<&'a K>, Steps)
    requires { AllPairs (λ one next. IsBelow (K.key_of one) (K.key_of next)) row.now }
    ensures found { IfSome result.0 (λ one. Contains row.now one.now
        × IsIn (fact_of value.entry) (K.key_of one.now)) }
    ensures absent { IfNone result.0
        (¬ Any (λ one. IsIn (fact_of value.entry) (K.key_of one)) row.now) }
    ensures probes { (digits : ℕ) → length row.now < 2 ^ digits → result.1 ≤ digits }
{
    let mut steps = Steps::none();
    let mut from = 0;
    let mut to = row.len();
    while from < to {
        let middle = from + (to - from) / 2;
        let one = &row[middle];
        match probe(one.key(), value, &mut steps) {
            Ordering::Less => to = middle,
            Ordering::Greater => from = middle + 1,
            Ordering::Equal => return (Some(one), steps),
        }
    }
    (None, steps)
}
