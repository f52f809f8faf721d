//! Sets: unions of elements.
ghost use Rattle.std.specs.Prelude.{◌≡◌, ◌≢◌, ◌↔◌, ◌<◌, ◌≤◌, ◌^◌, ℕ, IsTrue, IfOk, length};
ghost use Rattle.sets.specs.Intervals.{AreIntervals};
ghost use Rattle.sets.specs.Members.{Fact, fact_of, IsMember, limit};

use crate::element::{Element, Value};
use crate::fault::SetFault;
use crate::joining::join_touching;
use crate::search::search;
use crate::vmap::order;
use packet::Steps;
use std::marker::Model;

/// The most elements of a set, and the most keys of a verdict map.
pub const LIMIT: usize = 16_384;

/// A union of elements, kept as the intervals that it consists of: in order, and no two touch.
#[derive(Drop)]
pub struct Set {
    intervals: Vec<Element>,
}

impl Model for Set {
    ghost use Rattle.std.specs.Prelude.{List};
    ghost use Rattle.sets.specs.declared.element.Element.{Element as Part};
    ghost use Rattle.sets.specs.Intervals.{AreIntervals};

    ghost Value = { List Part };

    ghost view = { λ s. s.intervals.items };

    ghost invariant = { λ s. AreIntervals s.intervals.items };
}

impl Set {
    /// The values that lie in any of the elements: at most `LIMIT`, in any order, which may overlap. Takes no
    /// memory.
    ///
    /// # Errors
    ///
    /// `Limit` exactly where there are more; no other. The elements are dropped then.
    pub fn union_of(mut elements: Vec<Element>) -> Result<Set, SetFault>
        ensures ok { IfOk result (λ set. (fact : Fact) → IsMember fact set
            ↔ IsMember fact elements.items) }
        ensures intervals { IfOk result AreIntervals }
        ensures fewer { IfOk result (λ set. length set ≤ length elements.items) }
        ensures limit { (result ≡ Err SetFault.Limit) ↔ (limit < length elements.items) }
        ensures no_overlap { result ≢ Err SetFault.Overlap }
        ensures no_memory { result ≢ Err SetFault.NoMemory }
    {
        if elements.len() > LIMIT {
            return Err(SetFault::Limit);
        }
        elements.sort_unstable_by(order);
        join_touching(&mut elements);
        Ok(Set {
            intervals: elements,
        })
    }

    /// The intervals, in order.
    pub fn intervals(&self) -> &[Element]
        ensures { result.now ≡ self.now }
    {
        self.intervals.as_slice()
    }

    /// Whether the value lies in one of the elements. Takes no memory.
    pub fn contains(&self, value: Value<'_>) -> bool
        ensures { IsTrue result ↔ IsMember (fact_of value.entry) self.now }
    {
        self.contains_counted(value).0
    }

    /// Whether the value lies in one of the elements, and with how many probes that was found. A probe is one
    /// interval compared with the value. Takes no memory.
    pub fn contains_counted(&self, value: Value<'_>) -> (bool, Steps)
        ensures found { IsTrue result.0 ↔ IsMember (fact_of value.entry) self.now }
        ensures probes { (digits : ℕ) → length self.now < 2 ^ digits → result.1 ≤ digits }
    {
        let (found, steps) = search(&self.intervals, value);
        match found {
            Some(_) => (true, steps),
            None => (false, steps),
        }
    }
}
