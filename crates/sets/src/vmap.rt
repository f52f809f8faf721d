//! Verdict maps: keys, each with a verdict.
ghost use Rattle.std.specs.Prelude.{◌≡◌, ◌≢◌, ◌↔◌, ◌<◌, ◌≤◌, ◌^◌, ℕ, IsTrue, IfOk, OnOk, IfSome, IfNone, length};
ghost use Rattle.std.specs.Cmp.Lexicographic.{slice_cmp};
ghost use Rattle.std.specs.List.Sorted.{IsSortedBy};
ghost use Rattle.std.specs.Ordering.{nat_cmp};
ghost use Rattle.sets.specs.Order.{place_of, is_key_before};
ghost use Rattle.sets.specs.Members.{Fact, fact_of, MapsTo, Overlaps, limit};

use crate::element::{Element, Pair, Value};
use crate::fault::SetFault;
use crate::parts::by_bytes;
use crate::search::search;
use crate::set::LIMIT;
use packet::Steps;
use std::cmp::Ordering;
use std::marker::Model;

/// Keys with the verdict of each, in order; no two keys share a value.
#[derive(Drop)]
pub struct Vmap<V> {
    pairs: Vec<Pair<V>>,
}

impl<V> Model for Vmap<V> {
    ghost use Rattle.std.specs.Prelude.{List};
    ghost use Rattle.sets.specs.declared.element.Pair.{Pair as Keyed};
    ghost use Rattle.std.specs.List.Sorted.{IsSortedBy};
    ghost use Rattle.sets.specs.Members.{Overlaps};
    ghost use Rattle.sets.specs.Order.{is_key_before};

    ghost Value = { List (Keyed V) };

    ghost view = { λ m. m.pairs.items };

    ghost invariant = { λ m. ¬ Overlaps m.pairs.items × IsSortedBy is_key_before m.pairs.items };
}

impl<V: Drop> Vmap<V> {
    /// The map of these keys, at most `LIMIT` in any order, to their verdicts. Takes no memory.
    ///
    /// # Errors
    ///
    /// `Limit` exactly where there are more; otherwise `Overlap` exactly where two keys share a value; no
    /// other. The pairs are dropped then.
    pub fn of(mut pairs: Vec<Pair<V>>) -> Result<Vmap<V>, SetFault>
        ensures ok { IfOk result (λ vmap. (fact : Fact) (verdict : V)
            → MapsTo fact verdict vmap ↔ MapsTo fact verdict pairs.items) }
        ensures apart { OnOk result (¬ Overlaps pairs.items) }
        ensures limit { (result ≡ Err SetFault.Limit) ↔ (limit < length pairs.items) }
        ensures overlap { (result ≡ Err SetFault.Overlap)
            ↔ ((length pairs.items ≤ limit) × Overlaps pairs.items) }
        ensures no_memory { result ≢ Err SetFault.NoMemory }
    {
        if pairs.len() > LIMIT {
            return Err(SetFault::Limit);
        }
        pairs.sort_unstable_by(|one, other| order(&one.key, &other.key));
        if overlap(&pairs) {
            return Err(SetFault::Overlap);
        }
        Ok(Vmap { pairs })
    }

    /// The verdict of the one key in which the value lies, if there is one. Takes no memory.
    pub fn look_up(&self, value: Value<'_>) -> Option<&V>
        ensures found { IfSome result (λ verdict. (other : V)
            → MapsTo (fact_of value.entry) other self.now ↔ (other ≡ verdict.now)) }
        ensures absent { IfNone result ((verdict : V)
            → ¬ MapsTo (fact_of value.entry) verdict self.now) }
    {
        self.look_up_counted(value).0
    }

    /// The verdict of the one key in which the value lies, if there is one, and with how many probes it was
    /// found. A probe is one key compared with the value. Takes no memory.
    pub fn look_up_counted(&self, value: Value<'_>) -> (Option<&V>, Steps)
        ensures found { IfSome result.0 (λ verdict. (other : V)
            → MapsTo (fact_of value.entry) other self.now ↔ (other ≡ verdict.now)) }
        ensures absent { IfNone result.0 ((verdict : V)
            → ¬ MapsTo (fact_of value.entry) verdict self.now) }
        ensures probes { (digits : ℕ) → length self.now < 2 ^ digits → result.1 ≤ digits }
    {
        let (found, steps) = search(&self.pairs, value);
        match found {
            Some(pair) => (Some(&pair.verdict), steps),
            None => (None, steps),
        }
    }
}

// Where a key is looked for: ranges by where they begin, and behind them names by their bytes.
pub(crate) fn order(one: &Element, other: &Element) -> Ordering
    ensures { result ≡ slice_cmp nat_cmp (place_of one.now) (place_of other.now) }
{
    match (one, other) {
        (Element::Numbers(range), Element::Numbers(later)) => range.low.cmp(&later.low),
        (Element::Numbers(_), Element::Name(_)) => Ordering::Less,
        (Element::Name(_), Element::Numbers(_)) => Ordering::Greater,
        (Element::Name(name), Element::Name(later)) => by_bytes(name.as_slice(), later.as_slice()),
    }
}

// Of keys in order two share a value only where two neighbours do.
fn overlap<V>(pairs: &[Pair<V>]) -> bool
    requires { IsSortedBy is_key_before pairs.now }
    ensures { IsTrue result ↔ Overlaps pairs.now }
{
    for place in 1..pairs.len() {
        let earlier = &pairs[place - 1];
        let later = &pairs[place];
        if earlier.key.shares_with(&later.key) {
            return true;
        }
    }
    false
}
