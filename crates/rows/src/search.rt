//! A search that counts by steps.
//!
//! A halving asks a question at each step whose answer is as likely yes as no, and must know it before it can
//! read on. Steps of one length all have the same answer but the last, so that the processor reads ahead.
ghost use Rattle.std.specs.Prelude.{◌≡◌, ◌+◌, ◌<◌, ◌≤◌, Bool, true, false, length};
ghost use Rattle.std.specs.List.{AllWithin};
ghost use Rattle.std.specs.List.Sorted.{IsPartitionPoint, IsPartitionedBy};
ghost use Rattle.rows.specs.Search.{IsTestFor};

// The lengths of the steps before the items are counted one by one.
const FAR: usize = 64;

const NEAR: usize = 8;

/// How many items come before the first that isn't before, where no item before stands behind one that isn't.
pub fn count_before<T, P: Fn(&T) -> bool>(items: &[T], is_before: P) -> usize
    requires { P.IsAlwaysCallable is_before }
    ensures bound { result ≤ length items.now }
    ensures partitioned { (p : T → Bool) → IsTestFor P.Fn is_before p → IsPartitionedBy p items.now
        → IsPartitionPoint (λ y. p y ≡ true) (λ y. p y ≡ false) items.now result }
{
    let far = first_from(items, 0, FAR, &is_before);
    let near = first_from(items, far, NEAR, &is_before);
    count_from(items, near, NEAR, &is_before)
}

// The first place, by steps of this length from one on, at which a step would end behind an item that isn't
// before, or behind them all.
fn first_from<T, P: Fn(&T) -> bool>(items: &[T], from: usize, stride: usize, is_before: &P) -> usize
    requires callable { P.IsAlwaysCallable is_before.now }
    requires in_range { from ≤ length items.now }
    requires forward { 0 < stride }
    ensures bound { result ≤ length items.now }
    ensures before { (p : T → Bool) → IsTestFor P.Fn is_before.now p → IsPartitionedBy p items.now
        → AllWithin (λ y. p y ≡ true) items.now 0 from
        → AllWithin (λ y. p y ≡ true) items.now 0 result }
    ensures after { (p : T → Bool) → IsTestFor P.Fn is_before.now p → IsPartitionedBy p items.now
        → AllWithin (λ y. p y ≡ false) items.now (result + stride) (length items.now) }
{
    let mut place = from;
    while stride <= items.len() - place && is_before(&items[place + stride - 1]) {
        place += stride;
    }
    place
}

// The place and how many of so many items from there on are before.
fn count_from<T, P: Fn(&T) -> bool>(items: &[T], from: usize, many: usize, is_before: &P) -> usize
    requires callable { P.IsAlwaysCallable is_before.now }
    requires in_range { from ≤ length items.now }
    ensures bound { result ≤ length items.now }
    ensures partitioned { (p : T → Bool) → IsTestFor P.Fn is_before.now p
        → IsPartitionedBy p items.now → AllWithin (λ y. p y ≡ true) items.now 0 from
        → AllWithin (λ y. p y ≡ false) items.now (from + many) (length items.now)
        → IsPartitionPoint (λ y. p y ≡ true) (λ y. p y ≡ false) items.now result }
{
    let end = from + many.min(items.len() - from);
    let mut place = from;
    for item in &items[from..end] {
        if is_before(item) {
            place += 1;
        }
    }
    place
}
