//! What shows that there is a loop, or that there is none.

ghost use Rattle.std.specs.Prelude.{◌≡◌, ◌⊎◌, ◌<◌, ℕ, All, IfOk, IfSome, IfNone, IsTrue, OnOk, Some, length, slice_get, slice_index};
ghost use Rattle.std.specs.List.{Contains};
ghost use Rattle.digraph.specs.Paths.{HasLoop, IsReachedFrom};
ghost use Rattle.digraph.specs.Edges.{HasEdge, AreWithin};

use sqlite_items::Items;
use std::alloc::{AllocError, Global};

fn rank_of(ranks: &[usize], place: usize) -> usize
    ensures { result ≡ slice_index ranks.now place }
{
    match ranks.get(place) {
        Some(rank) => *rank,
        None => 0,
    }
}

// A place of the row whose rank isn't below this one.
fn level_place(ranks: &[usize], rank: usize, row: &[usize]) -> Option<usize>
    ensures some { IfSome result (λ b. Contains row.now b) }
    ensures none { IfNone result ((b : ℕ) → Contains row.now b → slice_index ranks.now b < rank) }
{
    for b in row {
        if rank_of(ranks, *b) >= rank {
            return Some(*b);
        }
    }
    None
}

/// A step that doesn't lead to a lower rank: the place that it starts from, and the place that it leads to.
pub fn level_step(rows: &[Items<usize>], ranks: &[usize]) -> Option<(usize, usize)>
    ensures some { IfSome result (λ step. HasEdge rows.now step.0 step.1) }
    ensures none { IfNone result ((a b : ℕ) → HasEdge rows.now a b
        → slice_index ranks.now b < slice_index ranks.now a) }
{
    for (place, row) in rows.iter().enumerate() {
        if let Some(to) = level_place(ranks, rank_of(ranks, place), row.as_slice()) {
            return Some((place, to));
        }
    }
    None
}

// A place that is met: if it has no mark yet it gets one, and waits until its steps are gone.
fn meet(waiting: &mut Vec<usize>, marks: &mut [bool], place: usize) -> Result<(), AllocError>
    requires { place < length marks.old }
    ensures same { length marks.new ≡ length marks.old }
    ensures waiting { OnOk result ((b : ℕ) → Contains waiting.new.items b
        → Contains waiting.old.items b ⊎ (place ≡ b)) }
{
    if marks[place] {
        return Ok(());
    }
    marks[place] = true;
    waiting.push(place)?;
    Ok(())
}

// Meets each place of a row.
fn meet_row(waiting: &mut Vec<usize>, marks: &mut [bool], row: &[usize]) -> Result<(), AllocError>
    requires { All (λ b. b < length marks.old) row.now }
    ensures same { length marks.new ≡ length marks.old }
    ensures waiting { OnOk result ((b : ℕ) → Contains waiting.new.items b
        → Contains waiting.old.items b ⊎ Contains row.now b) }
{
    for b in row {
        meet(waiting, marks, *b)?;
    }
    Ok(())
}

fn row_at(rows: &[Items<usize>], place: usize) -> &[usize]
    requires { place < length rows.now }
    ensures { slice_get rows.now place ≡ Some result.now }
{
    rows[place].as_slice()
}

// Whether a walk from the places that wait comes to this one. Each place is met once, and each step gone once.
fn comes_to(
    waiting: &mut Vec<usize>,
    marks: &mut [bool],
    rows: &[Items<usize>],
    to: usize,
) -> Result<bool, AllocError>
    requires within { AreWithin rows.now }
    requires same { length marks.old ≡ length rows.now }
    requires waiting { (b : ℕ) → Contains waiting.old.items b → b < length rows.now }
    ensures { IfOk result (λ yes. IsTrue yes
        → IsReachedFrom (HasEdge rows.now) (Contains waiting.old.items) to) }
{
    for _ in 0..rows.len() {
        let Some(place) = waiting.pop() else {
            return Ok(false);
        };
        if place == to {
            return Ok(true);
        }
        meet_row(waiting, marks, row_at(rows, place))?;
    }
    Ok(false)
}

/// Whether a path leads from the end of a step back to its start.
pub fn returns(
    alloc: Global,
    rows: &[Items<usize>],
    from: usize,
    to: usize,
) -> Result<bool, AllocError>
    requires within { AreWithin rows.now }
    requires step { HasEdge rows.now from to }
    ensures { IfOk result (λ yes. IsTrue yes → HasLoop (HasEdge rows.now)) }
{
    let mut marks = vec![in alloc; false; rows.len()]?;
    marks[to] = true;
    let mut waiting = Vec::new(alloc);
    waiting.push(to)?;
    comes_to(&mut waiting, marks.as_mut_slice(), rows, from)
}
