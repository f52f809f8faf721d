//! How long paths are, and whether there is a loop.

ghost use Rattle.std.specs.Prelude.{◌≡◌, ◌↔◌, ◌+◌, ◌<◌, ◌≤◌, ℕ, length, replicate, slice_index, IfOk, IsTrue, All};
ghost use Rattle.std.specs.List.{Contains};
ghost use Rattle.digraph.specs.Paths.{HasPath, HasLoop, IsDeeper};
ghost use Rattle.digraph.specs.Heights.{IsRaised, AreHeights};
ghost use Rattle.digraph.specs.Edges.{HasEdge, AreWithin};

use crate::strong::components_of;
use crate::witness::{level_step, returns};
use sqlite_items::Items;
use std::alloc::{AllocError, Global};

// One more than the greatest height of these places, or 0 where there are none.
fn height_over(heights: &[usize], row: &[usize]) -> usize
    requires within { All (λ b. b < length heights.now) row.now }
    requires small { (b : ℕ) → slice_index heights.now b < usize.MAX }
    ensures upper { (b : ℕ) → Contains row.now b → slice_index heights.now b < result }
    ensures reached { 0 < result → (b : ℕ) × Contains row.now b
        × (result ≡ slice_index heights.now b + 1) }
{
    let mut height = 0;
    for b in row {
        if heights[*b] >= height {
            height = heights[*b] + 1;
        }
    }
    height
}

// The next heights: one round more of steps counted.
fn raised(alloc: Global, rows: &[Items<usize>], heights: &[usize]) -> Result<Vec<usize>, AllocError>
    requires same { length heights.now ≡ length rows.now }
    requires within { AreWithin rows.now }
    requires small { (b : ℕ) → slice_index heights.now b < usize.MAX }
    ensures same { IfOk result (λ new. length new.items ≡ length rows.now) }
    ensures raised { IfOk result (λ new. IsRaised (HasEdge rows.now) (slice_index heights.now)
        (slice_index new.items)) }
{
    let mut new = Vec::new(alloc);
    for row in rows {
        new.push(height_over(heights, row.as_slice()))?;
    }
    Ok(new)
}

// From each place the length of its longest path, counted up to the number of rounds.
fn heights_after(
    alloc: Global,
    rows: &[Items<usize>],
    rounds: usize,
) -> Result<Vec<usize>, AllocError>
    requires within { AreWithin rows.now }
    requires small { rounds < usize.MAX }
    ensures { IfOk result (λ heights. AreHeights (HasEdge rows.now) rounds
        (slice_index heights.items)) }
{
    let mut heights = zeros(alloc, rows.len())?;
    for _ in 0..rounds {
        heights = raised(alloc, rows, heights.as_slice())?;
    }
    Ok(heights)
}

fn zeros(alloc: Global, count: usize) -> Result<Vec<usize>, AllocError>
    ensures { IfOk result (λ v. v.items ≡ replicate count 0) }
{
    Ok(vec![in alloc; 0; count]?)
}

// Whether some path has so many steps.
fn has_path(alloc: Global, rows: &[Items<usize>], steps: usize) -> Result<bool, AllocError>
    requires within { AreWithin rows.now }
    requires small { steps < usize.MAX }
    requires some { 0 < steps }
    ensures { IfOk result (λ yes. IsTrue yes ↔ (a : ℕ) × HasPath (HasEdge rows.now) steps a) }
{
    let heights = heights_after(alloc, rows, steps)?;
    Ok(is_reached(heights.as_slice(), steps))
}

fn is_reached(heights: &[usize], height: usize) -> bool
    requires { 0 < height }
    ensures { IsTrue result ↔ (a : ℕ) × (height ≤ slice_index heights.now a) }
{
    for h in heights {
        if *h >= height {
            return true;
        }
    }
    false
}

/// Whether some path has more than so many steps.
pub fn is_deeper(alloc: Global, rows: &[Items<usize>], most: usize) -> Result<bool, AllocError>
    requires within { AreWithin rows.now }
    requires small { most + 1 < usize.MAX }
    ensures { IfOk result (λ yes. IsTrue yes ↔ IsDeeper (HasEdge rows.now) most) }
{
    has_path(alloc, rows, most + 1)
}

// Some place reaches itself, shown by paths as long as there are places: a round for each of them.
fn has_endless_path(alloc: Global, rows: &[Items<usize>]) -> Result<bool, AllocError>
    requires within { AreWithin rows.now }
    requires small { length rows.now < usize.MAX }
    ensures { IfOk result (λ yes. IsTrue yes ↔ HasLoop (HasEdge rows.now)) }
{
    if rows.len() == 0 {
        return Ok(false);
    }
    has_path(alloc, rows, rows.len())
}

/// Whether some place reaches itself. The numbers of the components show it at once: where each step leads to
/// a lower one there is no loop, and another step stands on one.
pub fn has_loop(alloc: Global, rows: &[Items<usize>]) -> Result<bool, AllocError>
    requires within { AreWithin rows.now }
    requires small { length rows.now < usize.MAX }
    ensures { IfOk result (λ yes. IsTrue yes ↔ HasLoop (HasEdge rows.now)) }
{
    let ranks = components_of(alloc, rows)?;
    let Some((from, to)) = level_step(rows, ranks.as_slice()) else {
        return Ok(false);
    };
    if returns(alloc, rows, from, to)? {
        return Ok(true);
    }
    has_endless_path(alloc, rows)
}
