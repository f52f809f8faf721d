//! What places reach.

ghost use Rattle.std.specs.Prelude.{◌≡◌, ◌↔◌, ◌⊎◌, ◌<◌, ℕ, length, IsTrue, All};
ghost use Rattle.std.specs.List.{Contains};
ghost use Rattle.digraph.specs.Edges.{IsMarked, HasEdge, AreWithin};
ghost use Rattle.digraph.specs.Paths.{IsReachedFrom, IsDeeper};

use sqlite_items::Items;

// Marks the places of the row.
fn mark_row(row: &[usize], marks: &mut [bool])
    requires { All (λ b. b < length marks.old) row.now }
    ensures { (b : ℕ) → IsMarked marks.new b ↔ (IsMarked marks.old b ⊎ Contains row.now b) }
{
    for b in row {
        marks[*b] = true;
    }
}

// Marks them only where it is wanted.
fn mark_row_if(row: &[usize], marks: &mut [bool], wanted: bool)
    requires { All (λ b. b < length marks.old) row.now }
    ensures { (b : ℕ) → IsMarked marks.new b
        ↔ (IsMarked marks.old b ⊎ (IsTrue wanted × Contains row.now b)) }
{
    if wanted {
        mark_row(row, marks);
    }
}

/// One round: marks what the marked places lead to, and perhaps more of what they reach.
pub(crate) fn spread(rows: &[Items<usize>], marks: &mut [bool])
    requires within { AreWithin rows.now }
    requires same { length marks.old ≡ length rows.now }
    ensures kept { (b : ℕ) → IsMarked marks.old b → IsMarked marks.new b }
    ensures sound { (b : ℕ) → IsMarked marks.new b
        → IsReachedFrom (HasEdge rows.now) (IsMarked marks.old) b }
    ensures stepped { (a b : ℕ) → IsMarked marks.old a → HasEdge rows.now a b
        → IsMarked marks.new b }
{
    for (place, row) in rows.iter().enumerate() {
        let wanted = marks[place];
        mark_row_if(row.as_slice(), marks, wanted);
    }
}

/// Marks all that the marked places reach, where no path has more than so many steps.
pub fn mark_reached(rows: &[Items<usize>], marks: &mut [bool], most: usize)
    requires within { AreWithin rows.now }
    requires same { length marks.old ≡ length rows.now }
    requires shallow { ¬ IsDeeper (HasEdge rows.now) most }
    ensures { (b : ℕ) → IsMarked marks.new b
        ↔ IsReachedFrom (HasEdge rows.now) (IsMarked marks.old) b }
{
    for round in 0..most {
        spread(rows, marks);
    }
}
