//! The whole report of a fault.
ghost use Rattle.std.specs.Prelude.{◌≡◌, ◌++◌, OnOk, IfOk};
ghost use Rattle.text_marks.specs.Reports.{IsReport, found};

use crate::mark::put_marked;
use crate::piece::put_named;
use crate::search::place_of;
use crate::sentence::{right, wrong};
use crate::texts::put_all;
use crate::wanted::what_fits;
use packet::Bounds;
use ruletree::{Kind, LoadFault};
use std::alloc::{AllocError, Global};

// What would be right for a fault behind a text.
fn put_right(
    alloc: Global,
    out: &mut Vec<u8>,
    before: &[u8],
    kind: Kind,
) -> Result<(), AllocError> {
    if let Kind::Syntax | Kind::Unsupported | Kind::Family = kind {
        let words = what_fits(alloc, before)?;
        if !words.is_empty() {
            return out.extend_from_slice(words.as_slice());
        }
    }
    out.extend_from_slice(right(kind).as_bytes())
}

#[tactic(auto, unfolding(crate::specs::Reports::found))]
fn put_found(out: &mut Vec<u8>, behind: &[u8]) -> Result<(), AllocError>
    ensures { OnOk result (out.new.items ≡ out.old.items ++ found behind.now) }
{
    out.extend_from_slice(b"found: ")?;
    put_named(out, behind)?;
    Ok(())
}

// What is wrong with what stands behind a text, and what would be right.
fn remarks(alloc: Global, before: &[u8], kind: Kind) -> Result<Vec<u8>, AllocError> {
    let mut shown = Vec::new(alloc);
    put_all(
        &mut shown,
        &[b", ", wrong(kind).as_bytes(), b"\nexpected: "],
    )?;
    put_right(alloc, &mut shown, before, kind)?;
    shown.push(b'\n')?;
    Ok(shown)
}

/// Shows where a text goes wrong: the line that holds the place of its fault, with a mark under the place; what
/// stands there and what is wrong with it; and what could stand there. These are four lines, each with its newline.
/// The fault is the one that `ruletext::read` tells of the text under these bounds; for `NoMemory` the report means
/// nothing.
///
/// # Errors
///
/// `AllocError` where a growth was refused.
pub fn explain(
    alloc: Global,
    text: &[u8],
    bounds: &Bounds,
    fault: &LoadFault,
) -> Result<Vec<u8>, AllocError>
    ensures { IfOk result (λ shown. IsReport text.now shown.items) }
{
    let found = place_of(alloc, text, bounds, fault)?;
    let (_, behind) = text.split_at(found.at);
    let mut shown = Vec::new(alloc);
    put_marked(alloc, &mut shown, text, found.at)?;
    put_found(&mut shown, behind)?;
    let remarks = remarks(alloc, &text[..found.behind], fault.kind)?;
    shown.extend_from_slice(remarks.as_slice())?;
    Ok(shown)
}
