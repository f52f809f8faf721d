//! What stands behind the gate of a file that is made anew.
ghost use Rattle.std.specs.Prelude.{◌≡◌, ◌≤◌, ◌∷◌, ◌++◌, [], length, IfOk};
ghost use Rattle.durable.specs.Coding.{heading_bytes};
ghost use Rattle.durable.specs.Entering.{durable};
ghost use Rattle.durable.specs.Laws.{anew};

use durable::put_heading;
use packet::Bounds;
use sessions::Session;
use std::alloc::{AllocError, Global};

/// What stands behind the gate of a file that is made anew: its heading, with the text and the sessions as the
/// snapshot, and a closed gate. The text has at most 262,144 bytes, and there are at most 65,536 sessions.
///
/// # Errors
///
/// `AllocError` where memory is refused.
pub(crate) fn closed_heading(
    alloc: Global,
    generation: u64,
    bounds: &Bounds,
    text: &[u8],
    sessions: &[Session],
) -> Result<Vec<u8>, AllocError>
    requires text { length text.now ≤ 262144 }
    requires count { length sessions.now ≤ 65536 }
    ensures small { IfOk result (λ bytes. length bytes.items ≤ 1638552) }
    ensures code { IfOk result (λ bytes. bytes.items
        ≡ heading_bytes (anew generation bounds.now (durable text.now sessions.now)) ++ 0 ∷ []) }
{
    bounds.facts();
    let mut bytes = Vec::new(alloc);
    put_heading(&mut bytes, generation, bounds, text, sessions)?;
    bytes.push(0)?;
    Ok(bytes)
}
