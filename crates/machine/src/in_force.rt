//! The text that loaded last, with its rules: how it is noted, put in force, and found again.
ghost use Rattle.std.specs.Prelude.{◌≡◌, ◌<◌, ◌≤◌, ◌+◌, ◌∷◌, [], length, IsErrOf, OnOk, Ok, IsTrue, IfOk, IsOk};
ghost use Rattle.durable.specs.Coding.{Load};
ghost use Rattle.durable.specs.Entering.{IsRuleset};
ghost use Rattle.machine.specs.Outcomes.{NotedIfOk};
ghost use Rattle.machine.specs.Sound.{IsInForce};

use crate::bytes::Bytes;
use crate::deed::rules_of;
use crate::fault::{NoMemory, StepFault};
use crate::notes::Notes;
use durable::{Entry, LOAD_FRONT_LEN};
use packet::Bounds;
use sqlite_items::Boxed;
use std::alloc::Global;
use verdict::Rules;

/// The text that loaded last, and its rules.
#[derive(Drop)]
pub(crate) struct InForce {
    pub(crate) text: Bytes,
    pub(crate) rules: Rules,
}

// Notes that a text is loaded; `ready` says that there is room for its entry, 5 bytes and the text, already.
pub(crate) fn note_load<N: Notes>(ready: bool, text: &Bytes, notes: &mut N) -> Result<(), StepFault>
    requires { IsTrue ready → N.keeps notes.old → 5 + length text.now ≤ N.room notes.old }
    ensures noted { NotedIfOk N.keeps N.beside N.noted result notes.old notes.new
        (Load text.now ∷ []) }
    ensures full { IsErrOf result StepFault.Full → N.too_many notes.old (5 + length text.now) }
    ensures no_memory { IsErrOf result StepFault.NoMemory
        → ¬ N.too_many notes.old (5 + length text.now) }
    ensures ready { IsTrue ready → IsOk result }
    ensures grants { N.grants notes.old → IsOk result }
{
    let bytes = text.as_slice();
    if !ready {
        notes.reserve(0, LOAD_FRONT_LEN as u64 + bytes.len() as u64)?;
    }
    notes.note(Entry::Load(bytes));
    Ok(())
}

// Puts the rules of the text in force. Not compiled into its caller, so that a packet clears no room for rules.
#[inline(never)]
pub(crate) fn put_in_force(in_force: &mut InForce, text: Bytes, rules: Boxed<Rules>)
    ensures text { in_force.new.text ≡ text }
    ensures rules { in_force.new.rules ≡ rules }
{
    let rules = rules.into_inner();
    drop(std::mem::replace(in_force, InForce { text, rules }));
}

// The text that survived, and its rules; there are none where it is empty.
pub(crate) fn in_force_again(
    alloc: Global,
    bounds: &Bounds,
    text: Vec<u8>,
) -> Result<InForce, NoMemory>
    requires { IsRuleset bounds.now text.items }
    ensures text { IfOk result (λ f. f.text ≡ text.items) }
    ensures rules { IfOk result (λ f. IsInForce bounds.now text.items f.rules) }
{
    if text.is_empty() {
        return Ok(InForce {
            text: Bytes::of(text),
            rules: Rules::none(alloc),
        });
    }
    match rules_of(alloc, bounds, &text)? {
        Some(rules) => Ok(InForce {
            text: Bytes::of(text),
            rules,
        }),
        None => unreachable!(),
    }
}
