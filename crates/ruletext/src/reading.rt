//! From a text to rules that may run.

ghost use Rattle.std.specs.Prelude.{◌≡◌, IfErr, IfNone, IfOk, IfSome};
ghost use Rattle.ruletree.specs.declared.tree.Spelled.{Spelled};
ghost use Rattle.rulesyntax.specs.Text.{IsOkOrNoMemory, IsSpelledBy, IsUnreadFor};
ghost use Rattle.ruletext.specs.Texts.{Loads, IsRefused};

use packet::Bounds;
use rulesets::{Ruleset, load};
use rulesyntax::parse;
use ruletree::{Kind, LoadFault};
use std::alloc::Global;

/// The rules of a text, where it loads under these bounds.
///
/// # Errors
///
/// Why it can't be taken, with the line at which that shows: `TooLong` above `GREATEST_LENGTH` of
/// `rulesyntax`; what the parser says of a text that is no ruleset; of a ruleset, the first kind of fault
/// that it has, as `Kind` orders them. `NoMemory` comes only where a growth was refused.
pub fn read(alloc: Global, text: &[u8], bounds: &Bounds) -> Result<Ruleset, LoadFault>
    ensures loads { IfOk result (λ rules. Loads bounds.now text.now rules) }
    ensures only { (rules : Spelled) → Loads bounds.now text.now rules
        → IsOkOrNoMemory rules result }
    ensures refused { IfErr result (λ fault. IsRefused bounds.now text.now fault.kind) }
{
    match parse(alloc, text) {
        Ok(spelled) => load(alloc, spelled, bounds),
        Err(fault) => Err(fault),
    }
}

/// Why a text doesn't load under these bounds: the fault that `read` tells, or nothing where it loads.
pub fn fault_of(alloc: Global, text: &[u8], bounds: &Bounds) -> Option<LoadFault>
    ensures loads { IfNone result ((rules : Spelled) × Loads bounds.now text.now rules) }
    ensures only { (rules : Spelled) → Loads bounds.now text.now rules
        → IfSome result (λ fault. fault.kind ≡ Kind.NoMemory) }
    ensures refused { IfSome result (λ fault. IsRefused bounds.now text.now fault.kind) }
{
    match read(alloc, text, bounds) {
        Ok(_rules) => None,
        Err(fault) => Some(fault),
    }
}

/// Why a text spells no ruleset: the fault that `rulesyntax::parse` tells, or nothing where it spells one.
pub fn spelling_fault_of(alloc: Global, text: &[u8]) -> Option<LoadFault>
    ensures spells { IfNone result ((rules : Spelled) × IsSpelledBy rules text.now) }
    ensures refused { IfSome result (λ fault. IsUnreadFor text.now fault.kind) }
{
    match parse(alloc, text) {
        Ok(_spelled) => None,
        Err(unread) => Some(unread),
    }
}
