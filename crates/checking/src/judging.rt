//! Whether a ruleset would load.
ghost use Rattle.std.specs.Prelude.{◌≡◌, ℕ, List, true, false, [], IfOk, IfErr};
ghost use Rattle.std.specs.Io.KnownBytes.{Appends};
ghost use Rattle.refusals.specs.declared.refusal.Refusal.TheVariants.{NoMemory};
ghost use Rattle.checking.specs.CheckLines.{IsShown, IsCheckLine, TellsOf};
ghost use Rattle.refusals.specs.Words.{IsOfPrinting};
ghost use Rattle.ruletext.specs.Texts.{IsRefused};
ghost use Rattle.text_marks.specs.Reports.{IsReport};

use packet::Bounds;
use refusals::Refusal;
use ruletext::fault_of;
use ruletree::{Kind, LoadFault};
use std::alloc::{AllocError, Global};
use std::io::Write;

/// What is found of a text.
#[derive(Debug, Drop)]
pub struct Checked {
    /// Whether it would load.
    pub loads: bool,
    /// `ok`, or the line and the kind of the text's fault, as `line 2: duplicate`; with a newline.
    pub line: Vec<u8>,
    /// The line of the text with a mark, what stands there and what could; nothing where it wasn't asked for, or the
    /// text loads.
    pub marks: Vec<u8>,
}

// The line that tells of a fault.
fn line_of(alloc: Global, fault: &LoadFault) -> Result<Vec<u8>, AllocError>
    ensures { IfOk result (λ line. TellsOf fault.now.kind line.items) }
{
    let number = format!(in alloc; "{}", fault.line)?;
    let mut line = Vec::from_slice(alloc, b"line ")?;
    line.extend_from_slice(number.as_bytes())?;
    line.extend_from_slice(b": ")?;
    line.extend_from_slice(fault.kind.name().as_bytes())?;
    line.push(b'\n')?;
    Ok(line)
}

// The marks of a fault, where they are asked for.
fn marks_of(
    alloc: Global,
    text: &[u8],
    bounds: &Bounds,
    explains: bool,
    fault: &LoadFault,
) -> Result<Vec<u8>, AllocError>
    ensures none { IfOk result (λ marks. explains ≡ false → marks.items ≡ []) }
    ensures shown { IfOk result (λ marks. explains ≡ true → IsReport text.now marks.items) }
{
    if explains {
        return text_marks::explain(alloc, text, bounds, fault);
    }
    Ok(Vec::new(alloc))
}

// What is found of a text that has this fault.
fn refused(
    alloc: Global,
    text: &[u8],
    bounds: &Bounds,
    explains: bool,
    fault: &LoadFault,
) -> Result<Checked, Refusal>
    requires { IsRefused bounds.now text.now fault.now.kind }
    ensures ok { IfOk result (λ found.
        IsCheckLine bounds.now text.now found.loads found.line.items) }
    ensures marks { IfOk result (λ found. explains ≡ false → found.marks.items ≡ []) }
    ensures shown { IfOk result (λ found. explains ≡ true
        → IsShown text.now found.loads found.marks.items) }
    ensures causes { IfErr result (λ refusal. refusal ≡ NoMemory) }
{
    if fault.kind == Kind::NoMemory {
        return Err(Refusal::NoMemory);
    }
    let marks = marks_of(alloc, text, bounds, explains, fault)?;
    let line = line_of(alloc, fault)?;
    Ok(Checked {
        loads: false,
        line,
        marks,
    })
}

/// Says whether a text would load under the configuration, and where `explains` is set shows the place of its fault. A
/// text that is too long may be cut behind the first byte that is too many.
///
/// # Errors
///
/// `NoMemory` where memory is refused, which says nothing of the text.
pub fn report(
    alloc: Global,
    text: &[u8],
    bounds: &Bounds,
    explains: bool,
) -> Result<Checked, Refusal>
    ensures ok { IfOk result (λ found.
        IsCheckLine bounds.now text.now found.loads found.line.items) }
    ensures marks { IfOk result (λ found. explains ≡ false → found.marks.items ≡ []) }
    ensures shown { IfOk result (λ found. explains ≡ true
        → IsShown text.now found.loads found.marks.items) }
    ensures causes { IfErr result (λ refusal. refusal ≡ NoMemory) }
{
    match fault_of(alloc, text, bounds) {
        Some(fault) => refused(alloc, text, bounds, explains, &fault),
        None => {
            let line = Vec::from_slice(alloc, b"ok\n")?;
            Ok(Checked {
                loads: true,
                line,
                marks: Vec::new(alloc),
            })
        }
    }
}

/// Prints what is found of a text, and where `explains` is set shows on `errors` where its fault is. The answer is
/// whether it would load.
///
/// # Errors
///
/// `NoMemory` where memory is refused; `Output` where a writer fails.
pub fn check<W: Write, E: Write>(
    alloc: Global,
    text: &[u8],
    bounds: &Bounds,
    explains: bool,
    output: &mut W,
    errors: &mut E,
) -> Result<bool, Refusal>
    ensures ok { IfOk result (λ loads. (line : List ℕ) × IsCheckLine bounds.now text.now loads line
        × Appends (W.contents output.old) (W.contents output.new) line) }
    ensures quiet { explains ≡ false → errors.new ≡ errors.old }
    ensures shown { IfOk result (λ loads. explains ≡ true
        → (marks : List ℕ) × IsShown text.now loads marks
        × Appends (E.contents errors.old) (E.contents errors.new) marks) }
    ensures causes { IfErr result IsOfPrinting }
    ensures memory { IfErr result (λ refusal. refusal ≡ NoMemory
        → (output.new ≡ output.old) × (errors.new ≡ errors.old)) }
{
    let checked = report(alloc, text, bounds, explains)?;
    if output.write_all(checked.line.as_slice()).is_err() {
        return Err(Refusal::Output);
    }
    if explains && errors.write_all(checked.marks.as_slice()).is_err() {
        return Err(Refusal::Output);
    }
    Ok(checked.loads)
}
