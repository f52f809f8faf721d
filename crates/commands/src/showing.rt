//! What is told of a gateway: its sessions, a line each, or the ruleset in force.
ghost use Rattle.std.specs.Prelude.{◌≡◌, ◌++◌, IfErr, OnOk};
ghost use Rattle.std.specs.List.{flat_map};
ghost use Rattle.std.specs.Io.KnownBytes.{Appends};
ghost use Rattle.durable.specs.Entering.{durable};
ghost use Rattle.refusals.specs.declared.refusal.Refusal.TheVariants.{NoMemory, Output};
ghost use Rattle.refusals.specs.Words.{IsOfPrinting};
ghost use Rattle.session_lines.specs.Lines.{line};
ghost use Rattle.commands.specs.Telling.{listed, told_of};

use disk_model::Disk;
use gateway::{Gateway, Session};
use options::{Listing, View};
use refusals::Refusal;
use std::alloc::{AllocError, Global};
use std::io::Write;

fn put_listed(out: &mut Vec<u8>, sessions: &[Session], listing: Listing) -> Result<(), AllocError>
    ensures { OnOk result (out.new.items ≡ out.old.items ++ listed listing sessions.now) }
{
    match listing {
        Listing::Columns => session_lines::put_lines(out, sessions),
        Listing::Json => session_lines::put_objects(out, sessions),
    }
}

fn print<W: Write>(bytes: &[u8], output: &mut W) -> Result<(), Refusal>
    ensures ok { OnOk result (Appends (W.contents output.old) (W.contents output.new) bytes.now) }
    ensures output { IfErr result (λ refusal. refusal ≡ Output) }
{
    match output.write_all(bytes) {
        Ok(()) => Ok(()),
        Err(_) => Err(Refusal::Output),
    }
}

// Prints sessions in their order, each in a line of its own.
fn list<W: Write>(
    alloc: Global,
    sessions: &[Session],
    listing: Listing,
    output: &mut W,
) -> Result<(), Refusal>
    ensures ok { OnOk result (Appends (W.contents output.old) (W.contents output.new)
        (listed listing sessions.now)) }
    ensures causes { IfErr result IsOfPrinting }
    ensures memory { IfErr result (λ refusal. refusal ≡ NoMemory → output.new ≡ output.old) }
{
    let mut lines = Vec::new(alloc);
    put_listed(&mut lines, sessions, listing)?;
    print(lines.as_slice(), output)
}

/// Prints what is told of a gateway that has this text and these sessions.
///
/// # Errors
///
/// `NoMemory` where memory is refused: nothing is printed then. `Output` where the writer fails.
pub(crate) fn tell<W: Write>(
    alloc: Global,
    text: &[u8],
    sessions: &[Session],
    view: View,
    output: &mut W,
) -> Result<(), Refusal>
    ensures ok { OnOk result (Appends (W.contents output.old) (W.contents output.new)
        (told_of view (durable text.now sessions.now))) }
    ensures causes { IfErr result IsOfPrinting }
    ensures memory { IfErr result (λ refusal. refusal ≡ NoMemory → output.new ≡ output.old) }
{
    match view {
        View::Sessions(listing) => list(alloc, sessions, listing, output),
        View::Rules => print(text, output),
    }
}

/// Prints the sessions, a line each, by protocol, inside and remote endpoint.
///
/// # Errors
///
/// `NoMemory` where memory is refused: nothing is printed then. `Output` where the writer fails.
pub fn show<W: Write, D: Disk + Drop>(
    alloc: Global,
    gateway: &Gateway<D>,
    output: &mut W,
) -> Result<(), Refusal>
    ensures ok { OnOk result (Appends (W.contents output.old) (W.contents output.new)
        (flat_map line gateway.now.told.state.sessions)) }
    ensures causes { IfErr result IsOfPrinting }
    ensures memory { IfErr result (λ refusal. refusal ≡ NoMemory → output.new ≡ output.old) }
{
    tell_of(alloc, gateway, View::Sessions(Listing::Columns), output)
}

/// Prints what is told of a gateway: its sessions by protocol, inside and remote endpoint, each in a line of its own, or
/// the text that loaded last.
///
/// # Errors
///
/// `NoMemory` where memory is refused: nothing is printed then. `Output` where the writer fails.
pub fn tell_of<W: Write, D: Disk + Drop>(
    alloc: Global,
    gateway: &Gateway<D>,
    view: View,
    output: &mut W,
) -> Result<(), Refusal>
    ensures ok { OnOk result (Appends (W.contents output.old) (W.contents output.new)
        (told_of view (durable gateway.now.told.state.text gateway.now.told.state.sessions))) }
    ensures causes { IfErr result IsOfPrinting }
    ensures memory { IfErr result (λ refusal. refusal ≡ NoMemory → output.new ≡ output.old) }
{
    let Ok(sessions) = gateway.sessions() else {
        return Err(Refusal::NoMemory);
    };
    tell(alloc, gateway.text(), sessions.as_slice(), view, output)
}
