//! The lines of sessions.
ghost use Rattle.std.specs.Prelude.{◌≡◌, ◌++◌, OnOk, OnErr, length, take};
ghost use Rattle.std.specs.List.{flat_map};
ghost use Rattle.session_lines.specs.Lines.{columns, line, proto_word, progress_word};

use crate::column::put_column;
use packet::Proto;
use sessions::{Phase, Session};
use std::alloc::AllocError;

/// The protocol's word: `tcp` or `udp`.
pub(crate) fn proto_word(proto: Proto) -> &'static str
    ensures { result.now ≡ proto_word proto }
{
    match proto {
        Proto::Tcp => "tcp",
        Proto::Udp => "udp",
    }
}

// How far a session has come: `partial`, `established` or `closing`; `-` for UDP.
fn progress_word(session: &Session) -> &'static str
    ensures { result.now ≡ progress_word session.now }
{
    match session.proto {
        Proto::Udp => "-",
        Proto::Tcp => match session.phase() {
            Phase::Partial => "partial",
            Phase::Established => "established",
            Phase::Closing => "closing",
        },
    }
}

/// Appends a text.
pub(crate) fn put_word(out: &mut Vec<u8>, word: &str) -> Result<(), AllocError>
    ensures ok { OnOk result (out.new.items ≡ out.old.items ++ word.now) }
    ensures err { OnErr result (out.new.items ≡ out.old.items) }
{
    out.extend_from_slice(word.as_bytes())
}

// Appends the columns of the three endpoints.
#[tactic(auto, using(crate::proofs::Grown::kept_before))]
fn put_columns(out: &mut Vec<u8>, session: &Session) -> Result<(), AllocError>
    ensures ok { OnOk result (out.new.items ≡ out.old.items ++ columns session.now) }
    ensures err { OnErr result (take (length out.old.items) out.new.items ≡ out.old.items) }
{
    put_column(out, session.inside)?;
    put_column(out, session.outside)?;
    put_column(out, session.remote)?;
    Ok(())
}

/// Appends the line of a session, with its newline.
///
/// # Errors
///
/// `AllocError` where a growth was refused. A beginning of the line may have been appended then.
#[tactic(auto, using(crate::proofs::Grown::kept_before))]
pub fn put_line(out: &mut Vec<u8>, session: &Session) -> Result<(), AllocError>
    ensures ok { OnOk result (out.new.items ≡ out.old.items ++ line session.now) }
    ensures err { OnErr result (take (length out.old.items) out.new.items ≡ out.old.items) }
{
    put_word(out, proto_word(session.proto))?;
    out.push(b' ')?;
    put_columns(out, session)?;
    put_word(out, progress_word(session))?;
    out.push(b'\n')?;
    Ok(())
}

// Appends the lines of sessions.
#[tactic(auto, using(crate::proofs::Grown::kept_before))]
fn put_each(out: &mut Vec<u8>, sessions: &[Session]) -> Result<(), AllocError>
    ensures ok { OnOk result (out.new.items ≡ out.old.items ++ flat_map line sessions.now) }
    ensures err { OnErr result (take (length out.old.items) out.new.items ≡ out.old.items) }
{
    for session in sessions {
        put_line(out, session)?;
    }
    Ok(())
}

/// Appends the lines of sessions, in their order.
///
/// # Errors
///
/// `AllocError` where a growth was refused. Nothing has been appended then.
pub fn put_lines(out: &mut Vec<u8>, sessions: &[Session]) -> Result<(), AllocError>
    ensures ok { OnOk result (out.new.items ≡ out.old.items ++ flat_map line sessions.now) }
    ensures err { OnErr result (out.new.items ≡ out.old.items) }
{
    let before = out.len();
    let put = put_each(out, sessions);
    if put.is_err() {
        out.truncate(before);
    }
    put
}
