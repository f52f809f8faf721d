//! Sessions as objects of JSON.
ghost use Rattle.std.specs.Prelude.{◌≡◌, ◌++◌, OnOk, OnErr, length, take};
ghost use Rattle.std.specs.List.{flat_map};
ghost use Rattle.session_lines.specs.Lines.{endpoint_text};
ghost use Rattle.session_lines.specs.Objects.{object, opener_word, phase_value, places};

use crate::column::put_endpoint;
use crate::line::{proto_word, put_word};
use packet::{Endpoint, Proto};
use sessions::{Opener, Phase, Session};
use std::alloc::AllocError;

// Who opened a session: `inside` or `remote`.
fn opener_word(opener: Opener) -> &'static str
    ensures { result.now ≡ opener_word opener }
{
    match opener {
        Opener::Inside => "inside",
        Opener::Remote => "remote",
    }
}

// How far a session has come, in quotes; `null` for UDP.
fn phase_value(session: &Session) -> &'static str
    ensures { result.now ≡ phase_value session.now }
{
    match session.proto {
        Proto::Udp => "null",
        Proto::Tcp => match session.phase() {
            Phase::Partial => "\"partial\"",
            Phase::Established => "\"established\"",
            Phase::Closing => "\"closing\"",
        },
    }
}

// Appends a text between two others.
#[tactic(auto, using(crate::proofs::Grown::kept_before))]
fn put_between(out: &mut Vec<u8>, front: &str, text: &str, end: &str) -> Result<(), AllocError>
    ensures ok { OnOk result (out.new.items ≡ out.old.items ++ (front.now ++ text.now ++ end.now)) }
    ensures err { OnErr result (take (length out.old.items) out.new.items ≡ out.old.items) }
{
    put_word(out, front)?;
    put_word(out, text)?;
    put_word(out, end)?;
    Ok(())
}

// Appends an endpoint between two texts.
#[tactic(auto, using(crate::proofs::Grown::kept_before))]
fn put_place(
    out: &mut Vec<u8>,
    front: &str,
    endpoint: Endpoint,
    end: &str,
) -> Result<(), AllocError>
    ensures ok { OnOk result (out.new.items
        ≡ out.old.items ++ (front.now ++ endpoint_text endpoint ++ end.now)) }
    ensures err { OnErr result (take (length out.old.items) out.new.items ≡ out.old.items) }
{
    put_word(out, front)?;
    put_endpoint(out, endpoint)?;
    put_word(out, end)?;
    Ok(())
}

// Appends the members of the three endpoints.
#[tactic(auto, using(crate::proofs::Grown::kept_before))]
fn put_places(out: &mut Vec<u8>, session: &Session) -> Result<(), AllocError>
    ensures ok { OnOk result (out.new.items ≡ out.old.items ++ places session.now) }
    ensures err { OnErr result (take (length out.old.items) out.new.items ≡ out.old.items) }
{
    put_place(out, ",\"inside\":\"", session.inside, "\"")?;
    put_place(out, ",\"outside\":\"", session.outside, "\"")?;
    put_place(out, ",\"remote\":\"", session.remote, "\"")?;
    Ok(())
}

/// Appends a session as an object of JSON in a line of its own, with its newline.
///
/// # Errors
///
/// `AllocError` where a growth was refused. A beginning of the line may have been appended then.
#[tactic(auto, using(crate::proofs::Grown::kept_before))]
pub fn put_object(out: &mut Vec<u8>, session: &Session) -> Result<(), AllocError>
    ensures ok { OnOk result (out.new.items ≡ out.old.items ++ object session.now) }
    ensures err { OnErr result (take (length out.old.items) out.new.items ≡ out.old.items) }
{
    put_between(out, "{\"protocol\":\"", proto_word(session.proto), "\"")?;
    put_places(out, session)?;
    put_between(out, ",\"opener\":\"", opener_word(session.opener), "\"")?;
    put_between(out, ",\"phase\":", phase_value(session), "}\n")?;
    Ok(())
}

// Appends the objects of sessions.
#[tactic(auto, using(crate::proofs::Grown::kept_before))]
fn put_each(out: &mut Vec<u8>, sessions: &[Session]) -> Result<(), AllocError>
    ensures ok { OnOk result (out.new.items ≡ out.old.items ++ flat_map object sessions.now) }
    ensures err { OnErr result (take (length out.old.items) out.new.items ≡ out.old.items) }
{
    for session in sessions {
        put_object(out, session)?;
    }
    Ok(())
}

/// Appends the objects of sessions, in their order, each in a line of its own.
///
/// # Errors
///
/// `AllocError` where a growth was refused. Nothing has been appended then.
pub fn put_objects(out: &mut Vec<u8>, sessions: &[Session]) -> Result<(), AllocError>
    ensures ok { OnOk result (out.new.items ≡ out.old.items ++ flat_map object sessions.now) }
    ensures err { OnErr result (out.new.items ≡ out.old.items) }
{
    let before = out.len();
    let put = put_each(out, sessions);
    if put.is_err() {
        out.truncate(before);
    }
    put
}
