//! Encoding: entries and headings as bytes. All numbers are big-endian.
ghost use Rattle.std.specs.Prelude.{◌≡◌, ◌+◌, ◌<◌, ◌≤◌, ◌^◌, ◌∷◌, ◌++◌, [], length, OnOk};
ghost use Rattle.std.specs.List.{All, flat_map};
ghost use Rattle.byteorder.specs.Endian.{big_bytes};
ghost use Rattle.disk_model.specs.Disk.{put};
ghost use Rattle.sessions.specs.Life.{IsSeen};
ghost use Rattle.packet.specs.Numbers.{IsEndpoint};
ghost use Rattle.durable.specs.Versions.{latest, mark_of};
ghost use Rattle.durable.specs.Coding.{Begin, End, Load, Restart, Seen, session_bytes, flow_bytes, entry_bytes, text_bytes, prefix_bytes, config_bytes, outside_bytes, snapshot_bytes, heading_bytes, IsEntry, IsFlow, IsHeading, IsPrefix, IsSession};
ghost use Rattle.durable.specs.Entering.{durable};
ghost use Rattle.durable.specs.Laws.{anew};

use crate::entry::Flow;
use crate::version::Version;
use packet::{Bounds, Endpoint, Prefix};
use sessions::{Opener, Session};
use std::alloc::AllocError;

/// The bytes in front of the text in the entry of a load: its tag and the length of the text.
pub const LOAD_FRONT_LEN: usize = 5;

/// The bytes of the entry of a session that begins: its tag and the session.
pub const BEGIN_LEN: usize = 22;

/// The bytes of the entry of what a session's packets have shown: its tag, the flow, and what was seen.
pub const SEEN_LEN: usize = 15;

/// The bytes of the entry of a session that is begun anew: its tag, the flow, the opener, and what was seen.
pub const RESTART_LEN: usize = 16;

/// The bytes of the entry of a session that ends: its tag and the flow.
pub const END_LEN: usize = 14;

/// The bytes of a session: its protocol, three endpoints of six bytes, its opener, and what was seen.
const SESSION_LEN: usize = 21;

/// The bytes of a flow: its protocol, and two endpoints of six bytes.
const FLOW_LEN: usize = 13;

/// Where the flow of an entry ends: it stands behind the tag.
const FLOW_END: usize = 1 + FLOW_LEN;

fn address_fits(address: u32)
    ensures { address < 2 ^ 32 }
{}

fn port_fits(port: u16)
    ensures { port < 2 ^ 16 }
{}

/// Every endpoint has a code. It does nothing but carry this fact.
pub fn endpoint_fits(endpoint: Endpoint)
    ensures { IsEndpoint endpoint }
{
    address_fits(endpoint.addr);
    port_fits(endpoint.port);
}

// Writes the code of an endpoint at this place.
fn set_endpoint(code: &mut [u8], at: usize, endpoint: Endpoint)
    requires { at + 6 ≤ length code.old }
    ensures set { code.new ≡ put (at + 4) (big_bytes 2 endpoint.port)
        (put at (big_bytes 4 endpoint.addr) code.old) }
    ensures fits { IsEndpoint endpoint }
{
    endpoint_fits(endpoint);
    code[at..at + 4].copy_from_slice(&endpoint.addr.to_be_bytes());
    code[at + 4..at + 6].copy_from_slice(&endpoint.port.to_be_bytes());
}

/// What stands before the text in the entry of a load. The text has fewer than 2^32 bytes.
pub fn load_front(text: &[u8]) -> [u8; LOAD_FRONT_LEN]
    requires { length text.now < 2 ^ 32 }
    ensures { result ++ text.now ≡ entry_bytes (Load text.now) }
{
    let [a, b, c, d] = (text.len() as u32).to_be_bytes();
    [1, a, b, c, d]
}

fn session_code(session: &Session) -> [u8; SESSION_LEN]
    ensures code { result ≡ session_bytes session.now }
    ensures fits { IsSeen session.now.proto session.now.seen → session.now.last ≡ 0
        → IsSession session.now }
{
    let mut code = [0; SESSION_LEN];
    code[0] = session.proto.number();
    set_endpoint(&mut code, 1, session.inside);
    set_endpoint(&mut code, 7, session.outside);
    set_endpoint(&mut code, 13, session.remote);
    code[19] = session.opener.code();
    code[20] = session.seen;
    code
}

/// The entry of a session that begins.
#[tactic(auto, unfolding(crate::specs::Coding::entry_bytes))]
pub fn begin_code(session: &Session) -> [u8; BEGIN_LEN]
    ensures code { result ≡ entry_bytes (Begin session.now) }
    ensures fits { IsSeen session.now.proto session.now.seen → session.now.last ≡ 0
        → IsEntry (Begin session.now) }
{
    let mut code = [2; BEGIN_LEN];
    code[1..].copy_from_slice(&session_code(session));
    code
}

fn flow_code(flow: &Flow) -> [u8; FLOW_LEN]
    ensures code { result ≡ flow_bytes flow.now }
    ensures fits { IsFlow flow.now }
{
    let mut code = [0; FLOW_LEN];
    code[0] = flow.proto.number();
    set_endpoint(&mut code, 1, flow.inside);
    set_endpoint(&mut code, 7, flow.remote);
    code
}

/// The entry of what a session's packets have shown, as a sum of bits that its protocol has.
#[tactic(auto, unfolding(crate::specs::Coding::entry_bytes, crate::specs::Coding::flow_bytes, crate::specs::Coding::endpoint_bytes))]
pub fn seen_code(flow: &Flow, seen: u8) -> [u8; SEEN_LEN]
    ensures code { result ≡ entry_bytes (Seen flow.now seen) }
    ensures fits { IsSeen flow.now.proto seen → IsEntry (Seen flow.now seen) }
{
    let mut code = [3; SEEN_LEN];
    code[1..FLOW_END].copy_from_slice(&flow_code(flow));
    code[FLOW_END] = seen;
    code
}

/// The entry of a session that is begun anew by this side.
#[tactic(auto, unfolding(crate::specs::Coding::entry_bytes, crate::specs::Coding::flow_bytes, crate::specs::Coding::endpoint_bytes))]
pub fn restart_code(flow: &Flow, opener: Opener, seen: u8) -> [u8; RESTART_LEN]
    ensures code { result ≡ entry_bytes (Restart flow.now opener seen) }
    ensures fits { IsSeen flow.now.proto seen → IsEntry (Restart flow.now opener seen) }
{
    let mut code = [4; RESTART_LEN];
    code[1..FLOW_END].copy_from_slice(&flow_code(flow));
    code[FLOW_END] = opener.code();
    code[FLOW_END + 1] = seen;
    code
}

/// The entry of a session that ends.
#[tactic(auto, unfolding(crate::specs::Coding::entry_bytes))]
pub fn end_code(flow: &Flow) -> [u8; END_LEN]
    ensures code { result ≡ entry_bytes (End flow.now) }
    ensures fits { IsEntry (End flow.now) }
{
    let mut code = [5; END_LEN];
    code[1..].copy_from_slice(&flow_code(flow));
    code
}

fn put_byte(out: &mut Vec<u8>, byte: u8) -> Result<(), AllocError>
    ensures { OnOk result (out.new.items ≡ out.old.items ++ byte ∷ []) }
{
    out.extend_from_slice(&[byte])
}

fn put_session(out: &mut Vec<u8>, session: &Session) -> Result<(), AllocError>
    ensures { OnOk result (out.new.items ≡ out.old.items ++ session_bytes session.now) }
{
    out.extend_from_slice(&session_code(session))
}

fn put_text(out: &mut Vec<u8>, text: &[u8]) -> Result<(), AllocError>
    requires { length text.now < 2 ^ 32 }
    ensures { OnOk result (out.new.items ≡ out.old.items ++ text_bytes 4 text.now) }
{
    let count = text.len() as u32;
    out.extend_from_slice(&count.to_be_bytes())?;
    out.extend_from_slice(text)?;
    Ok(())
}

fn put_sessions(out: &mut Vec<u8>, sessions: &[Session]) -> Result<(), AllocError>
    ensures { OnOk result (out.new.items ≡ out.old.items ++ flat_map session_bytes sessions.now) }
{
    for session in sessions {
        put_session(out, session)?;
    }
    Ok(())
}

#[tactic(auto, unfolding(crate::specs::Coding::prefix_bytes))]
fn put_prefix(out: &mut Vec<u8>, prefix: &Prefix) -> Result<(), AllocError>
    ensures { OnOk result (out.new.items ≡ out.old.items ++ prefix_bytes prefix.now) }
{
    out.extend_from_slice(&prefix.addr.to_be_bytes())?;
    put_byte(out, prefix.len)?;
    Ok(())
}

fn put_prefixes(out: &mut Vec<u8>, prefixes: &[Prefix]) -> Result<(), AllocError>
    ensures { OnOk result (out.new.items ≡ out.old.items ++ flat_map prefix_bytes prefixes.now) }
{
    for prefix in prefixes {
        put_prefix(out, prefix)?;
    }
    Ok(())
}

fn put_name(out: &mut Vec<u8>, name: &[u8]) -> Result<(), AllocError>
    requires { length name.now < 256 }
    ensures { OnOk result (out.new.items ≡ out.old.items ++ text_bytes 1 name.now) }
{
    put_byte(out, name.len() as u8)?;
    out.extend_from_slice(name)?;
    Ok(())
}

fn put_addresses(out: &mut Vec<u8>, addresses: &[u32]) -> Result<(), AllocError>
    ensures { OnOk result (out.new.items ≡ out.old.items ++ flat_map (big_bytes 4) addresses.now) }
{
    for address in addresses {
        out.extend_from_slice(&address.to_be_bytes())?;
    }
    Ok(())
}

fn put_outside(out: &mut Vec<u8>, bounds: &Bounds) -> Result<(), AllocError>
    ensures { OnOk result (out.new.items ≡ out.old.items
        ++ outside_bytes latest bounds.now.external bounds.now.filtering) }
{
    bounds.facts();
    put_byte(out, bounds.external().len() as u8)?;
    put_addresses(out, bounds.external())?;
    put_byte(out, bounds.filtering().code())?;
    Ok(())
}

#[tactic(auto, unfolding(crate::specs::Coding::config_bytes))]
fn put_config(out: &mut Vec<u8>, bounds: &Bounds) -> Result<(), AllocError>
    ensures { OnOk result (out.new.items ≡ out.old.items ++ config_bytes latest bounds.now) }
{
    bounds.facts();
    put_name(out, bounds.lan())?;
    put_name(out, bounds.wan())?;
    put_byte(out, bounds.inside().len() as u8)?;
    put_prefixes(out, bounds.inside())?;
    put_outside(out, bounds)?;
    Ok(())
}

#[tactic(auto, unfolding(crate::specs::Coding::snapshot_bytes))]
fn put_snapshot(out: &mut Vec<u8>, text: &[u8], sessions: &[Session]) -> Result<(), AllocError>
    requires text { length text.now < 2 ^ 32 }
    requires count { length sessions.now < 2 ^ 32 }
    ensures { OnOk result (out.new.items ≡ out.old.items
        ++ snapshot_bytes (record { text = text.now; sessions = sessions.now })) }
{
    put_text(out, text)?;
    let count = sessions.len() as u32;
    out.extend_from_slice(&count.to_be_bytes())?;
    put_sessions(out, sessions)?;
    Ok(())
}

fn put_mark(out: &mut Vec<u8>) -> Result<(), AllocError>
    ensures { OnOk result (out.new.items ≡ out.old.items ++ mark_of latest) }
{
    out.extend_from_slice(&Version::LATEST.mark())
}

fn put_generation(out: &mut Vec<u8>, generation: u64) -> Result<(), AllocError>
    ensures { OnOk result (out.new.items ≡ out.old.items ++ big_bytes 8 generation) }
{
    out.extend_from_slice(&generation.to_be_bytes())
}

/// Puts a heading behind the bytes: mark, generation, configuration, and a snapshot of the text and the sessions. The
/// bytes of the text are fewer than 2^32, and so are the sessions.
///
/// # Errors
///
/// `AllocError` where a growth was refused.
#[tactic(auto, unfolding(crate::specs::Coding::heading_bytes))]
pub fn put_heading(
    out: &mut Vec<u8>,
    generation: u64,
    bounds: &Bounds,
    text: &[u8],
    sessions: &[Session],
) -> Result<(), AllocError>
    requires text { length text.now < 2 ^ 32 }
    requires count { length sessions.now < 2 ^ 32 }
    ensures { OnOk result (out.new.items ≡ out.old.items
        ++ heading_bytes (anew generation bounds.now (durable text.now sessions.now))) }
{
    put_mark(out)?;
    put_generation(out, generation)?;
    put_config(out, bounds)?;
    put_snapshot(out, text, sessions)?;
    Ok(())
}

fn length_fits(length: u8)
    ensures { length < 2 ^ 8 }
{}

fn generation_fits(generation: u64)
    ensures { generation < 2 ^ 64 }
{}

fn prefix_fits(prefix: Prefix)
    ensures { IsPrefix prefix }
{
    address_fits(prefix.addr);
    length_fits(prefix.len);
}

fn prefixes_fit(prefixes: &[Prefix])
    ensures { All IsPrefix prefixes.now }
{
    for number in 0..prefixes.len() {
        prefix_fits(prefixes[number]);
    }
}

fn addresses_fit(addresses: &[u32])
    ensures { All (λ address. address < 2 ^ 32) addresses.now }
{
    for number in 0..addresses.len() {
        address_fits(addresses[number]);
    }
}

fn session_fits(session: Session)
    requires bits { IsSeen session.proto session.seen }
    requires still { session.last ≡ 0 }
    ensures { IsSession session }
{
    endpoint_fits(session.inside);
    endpoint_fits(session.outside);
    endpoint_fits(session.remote);
}

fn sessions_fit(sessions: &[Session])
    requires bits { All (λ s. IsSeen s.proto s.seen) sessions.now }
    requires still { All (λ s. s.last ≡ 0) sessions.now }
    ensures { All IsSession sessions.now }
{
    for number in 0..sessions.len() {
        session_fits(sessions[number]);
    }
}

/// A heading of these has a code. The sessions have seen bits of their protocols, and `last` is 0 in each.
pub fn heading_fits(generation: u64, bounds: &Bounds, text: &[u8], sessions: &[Session])
    requires text { length text.now < 2 ^ 32 }
    requires count { length sessions.now < 2 ^ 32 }
    requires bits { All (λ s. IsSeen s.proto s.seen) sessions.now }
    requires still { All (λ s. s.last ≡ 0) sessions.now }
    ensures { IsHeading (anew generation bounds.now (durable text.now sessions.now)) }
{
    bounds.facts();
    generation_fits(generation);
    prefixes_fit(bounds.inside());
    addresses_fit(bounds.external());
    sessions_fit(sessions);
}
