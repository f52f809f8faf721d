//! The datagram.
ghost use Rattle.std.specs.Prelude.{◌≤◌};

use crate::address::{Address, address_of};
use libc::net::{AF_UNIX, MSG_NOSIGNAL, SOCK_CLOEXEC, SOCK_DGRAM, sendto, socket};
use std::alloc::Alloc;
use std::env::{Env, VarError, var};
use std::io;
use std::io::ErrorKind;
use std::net::Net;

const READY: &[u8] = b"READY=1";

// Sends a datagram to an address. These calls of the C library take no handle: `rt` is here for its `Net`.
fn send<R: Net>(_rt: &R, address: &Address, text: &[u8]) -> io::Result<()>
    requires { address.now.len ≤ 128 }
{
    let open = unsafe { socket(AF_UNIX, SOCK_DGRAM | SOCK_CLOEXEC, 0) };
    if open < 0 {
        return Err(io::Error::from(ErrorKind::Other));
    }
    let sent = unsafe { sendto(open, text, MSG_NOSIGNAL, &address.bytes, address.len) };
    let _ = libc::close(open);
    if sent < 0 {
        return Err(io::Error::from(ErrorKind::Other));
    }
    Ok(())
}

/// Tells that the program is ready, if NOTIFY_SOCKET names a socket. The answer is whether it does.
///
/// # Errors
///
/// `InvalidInput` where it names what is no socket's name, `OutOfMemory` where memory is refused, and `Other` where the
/// system doesn't take the datagram.
pub fn tell_ready<R: Net + Env + Alloc>(rt: &R) -> io::Result<bool> {
    let name = match var(rt, "NOTIFY_SOCKET") {
        Ok(name) => name,
        Err(VarError::NotPresent) => return Ok(false),
        Err(VarError::OutOfMemory) => return Err(io::Error::from(ErrorKind::OutOfMemory)),
        Err(VarError::NotUnicode) => return Err(io::Error::from(ErrorKind::InvalidInput)),
    };
    match address_of(name.as_bytes()) {
        Some(address) => {
            send(rt, &address, READY)?;
            Ok(true)
        }
        None => Err(io::Error::from(ErrorKind::InvalidInput)),
    }
}
