//! A Unix socket: it is bound to a path, and requests are sent through it and back.
ghost use Rattle.std.specs.Prelude.{◌≡◌, ◌⊎◌, [], false, IsErr, IfErr, OnOk};
ghost use Rattle.refusals.specs.Words.{IsOfPath};
ghost use Rattle.commands.specs.Faults.{IsOfLooping};
ghost use Rattle.commands.specs.Visits.{SomeUnseenVisits, UnseenVisits};

use crate::clients::serve_clients;
use disk_model::Disk;
use gateway::Gateway;
use options::Access;
use refusals::{Refusal, Stop};
use std::alloc::Global;
use std::fs::{self, Files, Permissions};
use std::io;
use std::io::{ErrorKind, Read, Write};
use std::net::{Net, Shutdown};
use std::os::fd::{AsFd, AsRawFd};
use std::os::unix::fs::PermissionsExt;
use std::os::unix::net::{SocketAddr, UnixListener, UnixStream};

/// How many clients may wait that aren't accepted: as many as the system allows.
const WAITING: i32 = -1;

// A listener at a path. Its file has no more than the owner's access from its first moment, and then the mode.
fn listen_at<R: Files + Net>(rt: &R, path: &str, mode: u32) -> io::Result<UnixListener> {
    let socket = rt.unix_socket()?;
    if libc::fchmod(socket.as_raw_fd(), 0o600) != 0 {
        return Err(io::Error::from(ErrorKind::Other));
    }
    rt.bind_unix(socket.as_fd(), &SocketAddr::from_pathname(path)?)?;
    match begin_to_listen(rt, path, mode, socket.as_raw_fd()) {
        Ok(()) => Ok(UnixListener::from(socket)),
        Err(error) => {
            let _ = fs::remove_file(rt, path);
            Err(error)
        }
    }
}

// Has a socket that is bound to a path listen there, with this mode.
fn begin_to_listen(rt: &impl Files, path: &str, mode: u32, socket: i32) -> io::Result<()> {
    fs::set_permissions(rt, path, Permissions::from_mode(mode))?;
    if libc::net::listen(socket, WAITING) != 0 {
        return Err(io::Error::from(ErrorKind::Other));
    }
    Ok(())
}

/// Binds a socket to a path where nothing is yet. Its user alone may connect, whatever the umask.
///
/// # Errors
///
/// `File` where the path is empty, something stands there, or a socket can't be bound there; `NoMemory` where memory is
/// refused.
pub fn bind<R: Files + Net>(rt: &R, alloc: Global, path: &str) -> Result<UnixListener, Stop>
    ensures empty { path.now ≡ [] → IsErr result }
    ensures causes { IfErr result (λ stop. IsOfPath stop.refusal) }
{
    bind_for(rt, alloc, path, Access::Owner)
}

/// Binds a socket to a path where nothing is yet, for those who may connect, whatever the umask.
///
/// # Errors
///
/// `File` where the path is empty, something stands there, or a socket can't be bound there; `NoMemory` where memory is
/// refused.
pub fn bind_for<R: Files + Net>(
    rt: &R,
    alloc: Global,
    path: &str,
    access: Access,
) -> Result<UnixListener, Stop>
    ensures empty { path.now ≡ [] → IsErr result }
    ensures causes { IfErr result (λ stop. IsOfPath stop.refusal) }
{
    // The system would take no path for a name of its own choice, at which no client finds the socket.
    if path.is_empty() {
        return Err(Stop::with(
            Refusal::File,
            format!(in alloc; "the path of the socket is empty: name one by --socket"),
        ));
    }
    match listen_at(rt, path, access.mode()) {
        Ok(listener) => Ok(listener),
        Err(error) => Err(unbound(alloc, path, &error)),
    }
}

// Why there is no socket at a path.
fn unbound(alloc: Global, path: &str, error: &io::Error) -> Stop
    ensures { IsOfPath result.refusal }
{
    match error.kind() {
        ErrorKind::AddrInUse => Stop::with(
            Refusal::File,
            format!(in alloc;
                "{path} exists: if no natgw listens there, remove it; otherwise name another path (loop: --dir)"
            ),
        ),
        _ => Stop::at_path(alloc, path, "can't be bound to a socket", error),
    }
}

// What is printed on a standard stream that was closed must not go to whom the socket leads to.
pub(crate) fn off_standard_streams(stream: UnixStream) -> io::Result<UnixStream> {
    if stream.as_raw_fd() <= 2 {
        return stream.try_clone();
    }
    Ok(stream)
}

// A client that has sent these requests and nothing behind them.
fn client_of<R: Net>(rt: &R, path: &str, requests: &[u8]) -> io::Result<UnixStream> {
    let client = off_standard_streams(UnixStream::connect(rt, path)?)?;
    (&client).write_all(requests)?;
    client.shutdown(Shutdown::Write)?;
    Ok(client)
}

// Prints what is left to read of a client, also where reading fails behind it.
fn print_answers<W: Write>(
    alloc: Global,
    path: &str,
    client: &UnixStream,
    output: &mut W,
) -> Result<(), Stop>
    ensures { IfErr result (λ stop. IsOfLooping stop.refusal) }
{
    let mut answers = Vec::new(alloc);
    let mut reader = client;
    let read = reader.read_to_end(&mut answers);
    let printed = output.write_all(answers.as_slice());
    if let Err(error) = read {
        return Err(Stop::at_path(alloc, path, "can't be read", &error));
    }
    match printed {
        Ok(()) => Ok(()),
        Err(_) => Err(Stop::from(Refusal::Output)),
    }
}

/// A socket that this program listens to, and what it sends through it to itself.
#[derive(Drop)]
pub struct Loop<'a> {
    /// The socket.
    pub listener: UnixListener,
    /// Its path.
    pub path: &'a str,
    /// The requests that are sent through it.
    pub requests: &'a [u8],
}

/// Sends requests through a socket that this program listens to, answers them, and prints the answers. They have to fit
/// the socket unread, as those to 2,048 bytes do.
///
/// # Errors
///
/// A fault of the gateway; `File` where the socket can't be used; `Output` where the answers can't be printed. In each
/// case the answers that can be read back are printed before.
pub fn loop_back<R: Net, W: Write, E: Write, D: Disk + Drop>(
    rt: &R,
    alloc: Global,
    way: Loop<'_>,
    output: &mut W,
    errors: &mut E,
    gateway: &mut Gateway<D>,
) -> Result<(), Stop>
    ensures served { OnOk result (UnseenVisits D.honest D.moment D.left D.failed 1 gateway.old
        gateway.new) }
    // The gateway is as it was; or one client was served; or the service ended, and the refusal tells why.
    ensures ended { IfErr result (λ stop. (gateway.new ≡ gateway.old)
        ⊎ UnseenVisits D.honest D.moment D.left D.failed 1 gateway.old gateway.new
        ⊎ SomeUnseenVisits D.honest D.moment D.left D.failed 1 stop.refusal gateway.old
        gateway.new) }
    ensures stands { OnOk result (gateway.old.fallen ≡ false → gateway.new.fallen ≡ false) }
    ensures causes { IfErr result (λ stop. IsOfLooping stop.refusal) }
{
    let Loop {
        listener,
        path,
        requests,
    } = way;
    let client = match client_of(rt, path, requests) {
        Ok(client) => client,
        Err(error) => return Err(Stop::at_path(alloc, path, "takes no requests", &error)),
    };
    let served = serve_clients(alloc, &listener, path, 1, errors, gateway);
    // A client that wasn't accepted would wait for answers as long as somebody may accept it.
    drop(listener);
    let printed = print_answers(alloc, path, &client, output);
    served.and(printed)
}
