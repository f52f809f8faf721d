//! Clients that are served one after the other by one gateway: the trait `Clients`, what serving them comes to, and the
//! clients of a Unix socket.
ghost use Rattle.std.specs.Prelude.{◌≡◌, ℕ, List, Result, false, Err, IsOk, IfErr, IfOk, OnErr, OnOk, ⊤};
ghost use Rattle.packet.specs.Laws.{AreBytes};
ghost use Rattle.gateway.specs.declared.fault.GatewayFault.{GatewayFault};
ghost use Rattle.socket_edge.specs.Running.{AnswersFirst, AtEachTurn, Fares, RunEnded, TurnsEnd, events_in};
ghost use Rattle.socket_edge.specs.Turns.{Turn, given, taken};
ghost use Rattle.socket_edge.specs.declared.fault.EdgeFault.{EdgeFault as Fault};
ghost use Rattle.commands.specs.Faults.{IsOfGateway, IsOfServing, gateway_refusal};
ghost use Rattle.commands.specs.Visits.{EndHasCause, GoesOn, Idles, Meeting, MeetsNone, ServiceEnds, SomeUnseenVisits, SomeVisits, UnseenVisits, Visit, Visits};

use crate::faults::of_gateway;
use crate::sockets::off_standard_streams;
use crate::streams::tell_end;
use disk_model::Disk;
use gateway::running::stands;
use gateway::{Gateway, GatewayFault};
use refusals::{Refusal, Stop};
use socket_edge::{EdgeFault, MOST_GROWN, Peer, run_with};
use std::alloc::Global;
use std::io;
use std::io::{Read, Write};
use std::os::unix::net::{UnixListener, UnixStream};

/// Where clients come from. Whoever came last is the peer.
pub trait Clients: Peer {
    /// Between the one and the other a client came.
    ghost came: { Self → Self → Type 0 };

    /// Between the one and the other none came, though one was waited for.
    ghost missed: { Self → Self → Type 0 };

    /// Between the one and the other the client was let go.
    ghost left: { Self → Self → Type 0 };

    /// Waits for the next client.
    ///
    /// # Errors
    ///
    /// Those of the system. No client came.
    fn accept(&mut self) -> io::Result<()>
        ensures came { OnOk result (came self.old self.new) }
        ensures missed { OnErr result (missed self.old self.new) };

    /// Lets the client go who came last: its connection is closed.
    fn leave(&mut self)
        ensures { left self.old self.new };
}

// The clients of a socket. They tell the prover nothing.
#[derive(Drop)]
struct SocketClients<'a> {
    listener: &'a UnixListener,
    stream: Option<UnixStream>,
}

impl Peer for SocketClients<'_> {
    ghost went = { λ _ _ _. ⊤ };

    ghost ended = { λ _. ⊤ };

    fn read(&mut self, bytes: &mut [u8]) -> io::Result<usize> {
        match &self.stream {
            Some(stream) => {
                let mut reader = stream;
                reader.read(bytes)
            }
            None => Err(io::Error::from(io::ErrorKind::NotConnected)),
        }
    }

    fn write(&mut self, bytes: &[u8]) -> io::Result<usize> {
        match &self.stream {
            Some(stream) => {
                let mut writer = stream;
                writer.write(bytes)
            }
            None => Err(io::Error::from(io::ErrorKind::NotConnected)),
        }
    }

    ghost still = { λ _. tt };

    ghost further = { λ _ _ _ _ _ _ _. tt };
}

impl Clients for SocketClients<'_> {
    ghost came = { λ _ _. ⊤ };

    ghost missed = { λ _ _. ⊤ };

    ghost left = { λ _ _. ⊤ };

    fn accept(&mut self) -> io::Result<()> {
        let (stream, _) = self.listener.accept()?;
        self.stream = Some(off_standard_streams(stream)?);
        Ok(())
    }

    fn leave(&mut self) {
        self.stream = None;
    }
}

// Compacts where a client has left the file grown: behind a read that ends in a client's fault the edge doesn't. Where
// memory for it is refused, it waits for the next client. A gateway that has fallen meets no client.
fn compact_between_clients<D: Disk + Drop>(gateway: &mut Gateway<D>) -> Result<(), Refusal>
    ensures idles { Idles D.honest D.moment D.left gateway.old gateway.new }
    ensures stands { OnOk result (gateway.new.fallen ≡ false) }
    ensures causes { IfErr result (λ refusal. (fault : GatewayFault)
        × (refusal ≡ gateway_refusal fault)
        × MeetsNone D.honest D.moment D.left D.failed fault gateway.old gateway.new) }
{
    if gateway.has_fallen() {
        return Err(Refusal::Reopen);
    }
    stands(gateway);
    if gateway.held() > 0 || gateway.grown() <= MOST_GROWN {
        return Ok(());
    }
    match gateway.compact() {
        Ok(()) | Err(GatewayFault::NoMemory) => Ok(()),
        Err(fault) => Err(of_gateway(fault)),
    }
}

// Answers the requests of the client.
fn answer_client<C: Peer, D: Disk + Drop>(
    alloc: Global,
    client: &mut C,
    gateway: &mut Gateway<D>,
) -> Result<u64, EdgeFault>
    requires stands { gateway.old.fallen ≡ false }
    ensures ran { (turns : List Turn) × C.went client.old client.new turns
        × RunEnded result gateway.old.told gateway.new.told (given turns) (taken turns)
        (C.ended client.new)
        × Fares D.honest D.moment D.left gateway.old gateway.new (events_in (given turns))
        (taken turns)
        × AnswersFirst gateway.old.told turns
        × AtEachTurn D.honest D.moment D.left gateway.old gateway.new turns
        × TurnsEnd result turns
        × AreBytes (given turns) }
    ensures cause { EndHasCause D.honest D.moment D.left D.failed result gateway.old gateway.new }
{
    run_with(alloc, client, gateway)
}

// Waits for the next client and serves it, if one comes, and lets it go. Says whether one came and how its requests
// ended.
fn meet_next<C: Clients, D: Disk + Drop>(
    alloc: Global,
    clients: &mut C,
    gateway: &mut Gateway<D>,
) -> io::Result<Result<u64, EdgeFault>>
    requires stands { gateway.old.fallen ≡ false }
    ensures meets { IfOk result (λ ended. Meeting D.honest D.moment D.left D.failed
        C.came C.went C.ended C.left ended clients.old clients.new gateway.old gateway.new) }
    ensures missed { OnErr result (C.missed clients.old clients.new) }
    ensures stays { OnErr result (gateway.new ≡ gateway.old) }
{
    clients.accept()?;
    let ended = answer_client(alloc, clients, gateway);
    clients.leave();
    Ok(ended)
}

// Tells the word of a client's fault. One of the gateway is given back instead, since it ends the service. A word that
// can't be told ends nothing: others are still to be served.
fn tell_on<W: Write>(ended: Result<u64, EdgeFault>, errors: &mut W) -> Result<(), Refusal>
    ensures ok { OnOk result (IfErr ended (λ fault. ¬ IsOfGateway fault)) }
    ensures err { IfErr result (λ refusal. (fault : GatewayFault) × (ended ≡ Err (EdgeFault.Gateway fault))
        × (refusal ≡ gateway_refusal fault)) }
{
    match tell_end(ended, errors) {
        Ok(()) | Err(Refusal::Output) => Ok(()),
        Err(refusal) => Err(refusal),
    }
}

// Serves the next client. Where the gateway has fallen once the client is served, the refusal says so, even if the
// client's own fault was that it took no answer.
fn serve_next<C: Clients, W: Write, D: Disk + Drop>(
    alloc: Global,
    clients: &mut C,
    path: &str,
    errors: &mut W,
    gateway: &mut Gateway<D>,
) -> Result<(), Stop>
    ensures ok { OnOk result ((end : Result ℕ Fault) × Visit D.honest D.moment D.left D.failed
        C.came C.went C.ended C.left end clients.old clients.new gateway.old gateway.new
        × GoesOn end gateway.new) }
    ensures err { IfErr result (λ stop. ServiceEnds D.honest D.moment D.left D.failed
        C.came C.went C.ended C.left C.missed stop.refusal clients.old clients.new
        gateway.old gateway.new) }
    ensures causes { IfErr result (λ stop. IsOfServing stop.refusal) }
{
    compact_between_clients(gateway)?;
    let ended = match meet_next(alloc, clients, gateway) {
        Ok(ended) => ended,
        Err(error) => return Err(Stop::at_path(alloc, path, "accepts no client", &error)),
    };
    tell_on(ended, errors)?;
    if gateway.has_fallen() {
        return Err(Stop::from(Refusal::Reopen));
    }
    Ok(())
}

/// Serves so many clients, one after the other, with one gateway. The word of a fault that ends a connection alone goes
/// to `errors`. A client is waited for only while the gateway stands.
///
/// # Errors
///
/// `File` if no client can be accepted, at `path`; a fault of the gateway, which is `Reopen` if a call of the disk failed
/// and the client took no answer, or if the gateway had fallen before.
pub fn serve_each<C: Clients, W: Write, D: Disk + Drop>(
    alloc: Global,
    clients: &mut C,
    path: &str,
    connections: u64,
    errors: &mut W,
    gateway: &mut Gateway<D>,
) -> Result<(), Stop>
    // So many came, in order, and each was served and let go. What a crash leaves is told of each, and between them.
    ensures ok { OnOk result (Visits D.honest D.moment D.left D.failed C.came C.went C.ended C.left
        connections clients.old clients.new gateway.old gateway.new) }
    // Fewer were served, and why no other one is: the gateway has a fault, none came, or the last one's end.
    ensures err { IfErr result (λ stop. SomeVisits D.honest D.moment D.left D.failed
        C.came C.went C.ended C.left C.missed connections stop.refusal clients.old clients.new
        gateway.old gateway.new) }
    ensures none { connections ≡ 0 → IsOk result × (gateway.new ≡ gateway.old)
        × (errors.new ≡ errors.old) }
    ensures stands { OnOk result (gateway.old.fallen ≡ false → gateway.new.fallen ≡ false) }
    ensures causes { IfErr result (λ stop. IsOfServing stop.refusal) }
{
    for _ in 0..connections {
        serve_next(alloc, clients, path, errors, gateway)?;
    }
    Ok(())
}

/// Serves so many connections of a socket, one after the other, with one gateway. The word of a fault that ends a
/// connection alone goes to `errors`.
///
/// # Errors
///
/// `File` if no connection can be accepted, at `path`; a fault of the gateway, which is `Reopen` if a call of the disk
/// failed and the client took no answer, or if the gateway had fallen before.
pub fn serve_clients<W: Write, D: Disk + Drop>(
    alloc: Global,
    listener: &UnixListener,
    path: &str,
    connections: u64,
    errors: &mut W,
    gateway: &mut Gateway<D>,
) -> Result<(), Stop>
    // As `serve_each` says it, of what is seen of the gateway.
    ensures ok { OnOk result (UnseenVisits D.honest D.moment D.left D.failed connections
        gateway.old gateway.new) }
    ensures err { IfErr result (λ stop. SomeUnseenVisits D.honest D.moment D.left D.failed
        connections stop.refusal gateway.old gateway.new) }
    ensures none { connections ≡ 0 → IsOk result × (gateway.new ≡ gateway.old)
        × (errors.new ≡ errors.old) }
    ensures stands { OnOk result (gateway.old.fallen ≡ false → gateway.new.fallen ≡ false) }
    ensures causes { IfErr result (λ stop. IsOfServing stop.refusal) }
{
    let mut clients = SocketClients {
        listener,
        stream: None,
    };
    serve_each(alloc, &mut clients, path, connections, errors, gateway)
}
