//! The commands, put together.
ghost use Rattle.std.specs.Prelude.{◌≡◌, IfErr, IfOk, IsOk, OnOk};
ghost use Rattle.commands.specs.Working.{IsMadeAnew, IsOpenedFor};

use crate::clients::serve_clients;
use crate::onlooking::look_in;
use crate::opening::{open, open_anew, tell_migration};
use crate::replay;
use crate::showing::tell_of;
use crate::sockets::{Loop, bind, bind_for, loop_back};
use checking::{bounds, check, read_file, read_given};
use disk_model::Disk;
use file_disk::{FileDisk, Strayed, others_may_write};
use gateway::Gateway;
use notify::tell_ready;
use options::{Access, Opening, Options, Sides, Task, View, Work};
use packet::Bounds;
use refusals::{Refusal, Stop, tell_serving, tell_shared};
use rulesyntax::GREATEST_LENGTH;
use std::alloc::Global;
use std::fs;
use std::fs::Files;
use std::io::ErrorKind;
use std::os::unix::fs::MetadataExt;
use std::process::ExitCode;

/// The longest ruleset text, in bytes. One byte more is read, so that a longer text is known for one.
const TEXT_LIMIT: u64 = GREATEST_LENGTH as u64;

/// The most bytes of requests that `loop` sends.
const LOOP_LIMIT: u64 = 2_048;

/// The bytes of a block that is taken and let go before a gateway opens. Twice as many are more than a compaction of
/// 40,000 sessions lets go, as measured.
const FREED_FIRST: usize = 2_097_152;

/// Runs a command, and gives the status of the program: 1 where `check` finds a fault in the text, otherwise 0.
///
/// # Errors
///
/// In this order:
///
/// - `Config` where the options are no configuration.
/// - `File` where the command's file can't be read, or is too long for `loop`.
/// - Of all but `check` what `open` says of the two files, what `open_anew` says if requests are answered, or what
///   `look_in` says if another natgw may be serving.
/// - Of `serve` and `loop` `File` where the socket can't be bound.
/// - What the run meets: the fault of a stream (of `serve` and `loop` that of the gateway alone), of all but `serve`
///   `Output`, and of `serve` and `loop` `File` where the socket fails or can't be removed. What was answered before is
///   written, by `loop` as far as it can be read back.
///
/// `NoMemory` may come at any place.
pub fn run(rt: &HostRuntime, options: &Options<'_>) -> Result<ExitCode, Stop> {
    let sides = &options.sides;
    let bounds = bounds(rt.alloc(), sides)?;
    match options.task {
        Task::Check { path, explains } => run_check(rt, &bounds, path, explains),
        Task::Look { directory, view } => run_look(rt, &bounds, directory, view),
        Task::Open { opening, work } => {
            let requests = requests_of(rt, rt.alloc(), work)?;
            run_opened(rt, sides, bounds, opening, work, requests.as_slice())?;
            Ok(ExitCode::SUCCESS)
        }
    }
}

fn run_check(
    rt: &HostRuntime,
    bounds: &Bounds,
    path: &str,
    explains: bool,
) -> Result<ExitCode, Stop> {
    let alloc = rt.alloc();
    let text = read_given(rt, alloc, path, TEXT_LIMIT + 1)?;
    let loads = check(
        alloc,
        text.as_slice(),
        bounds,
        explains,
        &mut rt.stdout(),
        &mut rt.stderr(),
    )?;
    if loads {
        Ok(ExitCode::SUCCESS)
    } else {
        Ok(ExitCode::FAILURE)
    }
}

fn run_look(
    rt: &HostRuntime,
    bounds: &Bounds,
    directory: &str,
    view: View,
) -> Result<ExitCode, Stop> {
    look_in(rt, rt.alloc(), directory, bounds, view, &mut rt.stdout())?;
    Ok(ExitCode::SUCCESS)
}

/// Has the C library keep memory that is let go, up to twice this block, and more once a greater one is freed. Otherwise
/// it gives back what a compaction took, and the system clears each of these pages anew for the next one. (So great a
/// block has a mapping of its own; once it is freed glibc raises its thresholds, to its size and to twice that:
/// mallopt(3), M_MMAP_THRESHOLD.)
pub fn keep_freed_memory(alloc: Global) {
    // Where memory for it is refused, that costs time alone.
    let _ = Vec::<u8>::with_capacity(alloc, FREED_FIRST);
}

// Opens a gateway for what it is to do.
fn open_for(
    rt: &HostRuntime,
    sides: &Sides<'_>,
    bounds: Bounds,
    opening: Opening<'_>,
    work: Work<'_>,
) -> Result<Gateway<FileDisk>, Stop>
    ensures { IfOk result (λ gateway. IsOpenedFor work.entry gateway) }
{
    match work {
        Work::View(_) => open(rt, sides, bounds, opening),
        Work::Replay | Work::Serve { .. } | Work::Loop { .. } => {
            open_anew(rt, sides, bounds, opening)
        }
    }
}

// Opens a gateway, and has it work.
fn run_opened(
    rt: &HostRuntime,
    sides: &Sides<'_>,
    bounds: Bounds,
    opening: Opening<'_>,
    work: Work<'_>,
    requests: &[u8],
) -> Result<(), Stop> {
    keep_freed_memory(rt.alloc());
    let mut gateway = open_for(rt, sides, bounds, opening, work)?;
    tell_opened(rt, opening.directory, &gateway);
    let worked = work_on(rt, opening.directory, work, requests, &mut gateway);
    let_go(rt.alloc(), opening.directory, gateway, worked)
}

/// Tells on standard error if the opening of a gateway migrated its files, and if others may write in their directory.
/// Where standard error takes no more the lines are lost, and the work goes on.
pub fn tell_opened<D: Disk + Drop>(rt: &HostRuntime, directory: &str, gateway: &Gateway<D>) {
    let _ = tell_migration(gateway, &mut rt.stderr());
    if let Ok(true) = others_may_write(rt, directory) {
        let _ = tell_shared(&mut rt.stderr(), directory);
    }
}

/// Lets a gateway and its files go, and gives how its work ended. If a call of the disk has failed since a file isn't in
/// its place, it says which.
///
/// # Errors
///
/// The refusal of the work.
pub fn let_go(
    alloc: Global,
    directory: &str,
    gateway: Gateway<FileDisk>,
    worked: Result<(), Stop>,
) -> Result<(), Stop>
    ensures well { IsOk worked → IsOk result }
    ensures ok { OnOk result (IsOk worked) }
    ensures refusal { IfErr worked (λ stop. IfErr result (λ told. told.refusal ≡ stop.refusal)) }
{
    // `into_disk` has the core dropped within the crate `machine`, where that is proved already.
    let disk = gateway.into_disk();
    let strayed = disk.strayed();
    drop(disk);
    match (worked, strayed) {
        (Err(stop), Some(file)) => Err(Stop::with(
            stop.refusal,
            format!(in alloc; "{directory}: {}", Strayed(file)),
        )),
        (worked, _) => worked,
    }
}

// Has a gateway work; for `loop` the requests are these.
fn work_on<D: Disk + Drop>(
    rt: &HostRuntime,
    directory: &str,
    work: Work<'_>,
    requests: &[u8],
    gateway: &mut Gateway<D>,
) -> Result<(), Stop>
    requires { IsOpenedFor work gateway.old }
{
    let alloc = rt.alloc();
    match work {
        Work::Replay => replay_streams(rt, gateway),
        Work::Serve {
            socket,
            access,
            connections,
        } => serve_at(rt, socket, access, connections, gateway),
        Work::Loop { path: _ } => loop_in(rt, directory, requests, gateway),
        Work::View(view) => Ok(tell_of(alloc, gateway, view, &mut rt.stdout())?),
    }
}

// Answers standard input on standard output. Where a call of the disk has failed, that is what is told, also where
// standard output took no more before.
fn replay_streams<D: Disk + Drop>(rt: &HostRuntime, gateway: &mut Gateway<D>) -> Result<(), Stop>
    requires { IsMadeAnew gateway.old }
{
    let ended = replay(rt.alloc(), &mut rt.stdin(), &mut rt.stdout(), gateway);
    if ended == Err(Refusal::Output) && gateway.has_fallen() {
        return Err(Stop::from(Refusal::Reopen));
    }
    Ok(ended?)
}

// Tells people and whoever started natgw that clients may connect. Where one of them can't be told, they still may.
fn tell_listening(rt: &HostRuntime, socket: &str) {
    let _ = tell_serving(&mut rt.stderr(), socket);
    let _ = tell_ready(rt);
}

// Serves so many connections of a socket, which is there for as long.
fn serve_at<D: Disk + Drop>(
    rt: &HostRuntime,
    socket: &str,
    access: Access,
    connections: u64,
    gateway: &mut Gateway<D>,
) -> Result<(), Stop>
    requires { IsMadeAnew gateway.old }
{
    let alloc = rt.alloc();
    let listener = bind_for(rt, alloc, socket, access)?;
    let own = identity(rt, socket);
    tell_listening(rt, socket);
    let served = serve_clients(
        alloc,
        &listener,
        socket,
        connections,
        &mut rt.stderr(),
        gateway,
    );
    let removed = remove(rt, alloc, socket, own);
    served.and(removed)
}

// Sends requests through a socket in a directory, which is there for as long.
fn loop_in<D: Disk + Drop>(
    rt: &HostRuntime,
    directory: &str,
    requests: &[u8],
    gateway: &mut Gateway<D>,
) -> Result<(), Stop>
    requires { IsMadeAnew gateway.old }
{
    let alloc = rt.alloc();
    let socket = format!(in alloc; "{directory}/natgw.sock")?;
    let listener = bind(rt, alloc, socket.as_str())?;
    let own = identity(rt, socket.as_str());
    let way = Loop {
        listener,
        path: socket.as_str(),
        requests,
    };
    let looped = loop_back(rt, alloc, way, &mut rt.stdout(), &mut rt.stderr(), gateway);
    let removed = remove(rt, alloc, socket.as_str(), own);
    looped.and(removed)
}

// The requests that lie in a file, of all works but `loop` none.
fn requests_of(rt: &impl Files, alloc: Global, work: Work<'_>) -> Result<Vec<u8>, Stop> {
    match work {
        Work::Loop { path } => read_requests(rt, alloc, path),
        Work::Replay | Work::Serve { .. } | Work::View(_) => Ok(Vec::new(alloc)),
    }
}

// The requests that `loop` sends.
fn read_requests(rt: &impl Files, alloc: Global, path: &str) -> Result<Vec<u8>, Stop> {
    let requests = read_file(rt, alloc, path, LOOP_LIMIT + 1)?;
    if requests.len() as u64 > LOOP_LIMIT {
        return Err(Stop::with(
            Refusal::File,
            format!(in alloc; "{path} has more than {LOOP_LIMIT} bytes: send it by natgw replay"),
        ));
    }
    Ok(requests)
}

// What stands at a path, by its device and its number there, if anything does.
fn identity(rt: &impl Files, path: &str) -> Option<(u64, u64)> {
    let data = fs::symlink_metadata(rt, path).ok()?;
    Some((data.dev(), data.ino()))
}

// Removes a socket of this identity, if it is still there: where somebody has removed it, another natgw's may be there.
fn remove(
    rt: &impl Files,
    alloc: Global,
    socket: &str,
    own: Option<(u64, u64)>,
) -> Result<(), Stop> {
    if let (Some(now), Some(own)) = (identity(rt, socket), own) {
        if now != own {
            return Ok(());
        }
    }
    match fs::remove_file(rt, socket) {
        Ok(()) => Ok(()),
        Err(error) => match error.kind() {
            ErrorKind::NotFound => Ok(()),
            _ => Err(Stop::at_path(alloc, socket, "can't be removed", &error)),
        },
    }
}
