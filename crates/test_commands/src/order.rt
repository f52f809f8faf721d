//! The order in which faults are found: the configuration, the file that a command names, the two files, the socket.
//! And what is left where a command gives up.
use crate::shared::{SIDES, fresh, is_file};
use commands::run;
use options::{Access, Opening, Options, Sides, Task, View, Work};
use refusals::{Refusal, Stop};
use std::fs;
use std::process::ExitCode;
use std::test::Fail;

/// No configuration: the external address is inside.
const NONE: Sides<'static> = Sides {
    external: "192.168.0.1",
    ..SIDES
};

// What such a command comes to over a directory.
fn ended(
    rt: &HostRuntime,
    sides: Sides<'_>,
    directory: &str,
    work: Work<'_>,
) -> Result<ExitCode, Stop> {
    let opening = Opening {
        directory,
        moment: 0,
    };
    let task = Task::Open { opening, work };
    run(rt, &Options { sides, task })
}

// Whether it gives up with this word, and a second line that begins so.
fn refuses(ended: Result<ExitCode, Stop>, refusal: Refusal, line: &str) -> bool {
    match ended {
        Ok(_) => false,
        Err(stop) => stop.refusal == refusal && stop.second_line().starts_with(line),
    }
}

// A command over a directory, and the refusal that it ends with.
struct Row {
    sides: Sides<'static>,
    directory: &'static str,
    work: Work<'static>,
    refusal: Refusal,
    line: &'static str,
}

fn is_refused(rt: &HostRuntime, row: &Row) -> bool {
    refuses(
        ended(rt, row.sides, row.directory, row.work),
        row.refusal,
        row.line,
    )
}

const MISSING: Work<'static> = Work::Loop { path: "order/none" };

const LONG: Work<'static> = Work::Loop { path: "order/long" };

const FITS: Work<'static> = Work::Loop { path: "order/fits" };

const SERVE: Work<'static> = Work::Serve {
    socket: "order/natgw.sock",
    access: Access::Owner,
    connections: 1,
};

// Each has the faults of those behind it as well.
const OVER_DAMAGED_FILES: [Row; 6] = [
    Row {
        sides: NONE,
        directory: "order",
        work: MISSING,
        refusal: Refusal::Config,
        line: "an external address",
    },
    Row {
        sides: SIDES,
        directory: "order",
        work: MISSING,
        refusal: Refusal::File,
        line: "order/none can't be read",
    },
    Row {
        sides: SIDES,
        directory: "order",
        work: LONG,
        refusal: Refusal::File,
        line: "order/long has more than 2048",
    },
    Row {
        sides: SIDES,
        directory: "order",
        work: FITS,
        refusal: Refusal::Damaged,
        line: "order: natgw.a ",
    },
    Row {
        sides: SIDES,
        directory: "order",
        work: SERVE,
        refusal: Refusal::Damaged,
        line: "order: natgw.a ",
    },
    Row {
        sides: SIDES,
        directory: "order/none",
        work: SERVE,
        refusal: Refusal::File,
        line: "order/none: there is no",
    },
];

// Where both files can be made; here too each has the faults of those behind it as well.
const OVER_NO_FILES: [Row; 2] = [
    Row {
        sides: SIDES,
        directory: "order",
        work: FITS,
        refusal: Refusal::File,
        line: "order/natgw.sock exists",
    },
    Row {
        sides: SIDES,
        directory: "order",
        work: SERVE,
        refusal: Refusal::File,
        line: "order/natgw.sock exists",
    },
];

fn write_zeros(rt: &HostRuntime, path: &str, count: usize) -> Result<(), Fail> {
    let zeros = vec![in rt.alloc(); 0u8; count]?;
    fs::write(rt, path, zeros.as_slice())?;
    Ok(())
}

// A damaged file, one in the way of the socket, and streams of one byte too many and of as many as there may be.
fn fill(rt: &HostRuntime) -> Result<(), Fail> {
    fresh(rt, "order")?;
    fs::write(rt, "order/natgw.a", b"\x01".as_slice())?;
    fs::write(rt, "order/natgw.sock", b"kept".as_slice())?;
    write_zeros(rt, "order/long", 2_049)?;
    write_zeros(rt, "order/fits", 2_048)
}

// The line of the first row that isn't refused so.
fn unrefused(rt: &HostRuntime, rows: &[Row]) -> Option<&'static str> {
    for row in rows {
        if !is_refused(rt, row) {
            return Some(row.line);
        }
    }
    None
}

fn unrefused_over_damaged_files(rt: &HostRuntime) -> Option<&'static str> {
    unrefused(rt, &OVER_DAMAGED_FILES)
}

fn unrefused_over_no_files(rt: &HostRuntime) -> Option<&'static str> {
    unrefused(rt, &OVER_NO_FILES)
}

#[test]
fn first_faults(rt: HostRuntime) -> Result<(), Fail> {
    fill(&rt)?;
    assert_eq!(rt; unrefused_over_damaged_files(&rt), None);
    fs::remove_file(&rt, "order/natgw.a")?;
    assert_eq!(rt; unrefused_over_no_files(&rt), None);
    assert!(rt; is_file(&rt, "order/natgw.sock", b"kept")?);
    Ok(())
}

// Whether the command succeeds, and no socket is left behind it.
fn ends_well(rt: &HostRuntime, work: Work<'_>, socket: &str) -> bool {
    let is_well = match ended(rt, SIDES, "socket", work) {
        Ok(code) => code == ExitCode::SUCCESS,
        Err(_) => false,
    };
    is_well && fs::read(rt, socket).is_err()
}

const NO_CLIENT: Work<'static> = Work::Serve {
    socket: "socket/sock",
    access: Access::Everyone,
    connections: 0,
};

const NO_REQUEST: Work<'static> = Work::Loop {
    path: "socket/empty",
};

const ENDING_WELL: [(Work<'static>, &str); 3] = [
    (NO_CLIENT, "socket/sock"),
    (Work::View(View::Rules), "socket/sock"),
    (NO_REQUEST, "socket/natgw.sock"),
];

// A socket that was made goes at the end.
#[test]
fn sockets_go(rt: HostRuntime) -> Result<(), Fail> {
    fresh(&rt, "socket")?;
    fs::write(&rt, "socket/empty", b"".as_slice())?;
    for (work, socket) in &ENDING_WELL {
        assert!(rt; ends_well(&rt, *work, socket), "{socket}");
    }
    Ok(())
}

// The status of `check`.
fn checked(rt: &HostRuntime, path: &str) -> Result<ExitCode, Stop> {
    let task = Task::Check {
        path,
        explains: false,
    };
    run(rt, &Options { sides: SIDES, task })
}

// Whether `check` ends with this status over a file of so many spaces.
fn is_status(rt: &HostRuntime, count: usize, status: ExitCode) -> Result<bool, Fail> {
    let spaces = vec![in rt.alloc(); b' '; count]?;
    fs::write(rt, "status/text", spaces.as_slice())?;
    Ok(checked(rt, "status/text")? == status)
}

// The longest text is one of 262,144 bytes.
#[test]
fn statuses(rt: HostRuntime) -> Result<(), Fail> {
    fresh(&rt, "status")?;
    assert!(rt; is_status(&rt, 262_144, ExitCode::SUCCESS)?);
    assert!(rt; is_status(&rt, 262_145, ExitCode::FAILURE)?);
    let missing = checked(&rt, "status/none");
    assert!(rt; refuses(missing, Refusal::File, "status/none can't be read"));
    Ok(())
}
