//! Lines as people see them, set by hand.
use packet::{Endpoint, Proto};
use session_lines::{put_line, put_lines};
use sessions::{Opener, Session};
use std::alloc::{AllocError, Global};
use std::process::Abort;
use std::test::*;

const HOST: Endpoint = Endpoint {
    addr: 0xc0a8_0102,
    port: 5000,
};

const OUTSIDE: Endpoint = Endpoint {
    addr: 0xcb00_7101,
    port: 5000,
};

const RESOLVER: Endpoint = Endpoint {
    addr: 0xc633_6407,
    port: 53,
};

const QUERY: Session = Session {
    proto: Proto::Udp,
    inside: HOST,
    outside: OUTSIDE,
    remote: RESOLVER,
    opener: Opener::Inside,
    seen: 0,
    last: 1250,
};

const QUERY_LINE: &str =
    "udp 192.168.1.2:5000      203.0.113.1:5000      198.51.100.7:53       -\n";

fn assert_shown(
    rt: &impl Abort,
    alloc: Global,
    session: &Session,
    wanted: &str,
) -> Result<(), AllocError> {
    let mut out = Vec::new(alloc);
    put_line(&mut out, session)?;
    assert!(rt; out.as_slice() == wanted.as_bytes(), "{wanted}");
    Ok(())
}

#[test]
fn one_session(rt: HostRuntime) -> Result<(), AllocError> {
    assert_shown(&rt, rt.alloc(), &QUERY, QUERY_LINE)?;
    let answered = Session {
        opener: Opener::Remote,
        seen: 1,
        last: 0,
        ..QUERY
    };
    assert_shown(&rt, rt.alloc(), &answered, QUERY_LINE)
}

// A TCP session that has seen these bits ends its line with this word.
fn assert_shown_as(rt: &impl Abort, alloc: Global, seen: u8, word: &str) -> Result<(), AllocError> {
    let mut wanted = String::from_str(
        alloc,
        "tcp 192.168.1.2:5000      203.0.113.1:5000      198.51.100.7:53       ",
    )?;
    wanted.push_str(word)?;
    let session = Session {
        proto: Proto::Tcp,
        seen,
        ..QUERY
    };
    assert_shown(rt, alloc, &session, wanted.as_str())
}

#[test]
fn phases(rt: HostRuntime) -> Result<(), AllocError> {
    let rows: [(u8, &str); 8] = [
        (0, "partial\n"),
        (3, "partial\n"),
        (7, "established\n"),
        (15, "established\n"),
        (8, "partial\n"),
        (24, "closing\n"),
        (31, "closing\n"),
        (32, "closing\n"),
    ];
    for (seen, word) in rows {
        assert_shown_as(&rt, rt.alloc(), seen, word)?;
    }
    Ok(())
}

#[test]
fn widest_and_narrowest(rt: HostRuntime) -> Result<(), AllocError> {
    let widest = Endpoint {
        addr: 0xffff_ffff,
        port: 65_535,
    };
    let narrowest = Endpoint { addr: 0, port: 1 };
    let session = Session {
        inside: widest,
        outside: narrowest,
        remote: widest,
        ..QUERY
    };
    let wanted = "udp 255.255.255.255:65535 0.0.0.0:1             255.255.255.255:65535 -\n";
    assert_shown(&rt, rt.alloc(), &session, wanted)
}

// The line of a session so many times, below a first line.
fn many_lines(alloc: Global, times: usize) -> Result<Vec<u8>, AllocError> {
    let mut lines = Vec::from_slice(alloc, b"first\n")?;
    for _ in 0..times {
        lines.extend_from_slice(QUERY_LINE.as_bytes())?;
    }
    Ok(lines)
}

#[test]
fn many(rt: HostRuntime) -> Result<(), AllocError> {
    let alloc = rt.alloc();
    for sessions in [[QUERY, QUERY].as_slice(), &[]] {
        let mut out = Vec::from_slice(alloc, b"first\n")?;
        put_lines(&mut out, sessions)?;
        let wanted = many_lines(alloc, sessions.len())?;
        assert!(rt; out.as_slice() == wanted.as_slice());
    }
    Ok(())
}
