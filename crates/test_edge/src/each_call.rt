//! Each read, each write and each call of the disk fails in turn, until a run meets no fault.
use crate::pieces::{End, giving, taking};
use crate::shared::{
    PIECE, Stream, Trials, answered, close, four_requests, run, run_anew, troubled,
};
use gateway::GatewayFault;
use socket_edge::EdgeFault;
use std::alloc::Global;
use std::test::Fail;

// The call that something doesn't hold at is told.
fn must(holds: bool, call: usize) -> Result<(), usize> {
    if holds { Ok(()) } else { Err(call) }
}

// What a run is to come to that meets a fault at each call below `calls`.
fn end_of(call: usize, calls: usize, fault: EdgeFault) -> Result<u64, EdgeFault> {
    if call < calls { Err(fault) } else { Ok(4) }
}

// Whether so many bytes of the answers are written.
fn is_front(stream: &Stream, len: usize, written: &[u8]) -> bool {
    stream.answers.get(..len) == Some(written)
}

// Whether the requests that came whole are answered.
fn fails_read(alloc: Global, stream: &Stream, call: usize) -> bool {
    let mut reader = giving(stream.requests.as_slice(), PIECE, call);
    let mut written = Vec::new(alloc);
    let ended = run_anew(alloc, &mut reader, &mut written);
    let len = answered(PIECE.saturating_mul(call));
    ended == end_of(call, 15, EdgeFault::Input) && is_front(stream, len, written.as_slice())
}

// Whether at least a byte of the answers is written at each call.
fn fails_write(
    alloc: Global,
    stream: &Stream,
    (most, calls): (usize, usize),
    call: usize,
    end: End,
) -> bool {
    let mut reader = giving(stream.requests.as_slice(), PIECE, usize::MAX);
    let mut writer = taking(alloc, most, call, end);
    let ended = run_anew(alloc, &mut reader, &mut writer);
    let is_end = ended == end_of(call, calls, EdgeFault::Output);
    is_end && is_got(stream, writer.got.as_slice(), call, call >= calls)
}

fn is_got(stream: &Stream, got: &[u8], least: usize, is_whole: bool) -> bool {
    let is_front = stream.answers.starts_with(got) && got.len() >= least;
    is_front && (!is_whole || got.len() == stream.answers.len())
}

// Three of the requests change what is kept, by four calls of the disk each. The third, a moment, is answered at once.
fn written_at(call: usize) -> usize {
    match call {
        0..4 => 0,
        4..8 => 13,
        8..12 => 68,
        _ => 110,
    }
}

// Before that, what earlier reads brought is answered.
fn fail_device(alloc: Global, stream: &Stream, call: usize) -> Result<bool, Fail> {
    let mut gateway = troubled(alloc, call as u64)?;
    let is_done = fails_device(alloc, stream, &mut gateway, call);
    close(gateway);
    Ok(is_done)
}

fn fails_device(alloc: Global, stream: &Stream, gateway: &mut Trials, call: usize) -> bool {
    let is_cut = is_cut_off(alloc, stream, gateway, call);
    is_cut && (call >= 12 || is_closed(alloc, stream, gateway))
}

fn is_cut_off(alloc: Global, stream: &Stream, gateway: &mut Trials, call: usize) -> bool {
    let mut reader = giving(stream.requests.as_slice(), PIECE, usize::MAX);
    let mut written = Vec::new(alloc);
    let ended = run(alloc, &mut reader, &mut written, gateway);
    let fault = EdgeFault::Gateway(GatewayFault::Device);
    let len = written_at(call);
    ended == end_of(call, 12, fault) && is_front(stream, len, written.as_slice())
}

// Nothing is read any more.
fn is_closed(alloc: Global, stream: &Stream, gateway: &mut Trials) -> bool {
    let mut reader = giving(stream.requests.as_slice(), PIECE, usize::MAX);
    let mut written = Vec::new(alloc);
    let ended = run(alloc, &mut reader, &mut written, gateway);
    let fault = EdgeFault::Gateway(GatewayFault::Reopen);
    ended == Err(fault) && reader.calls == 0 && written.is_empty()
}

// A writer that takes `most` bytes a call is called so often.
fn each_write(alloc: Global, stream: &Stream, most: usize, calls: usize) -> Result<(), usize> {
    for call in 0..=calls {
        let most = (most, calls);
        must(fails_write(alloc, stream, most, call, End::Fails), call)?;
        must(fails_write(alloc, stream, most, call, End::TakesNone), call)?;
    }
    Ok(())
}

fn each_read(alloc: Global, stream: &Stream) -> Result<(), usize> {
    for call in 0..=15 {
        must(fails_read(alloc, stream, call), call)?;
    }
    Ok(())
}

fn each_device(alloc: Global, stream: &Stream) -> Result<(), Fail> {
    for call in 0..=12 {
        must(fail_device(alloc, stream, call)?, call)?;
    }
    Ok(())
}

fn each_read_and_write(alloc: Global, stream: &Stream) -> Result<(), usize> {
    each_read(alloc, stream)?;
    each_write(alloc, stream, 1, 110)?;
    each_write(alloc, stream, 5, 24)?;
    each_write(alloc, stream, usize::MAX, 4)
}

fn each_of(alloc: Global, stream: &Stream) -> Result<(), Fail> {
    each_read_and_write(alloc, stream)?;
    each_device(alloc, stream)
}

#[test]
fn each_io(rt: HostRuntime) -> Result<(), Fail> {
    let stream = four_requests(rt.alloc())?;
    each_of(rt.alloc(), &stream)
}
