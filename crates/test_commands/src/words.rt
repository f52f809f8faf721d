//! The two lines of each refusal.
use refusals::{Refusal, Stop, tell};
use std::alloc::{AllocError, Global};
use std::test::Fail;

/// Each refusal with its first line.
const ALL: [(Refusal, &[u8]); 16] = [
    (Refusal::Config, b"natgw: config\n"),
    (Refusal::File, b"natgw: file\n"),
    (Refusal::Device, b"natgw: device\n"),
    (Refusal::Full, b"natgw: full\n"),
    (Refusal::Damaged, b"natgw: damaged\n"),
    (Refusal::ConfigDiffers, b"natgw: config-differs\n"),
    (Refusal::Generations, b"natgw: generations\n"),
    (Refusal::NoMemory, b"natgw: no-memory\n"),
    (Refusal::Reopen, b"natgw: reopen\n"),
    (Refusal::NumbersOut, b"natgw: numbers-out\n"),
    (Refusal::BadKind, b"natgw: bad-kind\n"),
    (Refusal::BadInterface, b"natgw: bad-interface\n"),
    (Refusal::TooLong, b"natgw: too-long\n"),
    (Refusal::Truncated, b"natgw: truncated\n"),
    (Refusal::Input, b"natgw: input\n"),
    (Refusal::Output, b"natgw: output\n"),
];

fn put_lines(out: &mut Vec<u8>, line: &[u8], second: &[u8]) -> Result<(), AllocError> {
    out.extend_from_slice(line)?;
    out.extend_from_slice(second)?;
    out.push(b'\n')?;
    Ok(())
}

// Whether the second line says something, and both lines are told.
fn is_told(alloc: Global, refusal: Refusal, line: &[u8]) -> Result<bool, Fail> {
    let stop = Stop::from(refusal);
    let second = stop.second_line().as_bytes();
    let (mut told, mut wanted) = (Vec::new(alloc), Vec::new(alloc));
    tell(&mut told, &stop)?;
    put_lines(&mut wanted, line, second)?;
    let says = second.len() > 20 && !second.contains(&b'\n');
    Ok(says && told.as_slice() == wanted.as_slice())
}

fn is_spelled(alloc: Global, refusal: Refusal, line: &[u8]) -> Result<bool, Fail> {
    let spelled = format!(in alloc; "natgw: {refusal}\n")?;
    Ok(spelled.as_bytes() == line)
}

fn is_right(alloc: Global, refusal: Refusal, line: &[u8]) -> Result<bool, Fail> {
    Ok(is_told(alloc, refusal, line)? && is_spelled(alloc, refusal, line)?)
}

#[test]
fn both_lines(rt: HostRuntime) -> Result<(), Fail> {
    for (refusal, line) in &ALL {
        assert!(rt; is_right(rt.alloc(), *refusal, *line)?, "{refusal}");
    }
    Ok(())
}
