//! The counts in words: a line for people, and a file for Prometheus' node exporter. Nothing is proved of them.
use carrying::Between;
use devices::Tun;
use drop_lines::cause_name;
use itoa::Buffer;
use std::alloc::{AllocError, Global};
use std::fs::{Files, OpenOptions};
use std::io::Write;
use std::{fs, io};
use to_devices::{CAUSES, Counts, Side};

/// The heads of the file's tables: what the next lines count.
const PACKETS: &[u8] = b"\
# HELP natgw_packets_total Packets that came from a device, that it let out, and that it didn't let out.
# TYPE natgw_packets_total counter
";

const BYTES: &[u8] = b"\
# HELP natgw_bytes_total Bytes of the packets that came from a device, and that it let out.
# TYPE natgw_bytes_total counter
";

const DROPPED: &[u8] = b"\
# HELP natgw_dropped_total Packets that were dropped, by the side that they came from and the cause.
# TYPE natgw_dropped_total counter
";

const RULESETS: &[u8] = b"\
# HELP natgw_rulesets_total Rulesets that were loaded, and that were refused.
# TYPE natgw_rulesets_total counter
";

/// What is counted of a side.
#[derive(Clone, Copy, Drop)]
struct Figures<'a> {
    name: &'static str,
    device: &'a Tun,
    side: &'a Side,
}

fn both_sides<'a>(devices: &'a Between<Tun, Tun>, counts: &'a Counts) -> [Figures<'a>; 2] {
    [
        Figures {
            name: "lan",
            device: &devices.lan,
            side: &counts.lan,
        },
        Figures {
            name: "wan",
            device: &devices.wan,
            side: &counts.wan,
        },
    ]
}

fn put_number(out: &mut Vec<u8>, number: u64) -> Result<(), AllocError> {
    let mut digits = Buffer::new();
    out.extend_from_slice(digits.format(number).as_bytes())
}

// Appends these texts, one behind the other, and a number.
fn put(out: &mut Vec<u8>, texts: &[&str], number: u64) -> Result<(), AllocError> {
    for text in texts {
        out.extend_from_slice(text.as_bytes())?;
    }
    put_number(out, number)
}

// Appends a line of the file.
fn put_line(
    out: &mut Vec<u8>,
    table: &str,
    side: &str,
    label: &str,
    value: &str,
    number: u64,
) -> Result<(), AllocError> {
    put(
        out,
        &[
            "natgw_",
            table,
            "_total{side=\"",
            side,
            "\",",
            label,
            "=\"",
            value,
            "\"} ",
        ],
        number,
    )?;
    out.push(b'\n')?;
    Ok(())
}

fn put_packets(out: &mut Vec<u8>, of: &Figures<'_>) -> Result<(), AllocError> {
    put_line(out, "packets", of.name, "way", "came", of.device.came)?;
    put_line(out, "packets", of.name, "way", "left", of.side.left)?;
    put_line(out, "packets", of.name, "way", "lost", of.side.lost)
}

fn put_bytes(out: &mut Vec<u8>, of: &Figures<'_>) -> Result<(), AllocError> {
    put_line(out, "bytes", of.name, "way", "came", of.device.came_bytes)?;
    put_line(out, "bytes", of.name, "way", "left", of.side.left_bytes)
}

fn put_drops(out: &mut Vec<u8>, of: &Figures<'_>) -> Result<(), AllocError> {
    for cause in 1..CAUSES {
        put_line(
            out,
            "dropped",
            of.name,
            "cause",
            cause_name(cause),
            of.side.dropped[cause],
        )?;
    }
    Ok(())
}

fn put_rulesets(out: &mut Vec<u8>, counts: &Counts) -> Result<(), AllocError> {
    put(
        out,
        &["natgw_rulesets_total{outcome=\"loaded\"} "],
        counts.loaded,
    )?;
    put(
        out,
        &["\nnatgw_rulesets_total{outcome=\"refused\"} "],
        counts.refused,
    )?;
    out.push(b'\n')?;
    Ok(())
}

/// The text for Prometheus.
///
/// # Errors
///
/// `AllocError` where memory is refused.
fn text(
    alloc: Global,
    devices: &Between<Tun, Tun>,
    counts: &Counts,
) -> Result<Vec<u8>, AllocError> {
    let mut out = Vec::new(alloc);
    let both = both_sides(devices, counts);
    out.extend_from_slice(PACKETS)?;
    for of in &both {
        put_packets(&mut out, of)?;
    }
    out.extend_from_slice(BYTES)?;
    for of in &both {
        put_bytes(&mut out, of)?;
    }
    out.extend_from_slice(DROPPED)?;
    for of in &both {
        put_drops(&mut out, of)?;
    }
    out.extend_from_slice(RULESETS)?;
    put_rulesets(&mut out, counts)?;
    Ok(out)
}

fn write_over(rt: &impl Files, path: &str, bytes: &[u8]) -> io::Result<()> {
    let mut file = OpenOptions::new()
        .write(true)
        .create(true)
        .truncate(true)
        .open(rt, path)?;
    file.write_all(bytes)
}

/// Puts the counts into a file, which takes the place of the one before in one go: they are written beside it, under its
/// path and `.part`.
///
/// # Errors
///
/// That of the system, or of kind `OutOfMemory` where memory is refused.
pub fn write_file(
    rt: &impl Files,
    alloc: Global,
    path: &str,
    devices: &Between<Tun, Tun>,
    counts: &Counts,
) -> io::Result<()> {
    let bytes = text(alloc, devices, counts)?;
    let part = format!(in alloc; "{path}.part")?;
    write_over(rt, part.as_str(), bytes.as_slice())?;
    fs::rename(rt, part.as_str(), path)
}

// Appends what is counted of a side, in words.
fn put_side(out: &mut Vec<u8>, of: &Figures<'_>) -> Result<(), AllocError> {
    put(out, &["from ", of.name, " "], of.device.came)?;
    put(out, &[", to ", of.name, " "], of.side.left)?;
    put(out, &[", not let out there "], of.side.lost)?;
    for cause in 1..CAUSES {
        let count = of.side.dropped[cause];
        if count > 0 {
            put(out, &[", ", cause_name(cause), " "], count)?;
        }
    }
    Ok(())
}

/// The counts in a line without its end: of each side what came from it, what it let out, and what that came from it was
/// dropped by which cause.
///
/// # Errors
///
/// `AllocError` where memory is refused.
pub fn line(
    alloc: Global,
    devices: &Between<Tun, Tun>,
    counts: &Counts,
) -> Result<Vec<u8>, AllocError> {
    let mut out = Vec::new(alloc);
    let [lan, wan] = both_sides(devices, counts);
    put_side(&mut out, &lan)?;
    out.extend_from_slice(b"; ")?;
    put_side(&mut out, &wan)?;
    Ok(out)
}
