//! An endpoint in its column.
ghost use Rattle.std.specs.Prelude.{◌≡◌, ◌++◌, ◌-◌, OnOk, OnErr, codes, decimal, length, replicate, take};
ghost use Rattle.session_lines.specs.Lines.{column, dotted, endpoint_text};

use itoa::Buffer;
use packet::Endpoint;
use std::alloc::AllocError;

/// The places of a column. The longest endpoint, 255.255.255.255:65535, fills them.
const WIDTH: usize = 21;

// Appends a number in decimal, and what stands behind it.
fn put_number(out: &mut Vec<u8>, number: u16, behind: &[u8]) -> Result<(), AllocError>
    ensures ok { OnOk result (out.new.items ≡ out.old.items ++ decimal number ++ behind.now) }
    ensures err { OnErr result (take (length out.old.items) out.new.items ≡ out.old.items) }
{
    let mut digits = Buffer::new();
    out.extend_from_slice(digits.format(number).as_bytes())?;
    out.extend_from_slice(behind)?;
    Ok(())
}

// Appends an address and a colon.
#[tactic(auto, using(crate::proofs::Grown::kept_before))]
fn put_address(out: &mut Vec<u8>, addr: u32) -> Result<(), AllocError>
    ensures ok { OnOk result (out.new.items ≡ out.old.items ++ dotted addr ++ codes ":") }
    ensures err { OnErr result (take (length out.old.items) out.new.items ≡ out.old.items) }
{
    put_number(out, (addr / 0x0100_0000) as u16, b".")?;
    put_number(out, (addr / 0x0001_0000 % 0x100) as u16, b".")?;
    put_number(out, (addr / 0x0100 % 0x100) as u16, b".")?;
    put_number(out, (addr % 0x100) as u16, b":")?;
    Ok(())
}

/// Appends an endpoint, as 192.0.2.1:80.
pub(crate) fn put_endpoint(out: &mut Vec<u8>, endpoint: Endpoint) -> Result<(), AllocError>
    ensures ok { OnOk result (out.new.items ≡ out.old.items ++ endpoint_text endpoint) }
    ensures err { OnErr result (take (length out.old.items) out.new.items ≡ out.old.items) }
{
    put_address(out, endpoint.addr)?;
    put_number(out, endpoint.port, b"")?;
    Ok(())
}

// Appends spaces up to a length.
fn fill(out: &mut Vec<u8>, end: usize) -> Result<(), AllocError>
    ensures ok { OnOk result (out.new.items ≡ out.old.items
        ++ replicate (end - length out.old.items) 32) }
    ensures err { OnErr result (out.new.items ≡ out.old.items) }
{
    if out.len() < end {
        out.resize(end, b' ')?;
    }
    Ok(())
}

/// Appends an endpoint at the left of 21 places, and the space between columns.
///
/// # Errors
///
/// `AllocError` where a growth was refused. A beginning of the column may have been appended then.
#[tactic(auto, using(crate::proofs::Grown::kept_before))]
pub(crate) fn put_column(out: &mut Vec<u8>, endpoint: Endpoint) -> Result<(), AllocError>
    ensures ok { OnOk result (out.new.items ≡ out.old.items ++ column endpoint) }
    ensures err { OnErr result (take (length out.old.items) out.new.items ≡ out.old.items) }
{
    let end = out.len() + WIDTH;
    put_endpoint(out, endpoint)?;
    fill(out, end)?;
    out.push(b' ')?;
    Ok(())
}
