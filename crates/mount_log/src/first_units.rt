//! The head of an output by the first units of its encoding.
ghost use Rattle.std.specs.Prelude.{◌≡◌};
ghost use Rattle.mount_log.specs.FirstUnits.{unit_at, joined, reply_by, said_by, first_reply, first_head};

use crate::heads::{Head, Said};
use byteorder::{BigEndian, ByteOrder};

// The unit at a place, 0 where the bytes end before it does.
fn unit_at(bytes: &[u8], place: usize) -> u32
    ensures { result ≡ unit_at bytes.now place }
{
    if bytes.len().saturating_sub(place) < 4 {
        return 0;
    }
    BigEndian::read_u32(&bytes[place..])
}

fn joined(high: u32, low: u32) -> u64
    ensures { result ≡ joined high low }
{
    high as u64 * 4294967296 + low as u64
}

fn reply_by(wind: u64, status: u32) -> Said
    ensures { result ≡ reply_by wind status }
{
    match status {
        1 => Said::Gone(wind),
        _ => Said::Reply(wind),
    }
}

fn said_by(kind: u32, reply: Said) -> Said
    ensures { result ≡ said_by kind reply }
{
    match kind {
        0 => reply,
        1 => Said::Closed,
        2 => Said::Opened,
        _ => Said::Other,
    }
}

fn first_reply(bytes: &[u8]) -> Said
    ensures { result ≡ first_reply bytes.now }
{
    let wind = joined(unit_at(bytes, 12), unit_at(bytes, 16));
    reply_by(wind, unit_at(bytes, 20))
}

/// The head that the first units of some bytes say. It is that of the output, where the bytes are the encoding of one.
pub(crate) fn first_head(bytes: &[u8]) -> Head
    ensures { result ≡ first_head bytes.now }
{
    Head {
        taken: joined(unit_at(bytes, 0), unit_at(bytes, 4)),
        said: said_by(unit_at(bytes, 8), first_reply(bytes)),
    }
}
