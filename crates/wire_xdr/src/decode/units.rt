ghost use Rattle.std.specs.Prelude.{◌≡◌};
ghost use Rattle.wire_xdr.specs.code.MessageParsers.{is_failing};
ghost use Rattle.wire_xdr.specs.code.Parsers.{Gives, unit_where, unit_at, between_at, flag_at, hyper_at, hyper_between};

use crate::decode::faults::Fault;
use crate::limits::{MAX_UNIT, UNIT_RANGE};
use byteorder::{BigEndian, ByteOrder};

/// A unit between two numbers.
pub fn unit_between(bytes: &[u8], least: u32, most: u32) -> Result<(u32, &[u8]), Fault>
    ensures { Gives (λ x. (x.0, x.1.now)) result (between_at least most bytes.now) }
{
    if bytes.len() < 4 {
        return Err(Fault::Short);
    }
    let number = BigEndian::read_u32(&[bytes[0], bytes[1], bytes[2], bytes[3]]);
    if least <= number && number <= most {
        Ok((number, &bytes[4..]))
    } else {
        Err(Fault::Wrong { left: bytes.len() })
    }
}

fn is_failing(number: u32) -> bool
    ensures { result ≡ is_failing number }
{
    1 <= number && number <= 12 && number != 2
}

/// The number of a procedure that may be made to fail: 1 to 12, but not 2.
pub fn procedure(bytes: &[u8]) -> Result<(u32, &[u8]), Fault>
    ensures { Gives (λ x. (x.0, x.1.now)) result (unit_where is_failing bytes.now) }
{
    if bytes.len() < 4 {
        return Err(Fault::Short);
    }
    let number = BigEndian::read_u32(&[bytes[0], bytes[1], bytes[2], bytes[3]]);
    if is_failing(number) {
        Ok((number, &bytes[4..]))
    } else {
        Err(Fault::Wrong { left: bytes.len() })
    }
}

/// A unit of any number.
pub fn unit(bytes: &[u8]) -> Result<(u32, &[u8]), Fault>
    ensures { Gives (λ x. (x.0, x.1.now)) result (unit_at bytes.now) }
{
    unit_between(bytes, 0, MAX_UNIT)
}

/// A unit of 0 or 1.
pub fn flag(bytes: &[u8]) -> Result<(bool, &[u8]), Fault>
    ensures { Gives (λ x. (x.0, x.1.now)) result (flag_at bytes.now) }
{
    let (number, rest) = unit_between(bytes, 0, 1)?;
    Ok((number == 1, rest))
}

/// A hyper, its high unit first.
pub fn hyper(bytes: &[u8]) -> Result<(u64, &[u8]), Fault>
    ensures { Gives (λ x. (x.0, x.1.now)) result (hyper_at bytes.now) }
{
    let (high, rest) = unit(bytes)?;
    let (low, rest) = unit(rest)?;
    Ok((high as u64 * UNIT_RANGE + low as u64, rest))
}

/// A hyper between two numbers. Its low unit is bounded only where its high unit is that of the bound.
pub fn hyper_between(bytes: &[u8], least: u64, most: u64) -> Result<(u64, &[u8]), Fault>
    ensures { Gives (λ x. (x.0, x.1.now)) result (hyper_between least most bytes.now) }
{
    let first = (least / UNIT_RANGE) as u32;
    let last = (most / UNIT_RANGE) as u32;
    let (high, rest) = unit_between(bytes, first, last)?;
    let low_least = if high == first {
        (least % UNIT_RANGE) as u32
    } else {
        0
    };
    let low_most = if high == last {
        (most % UNIT_RANGE) as u32
    } else {
        MAX_UNIT
    };
    let (low, rest) = unit_between(rest, low_least, low_most)?;
    Ok((high as u64 * UNIT_RANGE + low as u64, rest))
}
