// The fields of a vector's bytes.
ghost use Rattle.std.specs.Prelude.{◌≡◌, ◌^◌, ◌<◌, ◌++◌, length, IfOk, IfErr};
ghost use Rattle.ts_base.specs.Endian.{little_bytes};
ghost use Rattle.ts_base.specs.Encoding.{weight_number};
ghost use Rattle.ts_vector.specs.Inner.Fields.{IsShort, ListsSome, ListStops};

use ts_base::{WEIGHT_UNIT, Weight};

/// Where the bytes go wrong.
#[derive(Clone, Copy, Debug)]
pub struct Stop {
    /// How many bytes before their end.
    pub left: usize,
}

/// The first bytes, so many, and the rest.
pub fn take(bytes: &[u8], count: usize) -> Result<(&[u8], &[u8]), Stop>
    ensures whole { IfOk result (λ x. bytes.now ≡ x.0.now ++ x.1.now) }
    ensures len { IfOk result (λ x. length x.0.now ≡ count) }
    ensures err { IfErr result (IsShort count bytes.now) }
{
    if bytes.len() < count {
        return Err(Stop { left: 0 });
    }
    Ok(bytes.split_at(count))
}

/// A number in two bytes, and the rest.
pub fn two(bytes: &[u8]) -> Result<(u16, &[u8]), Stop>
    ensures ok { IfOk result (λ x. bytes.now ≡ little_bytes 2 x.0 ++ x.1.now) }
    ensures fits { IfOk result (λ x. x.0 < 65536) }
    ensures err { IfErr result (IsShort 2 bytes.now) }
{
    match bytes {
        [low, high, rest @ ..] => Ok((u16::from(*high) * 256 + u16::from(*low), rest)),
        _ => Err(Stop { left: 0 }),
    }
}

/// A number in four bytes, and the rest.
pub fn four(bytes: &[u8]) -> Result<(u32, &[u8]), Stop>
    ensures ok { IfOk result (λ x. bytes.now ≡ little_bytes 4 x.0 ++ x.1.now) }
    ensures fits { IfOk result (λ x. x.0 < 2 ^ 32) }
    ensures err { IfErr result (IsShort 4 bytes.now) }
{
    let (low, rest) = two(bytes)?;
    let (high, rest) = two(rest)?;
    Ok((u32::from(high) * 65536 + u32::from(low), rest))
}

/// The weight with this number.
pub fn weight(number: u16) -> Weight
    requires { number < 4 }
    ensures { weight_number result ≡ number }
{
    match number {
        0 => Weight::D,
        1 => Weight::C,
        2 => Weight::B,
        _ => Weight::A,
    }
}

/// Checks so many positions, and gives the rest.
pub fn positions(count: usize, bytes: &[u8]) -> Result<&[u8], Stop>
    ensures ok { IfOk result (λ rest. ListsSome count bytes.now rest.now) }
    ensures err { IfErr result (ListStops count bytes.now) }
{
    let mut last = 0;
    let mut rest = bytes;
    for _ in 0..count {
        let (number, after) = two(rest)?;
        let at = number % WEIGHT_UNIT;
        if at <= last {
            return Err(Stop { left: rest.len() });
        }
        last = at;
        rest = after;
    }
    Ok(rest)
}
