//! The numbers of a line, byte for byte.
ghost use Rattle.std.specs.Prelude.{◌≡◌, ℕ, ◌+◌, ◌-◌, ◌*◌, ◌<◌, ◌≤◌, ◌↔◌, [], ◌∷◌, length, slice_index, IfOk, IfErr, IfSome, IfNone, IsTrue};
ghost use Rattle.proof_log.specs.Lines.{greatest};
ghost use Rattle.proof_log.specs.Parts.{IsDigit, GrowsAbove, AnyOf, IsNumber};
ghost use Rattle.proof_log.specs.Texts.{StandsAt, StopsAt};

/// The greatest number of a line.
const GREATEST: u64 = 4294967295;

/// Whether some number above `low` begins with the digits of this one.
fn may_grow(value: u64, low: u64) -> bool
    requires some { 1 ≤ value }
    requires fits { value ≤ greatest }
    requires room { low < greatest }
    ensures { IsTrue result ↔ GrowsAbove low value }
{
    let mut least = value;
    let mut most = value;
    while most <= low {
        least *= 10;
        most = most * 10 + 9;
    }
    least <= GREATEST
}

/// The number with one digit more, where some number above `low` begins with it.
fn with_digit(value: u32, byte: u8, low: u32) -> Option<u32>
    requires { low < greatest }
    ensures some { IfSome result (λ more. IsDigit byte × (more ≡ 10 * value + (byte - 48)) × (1 ≤ more) × GrowsAbove low more) }
    ensures none { IfNone result (IsDigit byte → 1 ≤ 10 * value + (byte - 48) → GrowsAbove low (10 * value + (byte - 48)) → ⊥) }
{
    if !byte.is_ascii_digit() {
        return None;
    }
    let more = 10 * u64::from(value) + u64::from(byte - b'0');
    if more == 0 {
        return None;
    }
    if more > GREATEST {
        return None;
    }
    if may_grow(more, u64::from(low)) {
        Some(more as u32)
    } else {
        None
    }
}

/// Reads a number above `low` and the byte `end` behind it: the number, and the place behind them. An
/// error is the place of the first byte that isn't allowed.
pub fn read_number(bytes: &[u8], at: usize, low: u32, end: u8) -> Result<(u32, usize), usize>
    requires within { at ≤ length bytes.now }
    requires room { low < greatest }
    requires end { end < 48 }
    ensures ok { IfOk result (λ found. StandsAt (IsNumber low end found.0) bytes.now at found.1) }
    ensures err { IfErr result (λ place. StopsAt (AnyOf (IsNumber low end)) bytes.now at place) }
{
    let mut value: u32 = 0;
    for place in at..bytes.len() {
        let byte = bytes[place];
        if byte == end && low < value {
            return Ok((value, place + 1));
        }
        match with_digit(value, byte, low) {
            Some(more) => value = more,
            None => return Err(place),
        }
    }
    Err(bytes.len())
}

/// Reads this byte: the place behind it, or as an error its place, where another byte stands or none.
pub fn read_byte(bytes: &[u8], at: usize, byte: u8) -> Result<usize, usize>
    requires { at ≤ length bytes.now }
    ensures ok { IfOk result (λ after. (at < length bytes.now) × (slice_index bytes.now at ≡ byte) × (after ≡ at + 1)) }
    ensures err { IfErr result (λ place. (place ≡ at) × (at < length bytes.now → slice_index bytes.now at ≡ byte → ⊥)) }
{
    if at < bytes.len() && bytes[at] == byte {
        Ok(at + 1)
    } else {
        Err(at)
    }
}
