ghost use Rattle.std.specs.Prelude.{◌≡◌, ◌+◌, ◌<◌, ◌^◌, length};
ghost use Rattle.tel_lex.specs.Places.{place_after};

use memchr::memchr;
use tel_base::Place;

/// The place behind bytes that begin at a place.
pub fn place_after(place: Place, bytes: &[u8]) -> Place
    requires bytes { place.at + length bytes.now < 2 ^ 32 }
    requires lines { place.line + length bytes.now < 2 ^ 32 }
    ensures { result ≡ place_after place bytes.now }
{
    let mut line = place.line;
    let mut at = place.at;
    let mut rest = bytes;
    'lines: while let Some(length) = memchr(b'\n', rest) {
        line += 1;
        at = 1;
        rest = &rest[length + 1..];
    }
    Place {
        file: place.file,
        line,
        at: at + rest.len() as u32,
    }
}
