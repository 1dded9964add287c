//! The zeros that fill an item up to a multiple of four (RFC 4506, section 3).

ghost use Rattle.std.specs.Prelude.{◌≡◌, ◌-◌, ◌%◌};

/// The most zeros that an item takes.
pub const PADDING: [u8; 3] = [0; 3];

/// How many zeros follow so many bytes.
pub fn padding(n: usize) -> usize
    ensures { result ≡ (4 - n % 4) % 4 }
{
    (4 - n % 4) % 4
}
