// Hexadecimal digits, read.
ghost use Rattle.std.specs.Prelude.{◌≡◌};
ghost use Rattle.lines.specs.Hex.{field_of};

// The most digits that a field has.
pub const WIDTH: usize = 8;

// All of `part` as one number, the high digit first, if it is at most `WIDTH` digits and nothing else.
// By hand: a field is bytes that may be no text, and a sign is no digit, so not `u32::from_str_radix`.
pub fn read_field(part: &[u8]) -> Option<u32>
    ensures { result ≡ field_of part.now }
{
    if WIDTH < part.len() {
        return None;
    }
    let mut n = 0;
    for &c in part {
        n = n * 16 + (c as char).to_digit(16)?;
    }
    Some(n)
}
