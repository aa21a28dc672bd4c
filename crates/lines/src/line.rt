// A line of the input, without its newline, as a call.
ghost use Rattle.std.specs.Prelude.{◌≡◌};
ghost use Rattle.lines.specs.Line.{line_of};

use crate::hex::{WIDTH, read_field};

// The digits of the call, and of a line: behind the call come two arguments.
const CALL: usize = 2;

const SECOND: usize = CALL + WIDTH;

pub const LINE: usize = SECOND + WIDTH;

// A call by its number, and its two arguments.
#[derive(Clone, Copy)]
pub struct Request {
    pub number: u8,
    pub a: i32,
    pub b: i32,
}

pub fn read_line(line: &[u8]) -> Option<Request>
    ensures { result ≡ line_of line.now }
{
    let digits = line.as_array::<LINE>()?;
    let number = read_field(&digits[..CALL])?;
    let a = read_field(&digits[CALL..SECOND])?;
    let b = read_field(&digits[SECOND..])?;
    Some(Request {
        number: number as u8,
        a: a.cast_signed(),
        b: b.cast_signed(),
    })
}
