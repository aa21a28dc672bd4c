// A line answered, and the answer written.
ghost use Rattle.std.specs.Prelude.{◌≡◌};
ghost use Rattle.lines.specs.Line.{line_of};
ghost use Rattle.lines.specs.Answers.{answer_to, tables_after, text_of};

use crate::line::read_line;
use cottonsedge::answer::pack;
use cottonsedge::call::cottonsedge_call;
use rules::{Answer, Refusal};
use soundness::check::current;

const DIGITS: usize = 12;

// The bytes of an answer: its digits and a newline.
pub const ANSWER: usize = DIGITS + 1;

// The line's call made; a wrong line is answered and changes no table.
pub fn answer_line(tables: &mut [u8], line: &[u8]) -> u64
    ensures answer { result ≡ answer_to tables.old (line_of line.now) }
    ensures tables { tables.new ≡ tables_after tables.old (line_of line.now) }
{
    match read_line(line) {
        Some(request) => cottonsedge_call(tables, request.number, request.a, request.b),
        None => pack(
            Answer::Refused(Refusal::WrongLine.into()),
            current(tables).into(),
        ),
    }
}

// The answer as the bench prints it; its low digit is written first.
pub fn answer_text(answer: u64) -> [u8; ANSWER]
    ensures { result ≡ text_of answer }
{
    let mut text = [b'\n'; ANSWER];
    let mut rest = answer;
    // By place: of what is written through `iter_mut().rev()` the kit's contracts say nothing, and `array::from_fn` would divide by a power of 16 at each place.
    for i in (0..DIGITS).rev() {
        let digit = char::from_digit((rest % 16) as u32, 16).unwrap();
        text[i] = digit as u8;
        rest /= 16;
    }
    text
}
