// The input in chunks that may break a line anywhere, in bounded memory.
ghost use Rattle.std.specs.Prelude.{◌≡◌, ◌*◌, ◌≤◌, [], ◌∷◌, length};
ghost use Rattle.lines.specs.Answers.{answer_length, newline};
ghost use Rattle.feed.specs.Feed.{held_in, holding, kept, ending, taken, Serves, ServesAll, Counts};

pub use crate::part::Part;
use lines::answer::{ANSWER, answer_line, answer_text};

// The room that `out` needs for each character of a chunk, whatever its lines are.
pub const ROOM: usize = ANSWER;

// What a feed took of its chunk and wrote of its buffer, and the line that is left: `feed` and `finish`, which docs name, tell lengths, since what is written stands in the buffer that they were lent.
#[derive(Clone, Copy)]
pub struct Fed {
    pub part: Part,
    pub used: usize,
    pub written: usize,
}

// The line that is held, ended, and its answer over the front of `out`.
fn end_line(tables: &mut [u8], part: &mut Part, out: &mut [u8]) -> usize
    requires { answer_length ≤ length out.old }
    ensures { ServesAll (holding tables.old part.old) (newline ∷ []) tables.new part.new result out.old out.new }
{
    let answer = answer_line(tables, part.held());
    out[..ANSWER].copy_from_slice(&answer_text(answer));
    *part = Part::new();
    ANSWER
}

// How much was written, here and of more than one character.
fn feed_one(tables: &mut [u8], part: &mut Part, c: u8, out: &mut [u8]) -> usize
    requires { answer_length ≤ length out.old }
    ensures { ServesAll (holding tables.old part.old) (c ∷ []) tables.new part.new result out.old out.new }
{
    if c == b'\n' {
        return end_line(tables, part, out);
    }
    part.push(c);
    0
}

// A chunk for which `out` has room.
fn feed_all(tables: &mut [u8], part: &mut Part, chunk: &[u8], out: &mut [u8]) -> usize
    requires { answer_length * length chunk.now ≤ length out.old }
    ensures { ServesAll (holding tables.old part.old) chunk.now tables.new part.new result out.old out.new }
{
    let mut written = 0;
    for &c in chunk {
        written += feed_one(tables, part, c, &mut out[written..]);
    }
    written
}

// As much of the chunk as `out` has room for.
pub fn feed(tables: &mut [u8], part: Part, chunk: &[u8], out: &mut [u8]) -> Fed
    ensures serves { Serves (holding tables.old part) (taken chunk.now out.old) tables.new result out.old out.new }
    ensures within { Counts result.written out.new }
{
    let used = (out.len() / ROOM).min(chunk.len());
    let mut part = part;
    let written = feed_all(tables, &mut part, &chunk[..used], out);
    Fed {
        part,
        used,
        written,
    }
}

// The end of the input: a line that was begun ends as at a newline.
pub fn finish(tables: &mut [u8], part: Part, out: &mut [u8]) -> Fed
    ensures serves { Serves (holding tables.old part) (taken (ending (held_in part)) out.old) tables.new result out.old out.new }
    ensures within { Counts result.written out.new }
{
    let end: &[u8] = if part.held().is_empty() { &[] } else { b"\n" };
    feed(tables, part, end, out)
}
