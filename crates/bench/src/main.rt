// Reads lines of hexadecimal from standard input, runs each as a call from the boot tables on, and
// writes an answer to each.
#![tactic(auto)]

ghost use Rattle.std.specs.Prelude.{◌≡◌, ◌≤◌, length, IfOk, OnOk};
ghost use Rattle.std.specs.Io.KnownBytes.{Appends};
ghost use Rattle.feed.specs.Feed.{ending, held_after, held_in, holding, written_over};
ghost use Rattle.bench.specs.Run.{AllAnswered};

use cottonsedge::boot::cottonsedge_boot;
use feed::feed::{Part, ROOM, feed, finish};
use layout::offsets::SIZE;
use std::io;
use std::io::{Read, Write};

const CHUNK: usize = 4096;

// The answers to the lines that end in what was read, written before anything more is read, and the
// line that is left.
fn answer_chunk<W: Write>(
    output: &mut W,
    tables: &mut [u8],
    part: Part,
    chunk: &[u8],
) -> io::Result<Part>
    requires { length chunk.now ≤ CHUNK }
    ensures wrote { OnOk result (Appends (W.contents output.old) (W.contents output.new) (written_over (holding tables.old part) chunk.now)) }
    ensures held { IfOk result (λ left. holding tables.new left ≡ held_after (holding tables.old part) chunk.now) }
{
    // Room enough that every byte of the chunk is taken.
    let mut out = [0u8; CHUNK * ROOM];
    let fed = feed(tables, part, chunk, &mut out);
    output.write_all(&out[..fed.written])?;
    Ok(fed.part)
}

// The end of the input: a last line without a newline is answered.
fn answer_end<W: Write>(output: &mut W, tables: &mut [u8], part: Part) -> io::Result<()>
    ensures { OnOk result (Appends (W.contents output.old) (W.contents output.new) (written_over (holding tables.old part) (ending (held_in part)))) }
{
    let mut out = [0u8; ROOM];
    let fed = finish(tables, part, &mut out);
    output.write_all(&out[..fed.written])
}

// All that can be read is answered, as far as it can be written.
fn serve<R: Read, W: Write>(input: &mut R, output: &mut W, tables: &mut [u8]) -> io::Result<()>
    ensures { OnOk result (AllAnswered tables.old (R.remaining input.old) (R.remaining input.new) (W.contents output.old) (W.contents output.new)) }
{
    let mut part = Part::new();
    // A proved loop has to end, and nothing says that the input does: there are more turns than a
    // run uses up.
    for _ in 0..u64::MAX {
        let mut chunk = [0u8; CHUNK];
        // A read that fails is the input's end.
        let n = input.read(&mut chunk).unwrap_or(0);
        if n == 0 {
            break;
        }
        part = answer_chunk(output, tables, part, &chunk[..n])?;
    }
    answer_end(output, tables, part)
}

fn main(rt: HostRuntime) {
    let mut tables = [0u8; SIZE];
    cottonsedge_boot(&mut tables);
    // Nothing follows, so a failure changes nothing.
    let _ = serve(&mut rt.stdin(), &mut rt.stdout(), &mut tables);
}
