// The start of the line that is not ended yet.
ghost use Rattle.std.specs.Prelude.{◌≡◌, ◌+◌, ◌-◌, ◌≤◌, [], drop, length, replicate};
ghost use Rattle.lines.specs.Line.{line_length};

use lines::line::LINE;

// One character more than a right line has, so that a longer one is known.
const HELD: usize = LINE + 1;

// An array beside a count, since a Part is Copy, and none of the kit's small vectors is. Zeros stand behind the count, so that two that hold the same are the same.
#[derive(Clone, Copy)]
pub struct Part {
    bytes: [u8; HELD],
    count: usize,
    ghost within: { count ≤ length bytes },
    ghost rest: { drop count bytes ≡ replicate (line_length + 1 - count) 0 },
}

impl Part {
    ghost use Rattle.feed.specs.Feed.{held_in, kept};

    pub fn new() -> Self
        ensures { held_in result ≡ [] }
    {
        Part {
            bytes: [0u8; HELD],
            count: 0,
        }
    }

    pub(crate) fn held(&self) -> &[u8]
        ensures { result.now ≡ held_in self.now }
    {
        &self.bytes[..self.count]
    }

    // One character more, where there is place for it.
    pub(crate) fn push(&mut self, c: u8)
        ensures { held_in self.new ≡ kept (held_in self.old) c }
    {
        if self.count < HELD {
            self.bytes[self.count] = c;
            self.count += 1;
        }
    }
}
