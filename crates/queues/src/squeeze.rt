// Counts squeezed into bytes, so that sixteen are compared at a time.
ghost use Rattle.std.specs.Prelude.{◌≡◌, ◌+◌, ◌≤◌};
ghost use Rattle.tables.specs.Limits.{semaphore_limit};
ghost use Rattle.queues.specs.Squeeze.{Squeezed, block_limit, lane_limit, squeezed};

use layout::offsets::SIZE;
use layout::word::count_at;

// Counts that are packed at a time.
const LANES: usize = 16;

// Semaphores that are looked at together.
pub const BLOCK: usize = 64;

fn small(c: i32) -> u8
    ensures { result ≡ squeezed c }
{
    (c.clamp(-128, 127) + 128) as u8
}

// So few counts that the loop is unrolled, and they are packed by the machine's own instructions.
// Tried: `array::from_fn` for the block, 120 ns a check, or for each sixteen, 104, where this takes 99.
fn squeeze(x: &mut [u8; BLOCK], bytes: &[u8; SIZE], from: usize, at: usize)
    requires { (from + block_limit ≤ semaphore_limit) × (at + lane_limit ≤ block_limit) × Squeezed bytes.now from at x.old }
    ensures { Squeezed bytes.now from (at + lane_limit) x.new }
{
    for s in at..at + LANES {
        x[s] = small(count_at(bytes, from + s));
    }
}

// The counts of a block, from `from` on, which is 0 or where the second block begins; a type for that would be no plainer than its bound. They are handed back: behind a reference they might be the bytes, and would be done one at a time.
pub fn smalls(bytes: &[u8; SIZE], from: usize) -> [u8; BLOCK]
    requires { from + block_limit ≤ semaphore_limit }
    ensures { Squeezed bytes.now from block_limit result }
{
    let mut x = [0u8; BLOCK];
    for j in 0..BLOCK / LANES {
        squeeze(&mut x, bytes, from, j * LANES);
    }
    x
}
