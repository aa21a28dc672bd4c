// Whether each semaphore's count goes with the number of those that wait on it.
ghost use Rattle.std.specs.Prelude.{◌≡◌, ℕ, ◌+◌, ◌≤◌, eqb, get_or};
ghost use Rattle.lists.specs.Numbers.{all};
ghost use Rattle.tables.specs.Limits.{semaphore_limit};
ghost use Rattle.layout.specs.Bytes.{from_bytes};
ghost use Rattle.queues.specs.Squeeze.{Squeezed, block_limit, squeezed_fits};
ghost use Rattle.queues.specs.Tallies.{counted_fits, half_limit};

use crate::squeeze::{BLOCK, smalls};
use crate::waiters::CELLS;
use layout::offsets::{SIZE, USED};
use tables::Tables;

// A count of 0, squeezed.
const ZERO: u8 = 128;

// Where the second block begins, to end with the last semaphore.
const SECOND: usize = Tables::SEMAPHORES - BLOCK;

// So few wait that a count squeezed to -128 is known to be wrong.
fn count_fits(used: u8, x: u8, many: u8) -> bool
    ensures { result ≡ squeezed_fits (eqb used 1) x many }
{
    (ZERO.saturating_sub(x) == many) & ((used == 1) | (x == ZERO))
}

// Two tallies of waiters, none of them of more than half the processes.
#[derive(Clone, Copy)]
pub struct Tallies<'a> {
    pub many: &'a [u8; CELLS],
    pub more: &'a [u8; CELLS],
    ghost few: { (s : ℕ) → get_or many.now s 0 ≤ half_limit },
    ghost less: { (s : ℕ) → get_or more.now s 0 ≤ half_limit },
}

// The semaphores of a block, from `from` on, by their squeezed counts. By place: four arrays zipped are no plainer.
fn block_fits(bytes: &[u8; SIZE], x: &[u8; BLOCK], tallies: Tallies, from: usize) -> bool
    requires { (from + block_limit ≤ semaphore_limit) × Squeezed bytes.now from block_limit x.now }
    ensures { result ≡ all block_limit (λ i. counted_fits (from_bytes bytes.now) tallies.entry.many.now tallies.entry.more.now (from + i)) }
{
    (0..BLOCK).fold(true, |ok, i| {
        let s = from + i;
        ok & count_fits(bytes[USED + s], x[i], tallies.many[s] + tallies.more[s])
    })
}

// Two blocks that overlap leave no tail to be done one at a time. Tried: both joined by `&&`, with 64 bytes of stack more.
pub fn counts_fit(bytes: &[u8; SIZE], tallies: Tallies) -> bool
    ensures { result ≡ all semaphore_limit (counted_fits (from_bytes bytes.now) tallies.entry.many.now tallies.entry.more.now) }
{
    let x = smalls(bytes, 0);
    if !block_fits(bytes, &x, tallies, 0) {
        return false;
    }
    let y = smalls(bytes, SECOND);
    block_fits(bytes, &y, tallies, SECOND)
}
