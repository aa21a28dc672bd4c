// The row: who is found first, and how one process moves along it.
ghost use Rattle.std.specs.Prelude.{◌≡◌, ◌<◌, length};
ghost use Rattle.tables.specs.Limits.{process_limit};
ghost use Rattle.tables.specs.Setters.{with_order};
ghost use Rattle.layout.specs.Bytes.{process_at};
ghost use Rattle.layout.specs.Stands.{Turns, Tells};
ghost use Rattle.order.specs.Row.{found, has_state, place_among, low, below, placed, put_last, risen, sunk, Spotted};

use layout::fields::{place, process_at, put_place};
use layout::offsets::{NEXT_SEMAPHORE, ORDER, SIZE, STATES};
use tables::{State, Tables};

const LAST: usize = Tables::PROCESSES - 1;

// The row, where it stands.
fn row(bytes: &[u8; SIZE]) -> &[u8]
    ensures { (length result.now ≡ process_limit) × Tells (λ t. t.order) bytes.now result.now }
{
    &bytes[ORDER..NEXT_SEMAPHORE]
}

// A state is asked for by its byte, as `place_among`, which docs name, has it; so none is decoded on the way.
fn has_state(bytes: &[u8; SIZE], q: u8, b: u8) -> bool
    ensures { result ≡ has_state bytes.now b q }
{
    bytes[STATES + q as usize] == b
}

// The first in the row whose state is this byte.
pub fn find(bytes: &[u8; SIZE], b: u8) -> Option<u8>
    ensures { Tells (found b) bytes.now result }
{
    row(bytes).iter().copied().find(|q| has_state(bytes, *q, b))
}

// The place of `p` among those in the row whose state is this byte, counted from 1.
// No chain of `filter` with `take_while` and `count`, or with `position`: for 31 places of one queue those took 2.4 and 2.2 times as long.
pub fn place_among(bytes: &[u8; SIZE], p: u8, b: u8) -> u8
    ensures { Tells (place_among b p) bytes.now result }
{
    let mut n = 1u8;
    for q in row(bytes) {
        if has_state(bytes, *q, b) {
            if *q == p {
                return n;
            }
            n += 1;
        }
    }
    n
}

// A ready process below the level.
fn passes(bytes: &[u8; SIZE], q: u8, level: u8) -> bool
    ensures { result ≡ low level (process_at bytes.now q) }
{
    let x = process_at(bytes, q as usize);
    x.state == State::Ready && x.priority < level
}

// The first place where `p` stands or a process passes, or the last place.
fn spot(bytes: &[u8; SIZE], p: u8, level: u8) -> usize
    ensures { (result < process_limit) × Spotted p level result bytes.now }
{
    row(bytes)[..LAST]
        .iter()
        .position(|q| *q == p || passes(bytes, *q, level))
        .unwrap_or(LAST)
}

// `p` is put in at place `i`; what stands from there on moves one place on, as far as to where `p` stood. By place: the library's `rotate_right` would ask the board for `memmove`.
fn rise(bytes: &mut [u8; SIZE], i: usize, p: u8)
    requires { i < process_limit }
    ensures { p < process_limit → Turns (λ t. with_order t (risen p i t.order)) bytes.old bytes.new }
{
    let mut carry = p;
    for j in i..LAST {
        let x = place(bytes, j);
        put_place(bytes, j, carry);
        if x == p {
            return;
        }
        carry = x;
    }
    put_place(bytes, LAST, carry);
}

// `p`, which stands at place `i`, moves on to before the first that passes, which is looked for on the way: so the others move no further than they must.
fn sink(bytes: &mut [u8; SIZE], i: usize, p: u8, level: u8)
    requires { i < process_limit }
    ensures { p < process_limit → Turns (λ t. with_order t (sunk (below level t) p i t.order)) bytes.old bytes.new }
{
    for j in i..LAST {
        let y = place(bytes, j + 1);
        if passes(bytes, y, level) {
            put_place(bytes, j, p);
            return;
        }
        put_place(bytes, j, y);
    }
    put_place(bytes, LAST, p);
}

// `p` is taken out of the row and put back before the first ready process below the level, or last.
pub fn reposition(bytes: &mut [u8; SIZE], p: u8, level: u8)
    ensures { p < process_limit → Turns (placed p level) bytes.old bytes.new }
{
    let i = spot(bytes, p, level);
    if place(bytes, i) == p {
        sink(bytes, i, p, level);
    } else {
        rise(bytes, i, p);
    }
}

// `p` is taken out of the row and put last: nobody is below level 0.
pub fn put_last(bytes: &mut [u8; SIZE], p: u8)
    ensures { p < process_limit → Turns (λ t. with_order t (put_last p t.order)) bytes.old bytes.new }
{
    reposition(bytes, p, 0);
}
