// The check.
ghost use Rattle.std.specs.Prelude.{◌≡◌, true};
ghost use Rattle.layout.specs.Bytes.{from_bytes};
ghost use Rattle.soundness.specs.Good.{current_byte, good, runner_of_bytes};
ghost use Rattle.soundness.specs.Laid.{laid_clauses};
ghost use Rattle.soundness.specs.Running.{runner_of};

use crate::form::formed;
use crate::ready::{keys, ready_falls};
use crate::row::once_each;
use crate::running::sole;
use crate::slots::{null_fits, slots_fit};
use layout::offsets::{NEXT_PROCESS, NEXT_SEMAPHORE, PRIORITIES, STATES};
use queues::counts::{Tallies, counts_fit};
use queues::formed::Formed;
use queues::waiters::{CELLS, tally};
use tables::Tables;

// Told as the process that runs where nobody is known to: C has a byte for it (`current_byte`).
pub const NOBODY: u8 = 255;

// How the tables are laid: the cursors, the slots, the row.
fn laid(f: Formed) -> bool
    ensures { result ≡ laid_clauses (from_bytes f.entry.bytes.now) }
{
    let bytes = f.bytes;
    if bytes[NEXT_SEMAPHORE] >= Tables::SEMAPHORES as u8 {
        return false;
    }
    if bytes[NEXT_PROCESS] >= Tables::PROCESSES as u8 {
        return false;
    }
    if !null_fits(bytes[STATES], bytes[PRIORITIES]) {
        return false;
    }
    if !slots_fit(bytes) {
        return false;
    }
    once_each(bytes)
}

// Who runs, of laid tables. The waiters are tallied first: the cells, written one at a time, are read many at a time, and by then the writes are done.
fn runs(f: Formed) -> Option<u8>
    requires { laid_clauses (from_bytes f.bytes.now) ≡ true }
    ensures { result ≡ runner_of (from_bytes f.entry.bytes.now) }
{
    let bytes = f.bytes;
    let mut many = [0u8; CELLS];
    let mut more = [0u8; CELLS];
    tally(&mut many, &mut more, f);
    let c = sole(f)?;
    let k = keys(bytes);
    if !ready_falls(bytes, &k, bytes[PRIORITIES + c as usize] as u32 + 1) {
        return None;
    }
    let tallies = Tallies {
        many: &many,
        more: &more,
    };
    if !counts_fit(bytes, tallies) {
        return None;
    }
    Some(c)
}

// Who runs, of sound tables.
pub fn runner(bytes: &[u8]) -> Option<u8>
    ensures { result ≡ runner_of_bytes bytes.now }
{
    let f = formed(bytes)?;
    if laid(f) { runs(f) } else { None }
}

// The current process of sound tables; 255 of others.
pub fn current(bytes: &[u8]) -> u8
    ensures { result ≡ current_byte bytes.now }
{
    runner(bytes).unwrap_or(NOBODY)
}

pub fn is_sound(bytes: &[u8]) -> bool
    ensures { result ≡ good bytes.now }
{
    runner(bytes).is_some()
}
