// All who are in one state, read before any is moved, and each made ready.
ghost use Rattle.std.specs.Prelude.{◌≡◌, ◌<◌};
ghost use Rattle.tables.specs.Limits.{process_limit};
ghost use Rattle.tables.specs.Readers.{line};
ghost use Rattle.layout.specs.Stands.{Turns, Tells};
ghost use Rattle.rules.specs.Schedule.{make_all_ready};
ghost use Rattle.order.specs.Row.{by_byte};
ghost use Rattle.scheduling.specs.Waiters.{marked, numbers};

use crate::schedule::make_ready;
use layout::fields::place;
use layout::offsets::{SIZE, STATES};
use std::array;
use tables::Tables;

// Who stands at place `i`, if the state is this byte.
fn mark(bytes: &[u8; SIZE], i: usize, b: u8) -> Option<u8>
    requires { i < process_limit }
    ensures { Tells (λ t. marked t b i) bytes.now result }
{
    let q = place(bytes, i);
    (bytes[STATES + q as usize] == b).then_some(q)
}

// The processes whose state is this byte, each at its place in the row.
pub fn picked(bytes: &[u8; SIZE], b: u8) -> [Option<u8>; Tables::PROCESSES]
    ensures { Tells (λ t. line t (by_byte b)) bytes.now (numbers result) }
{
    array::from_fn(|i| mark(bytes, i, b))
}

pub fn make_all_ready(bytes: &mut [u8; SIZE], ps: [Option<u8>; Tables::PROCESSES])
    ensures { Turns (λ t. make_all_ready t (numbers ps)) bytes.old bytes.new }
{
    // No `flatten`: of an array taken by value the kit's contracts say nothing.
    for q in ps {
        if let Some(q) = q
            && q < Tables::PROCESSES as u8
        {
            make_ready(bytes, q);
        }
    }
}
