// Call 09, kill a: the slot is free; a ready one leaves the list; a waiting one leaves its queue and that count goes up by 1; a reschedule follows only if it was current. Answers 1; refuses with 6, 10 and 7.
ghost use Rattle.std.specs.Prelude.{◌<◌, ◌+ℤ◌, pos};
ghost use Rattle.std.specs.Int.{saturate_signed, w32};
ghost use Rattle.tables.specs.Limits.{process_limit, semaphore_limit};
ghost use Rattle.tables.specs.Readers.{count_of, free_slot};
ghost use Rattle.tables.specs.Setters.{with_count, with_process};
ghost use Rattle.layout.specs.Stands.{Turns};
ghost use Rattle.rules.specs.Calls.{step};
ghost use Rattle.scheduling.specs.Steps.{Leads};

use crate::target::process_number;
use layout::fields::{count, process, put_count, put_process};
use layout::number::SemaphoreNumber;
use layout::offsets::SIZE;
use rules::{Call, Refusal};
use scheduling::step::Step;
use tables::{Process, State};

fn free_slot(bytes: &mut [u8; SIZE], p: u8)
    ensures { p < process_limit → Turns (λ t. with_process t p free_slot) bytes.old bytes.new }
{
    let entry = Process {
        state: State::Free,
        priority: 0,
    };
    put_process(bytes, p, entry);
}

// One waiter less: it releases nobody.
fn uncount(bytes: &mut [u8; SIZE], s: u8)
    ensures { s < semaphore_limit → Turns (λ t. with_count t s (saturate_signed w32 (count_of t s +ℤ pos 1))) bytes.old bytes.new }
{
    if let Some(s) = SemaphoreNumber::new(s) {
        let n = count(bytes, s);
        put_count(bytes, s, n.saturating_add(1));
    }
}

pub fn kill(bytes: &mut [u8; SIZE], a: i32) -> Result<Step, Refusal>
    ensures { Leads (λ t. step t (Call.Kill a)) bytes.old bytes.new result }
{
    let p = process_number(a)?;
    if p == 0 {
        return Err(Refusal::Process0);
    }
    match process(bytes, p).state {
        State::Free => Err(Refusal::SlotFree),
        State::Current => {
            free_slot(bytes, p);
            Ok(Step::Switches(1))
        }
        State::Ready | State::Suspended => {
            free_slot(bytes, p);
            Ok(Step::Done(1))
        }
        State::Waiting(s) => {
            uncount(bytes, s);
            free_slot(bytes, p);
            Ok(Step::Done(1))
        }
    }
}
