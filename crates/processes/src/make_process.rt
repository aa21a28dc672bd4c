// Call 06, make a process with priority a: the first free slot from the cursor on, going round; the cursor goes one past it; the process is suspended. Answers its number; refuses with 11 and 8.
ghost use Rattle.rules.specs.Calls.{step};
ghost use Rattle.scheduling.specs.Steps.{Leads};

use crate::target::priority_number;
use layout::fields::{next_process, put_next_process, put_process};
use layout::offsets::{PRIORITIES, SIZE, STATES};
use order::search::{free_round, one_past};
use rules::{Call, Refusal};
use scheduling::step::Step;
use tables::{Process, State, Tables};

pub fn make_process(bytes: &mut [u8; SIZE], a: i32) -> Result<Step, Refusal>
    ensures { Leads (λ t. step t (Call.MakeProcess a)) bytes.old bytes.new result }
{
    let priority = priority_number(a)?;
    let from = next_process(bytes);
    let i = free_round(&bytes[STATES..PRIORITIES], usize::from(from)).ok_or(Refusal::AllLive)?;
    let p = i as u8;
    let entry = Process {
        state: State::Suspended,
        priority,
    };
    put_process(bytes, p, entry);
    put_next_process(bytes, one_past(p, Tables::PROCESSES as u8));
    Ok(Step::Done(i32::from(p)))
}
