// Call 02, signal a: the count plus 1; if the old count was below 0 the queue's head becomes ready, then a reschedule follows. Answers 1; refuses with 1, 2 and 5.
ghost use Rattle.rules.specs.Calls.{step};
ghost use Rattle.scheduling.specs.Steps.{Leads};

use crate::target::used_semaphore;
use layout::fields::{count, put_count};
use layout::offsets::SIZE;
use layout::state::WAITING;
use order::row::find;
use rules::{Call, Refusal};
use scheduling::schedule::make_ready;
use scheduling::step::Step;

pub fn signal(bytes: &mut [u8; SIZE], a: i32) -> Result<Step, Refusal>
    ensures { Leads (λ t. step t (Call.Signal a)) bytes.old bytes.new result }
{
    let s = used_semaphore(bytes, a)?;
    let n = count(bytes, s);
    if n == i32::MAX {
        return Err(Refusal::CountLargest);
    }
    put_count(bytes, s, n + 1);
    if n < 0 {
        // Of sound tables somebody waits (`signal-nobody`).
        if let Some(w) = find(bytes, WAITING + s.number) {
            make_ready(bytes, w);
        }
        return Ok(Step::Switches(1));
    }
    Ok(Step::Done(1))
}
