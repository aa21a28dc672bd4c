// Call 03, make a semaphore with count a: the first free entry from the cursor on, going round; the cursor goes one past it. Answers its number; refuses with 3 and 4.
ghost use Rattle.rules.specs.Calls.{step};
ghost use Rattle.scheduling.specs.Steps.{Leads};

use layout::fields::{next_semaphore, put_next_semaphore, put_semaphore};
use layout::number::SemaphoreNumber;
use layout::offsets::{COUNTS, SIZE, USED};
use order::search::{free_round, one_past};
use rules::{Call, Refusal};
use scheduling::step::Step;
use tables::{Semaphore, Tables};

pub fn make_semaphore(bytes: &mut [u8; SIZE], a: i32) -> Result<Step, Refusal>
    ensures { Leads (λ t. step t (Call.MakeSemaphore a)) bytes.old bytes.new result }
{
    if a < 0 {
        return Err(Refusal::CountBelow0);
    }
    let from = next_semaphore(bytes);
    let i = free_round(&bytes[USED..COUNTS], usize::from(from)).ok_or(Refusal::AllUsed)?;
    let s = SemaphoreNumber { number: i as u8 };
    let entry = Semaphore {
        used: true,
        count: a,
    };
    put_semaphore(bytes, s, entry);
    put_next_semaphore(bytes, one_past(s.number, Tables::SEMAPHORES as u8));
    Ok(Step::Done(i32::from(s.number)))
}
