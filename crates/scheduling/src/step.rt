// What a call comes to, and the one place that reschedules.
ghost use Rattle.std.specs.Prelude.{◌≡◌};
ghost use Rattle.scheduling.specs.Steps.{Ends};

use crate::schedule::reschedule;
use layout::offsets::SIZE;
use rules::Answer;

// What a call that isn't refused comes to.
#[derive(Clone, Copy)]
pub enum Step {
    // Done, with this value.
    Done(i32),
    // Done, with this value, and a reschedule follows.
    Switches(i32),
}

// The answer, and the process that runs then.
#[derive(Clone, Copy)]
pub struct Told {
    pub answer: Answer,
    pub running: u8,
}

// The end of a call that `c` made: nobody else is current. A refusal is a number here, any number: document 01 has it so in an answer (`refused`).
pub fn finish(bytes: &mut [u8; SIZE], c: u8, step: Result<Step, u8>) -> Told
    ensures { Ends c step bytes.old bytes.new result }
{
    match step {
        Ok(Step::Done(v)) => Told {
            answer: Answer::Done(v),
            running: c,
        },
        Ok(Step::Switches(v)) => {
            let running = reschedule(bytes, c);
            Told {
                answer: Answer::Done(v),
                running,
            }
        }
        Err(n) => Told {
            answer: Answer::Refused(n),
            running: c,
        },
    }
}
