// Call 0a, yield: a reschedule follows. Answers 1.
ghost use Rattle.rules.specs.Calls.{step};
ghost use Rattle.scheduling.specs.Steps.{Leads};

use rules::{Call, Refusal};
use scheduling::step::Step;

pub fn yields(bytes: &[u8]) -> Result<Step, Refusal>
    ensures { Leads (λ t. step t Call.Yield) bytes.now bytes.now result }
{
    Ok(Step::Switches(1))
}
