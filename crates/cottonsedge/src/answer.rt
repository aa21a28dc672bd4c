// An answer as one number: the refusal in 8 bits, the value in 32, the process in 8.
ghost use Rattle.std.specs.Prelude.{◌≡◌};
ghost use Rattle.tables.specs.Readers.{nobody};
ghost use Rattle.rules.specs.declared.Answer.TheVariants.{Refused};
ghost use Rattle.cottonsedge.specs.Fields.{packed};

use rules::{Answer, Refusal};
use soundness::check::NOBODY;

const VALUE_STEP: u64 = 1 << 8;

const REFUSAL_STEP: u64 = 1 << 40;

pub fn pack(answer: Answer, process: u16) -> u64
    ensures { result ≡ packed answer process }
{
    let (refusal, value) = match answer {
        Answer::Done(value) => (0, value),
        Answer::Refused(number) => (number, -1),
    };
    u64::from(refusal) * REFUSAL_STEP
        + u64::from(value.cast_unsigned()) * VALUE_STEP
        + u64::from(process)
}

// Of tables that aren't sound nobody is known to run.
pub(crate) fn not_sound() -> u64
    ensures { result ≡ packed (Refused 15) nobody }
{
    pack(Answer::Refused(Refusal::NotSound.into()), NOBODY.into())
}
