// One call on typed tables, handed over and handed back: for callers in Rattle.
ghost use Rattle.std.specs.Prelude.{◌≡◌};
ghost use Rattle.rules.specs.Enter.{enter};

use kernel::enter;
use layout::decode::decode;
use layout::encode::encode;
use layout::offsets::SIZE;
use rules::{Answer, Outcome, Refusal, Reply};
use soundness::check::{NOBODY, runner};
use tables::Tables;

pub fn call(tables: Tables, number: u8, a: i32, b: i32) -> Reply
    ensures { result ≡ enter tables number a b }
{
    let mut bytes = [0u8; SIZE];
    encode(&mut bytes, tables);
    match runner(&bytes) {
        Some(c) => {
            let told = enter::call(&mut bytes, c, number, a, b);
            Reply {
                outcome: Outcome {
                    tables: decode(&bytes),
                    answer: told.answer,
                },
                running: told.running,
            }
        }
        None => Reply {
            outcome: Outcome {
                tables,
                answer: Answer::Refused(Refusal::NotSound.into()),
            },
            running: NOBODY,
        },
    }
}
