// A session in Rattle: ten calls on typed tables, each handed to the call and handed back with its answer. Start here to use the kernel from Rattle.
#![tactic(auto)]

ghost use Rattle.std.specs.Prelude.{◌≡◌, pos};
ghost use Rattle.rules.specs.Enter.{enter};

use cottonsedge::answer::pack;
use cottonsedge::value::call;
use lines::answer::answer_text;
use rules::Answer;
use std::io::Print;
use tables::Tables;

// By number and not by `rules::Call`: `call` (docs/PROMISES.md) takes the paper's number, of a call or of none.
const WAIT: u8 = 1;

const SIGNAL: u8 = 2;

const MAKE_SEMAPHORE: u8 = 3;

const MAKE_PROCESS: u8 = 6;

const RESUME: u8 = 7;

const COUNT: u8 = 11;

// The answer as the bench prints it; the calls go on where nothing can be printed.
fn print(rt: &impl Print, answer: Answer, running: u8) {
    let _ = rt.write_all(&answer_text(pack(answer, running.into())));
}

// One call and its answer printed; the tables after it.
fn after(rt: &impl Print, tables: Tables, number: u8, a: i32) -> Tables
    ensures { result ≡ (enter tables number a (pos 0)).outcome.tables }
{
    let reply = call(tables, number, a, 0);
    print(rt, reply.outcome.answer, reply.running);
    reply.outcome.tables
}

fn main(rt: HostRuntime) {
    let mut tables = Tables::boot();
    for (number, a) in [
        (MAKE_PROCESS, 20),
        (RESUME, 1),
        (MAKE_SEMAPHORE, 0),
        (MAKE_PROCESS, 20),
        (RESUME, 2),
        // Process 2 waits, and process 1 runs.
        (WAIT, 0),
        (COUNT, 0),
        // It is released, and its equal gives way.
        (SIGNAL, 0),
        // A semaphore that isn't used, and one that isn't there.
        (WAIT, 5),
        (WAIT, Tables::SEMAPHORES as i32),
    ] {
        tables = after(&rt, tables, number, a);
    }
}
