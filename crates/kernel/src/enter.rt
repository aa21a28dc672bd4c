// A call by its number: 13, then 14 if an argument that the call doesn't use isn't 0, then the call's own checks.
ghost use Rattle.rules.specs.Calls.{step};
ghost use Rattle.rules.specs.Enter.{Reads, numbered};
ghost use Rattle.scheduling.specs.Steps.{Leads, Meets, Runs};

use layout::offsets::SIZE;
use processes::kill::kill;
use processes::make_process::make_process;
use processes::resume::resume;
use processes::suspend::suspend;
use processes::yields::yields;
use rules::{Call, Refusal};
use scheduling::step::{Step, Told, finish};
use semaphores::count::count_of;
use semaphores::delete::delete;
use semaphores::make_semaphore::make_semaphore;
use semaphores::reset::reset;
use semaphores::signal::signal;
use semaphores::wait::wait;

// Which call it is, by the paper's number, which stands here alone: each with the test that finds an argument that it doesn't use.
fn read(number: u8, a: i32, b: i32) -> Result<Call, Refusal>
    ensures { Reads number a b result }
{
    let (call, spare) = match number {
        1 => (Call::Wait(a), b != 0),
        2 => (Call::Signal(a), b != 0),
        3 => (Call::MakeSemaphore(a), b != 0),
        4 => (Call::Delete(a), b != 0),
        5 => (Call::Reset(a, b), false),
        6 => (Call::MakeProcess(a), b != 0),
        7 => (Call::Resume(a), b != 0),
        8 => (Call::Suspend(a), b != 0),
        9 => (Call::Kill(a), b != 0),
        10 => (Call::Yield, a != 0 || b != 0),
        11 => (Call::Count(a), b != 0),
        _ => return Err(Refusal::NoSuchCall),
    };
    if spare {
        return Err(Refusal::SpareArgument);
    }
    Ok(call)
}

// `c` is the caller. That it runs (`Runs`) is so until the first write, and of no type.
fn act(bytes: &mut [u8; SIZE], c: u8, call: Call) -> Result<Step, Refusal>
    ensures { Runs c bytes.old → Leads (λ t. step t call) bytes.old bytes.new result }
{
    match call {
        Call::Wait(a) => wait(bytes, c, a),
        Call::Signal(a) => signal(bytes, a),
        Call::MakeSemaphore(a) => make_semaphore(bytes, a),
        Call::Delete(a) => delete(bytes, a),
        Call::Reset(a, b) => reset(bytes, a, b),
        Call::MakeProcess(a) => make_process(bytes, a),
        Call::Resume(a) => resume(bytes, a),
        Call::Suspend(a) => suspend(bytes, a),
        Call::Kill(a) => kill(bytes, a),
        Call::Yield => yields(bytes),
        Call::Count(a) => count_of(bytes, a),
    }
}

fn read_and_act(bytes: &mut [u8; SIZE], c: u8, number: u8, a: i32, b: i32) -> Result<Step, Refusal>
    ensures { Runs c bytes.old → Leads (λ t. numbered t number a b) bytes.old bytes.new result }
{
    let call = read(number, a, b)?;
    act(bytes, c, call)
}

// `c` is the current process.
pub fn call(bytes: &mut [u8; SIZE], c: u8, number: u8, a: i32, b: i32) -> Told
    ensures { Runs c bytes.old → Meets (λ t. numbered t number a b) bytes.old bytes.new result }
{
    let step = read_and_act(bytes, c, number, a, b).map_err(u8::from);
    finish(bytes, c, step)
}
