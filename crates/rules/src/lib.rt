// The rules' answers and calls. The rules themselves are in specs/, and code that meets them in `semaphores`, `processes` and `kernel`.
#![tactic(auto)]

ghost use Rattle.std.specs.Prelude.{◌≡◌};
ghost use Rattle.rules.specs.Answers.{refusal_number};

use tables::Tables;

// Why a call, a line or a page is refused, with the paper's number.
#[derive(Clone, Copy, PartialEq, Eq, Debug)]
pub enum Refusal {
    // Semaphore number below 0 or above 119.
    NoSuchSemaphore = 1,
    // That semaphore is free.
    SemaphoreFree = 2,
    // Count argument below 0.
    CountBelow0 = 3,
    // All 120 semaphores are used.
    AllUsed = 4,
    // Count is 2,147,483,647.
    CountLargest = 5,
    // Process number below 0 or above 31.
    NoSuchProcess = 6,
    // That slot is free.
    SlotFree = 7,
    // All slots 1 to 31 are live.
    AllLive = 8,
    // Suspend of a suspended process.
    FoundSuspended = 9,
    // Kill or suspend of process 0; any wait by it.
    Process0 = 10,
    // Priority below 1 or above 63.
    NoSuchPriority = 11,
    // A line of the bench that is no call.
    WrongLine = 12,
    // Call number not in 01 to 0b.
    NoSuchCall = 13,
    // An argument the call doesn't use isn't 0.
    SpareArgument = 14,
    // The tables aren't sound.
    NotSound = 15,
    // Fewer rows lent than there are live processes.
    FewRows = 16,
    // Resume of the current process.
    FoundCurrent = 17,
    // Resume of a ready process.
    FoundReady = 18,
    // Resume or suspend of a waiting process.
    FoundWaiting = 19,
}

impl From<Refusal> for u8 {
    ghost from_gives = { λ r n. n ≡ refusal_number r };

    fn from(refusal: Refusal) -> u8 {
        refusal as u8
    }
}

// A call is answered either with a value or with one refusal number. An enum of its own and not a Result: document 01 names this form.
#[derive(Clone, Copy, PartialEq, Eq, Debug)]
pub enum Answer {
    Done(i32),
    Refused(u8),
}

// The eleven calls, with the arguments that each uses.
#[derive(Clone, Copy, PartialEq, Eq, Debug)]
pub enum Call {
    Wait(i32),
    Signal(i32),
    MakeSemaphore(i32),
    Delete(i32),
    Reset(i32, i32),
    MakeProcess(i32),
    Resume(i32),
    Suspend(i32),
    Kill(i32),
    Yield,
    Count(i32),
}

// The answer beside the tables handed back.
#[derive(Clone, Copy, PartialEq, Eq, Debug)]
pub struct Outcome {
    pub tables: Tables,
    pub answer: Answer,
}

// What the firmware is told: the outcome, and the process that runs next.
#[derive(Clone, Copy, PartialEq, Eq, Debug)]
pub struct Reply {
    pub outcome: Outcome,
    // 255 where nobody is known to, and no Option: `enter` has it so.
    pub running: u8,
}
