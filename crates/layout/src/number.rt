// The number of a semaphore, below the limit.
ghost use Rattle.std.specs.Prelude.{◌≡◌, ◌<◌, ◌≤◌, MatchOption};
ghost use Rattle.tables.specs.Limits.{semaphore_limit};

use tables::Tables;

#[derive(Clone, Copy, PartialEq, Eq, Debug)]
pub struct SemaphoreNumber {
    pub number: u8,
    pub ghost below: { number < semaphore_limit },
}

impl SemaphoreNumber {
    // An Option and no `TryFrom`, since nobody asks why. An `if` and no `then_some`, which makes the number before the test: tried, and its bound isn't proved there.
    pub fn new(s: u8) -> Option<SemaphoreNumber>
        ensures { MatchOption result (semaphore_limit ≤ s) (λ n. n.number ≡ s) }
    {
        if s < Tables::SEMAPHORES as u8 {
            Some(SemaphoreNumber { number: s })
        } else {
            None
        }
    }
}
