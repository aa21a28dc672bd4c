// The first two checks of every call on a semaphore that is there.
ghost use Rattle.semaphores.specs.Target.{Chosen};

use arguments::index::index_below;
use layout::fields::is_used;
use layout::number::SemaphoreNumber;
use layout::offsets::SIZE;
use rules::Refusal;
use tables::Tables;

// The semaphore that an argument names.
pub fn used_semaphore(bytes: &[u8; SIZE], a: i32) -> Result<SemaphoreNumber, Refusal>
    ensures { Chosen a bytes.now result }
{
    let number = index_below(a, Tables::SEMAPHORES as u8).ok_or(Refusal::NoSuchSemaphore)?;
    let s = SemaphoreNumber { number };
    if is_used(bytes, s) {
        Ok(s)
    } else {
        Err(Refusal::SemaphoreFree)
    }
}
