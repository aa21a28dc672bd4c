// What an argument names: the first check of the calls on processes.
ghost use Rattle.std.specs.Prelude.{◌≡◌, ◌<◌, ◌≤◌, ◌||◌, pos, true, IfErr, IfOk};
ghost use Rattle.std.specs.Int.Signed.{lt_z};
ghost use Rattle.tables.specs.Limits.{priority_limit, process_limit};
ghost use Rattle.rules.specs.Calls.{outside};

use arguments::index::index_below;
use rules::Refusal;
use tables::Tables;

// The process that an argument names.
pub fn process_number(a: i32) -> Result<u8, Refusal>
    ensures named { IfOk result (λ p. (a ≡ pos p) × (p < process_limit)) }
    ensures none { IfErr result (λ e. (e ≡ Refusal.NoSuchProcess) × (outside process_limit a ≡ true)) }
{
    index_below(a, Tables::PROCESSES as u8).ok_or(Refusal::NoSuchProcess)
}

// The priority that an argument gives.
pub fn priority_number(a: i32) -> Result<u8, Refusal>
    ensures given { IfOk result (λ n. (a ≡ pos n) × (0 < n) × (n ≤ priority_limit)) }
    ensures none { IfErr result (λ e. (e ≡ Refusal.NoSuchPriority) × ((lt_z a (pos 1) || lt_z (pos priority_limit) a) ≡ true)) }
{
    u8::try_from(a)
        .ok()
        .filter(|n| (1..=Tables::PRIORITY).contains(n))
        .ok_or(Refusal::NoSuchPriority)
}
