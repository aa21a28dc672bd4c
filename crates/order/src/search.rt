// The search that begins at a cursor and goes round. A free semaphore has the same byte as a free slot.
ghost use Rattle.std.specs.Prelude.{◌≡◌, ◌+◌, ◌-◌, ◌<◌, IfSome, length};
ghost use Rattle.lists.specs.Numbers.{count_up, round_from};
ghost use Rattle.rules.specs.Calls.{one_past};
ghost use Rattle.order.specs.Search.{first_free};

use layout::state::FREE;

// The first free one of the entries from `from` on.
fn free_from(entries: &[u8], from: usize) -> Option<usize>
    ensures { IfSome result (λ i. i < length entries.now) × (result ≡ first_free entries.now (count_up from (length entries.now - from))) }
{
    (from..entries.len()).find(|i| entries[*i] == FREE)
}

pub fn free_round(entries: &[u8], from: usize) -> Option<usize>
    ensures { IfSome result (λ i. i < length entries.now) × (from < length entries.now → result ≡ first_free entries.now (round_from (length entries.now) from)) }
{
    free_from(entries, from).or_else(|| free_from(entries, 0))
}

// The cursor after `n` is taken.
pub fn one_past(n: u8, limit: u8) -> u8
    requires { n < limit }
    ensures { result ≡ one_past limit n }
{
    (n + 1) % limit
}
