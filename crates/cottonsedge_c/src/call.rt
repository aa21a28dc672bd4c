// One call, for C.
ghost use Rattle.cottonsedge.specs.Entries.{Called};

// The answer, with the tables changed where they stand. Tables that aren't sound are answered 15 and not a byte of them changes, nor at any other refusal.
#[unsafe(no_mangle)]
pub extern "C" fn cottonsedge_call(tables: &mut [u8], call: u8, a: i32, b: i32) -> u64
    ensures { Called tables.old call a b result tables.new }
{
    cottonsedge::call::cottonsedge_call(tables, call, a, b)
}
