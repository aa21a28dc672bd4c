// One call.
ghost use Rattle.cottonsedge.specs.Entries.{Called};

use crate::answer::{not_sound, pack};
use kernel::enter;
use soundness::check::runner;

// The answer, with the tables changed where they stand. Tables that aren't sound are answered 15 and not a byte of them changes, nor at any other refusal.
pub fn cottonsedge_call(tables: &mut [u8], call: u8, a: i32, b: i32) -> u64
    ensures { Called tables.old call a b result tables.new }
{
    if let Some(c) = runner(tables)
        && let Some(bytes) = tables.as_mut_array()
    {
        let told = enter::call(bytes, c, call, a, b);
        pack(told.answer, told.running.into())
    } else {
        not_sound()
    }
}
