// Whether lent bytes are sound tables, for C.
ghost use Rattle.std.specs.Prelude.{◌≡◌};
ghost use Rattle.cottonsedge.specs.Entries.{check_answer};

// 0, or 15 if the tables lent aren't sound, or are too short or too long.
#[unsafe(no_mangle)]
pub extern "C" fn cottonsedge_check(tables: &[u8]) -> u8
    ensures { result ≡ check_answer tables.now }
{
    cottonsedge::check::cottonsedge_check(tables)
}
