// The boot tables, for C.
ghost use Rattle.std.specs.Prelude.{◌≡◌};
ghost use Rattle.cottonsedge.specs.Entries.{boot_answer, booted};

// 0 with the boot tables written, or 15 with nothing written if the length is wrong.
#[unsafe(no_mangle)]
pub extern "C" fn cottonsedge_boot(tables: &mut [u8]) -> u8
    ensures { (result ≡ boot_answer tables.old) × (tables.new ≡ booted tables.old) }
{
    cottonsedge::boot::cottonsedge_boot(tables)
}
