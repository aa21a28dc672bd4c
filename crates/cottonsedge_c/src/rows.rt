// The status page, for C.
ghost use Rattle.cottonsedge.specs.Pages.{Paged};

use status::Row;

// A row for each live process, in rising number; the rows behind them, and at a refusal all of them, are left as they were. The tables are lent to be read.
#[unsafe(no_mangle)]
pub extern "C" fn cottonsedge_rows(tables: &[u8], rows: &mut [Row]) -> u64
    ensures { Paged tables.now rows.old result rows.new }
{
    cottonsedge::rows::cottonsedge_rows(tables, rows)
}
