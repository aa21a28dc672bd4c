// The status page.
ghost use Rattle.std.specs.Prelude.{◌≡◌, true, length};
ghost use Rattle.soundness.specs.Good.{good};
ghost use Rattle.cottonsedge.specs.Pages.{Paged, page_answer, rows_after};

use crate::answer::{not_sound, pack};
use layout::offsets::SIZE;
use rules::{Answer, Refusal};
use soundness::check::runner;
use status::Row;
use status::live::live_count;
use status::page::row_from;

// Of sound tables. Row after row, as document 01 names the walk.
fn page_of(bytes: &[u8; SIZE], rows: &mut [Row]) -> Answer
    requires { good bytes.now ≡ true }
    ensures answer { result ≡ page_answer bytes.now (length rows.old) }
    ensures rows { rows.new ≡ rows_after bytes.now rows.old }
{
    let many = live_count(bytes);
    if rows.len() < many as usize {
        return Answer::Refused(Refusal::FewRows.into());
    }
    let mut p = 0u8;
    for row in rows[..many as usize].iter_mut() {
        *row = row_from(bytes, p);
        // The next one is looked for behind it.
        p = row.number + 1;
    }
    Answer::Done(many.into())
}

// A row for each live process, in rising number; the rows behind them, and at a refusal all of them, are left as they were. The tables are lent to be read.
pub fn cottonsedge_rows(tables: &[u8], rows: &mut [Row]) -> u64
    ensures { Paged tables.now rows.old result rows.new }
{
    if let Some(c) = runner(tables)
        && let Some(bytes) = tables.as_array()
    {
        pack(page_of(bytes, rows), c.into())
    } else {
        not_sound()
    }
}
