ghost use Rattle.std.specs.Prelude.{OnOk, map};
ghost use Rattle.im_text.specs.Cells.{row_record};
ghost use Rattle.im_text.specs.inner.Pages.{IsBetween, Puts};

use crate::page::Page;
use im_replies::Records;
use im_values::NoMemory;

/// Puts the records of an answer.
pub fn put_rows(page: &mut Page, records: &Records) -> Result<(), NoMemory>
    requires { IsBetween page.old }
    ensures { OnOk result (Puts page.old page.new (map row_record records.now)) }
{
    for cells in records.records() {
        page.put_row(cells.as_slice())?;
    }
    Ok(())
}
