ghost use Rattle.std.specs.Prelude.{◌≡◌, OnOk, max};

use im_journal::Journal;
use std::alloc::Global;
use std::test::Fail;

/// Whether these are the rows that are stale at an SCN.
fn is_stale_at(alloc: Global, journal: &Journal, scn: u64, expected: &[u64]) -> Result<bool, Fail> {
    Ok(journal.stale_at(alloc, scn)?.as_slice() == expected)
}

/// Makes room for so many notes, at the second try where memory runs out at the first.
///
/// It answers whether these rows are stale after the first try.
fn reserve_twice(
    alloc: Global,
    journal: &mut Journal,
    room: u64,
    stale: &[u64],
) -> Result<bool, Fail>
    ensures { OnOk result (journal.new ≡ record journal.old { spare = max journal.old.spare room }) }
{
    let lacks = journal.reserve(room).is_err();
    let is_as_before = journal.stale_count() == stale.len() as u64
        && is_stale_at(alloc, journal, u64::MAX, stale)?;
    if lacks {
        journal.reserve(room)?;
    }
    Ok(is_as_before)
}

#[test]
fn a_journal_that_lacks_memory_for_notes_has_the_stale_rows_that_it_had(
    rt: HostRuntime,
) -> Result<(), Fail> {
    let alloc = rt.alloc();
    let mut journal = Journal::new(alloc);
    assert!(rt; reserve_twice(alloc, &mut journal, 2, &[])?);
    journal.note(7, 3);
    journal.note(5, 3);
    assert!(rt; reserve_twice(alloc, &mut journal, 4, &[5, 7])?);
    journal.note(6, 4);
    journal.note(7, 6);
    journal.note(2, 6);
    assert!(rt; reserve_twice(alloc, &mut journal, 40, &[2, 5, 6, 7])?);
    journal.note(1, 8);
    assert!(rt; reserve_twice(alloc, &mut journal, 4000, &[1, 2, 5, 6, 7])?);
    assert!(rt; is_stale_at(alloc, &journal, 3, &[5, 7])?);
    Ok(())
}

#[test]
fn stale_rows_that_lack_memory_are_read_at_the_second_try(rt: HostRuntime) -> Result<(), Fail> {
    let alloc = rt.alloc();
    let mut journal = Journal::new(alloc);
    journal.reserve(2)?;
    journal.note(7, 3);
    journal.note(5, 4);
    drop(journal.stale_at(alloc, 4));
    assert!(rt; journal.stale_count() == 2);
    assert!(rt;
        is_stale_at(alloc, &journal, 3, &[7])? && is_stale_at(alloc, &journal, 4, &[5, 7])?
    );
    Ok(())
}
