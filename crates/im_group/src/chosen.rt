ghost use Rattle.std.specs.Prelude.{◌≡◌, ◌<◌, ◌^◌, OnOk, filter, length, map};
ghost use Rattle.std.specs.List.{AllByRecursion};
ghost use Rattle.im_syntax.specs.BoundFits.{BoundFits};
ghost use Rattle.im_group.specs.Partials as group;
ghost use Rattle.im_group.specs.inner.Chosen.{at_bits, share_of, with_rows, CanTakeEach, HasSeen};
ghost use Rattle.im_group.specs.inner.Holding.{asked_by, own};

use crate::asked::Asked;
use crate::asking::Asking;
use crate::grouping::{Groups, Room, take_grouped};
use im_lanes::Mask;
use im_values::{NoMemory, WideRun};
use std::alloc::Global;

/// What is looked at in each row: the columns of its key, and those that are asked.
#[derive(Clone, Copy)]
struct Seen<'a> {
    columns: &'a [u32],
    asked: &'a [Asked],
}

/// The groups take the rows at the bits of a word, of which the lowest is that of the row at `first`.
#[inline(always)]
fn take_bits(
    alloc: Global,
    seen: Seen<'_>,
    rows: &WideRun<'_>,
    first: usize,
    word: u64,
    room: &mut Room,
    groups: &mut Groups,
) -> Result<(), NoMemory>
    requires seen { AllByRecursion (HasSeen seen.columns.now seen.asked.now) rows.now }
    requires rows { length rows.now < 2 ^ 31 }
    requires word { word < 2 ^ length (share_of rows.now first) }
    requires few { CanTakeEach seen.columns.now seen.asked.now (own groups.old.entries) (at_bits word (share_of rows.now first)) }
    ensures { OnOk result (own groups.new.entries ≡ with_rows seen.entry.columns.now seen.entry.asked.now (own groups.old.entries) (at_bits word (share_of rows.now first))) }
{
    let mut rest = word;
    while rest != 0 {
        let row = rows.values(first + rest.trailing_zeros() as usize);
        take_grouped(alloc, seen.columns, seen.asked, &row, room, groups)?;
        rest &= rest - 1;
    }
    Ok(())
}

/// The same. Where there is one column of each kind it is seen at once, so that no loop goes over them.
fn take_word(
    alloc: Global,
    seen: Seen<'_>,
    rows: &WideRun<'_>,
    first: usize,
    word: u64,
    room: &mut Room,
    groups: &mut Groups,
) -> Result<(), NoMemory>
    requires seen { AllByRecursion (HasSeen seen.columns.now seen.asked.now) rows.now }
    requires rows { length rows.now < 2 ^ 31 }
    requires word { word < 2 ^ length (share_of rows.now first) }
    requires few { CanTakeEach seen.columns.now seen.asked.now (own groups.old.entries) (at_bits word (share_of rows.now first)) }
    ensures { OnOk result (own groups.new.entries ≡ with_rows seen.entry.columns.now seen.entry.asked.now (own groups.old.entries) (at_bits word (share_of rows.now first))) }
{
    if seen.columns.len() == 1 && seen.asked.len() == 1 {
        let one = Seen {
            columns: &seen.columns[..1],
            asked: &seen.asked[..1],
        };
        take_bits(alloc, one, rows, first, word, room, groups)
    } else {
        take_bits(alloc, seen, rows, first, word, room, groups)
    }
}

/// The groups take those rows of a run that a mask chooses.
pub fn take_run(
    alloc: Global,
    asking: &Asking<'_>,
    rows: &WideRun<'_>,
    mask: &Mask,
    room: &mut Room,
    groups: &mut Groups,
) -> Result<(), NoMemory>
    requires mask { mask.now ≡ map (group.keeps asking.now.filter) rows.now }
    requires fits { AllByRecursion (λ row. BoundFits row asking.now) rows.now }
    requires few { CanTakeEach asking.now.groups (asked_by asking.now) (own groups.old.entries) (filter (group.keeps asking.now.filter) rows.now) }
    ensures { OnOk result (own groups.new.entries ≡
        with_rows asking.now.groups (asked_by asking.now) (own groups.old.entries) (filter (group.keeps asking.now.filter) rows.now)) }
{
    let seen = Seen {
        columns: asking.bound().groups.items(),
        asked: asking.asked(),
    };
    let words = mask.words();
    for place in 0..words.len() {
        take_word(alloc, seen, rows, place * 64, words[place], room, groups)?;
    }
    Ok(())
}
