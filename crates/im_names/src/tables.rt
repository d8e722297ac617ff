ghost use Rattle.std.specs.Prelude.{◌≡◌, ◌<◌, length, Some, None, IfOk, IfErr, MatchOption};
ghost use Rattle.std.specs.List.{position_from};
ghost use Rattle.im_history.specs.Tables.{is_named};
ghost use Rattle.im_names.specs.Faults.{IsCause};
ghost use Rattle.im_names.specs.Lookups as spec;
ghost use Rattle.im_names.specs.Lookups.{StandsAt, absent};

use crate::fault::NameFault;
use im_history::{SharedTable, TableInfo};
use im_values::Name;
use std::alloc::Global;

/// The first table of this name, and how many stand before it.
fn find<'a>(tables: &'a [SharedTable], name: &Name) -> Option<(usize, &'a TableInfo)>
    ensures { MatchOption result
        (spec.table_called tables.now name.now ≡ None)
        (λ found. (spec.table_called tables.now name.now ≡ Some found.1.now)
        × (position_from (is_named name.now) 0 tables.now ≡ Some found.0)
        × (found.0 < length tables.now)) }
{
    for (i, table) in tables.iter().enumerate() {
        if name == &table.info().name {
            return Some((i, table.info()));
        }
    }
    None
}

/// The number of the table of this name, from 1 on, and the table.
pub fn table_called<'a>(
    alloc: Global,
    tables: &'a [SharedTable],
    name: &Name,
) -> Result<(u32, &'a TableInfo), NameFault>
    ensures ok { IfOk result (λ found. StandsAt tables.now name.now found.0 found.1.now) }
    ensures err { IfErr result (IsCause (absent (spec.table_called tables.now name.now) name.now)) }
{
    let Some((before, table)) = find(tables, name) else {
        return Err(NameFault::UnknownTable {
            name: name.copy(alloc)?,
        });
    };
    let _count = tables.len();
    match u32::try_from(before + 1) {
        Ok(number) => Ok((number, table)),
        Err(_) => Err(NameFault::NoMemory),
    }
}
