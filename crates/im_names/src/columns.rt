ghost use Rattle.std.specs.Prelude.{◌≡◌, ◌<◌, ◌≤◌, List, ℕ, length, map, None, OnOk, IfErr, IfSome};
ghost use Rattle.im_values.specs.declared.limits.TheConstants.{MOST_COLUMNS};
ghost use Rattle.im_names.specs.Faults.{IsCause};
ghost use Rattle.im_names.specs.Lookups as lookup;

use crate::fault::NameFault;
use im_syntax::{ColumnPart, Lit};
use im_values::{Name, Schema};
use std::alloc::Global;

/// A part of a statement that has the name of a column.
pub trait Named {
    ghost named: { Self → List ℕ };

    fn name(&self) -> &Name
        ensures { result.now ≡ named self.now };
}

impl Named for Name {
    ghost named = { λ n. n };

    fn name(&self) -> &Name {
        self
    }
}

impl Named for (Name, Lit) {
    ghost named = { λ s. s.0 };

    fn name(&self) -> &Name {
        &self.0
    }
}

impl Named for ColumnPart {
    ghost named = { λ c. c.name };

    fn name(&self) -> &Name {
        &self.name
    }
}

/// How many columns there are.
pub fn width_of(schema: &Schema) -> u32
    ensures width { result ≡ length schema.now }
    ensures some { 1 ≤ result }
    ensures few { result ≤ MOST_COLUMNS }
{
    schema.columns().len() as u32
}

/// The number of the column of this name, from 0 on.
pub fn column_called(schema: &Schema, name: &Name) -> Option<u32>
    ensures number { result ≡ lookup.column_called schema.now name.now }
    ensures in_range { IfSome result (λ number. number < length schema.now) }
{
    let mut number = 0;
    for column in schema.columns() {
        if name == &column.name {
            return Some(number);
        }
        number += 1;
    }
    None
}

/// The number of the column of this name, or 0 where the table has none: whoever asks has checked the name.
pub fn number_of(schema: &Schema, name: &Name) -> u32
    ensures number { result ≡ lookup.number_of schema.now name.now }
    ensures in_range { result < length schema.now }
{
    let _columns = schema.columns();
    column_called(schema, name).unwrap_or(0)
}

/// A name that the table has a column of.
pub fn check_known(alloc: Global, schema: &Schema, name: &Name) -> Result<(), NameFault>
    ensures ok { OnOk result (lookup.unknown schema.now name.now ≡ None) }
    ensures err { IfErr result (IsCause (lookup.unknown schema.now name.now)) }
{
    match column_called(schema, name) {
        Some(_) => Ok(()),
        None => Err(NameFault::UnknownColumn {
            name: name.copy(alloc)?,
        }),
    }
}

/// Names that the table has columns of.
pub fn check_all_known(alloc: Global, schema: &Schema, names: &[Name]) -> Result<(), NameFault>
    ensures ok { OnOk result (lookup.unknown_fault schema.now names.now ≡ None) }
    ensures err { IfErr result (IsCause (lookup.unknown_fault schema.now names.now)) }
{
    for name in names {
        check_known(alloc, schema, name)?;
    }
    Ok(())
}

/// A name that the table has no column of.
pub fn check_not_standing(alloc: Global, schema: &Schema, name: &Name) -> Result<(), NameFault>
    ensures ok { OnOk result (lookup.standing schema.now name.now ≡ None) }
    ensures err { IfErr result (IsCause (lookup.standing schema.now name.now)) }
{
    match column_called(schema, name) {
        Some(_) => Err(NameFault::RepeatedColumn {
            name: name.copy(alloc)?,
        }),
        None => Ok(()),
    }
}

fn is_among<T: Named>(others: &[T], name: &Name) -> bool
    ensures { result ≡ lookup.is_among (map T.named others.now) name.now }
{
    for other in others {
        if other.name() == name {
            return true;
        }
    }
    false
}

/// A name that does not stand among those before it.
fn check_new<T: Named>(alloc: Global, earlier: &[T], name: &Name) -> Result<(), NameFault>
    ensures ok { OnOk result (lookup.repeated (map T.named earlier.now) name.now ≡ None) }
    ensures err { IfErr result (IsCause (lookup.repeated (map T.named earlier.now) name.now)) }
{
    if is_among(earlier, name) {
        Err(NameFault::RepeatedColumn {
            name: name.copy(alloc)?,
        })
    } else {
        Ok(())
    }
}

/// Names of which none stands twice.
pub fn check_distinct<T: Named>(alloc: Global, listed: &[T]) -> Result<(), NameFault>
    ensures ok { OnOk result (lookup.repeated_fault (map T.named listed.now) ≡ None) }
    ensures err { IfErr result (IsCause (lookup.repeated_fault (map T.named listed.now))) }
{
    for (i, part) in listed.iter().enumerate() {
        check_new(alloc, &listed[..i], part.name())?;
    }
    Ok(())
}

fn check_place<T: Named>(
    alloc: Global,
    schema: &Schema,
    earlier: &[T],
    name: &Name,
) -> Result<(), NameFault>
    ensures ok { OnOk result (lookup.misplaced schema.now (map T.named earlier.now) name.now ≡ None) }
    ensures err { IfErr result (IsCause (lookup.misplaced schema.now (map T.named earlier.now) name.now)) }
{
    check_known(alloc, schema, name)?;
    check_new(alloc, earlier, name)
}

/// Names that the table has columns of, none of which stands twice.
pub fn check_listed<T: Named>(alloc: Global, schema: &Schema, listed: &[T]) -> Result<(), NameFault>
    ensures ok { OnOk result (lookup.listed_fault schema.now (map T.named listed.now) ≡ None) }
    ensures err { IfErr result (IsCause (lookup.listed_fault schema.now (map T.named listed.now))) }
{
    for (i, part) in listed.iter().enumerate() {
        check_place(alloc, schema, &listed[..i], part.name())?;
    }
    Ok(())
}
