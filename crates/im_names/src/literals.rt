ghost use Rattle.std.specs.Prelude.{◌≡◌, IfOk, OnOk, IfErr, None};
ghost use Rattle.im_names.specs.Faults.{IsCause};
ghost use Rattle.im_names.specs.Literals as spec;
ghost use Rattle.im_names.specs.inner.FittingLiterals as fitting;

use crate::fault::NameFault;
use im_syntax::Lit;
use im_values::{Column, Kind, NoMemory, Value};
use std::alloc::Global;

/// The value of a literal: `''` is NULL.
pub fn value_of(alloc: Global, lit: &Lit) -> Result<Value, NoMemory>
    ensures { IfOk result (λ value. value ≡ spec.value_of lit.now) }
{
    match lit {
        Lit::Null => Ok(Value::null()),
        Lit::Int(number) => Ok(Value::int(*number)),
        Lit::Text(text) if text.bytes().is_empty() => Ok(Value::null()),
        Lit::Text(text) => Ok(Value::text(text.copy(alloc)?)),
    }
}

/// The default of a column: NULL where none is written.
pub fn default_of(alloc: Global, default: &Option<Lit>) -> Result<Value, NoMemory>
    ensures { IfOk result (λ value. value ≡ spec.default_of default.now) }
{
    match default {
        Some(lit) => value_of(alloc, lit),
        None => Ok(Value::null()),
    }
}

/// Whether a literal is of the other kind than a column.
fn is_other(kind: Kind, lit: &Lit) -> bool
    ensures { result ≡ spec.is_other kind (spec.value_of lit.now) }
{
    match (kind, lit) {
        (Kind::Int, Lit::Text(text)) => !text.bytes().is_empty(),
        (Kind::Text(_), Lit::Int(_)) => true,
        (Kind::Int, Lit::Int(_) | Lit::Null) | (Kind::Text(_), Lit::Text(_) | Lit::Null) => false,
    }
}

/// A literal that may be compared with a column.
pub fn check_compared(alloc: Global, column: &Column, lit: &Lit) -> Result<(), NameFault>
    ensures ok { OnOk result (spec.compared (spec.value_of lit.now) column.now ≡ None) }
    ensures err { IfErr result (IsCause (spec.compared (spec.value_of lit.now) column.now)) }
{
    if is_other(column.kind, lit) {
        Err(NameFault::WrongKind {
            column: column.name.copy(alloc)?,
        })
    } else {
        Ok(())
    }
}

/// A literal that is not too long for a column.
fn check_length(alloc: Global, column: &Column, lit: &Lit) -> Result<(), NameFault>
    ensures ok { OnOk result (spec.too_long column.now.name column.now.kind (spec.value_of lit.now) ≡ None) }
    ensures err { IfErr result (IsCause (spec.too_long column.now.name column.now.kind (spec.value_of lit.now))) }
{
    match (column.kind, lit) {
        (Kind::Text(limit), Lit::Text(text)) if text.bytes().len() > usize::from(limit) => {
            Err(NameFault::TooLong {
                column: column.name.copy(alloc)?,
                length: text.bytes().len() as u64,
                limit: u64::from(limit),
            })
        }
        (Kind::Text(_), Lit::Text(_) | Lit::Int(_) | Lit::Null) | (Kind::Int, _) => Ok(()),
    }
}

/// What is wrong with a literal for a column, if anything is.
#[inline(never)]
fn check_kind_and_length(alloc: Global, column: &Column, lit: &Lit) -> Result<(), NameFault>
    ensures ok { OnOk result (spec.stored (spec.value_of lit.now) column.now ≡ None) }
    ensures err { IfErr result (IsCause (spec.stored (spec.value_of lit.now) column.now)) }
{
    check_compared(alloc, column, lit)?;
    check_length(alloc, column, lit)
}

/// Whether a literal fits a column of a kind.
fn fits(kind: Kind, lit: &Lit) -> bool
    ensures { result ≡ fitting.literal_fits kind lit.now }
{
    match (kind, lit) {
        (Kind::Int, Lit::Int(_) | Lit::Null) | (Kind::Text(_), Lit::Null) => true,
        (Kind::Text(limit), Lit::Text(text)) => text.bytes().len() <= usize::from(limit),
        (Kind::Int, Lit::Text(_)) | (Kind::Text(_), Lit::Int(_)) => false,
    }
}

/// A literal that a column may hold. Most fit, and are told by one test.
#[tactic(auto, using(crate::proofs::Fitting::fits_stored))]
pub fn check_stored(alloc: Global, column: &Column, lit: &Lit) -> Result<(), NameFault>
    ensures ok { OnOk result (spec.stored (spec.value_of lit.now) column.now ≡ None) }
    ensures err { IfErr result (IsCause (spec.stored (spec.value_of lit.now) column.now)) }
{
    if fits(column.kind, lit) {
        return Ok(());
    }
    check_kind_and_length(alloc, column, lit)
}

/// A default that its column may hold.
#[tactic(auto, using(crate::proofs::Fitting::null_stored))]
pub fn check_default(alloc: Global, column: &Column, default: &Option<Lit>) -> Result<(), NameFault>
    ensures ok { OnOk result (spec.stored (spec.default_of default.now) column.now ≡ None) }
    ensures err { IfErr result (IsCause (spec.stored (spec.default_of default.now) column.now)) }
{
    match default {
        Some(lit) => check_stored(alloc, column, lit),
        None => Ok(()),
    }
}

/// A column that may be added up.
pub fn check_summed(alloc: Global, column: &Column) -> Result<(), NameFault>
    ensures ok { OnOk result (spec.summed column.now ≡ None) }
    ensures err { IfErr result (IsCause (spec.summed column.now)) }
{
    match column.kind {
        Kind::Int => Ok(()),
        Kind::Text(_) => Err(NameFault::WrongKind {
            column: column.name.copy(alloc)?,
        }),
    }
}
