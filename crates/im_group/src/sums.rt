ghost use Rattle.std.specs.Prelude.{◌≡◌, ◌+◌, ◌<◌, ◌^◌, [], IfOk, OnOk, length, if◌then◌else◌};
ghost use Rattle.im_syntax.specs.BoundFits.{value_at};
ghost use Rattle.im_values.specs.Order as values;
ghost use Rattle.im_values.specs.declared.content.Content.TheVariants.{Null};
ghost use Rattle.im_group.specs.Sums as spec;
ghost use Rattle.im_group.specs.inner.Narrowing.{narrowed};

use crate::asked::Asked;
use crate::cell::Cell;
use crate::row_value::value_in;
use im_syntax::Function;
use im_values::{NoMemory, RowValues, Seen, Value, order};
use std::alloc::Global;
use std::marker::Model;

/// The summary of the values of a column: how many are not NULL, what the numbers add up to, exactly, in 128 bits, and the
/// least and the greatest, NULL where there is none or none is asked for.
#[derive(Drop)]
pub struct Sums {
    values: u64,
    total: i128,
    least: Value,
    greatest: Value,
}

impl Model for Sums {
    ghost use Rattle.im_group.specs.Sums.{SumsOf, IsWithin};

    ghost Value = { SumsOf };

    ghost view = { λ s. record { values = s.values; total = s.total; least = s.least; greatest = s.greatest } };

    ghost invariant = { λ s. IsWithin s.values s.total };
}

fn is_null(value: &Value) -> bool
    ensures { result ≡ values.is_null value.now }
{
    matches!(value.seen(), Seen::Null)
}

/// Puts a value in the place of the least so far, where that is asked for and it is less.
fn take_lesser(alloc: Global, asked: bool, least: &mut Value, value: &Value) -> Result<(), NoMemory>
    ensures { OnOk result (least.new ≡ (if asked then spec.lesser least.old value.now else least.old)) }
{
    if asked && order(value, least).is_lt() {
        *least = value.copy(alloc)?;
    }
    Ok(())
}

/// Puts a value in the place of the greatest so far, where that is asked for and it is greater and not NULL.
fn take_greater(
    alloc: Global,
    asked: bool,
    greatest: &mut Value,
    value: &Value,
) -> Result<(), NoMemory>
    ensures { OnOk result (greatest.new ≡ (if asked then spec.greater greatest.old value.now else greatest.old)) }
{
    if asked && !is_null(value) && (is_null(greatest) || order(greatest, value).is_lt()) {
        *greatest = value.copy(alloc)?;
    }
    Ok(())
}

fn keep_lesser(least: &mut Value, value: Value)
    ensures { least.new ≡ spec.lesser least.old value }
{
    if order(&value, least).is_lt() {
        *least = value;
    }
}

fn keep_greater(greatest: &mut Value, value: Value)
    ensures { greatest.new ≡ spec.greater greatest.old value }
{
    if !is_null(&value) && (is_null(greatest) || order(greatest, &value).is_lt()) {
        *greatest = value;
    }
}

/// An end where it is asked for, else NULL.
fn end_or_null(alloc: Global, asked: bool, end: &Value) -> Result<Value, NoMemory>
    ensures { IfOk result (λ value. value ≡ (if asked then end.now else Null)) }
{
    if asked {
        end.copy(alloc)
    } else {
        Ok(Value::null())
    }
}

impl Sums {
    /// The summary of no value of a column.
    pub(crate) fn new(_asked: Asked) -> Sums
        ensures { result ≡ spec.sums_of _asked [] }
    {
        Sums::none()
    }

    /// The summary of no value.
    pub fn none() -> Sums
        ensures { result ≡ spec.no_sums }
    {
        Sums {
            values: 0,
            total: 0,
            least: Value::null(),
            greatest: Value::null(),
        }
    }

    /// The summary of so many values that are not NULL, which add up to a total, a text as 0, and of which these are the least
    /// and the greatest: NULL where there is none, and where a query does not ask for that end. It takes no memory.
    pub fn of(values: u64, total: i128, least: Value, greatest: Value) -> Sums
        requires { spec.IsWithin values total }
        ensures { result ≡ record { values = values; total = total; least = least; greatest = greatest } }
    {
        Sums {
            values,
            total,
            least,
            greatest,
        }
    }

    /// The same summary once more.
    pub fn copy(&self, alloc: Global) -> Result<Sums, NoMemory>
        ensures { IfOk result (λ sums. sums ≡ self.now) }
    {
        let least = self.least.copy(alloc)?;
        let greatest = self.greatest.copy(alloc)?;
        Ok(Sums {
            values: self.values,
            total: self.total,
            least,
            greatest,
        })
    }

    /// The same summary without the ends that are not asked for.
    pub(crate) fn narrowed(&self, alloc: Global, asked: Asked) -> Result<Sums, NoMemory>
        ensures { IfOk result (λ sums. sums ≡ narrowed asked self.now) }
    {
        let least = end_or_null(alloc, asked.least, &self.least)?;
        let greatest = end_or_null(alloc, asked.greatest, &self.greatest)?;
        Ok(Sums {
            values: self.values,
            total: self.total,
            least,
            greatest,
        })
    }

    /// Counts a value and adds it up. NULL is neither counted nor added.
    #[inline(always)]
    fn add(&mut self, value: &Value)
        requires { self.old.values + 1 < 2 ^ 64 }
        ensures { self.new ≡ spec.added self.old value.now }
    {
        match value.seen() {
            Seen::Int(number) => {
                self.values += 1;
                self.total += i128::from(number);
            }
            Seen::Text(_) => self.values += 1,
            Seen::Null => {}
        }
    }

    /// Compares a value with the ends that are asked for.
    #[inline(never)]
    fn compare(&mut self, alloc: Global, asked: Asked, value: &Value) -> Result<(), NoMemory>
        ensures { OnOk result (self.new ≡ spec.compared asked self.old value.now) }
    {
        take_lesser(alloc, asked.least, &mut self.least, value)?;
        take_greater(alloc, asked.greatest, &mut self.greatest, value)
    }

    /// Takes the value of one row more. Where memory is out, what the summary is then is not said.
    #[inline(always)]
    pub(crate) fn take(
        &mut self,
        alloc: Global,
        asked: &Asked,
        row: &RowValues<'_>,
    ) -> Result<(), NoMemory>
        requires fits { asked.now.column < length row.now }
        requires few { self.old.values + 1 < 2 ^ 64 }
        ensures { OnOk result (self.new ≡ spec.taken asked.now self.old (value_at row.now asked.now.column)) }
    {
        let value = value_in(row, asked.column);
        self.add(value);
        if asked.least || asked.greatest {
            self.compare(alloc, *asked, value)
        } else {
            Ok(())
        }
    }

    /// Takes what another summary of the same column has taken. It takes no memory.
    pub(crate) fn join(&mut self, other: Sums)
        requires { self.old.values + other.values < 2 ^ 64 }
        ensures { self.new ≡ spec.joined self.old other }
    {
        let Sums {
            values,
            total,
            least,
            greatest,
        } = other;
        self.values += values;
        self.total += total;
        keep_lesser(&mut self.least, least);
        keep_greater(&mut self.greatest, greatest);
    }

    /// The sum of the values: NULL where there is none.
    fn sum(&self) -> Cell
        ensures { result ≡ spec.sum_cell self.now }
    {
        if self.values == 0 {
            Cell::Null
        } else {
            Cell::Int(self.total)
        }
    }

    /// An aggregate, read off the summary.
    pub(crate) fn read(&self, alloc: Global, function: Function) -> Result<Cell, NoMemory>
        ensures { IfOk result (λ cell. cell ≡ spec.reading function self.now) }
    {
        match function {
            Function::Count => Ok(Cell::Int(i128::from(self.values))),
            Function::Sum => Ok(self.sum()),
            Function::Min => Cell::copy_of(alloc, &self.least),
            Function::Max => Cell::copy_of(alloc, &self.greatest),
        }
    }
}
