ghost use Rattle.std.specs.Prelude.{◌≡◌, ◌^◌, ◌<◌, ◌≤◌, All, IfOk, OnOk, length};
ghost use Rattle.im_column.specs.Forms.{IsShort};

use crate::values::Cell::{Int, Null, Text};
use crate::values::{Cell, text, values_of};
use Shape::{Coded, Plain, Runs};
use im_column::{Column, Form};
use im_values::{NoMemory, Seen, Value};
use std::alloc::Global;
use std::test::Fail;

/// A form, with the width of its codes or with how many runs there are.
#[derive(Clone, Copy, PartialEq, Eq)]
pub enum Shape {
    Plain,
    Coded(u32),
    Runs(usize),
}

/// Values, each so many times, and the form and the bytes of their column.
///
/// NULL counts for 1 byte, a number for 9, a text of n bytes for 3 + n, a word of codes and a run for 8. Where two forms take the
/// same bytes, plain values come before codes, and codes before runs.
const CASES: [(&[(Cell, u32)], Shape, u64); 23] = [
    (&[], Plain, 0),
    (&[(Null, 1)], Coded(0), 0),
    (&[(Null, 2)], Coded(0), 0),
    (
        &[(Int(10), 1), (Int(20), 1), (Int(30), 1), (Int(50), 1)],
        Plain,
        36,
    ),
    (&[(Int(10), 1), (Int(20), 1), (Int(30), 1)], Plain, 27),
    (&[(Int(30), 1), (Int(20), 1), (Int(10), 1)], Plain, 27),
    (&[(Int(1), 1), (Null, 1), (Int(2), 1)], Plain, 19),
    (&[(Null, 8), (Int(7), 1)], Plain, 17),
    (&[(Null, 9), (Int(7), 1)], Coded(1), 17),
    (&[(Int(7), 64)], Coded(1), 17),
    (&[(Int(7), 65)], Runs(1), 17),
    (&[(Int(7), 100)], Runs(1), 17),
    (&[(Null, 70), (Int(5), 70)], Runs(2), 25),
    (&[(Int(5), 64), (Null, 64)], Coded(1), 25),
    (&[(Text(b"abcde"), 2)], Plain, 16),
    (&[(Text(b"abcdef"), 2)], Coded(1), 17),
    (&[(Text(b""), 3)], Plain, 9),
    (&[(Text(b"ab"), 3)], Coded(1), 13),
    (&[(Text(b"b"), 1), (Int(2), 1), (Null, 1)], Plain, 14),
    (&[(Text(b"2"), 30), (Int(2), 30), (Null, 30)], Coded(2), 37),
    (&[(Text(b"fifteen letters"), 40), (Null, 1)], Coded(1), 26),
    (&[(Int(i64::MIN), 2), (Int(i64::MAX), 3)], Coded(2), 26),
    (&[(Int(i64::MAX), 300), (Int(i64::MIN), 300)], Runs(2), 34),
];

/// The form that a column is kept in.
pub fn shape_of(column: &Column) -> Shape {
    match column.form() {
        Form::Plain(_) => Plain,
        Form::Coded(_, bits) => Coded(bits.width()),
        Form::Runs(_, runs) => Runs(runs.runs().len()),
    }
}

/// A column, at the second try where memory runs out at the first.
fn built(alloc: Global, values: &[Value]) -> Result<Column, NoMemory>
    requires few { length values.now < 2 ^ 31 }
    requires short { All IsShort values.now }
    ensures { IfOk result (λ column. column ≡ values.now) }
{
    if let Ok(column) = Column::build(alloc, values) {
        return Ok(column);
    }
    Column::build(alloc, values)
}

fn sum(values: &[Value]) -> i128 {
    let mut sum = 0i128;
    for value in values {
        if let Seen::Int(number) = value.seen() {
            sum = sum.wrapping_add(i128::from(number));
        }
    }
    sum
}

/// Whether a column has these values, one by one, and the bounds and the sum that a slow program finds.
fn agrees(column: &Column, values: &[Value]) -> bool {
    if column.len() != values.len() as u64 || column.is_empty() != values.is_empty() {
        return false;
    }
    for (i, value) in values.iter().enumerate() {
        if column.get(i as u64) != value {
            return false;
        }
    }
    let bounds = column.bounds();
    let some = |value: &&Value| **value != Value::null();
    bounds.least.as_ref() == values.iter().filter(some).min()
        && bounds.greatest.as_ref() == values.iter().filter(some).max()
        && bounds.nulls == values.iter().filter(|value| !some(value)).count() as u64
        && column.sum() == sum(values)
}

/// Whether the column of these values has this form and these bytes, and the values themselves.
fn is_kept(alloc: Global, values: &[Value], shape: Shape, bytes: u64) -> Result<bool, NoMemory>
    requires { All IsShort values.now }
{
    if values.len() >= 1_000_000 {
        return Ok(false);
    }
    let column = built(alloc, values)?;
    Ok(shape_of(&column) == shape && column.bytes() == bytes && agrees(&column, values))
}

#[test]
fn a_column_is_kept_in_the_form_of_the_least_bytes(rt: HostRuntime) -> Result<(), Fail> {
    for (i, (cells, shape, bytes)) in CASES.iter().enumerate() {
        let values = values_of(rt.alloc(), cells)?;
        assert!(rt;
            is_kept(rt.alloc(), values.as_slice(), *shape, *bytes)?,
            "case {i}"
        );
    }
    Ok(())
}

/// Distinct values: numbers so far apart, or texts of four bytes with numbers between them.
#[derive(Clone, Copy)]
enum Series {
    Numbers(i64),
    Mixed,
}

/// The value of a number in a series, and NULL for 0.
fn nth(alloc: Global, series: Series, number: u32) -> Result<Value, NoMemory>
    ensures { IfOk result IsShort }
{
    match series {
        _ if number == 0 => Ok(Value::null()),
        Series::Numbers(apart) => Ok(Value::int(i64::from(number).wrapping_mul(apart))),
        Series::Mixed if number % 2 == 0 => Ok(Value::int(i64::from(number))),
        Series::Mixed => text(alloc, &number.to_be_bytes()),
    }
}

/// NULL and the first so many values of a series, each three times at least, and no two side by side the same.
fn scattered(alloc: Global, series: Series, count: u32) -> Result<Vec<Value>, NoMemory>
    requires { count < 2 ^ 20 }
    ensures { IfOk result (λ values. All IsShort values.items) }
{
    let mut values = Vec::new(alloc);
    for i in 0..3 * (count + 1) + 64 {
        let number = u64::from(i) * 7919 % u64::from(count + 1);
        values.push(nth(alloc, series, number as u32)?)?;
    }
    Ok(values)
}

/// Whether the column of so many values of a series has codes of this width, and the values themselves.
fn has_width(alloc: Global, series: Series, count: u32, width: u32) -> Result<bool, NoMemory>
    requires { count < 2 ^ 20 }
{
    let values = scattered(alloc, series, count)?;
    if values.len() >= 1_000_000 {
        return Ok(false);
    }
    let column = built(alloc, values.as_slice())?;
    Ok(shape_of(&column) == Coded(width) && agrees(&column, values.as_slice()))
}

#[test]
fn a_column_has_codes_of_the_least_width(rt: HostRuntime) -> Result<(), Fail> {
    for width in 0..15 {
        for count in [(1u32 << width) / 2, (1u32 << width) - 1] {
            for series in [Series::Numbers(-1), Series::Numbers(1 << 40), Series::Mixed] {
                assert!(rt;
                    has_width(rt.alloc(), series, count, width)?,
                    "{count} values"
                );
            }
        }
    }
    Ok(())
}

/// Whether a column lends the values of a list from a place on, and NULL past the last one.
fn lends<'a>(column: &'a Column, values: &[Value], null: &'a Value, first: u64) -> bool {
    if first > column.len() {
        return false;
    }
    let mut lent = [null; 64];
    column.lend_from(first, &mut lent);
    for (k, value) in lent.iter().enumerate() {
        let place = (first as usize).saturating_add(k);
        if *value != values.get(place).unwrap_or(null) {
            return false;
        }
    }
    true
}

/// Whether the column of these values lends them from each place on, the one past the last among them.
fn lends_each(alloc: Global, values: &[Value]) -> Result<bool, NoMemory>
    requires { All IsShort values.now }
{
    if values.len() >= 1_000_000 {
        return Ok(false);
    }
    let column = built(alloc, values)?;
    let null = Value::null();
    for first in 0..column.len() + 1 {
        if !lends(&column, values, &null, first) {
            return Ok(false);
        }
    }
    Ok(true)
}

#[test]
fn a_column_lends_its_values_from_each_place_on(rt: HostRuntime) -> Result<(), Fail> {
    for (i, (cells, _, _)) in CASES.iter().enumerate() {
        let values = values_of(rt.alloc(), cells)?;
        assert!(rt; lends_each(rt.alloc(), values.as_slice())?, "case {i}");
    }
    // Of codes of 3, 10 and 14 bits.
    for count in [6, 1000, 8200] {
        let values = scattered(rt.alloc(), Series::Numbers(-1), count)?;
        assert!(rt;
            lends_each(rt.alloc(), values.as_slice())?,
            "{count} values"
        );
    }
    Ok(())
}

/// In which order the numbers of a list come: 1 and 2 in turn, or so many that rise from 1 and then NULLs.
#[derive(Clone, Copy)]
enum Order {
    InTurn,
    RisingThenNull(u32),
}

/// The number at a place, or 0 for NULL.
fn number_at(order: Order, place: u32) -> u32 {
    match order {
        Order::InTurn => place % 2 + 1,
        Order::RisingThenNull(rising) if place < rising => place.wrapping_add(1),
        Order::RisingThenNull(_) => 0,
    }
}

/// So many numbers and NULLs in an order.
fn ordered(alloc: Global, order: Order, count: u32) -> Result<Vec<Value>, NoMemory>
    ensures { IfOk result (λ values. All IsShort values.items) }
{
    let mut values = Vec::new(alloc);
    for place in 0..count {
        values.push(nth(alloc, Series::Numbers(1), number_at(order, place))?)?;
    }
    Ok(values)
}

/// 128 numbers count for 1,152 bytes, their codes have 8 bits, and 129 runs count for 1,032: as much as so many NULLs.
const ORDERED: [(Order, u32, Shape, u64); 4] = [
    (Order::InTurn, 64, Coded(2), 34),
    (Order::RisingThenNull(128), 1159, Plain, 2183),
    (Order::RisingThenNull(128), 1160, Plain, 2184),
    (Order::RisingThenNull(128), 1161, Runs(129), 2184),
];

#[test]
fn plain_values_come_before_as_many_bytes_of_runs(rt: HostRuntime) -> Result<(), Fail> {
    for (order, count, shape, bytes) in ORDERED {
        let values = ordered(rt.alloc(), order, count)?;
        assert!(rt;
            is_kept(rt.alloc(), values.as_slice(), shape, bytes)?,
            "{count} values"
        );
    }
    Ok(())
}
