ghost use Rattle.std.specs.Prelude.{◌≡◌, ◌+◌, ◌<◌, ◌≤◌, All, length, IfOk, OnOk};
ghost use Rattle.std.specs.Option.{ForSome};
ghost use Rattle.im_column.specs.Forms.{IsShort};
ghost use Rattle.im_unit.specs.Holding.{AreShort, HaveWidth};
ghost use Rattle.im_unit.specs.Rebuilt.{RiseWithin, fetched_rows};
ghost use Rattle.check_parts.specs.Fetching.{AreFetched};

use crate::column::shape_of;
use im_column::Column;
use im_history::{LentRow, UnitLike, wide_values};
use im_unit::ColumnUnit;
use im_values::{Name, NoMemory, Row, Seen, Value};
use std::alloc::Global;
use std::test::Fail;

/// A row of one number, or none.
fn row(alloc: Global, number: Option<i64>) -> Result<Option<Row>, Fail>
    ensures width { IfOk result (λ row. ForSome row (λ values. length values ≡ 1)) }
    ensures short { IfOk result (λ row. ForSome row (λ values. All IsShort values)) }
{
    match number {
        Some(number) => {
            let mut values = Vec::new(alloc);
            values.push(Value::int(number))?;
            Ok(Some(Row::of(values)))
        }
        None => Ok(None),
    }
}

/// The number of a row of one.
fn number(row: &Option<Row>) -> Option<i64> {
    match row.as_ref()?.values().first()?.seen() {
        Seen::Int(number) => Some(number),
        _ => None,
    }
}

#[test]
fn a_unit_has_each_row_at_its_row_number(rt: HostRuntime) -> Result<(), Fail> {
    let alloc = rt.alloc();
    let rows = vec![in alloc;
        row(alloc, Some(7))?,
        row(alloc, None)?,
        row(alloc, Some(-3))?,
    ]?;
    let unit = ColumnUnit::build(alloc, 5, 64, 1, rows.as_slice())?;
    assert!(rt; unit.scn() == 5 && unit.first() == 64 && unit.columns().len() == 1);
    assert!(rt; unit.present() == 2 && unit.rows(alloc)?.len() == 3);
    assert!(rt; unit.column(0).len() == 2 && unit.bytes() == 26);
    for (rid, wanted) in [
        (63, None),
        (64, Some(7)),
        (65, None),
        (66, Some(-3)),
        (67, None),
    ] {
        assert!(rt; number(&unit.get(alloc, rid)?) == wanted);
    }
    Ok(())
}

/// How many row numbers the extent of a mixed table has.
const EXTENT: u64 = 200;

/// A value of a mixed table: a number, a text or NULL.
fn mixed(alloc: Global, number: u64) -> Result<Value, NoMemory>
    ensures { IfOk result IsShort }
{
    match number % 5 {
        0 => Ok(Value::null()),
        1 => Ok(Value::text(Name::of(alloc, b"a text of more than 14 bytes")?)),
        2 => Ok(Value::text(Name::of(alloc, &number.to_be_bytes())?)),
        _ => Ok(Value::int((number % 1000) as i64)),
    }
}

/// A row of a mixed table, or none at each seventh row number.
fn mixed_row(alloc: Global, place: u64) -> Result<Option<Row>, NoMemory>
    ensures width { IfOk result (λ row. ForSome row (λ values. length values ≡ 3)) }
    ensures short { IfOk result (λ row. ForSome row (λ values. All IsShort values)) }
{
    if place % 7 == 3 {
        return Ok(None);
    }
    let mut values = Vec::new(alloc);
    values.push(mixed(alloc, place / 40)?)?;
    values.push(mixed(alloc, place.wrapping_mul(37) % 11)?)?;
    values.push(mixed(alloc, place.wrapping_mul(997))?)?;
    Ok(Some(Row::of(values)))
}

/// The rows of an extent of a mixed table.
fn mixed_rows(alloc: Global) -> Result<Vec<Option<Row>>, NoMemory>
    ensures width { IfOk result (λ rows. HaveWidth 3 rows.items) }
    ensures short { IfOk result (λ rows. AreShort rows.items) }
    ensures few { IfOk result (λ rows. length rows.items ≤ EXTENT) }
{
    let mut rows = Vec::new(alloc);
    for place in 0..EXTENT {
        rows.push(mixed_row(alloc, place)?)?;
    }
    Ok(rows)
}

/// Whether both are no row, or rows of the same values.
fn is_same(a: &Option<Row>, b: &Option<Row>) -> bool {
    match (a, b) {
        (Some(a), Some(b)) => a.values() == b.values(),
        (None, None) => true,
        _ => false,
    }
}

#[test]
fn a_unit_gives_back_the_rows_of_a_mixed_table(rt: HostRuntime) -> Result<(), Fail> {
    let alloc = rt.alloc();
    let rows = mixed_rows(alloc)?;
    let unit = ColumnUnit::build(alloc, 9, 1000, 3, rows.as_slice())?;
    let back = unit.rows(alloc)?;
    assert!(rt; rows.len() == 200 && back.len() == 200 && unit.present() == 171);
    for (place, (row, again)) in rows.iter().zip(back.iter()).enumerate() {
        assert!(rt; is_same(row, again), "place {place}");
        let read = unit.get(alloc, 1000 + place as u64)?;
        assert!(rt; is_same(row, &read), "place {place}");
    }
    Ok(())
}

/// A row of the same table behind changes: where a step divides its place, the row of another place, or none, and else the old one.
fn changed_row(alloc: Global, place: u64, step: u64, shift: u64) -> Result<Option<Row>, NoMemory>
    ensures width { IfOk result (λ row. ForSome row (λ values. length values ≡ 3)) }
    ensures short { IfOk result (λ row. ForSome row (λ values. All IsShort values)) }
{
    if is_changed(place, step) {
        mixed_row(alloc, place.wrapping_add(shift))
    } else {
        mixed_row(alloc, place)
    }
}

/// Whether a row number is among those that were changed.
fn is_changed(place: u64, step: u64) -> bool {
    step != 0 && place % step == 0
}

/// The rows of the extent behind changes.
fn changed_rows(alloc: Global, step: u64, shift: u64) -> Result<Vec<Option<Row>>, NoMemory>
    ensures width { IfOk result (λ rows. HaveWidth 3 rows.items) }
    ensures short { IfOk result (λ rows. AreShort rows.items) }
    ensures many { IfOk result (λ rows. length rows.items ≡ EXTENT) }
{
    let mut rows = Vec::new(alloc);
    for place in 0..EXTENT {
        rows.push(changed_row(alloc, place, step, shift)?)?;
    }
    Ok(rows)
}

/// Puts a row that was fetched behind others, where its row number was changed.
fn put_changed<'a>(
    fetched: &mut Vec<LentRow<'a>>,
    place: u64,
    step: u64,
    row: &'a Option<Row>,
) -> Result<(), NoMemory>
    requires place { place < EXTENT }
    requires width { ForSome row.now (λ values. length values ≡ 3) }
    requires short { ForSome row.now (λ values. All IsShort values) }
    requires before { AreFetched fetched.old.items place }
    ensures { OnOk result (AreFetched fetched.new.items (place + 1)) }
{
    if is_changed(place, step) {
        fetched.push((1000 + place, wide_values(row, &[])))?;
    }
    Ok(())
}

/// What was fetched of the row numbers that were changed.
fn fetched_of(alloc: Global, step: u64, rows: &[Option<Row>]) -> Result<Vec<LentRow<'_>>, NoMemory>
    requires width { HaveWidth 3 rows.now }
    requires short { AreShort rows.now }
    requires many { length rows.now ≡ EXTENT }
    ensures { IfOk result (λ fetched. AreFetched fetched.items EXTENT) }
{
    let mut fetched = Vec::new(alloc);
    for i in 0..rows.len() {
        put_changed(&mut fetched, i as u64, step, &rows[i])?;
    }
    Ok(fetched)
}

/// Whether two columns are kept in one form, and take as many bytes.
fn is_kept_as(a: &Column, b: &Column) -> bool {
    shape_of(a) == shape_of(b) && a.bytes() == b.bytes() && a.sum() == b.sum() && a.len() == b.len()
}

/// A step, and how far away the row stands that comes to each place that it divides: none is changed, a row stays as it is, rows are
/// deleted, come back, and change few and all columns.
const CHANGES: [(u64, u64); 12] = [
    (0, 0),
    (1, 0),
    (1, 1),
    (1, 77),
    (2, 5),
    (3, 40),
    (5, 200),
    (7, 3),
    (7, 7),
    (7, 385),
    (64, 1),
    (199, 11),
];

#[test]
fn a_unit_built_anew_is_the_one_built_of_its_rows(rt: HostRuntime) -> Result<(), Fail> {
    let alloc = rt.alloc();
    let rows = changed_rows(alloc, 0, 0)?;
    let old = ColumnUnit::build(alloc, 9, 1000, 3, rows.as_slice())?;
    for (step, shift) in CHANGES {
        let rows = changed_rows(alloc, step, shift)?;
        let built = ColumnUnit::build(alloc, 12, 1000, 3, rows.as_slice())?;
        let fetched = fetched_of(alloc, step, rows.as_slice())?;
        let unit = ColumnUnit::rebuild(alloc, &old, 12, fetched.as_slice())?;
        assert!(rt; is_built_as(alloc, &unit, &built)?, "{step} {shift}");
    }
    Ok(())
}

/// Whether two units have the same rows, in columns of the same forms.
fn is_built_as(alloc: Global, a: &ColumnUnit, b: &ColumnUnit) -> Result<bool, NoMemory> {
    if a.scn() != b.scn() || a.first() != b.first() || a.present() != b.present() {
        return Ok(false);
    }
    if a.bytes() != b.bytes() || a.columns().len() != b.columns().len() {
        return Ok(false);
    }
    for (one, other) in a.columns().iter().zip(b.columns().iter()) {
        if !is_kept_as(one, other) {
            return Ok(false);
        }
    }
    let ours = a.rows(alloc)?;
    let theirs = b.rows(alloc)?;
    for (one, other) in ours.iter().zip(theirs.iter()) {
        if !is_same(one, other) {
            return Ok(false);
        }
    }
    Ok(ours.len() == theirs.len())
}
