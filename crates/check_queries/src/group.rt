ghost use Rattle.std.specs.Prelude.{◌≡◌, ◌<◌, ◌^◌, true, length, IfOk};
ghost use Rattle.std.specs.List.{AllByRecursion};
ghost use Rattle.im_values.specs.declared.content.Content.TheVariants.{Int};
ghost use Rattle.im_syntax.specs.BoundFits.{BoundFits};
ghost use Rattle.im_syntax.specs.BoundQuery.{IsQuery};
ghost use Rattle.im_group.specs.Counts.{counted_of, counts_in};
ghost use Rattle.im_group.specs.Partials.{IsPart, keeps};
ghost use Rattle.check_queries.specs.Sample as sample;
ghost use Rattle.check_queries.specs.Sample.{HasCounts};

use im_group::{Asking, Cell, Counted, Partial, Sums};
use im_syntax::{Bound, Function, Item};
use im_values::{List, NoMemory, Row, RowValues, Value};
use std::alloc::Global;
use std::test::Fail;

/// SELECT K, COUNT(*), SUM(V), MIN(V) FROM T GROUP BY K.
fn query(alloc: Global) -> Result<Bound, NoMemory>
    ensures { IfOk result (λ bound. bound ≡ sample.query) }
{
    let items = vec![in alloc;
        Item::Column(0),
        Item::CountAll,
        Item::Aggregate(Function::Sum, 1),
        Item::Aggregate(Function::Min, 1),
    ]?;
    let groups = vec![in alloc; 0]?;
    Ok(Bound {
        table: 0,
        asked: None,
        filter: None,
        items: List::of(items),
        groups: List::of(groups),
        keys: List::of(Vec::new(alloc)),
        grouped: true,
    })
}

/// A row of the columns K and V.
fn row(alloc: Global, key: i64, value: Value) -> Result<Row, NoMemory>
    ensures { IfOk result (λ row. row ≡ sample.row (Int key) value) }
{
    Ok(Row::of(vec![in alloc; Value::int(key), value]?))
}

/// Three rows of two groups.
fn rows(alloc: Global) -> Result<Vec<(u64, Row)>, NoMemory>
    ensures { IfOk result (λ rows. rows.items ≡ sample.rows) }
{
    let first = row(alloc, 2, Value::int(5))?;
    let second = row(alloc, 1, Value::int(7))?;
    let third = row(alloc, 2, Value::null())?;
    Ok(vec![in alloc; (0, first), (1, second), (2, third)]?)
}

/// The counts of a group of so many rows, one of which has a value.
fn counted(alloc: Global, key: u16, rows: u16, value: u16) -> Result<Counted, NoMemory>
    requires { 0 < rows }
    ensures { IfOk result (λ counted. counted_of counted ≡ sample.counted key rows value) }
{
    let number = i64::from(key);
    let total = i128::from(rows) * i128::from(key);
    let of_keys = Sums::of(
        u64::from(rows),
        total,
        Value::int(number),
        Value::int(number),
    );
    let only = i64::from(value);
    let of_values = Sums::of(1, i128::from(value), Value::int(only), Value::int(only));
    Ok(Counted {
        key: vec![in alloc; Value::int(number)]?,
        rows: u64::from(rows),
        sums: vec![in alloc; of_keys, of_values]?,
    })
}

/// The counts of the three rows.
fn counts(alloc: Global) -> Result<Vec<Counted>, NoMemory>
    ensures { IfOk result (λ counts. counts_in counts.items ≡ sample.counts) }
{
    let first = counted(alloc, 1, 1, 7)?;
    let second = counted(alloc, 2, 2, 5)?;
    Ok(vec![in alloc; first, second]?)
}

/// The part that counts give.
fn part_of_counts(alloc: Global, bound: &Bound, counts: &[Counted]) -> Result<Partial, NoMemory>
    requires grouped { bound.now.grouped ≡ true }
    requires counted { HasCounts bound.now (counts_in counts.now) }
    ensures { IfOk result (λ part. IsPart bound.now part) }
{
    Partial::of_counts(alloc, bound, counts)
}

/// The part of some rows and of two more that are known to be kept, of which one is handed over.
fn part_of_kept(
    alloc: Global,
    bound: &Bound,
    front: &[(u64, Row)],
    lent: &Row,
    made: Row,
) -> Result<Partial, NoMemory>
    requires few { length front.now < 2 ^ 31 }
    requires front { AllByRecursion (λ r. BoundFits r.1 bound.now) front.now }
    requires lent { BoundFits lent.now bound.now }
    requires lent_kept { keeps bound.now.filter lent.now ≡ true }
    requires made { BoundFits made bound.now }
    requires made_kept { keeps bound.now.filter made ≡ true }
    ensures { IfOk result (λ part. IsPart bound.now part) }
{
    let asking = Asking::of(alloc, bound)?;
    let mut part = Partial::of_rows(alloc, bound, front)?;
    let values = RowValues::of(lent.values());
    part.take_kept(alloc, &asking, 1, &values)?;
    part.take_made(alloc, &asking, 2, made)?;
    Ok(part)
}

/// Whether the records of a part are these.
fn gives(
    alloc: Global,
    bound: &Bound,
    part: Partial,
    wanted: &[[i128; 4]],
) -> Result<bool, NoMemory>
    requires query { IsQuery bound.now }
    requires part { IsPart bound.now part }
{
    let records = part.finish(alloc, bound)?;
    Ok(are_numbers(records.as_slice(), wanted))
}

/// Whether each record has these numbers.
fn are_numbers(records: &[Vec<Cell>], wanted: &[[i128; 4]]) -> bool {
    if records.len() != wanted.len() {
        return false;
    }
    for (i, record) in records.iter().enumerate() {
        let [a, b, c, d] = wanted[i];
        let numbers = [Cell::Int(a), Cell::Int(b), Cell::Int(c), Cell::Int(d)];
        if record.as_slice() != numbers.as_slice() {
            return false;
        }
    }
    true
}

/// What `SELECT K, COUNT(*), SUM(V), MIN(V) FROM T GROUP BY K` answers over the three rows.
const WANTED: [[i128; 4]; 2] = [[1, 1, 7, 7], [2, 2, 5, 5]];

#[test]
fn rows_counts_and_kept_rows_give_one_answer(rt: HostRuntime) -> Result<(), Fail> {
    let alloc = rt.alloc();
    let bound = query(alloc)?;
    let table = rows(alloc)?;
    let part = Partial::of_rows(alloc, &bound, table.as_slice())?;
    assert!(rt; gives(alloc, &bound, part, &WANTED)?);
    let found = counts(alloc)?;
    let part = part_of_counts(alloc, &bound, found.as_slice())?;
    assert!(rt; gives(alloc, &bound, part, &WANTED)?);
    let third = row(alloc, 2, Value::null())?;
    let part = part_of_kept(
        alloc,
        &bound,
        &table.as_slice()[..1],
        &table.as_slice()[1].1,
        third,
    )?;
    assert!(rt; gives(alloc, &bound, part, &WANTED)?);
    Ok(())
}
