ghost use Rattle.std.specs.Prelude.{◌≡◌, ◌+◌, ◌^◌, ◌≤◌, ◌++◌, ◌==◌, All, length, map, take, IfOk, OnOk, Some};
ghost use Rattle.std.specs.Option.{option_map};
ghost use Rattle.im_values.specs.Widened.{widened};
ghost use Rattle.im_history.specs.Fetched as spec;

use crate::fetched::{Fetched, Piece};
use im_values::{NoMemory, Row, RowValues, Rows, Value, WideRun, widen};
use std::alloc::Global;
use std::marker::Model;

/// A row number with the values of its row, lent, or none.
pub type LentRow<'a> = (u64, Option<RowValues<'a>>);

/// What was read of row numbers, as a reader of so many columns of a table shows it: of each the row, or none, with the defaults of the
/// columns that the table got since the row was written.
///
/// Contracts see the list. The rows are kept as they were written, and the defaults once.
#[derive(Drop)]
pub struct ShownRows {
    fetched: Fetched,
    defaults: Row,
    columns: usize,
}

impl Model for ShownRows {
    ghost use Rattle.std.specs.Prelude.{List, ℕ, Option, take};
    ghost use Rattle.im_values.specs.declared.content.Content.{Content as AnyValue};

    ghost Value = { List (ℕ × Option (List AnyValue)) };

    ghost use Rattle.im_history.specs.Fetched.{all_widened};

    ghost view = { λ s. all_widened (take s.columns s.defaults) s.fetched };
}

/// The rows that are shown, as they lie: in pieces as they were written, and the defaults that each has from its length on.
#[derive(Clone, Copy)]
pub struct Lying<'a> {
    /// The pieces, in order.
    pub pieces: &'a [Piece],
    /// The defaults.
    pub defaults: &'a [Value],
}

impl ShownRows {
    /// What was read, as a reader of so many columns shows it, of a table with these defaults. It takes no memory.
    pub fn of(fetched: Fetched, defaults: Row, columns: usize) -> ShownRows
        ensures { result ≡ spec.all_widened (take columns defaults) fetched }
    {
        ShownRows {
            fetched,
            defaults,
            columns,
        }
    }

    /// How many row numbers there are.
    pub fn len(&self) -> u64
        ensures { result ≡ length self.now }
    {
        self.fetched.len()
    }

    /// Whether there is none.
    pub fn is_empty(&self) -> bool
        ensures { result ≡ (length self.now == 0) }
    {
        self.len() == 0
    }

    /// The rows as they lie. It takes no memory.
    pub fn lying(&self) -> Lying<'_>
        ensures rows { spec.all_widened result.defaults.now (spec.in_pieces result.pieces.now) ≡ self.now }
        ensures numbers { All spec.HasNumbers result.pieces.now }
    {
        Lying {
            pieces: self.fetched.pieces(),
            defaults: first_of(self.defaults.values(), self.columns),
        }
    }

    /// Each row number with the values of its row, or none: no row is shared or copied. It costs a place for each.
    pub fn lent(&self, alloc: Global) -> Result<Vec<LentRow<'_>>, NoMemory>
        ensures { IfOk result (λ rows. rows.items ≡ self.now) }
    {
        let Lying { pieces, defaults } = self.lying();
        let mut rows = Vec::with_capacity(alloc, self.len() as usize)?;
        for piece in pieces {
            lend_piece(&mut rows, piece, defaults)?;
        }
        Ok(rows)
    }

    /// The rows, or none, without their numbers. A row that was kept with others is shared, or copied where it lacks columns; it is
    /// refused where as many share one as can.
    pub fn into_rows(self, alloc: Global) -> Result<Vec<Option<Row>>, NoMemory>
        ensures { IfOk result (λ rows. rows.items ≡ map (λ found. found.1) self) }
    {
        let ShownRows {
            fetched,
            defaults,
            columns,
        } = self;
        rows_in(
            alloc,
            fetched.into_pieces(),
            first_of(defaults.values(), columns),
        )
    }
}

/// The first so many values, or all where there are no more.
fn first_of(values: &[Value], count: usize) -> &[Value]
    ensures { result.now ≡ take count values.now }
{
    &values[..count.min(values.len())]
}

/// The values of a row, or none, lent, with these defaults from its length on.
pub fn wide_values<'a>(row: &'a Option<Row>, defaults: &'a [Value]) -> Option<RowValues<'a>>
    ensures { result ≡ option_map (widened defaults.now) row.now }
{
    match row {
        Some(row) => Some(RowValues::with(row.values(), defaults)),
        None => None,
    }
}

/// Puts the rows of a piece behind others, lent, each with these defaults from its length on.
fn lend_piece<'a>(
    rows: &mut Vec<LentRow<'a>>,
    piece: &'a Piece,
    defaults: &'a [Value],
) -> Result<(), NoMemory>
    requires { spec.HasNumbers piece.now }
    ensures { OnOk result (rows.new.items ≡ rows.old.items ++ spec.all_widened defaults.now (spec.in_piece piece.now)) }
{
    match piece {
        Piece::Run(first, run) => lend_run(rows, *first, &WideRun::of(run, defaults)),
        Piece::Each(rids, run) => lend_each(rows, rids.as_slice(), &WideRun::of(run, defaults)),
        Piece::One(rid, row) => {
            rows.push((*rid, wide_values(row, defaults)))?;
            Ok(())
        }
    }
}

/// Puts the rows of a run behind others, lent.
fn lend_run<'a>(rows: &mut Vec<LentRow<'a>>, first: u64, run: &WideRun<'a>) -> Result<(), NoMemory>
    requires { first + length run.now ≤ 2 ^ 63 }
    ensures { OnOk result (rows.new.items ≡ rows.old.items ++ spec.run_from first run.now) }
{
    for at in 0..run.len() {
        rows.push((first + at as u64, Some(run.values(at))))?;
    }
    Ok(())
}

/// Puts rows behind others, lent, each with its own row number.
fn lend_each<'a>(
    rows: &mut Vec<LentRow<'a>>,
    rids: &[u64],
    run: &WideRun<'a>,
) -> Result<(), NoMemory>
    requires { length rids.now ≡ length run.now }
    ensures { OnOk result (rows.new.items ≡ rows.old.items ++ spec.each_at rids.now run.now) }
{
    for at in 0..run.len() {
        rows.push((rids[at], Some(run.values(at))))?;
    }
    Ok(())
}

/// The rows of pieces, or none, without their numbers, each with these defaults from its length on.
fn rows_in(
    alloc: Global,
    pieces: Vec<Piece>,
    defaults: &[Value],
) -> Result<Vec<Option<Row>>, NoMemory>
    requires { All spec.HasNumbers pieces.items }
    ensures { IfOk result (λ rows. rows.items ≡ map (λ found. found.1) (spec.all_widened defaults.now (spec.in_pieces pieces.items))) }
{
    let mut rows = Vec::new(alloc);
    for piece in pieces {
        put_piece(alloc, &mut rows, piece, defaults)?;
    }
    Ok(rows)
}

/// Puts the rows of a piece behind others, each with these defaults from its length on.
fn put_piece(
    alloc: Global,
    rows: &mut Vec<Option<Row>>,
    piece: Piece,
    defaults: &[Value],
) -> Result<(), NoMemory>
    requires { spec.HasNumbers piece }
    ensures { OnOk result (rows.new.items ≡ rows.old.items ++ map (λ found. found.1) (spec.all_widened defaults.now (spec.in_piece piece))) }
{
    match piece {
        Piece::Run(_, run) => put_run(alloc, rows, &WideRun::of(&run, defaults)),
        Piece::Each(_rids, run) => put_run(alloc, rows, &WideRun::of(&run, defaults)),
        Piece::One(_, row) => {
            rows.push(widened_row(alloc, row, defaults)?)?;
            Ok(())
        }
    }
}

/// A row, or none, with these defaults from its length on.
fn widened_row(alloc: Global, row: Option<Row>, defaults: &[Value]) -> Result<Option<Row>, NoMemory>
    ensures { IfOk result (λ wide. wide ≡ option_map (widened defaults.now) row) }
{
    match row {
        Some(row) => Ok(Some(widen(alloc, row, defaults)?)),
        None => Ok(None),
    }
}

/// Puts the rows of a run behind others.
fn put_run(alloc: Global, rows: &mut Vec<Option<Row>>, run: &WideRun<'_>) -> Result<(), NoMemory>
    ensures { OnOk result (rows.new.items ≡ rows.old.items ++ map (λ row. Some row) run.now) }
{
    for at in 0..run.len() {
        rows.push(Some(run.row(alloc, at)?))?;
    }
    Ok(())
}
