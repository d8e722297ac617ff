ghost use Rattle.std.specs.Prelude.{◌≡◌, All, IfOk};
ghost use Rattle.im_history.specs.Fetched as kept;
ghost use Rattle.im_scan.specs.inner.LentPieces.{HasLentNumbers, in_lent_piece, in_lent_pieces, in_lying};

use im_history::{LentRow, Lying, Piece, wide_values};
use im_values::{NoMemory, RowValues, Value, WideRun};
use std::alloc::Global;

/// Some of what was read of row numbers, lent: each row with the defaults of the columns that it lacks.
#[derive(Drop)]
pub enum LentPiece<'a> {
    /// Rows at row numbers in a row, from the first on.
    Run(u64, WideRun<'a>),
    /// Rows of one block, each at a row number of its own.
    Each(&'a [u64], WideRun<'a>),
    /// A row number, with its row or none.
    One(u64, Option<RowValues<'a>>),
}

/// A piece, lent with these defaults. It takes no memory.
pub fn lent_piece<'a>(piece: &'a Piece, defaults: &'a [Value]) -> LentPiece<'a>
    requires { kept.HasNumbers piece.now }
    ensures rows { in_lent_piece result ≡ kept.all_widened defaults.now (kept.in_piece piece.now) }
    ensures numbers { HasLentNumbers result }
{
    match piece {
        Piece::Run(first, rows) => LentPiece::Run(*first, WideRun::of(rows, defaults)),
        Piece::Each(rids, rows) => LentPiece::Each(rids.as_slice(), WideRun::of(rows, defaults)),
        Piece::One(rid, row) => LentPiece::One(*rid, wide_values(row, defaults)),
    }
}

/// What was read, lent piece by piece. No row is shared or copied.
pub fn lent_pieces<'a>(alloc: Global, lying: Lying<'a>) -> Result<Vec<LentPiece<'a>>, NoMemory>
    requires { All kept.HasNumbers lying.pieces.now }
    ensures rows { IfOk result (λ pieces. in_lent_pieces pieces.items ≡ in_lying lying.entry) }
    ensures numbers { IfOk result (λ pieces. All HasLentNumbers pieces.items) }
{
    let mut pieces = Vec::with_capacity(alloc, lying.pieces.len())?;
    for piece in lying.pieces {
        pieces.push(lent_piece(piece, lying.defaults))?;
    }
    Ok(pieces)
}

/// The values of a row once more, or none.
pub fn values_again<'a>(row: &Option<RowValues<'a>>) -> Option<RowValues<'a>>
    ensures { result ≡ row.now }
{
    match row {
        Some(values) => Some(values.again()),
        None => None,
    }
}

/// What was read of a row number once more.
pub fn lent_again<'a>(row: &LentRow<'a>) -> LentRow<'a>
    ensures { result ≡ row.now }
{
    (row.0, values_again(&row.1))
}
