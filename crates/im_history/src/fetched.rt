ghost use Rattle.std.specs.Prelude.{◌≡◌, ◌+◌, ◌^◌, ◌≤◌, ◌++◌, ◌==◌, [], ◌∷◌, All, length, option_copied, IfOk, OnOk, OnErr};
ghost use Rattle.im_history.specs.Fetched as spec;

use im_values::{NoMemory, Row, Rows, Value};
use std::alloc::Global;
use std::marker::Model;

/// Some of what was read of row numbers.
#[derive(Drop)]
pub enum Piece {
    /// Rows at row numbers in a row, from the first on.
    Run(u64, Rows),
    /// Rows of one block, each at a row number of its own.
    Each(Vec<u64>, Rows),
    /// A row number, with its row or none.
    One(u64, Option<Row>),
}

/// What was read of row numbers: of each the row as it was written, or none.
///
/// Contracts see the list. Rows that lie together are kept together, and take no handle of their own.
#[derive(Drop)]
pub struct Fetched {
    pieces: Vec<Piece>,
    len: u64,
}

impl Model for Fetched {
    ghost use Rattle.std.specs.Prelude.{◌≡◌, List, ℕ, Option, All, length};
    ghost use Rattle.im_values.specs.declared.content.Content.{Content as AnyValue};

    ghost Value = { List (ℕ × Option (List AnyValue)) };

    ghost use Rattle.im_history.specs.Fetched.{HasNumbers, in_pieces};

    ghost view = { λ f. in_pieces f.pieces.items };

    ghost invariant = { λ f. All HasNumbers f.pieces.items × (f.len ≡ length (in_pieces f.pieces.items)) };
}

impl Fetched {
    /// Nothing was read yet. It takes no memory.
    pub fn new(alloc: Global) -> Fetched
        ensures { result ≡ [] }
    {
        Fetched {
            pieces: Vec::new(alloc),
            len: 0,
        }
    }

    /// Puts a row number behind the others, with its row or none.
    pub fn push(&mut self, rid: u64, row: Option<Row>) -> Result<(), NoMemory>
        ensures ok { OnOk result (self.new ≡ self.old ++ (rid, row) ∷ []) }
        ensures err { OnErr result (self.new ≡ self.old) }
    {
        let len = more(self.len, 1)?;
        self.pieces.push(Piece::One(rid, row))?;
        self.len = len;
        Ok(())
    }

    /// Puts rows behind the others, at row numbers from the first on.
    pub fn push_run(&mut self, first: u64, rows: Rows) -> Result<(), NoMemory>
        requires { first + length rows ≤ 2 ^ 63 }
        ensures ok { OnOk result (self.new ≡ self.old ++ spec.run_from first rows) }
        ensures err { OnErr result (self.new ≡ self.old) }
    {
        let len = more(self.len, rows.len())?;
        self.pieces.push(Piece::Run(first, rows))?;
        self.len = len;
        Ok(())
    }

    /// Puts rows behind the others, each at its own row number.
    pub fn push_each(&mut self, rids: Vec<u64>, rows: Rows) -> Result<(), NoMemory>
        requires { length rids.items ≡ length rows }
        ensures ok { OnOk result (self.new ≡ self.old ++ spec.each_at rids.items rows) }
        ensures err { OnErr result (self.new ≡ self.old) }
    {
        let len = more(self.len, rows.len())?;
        self.pieces.push(Piece::Each(rids, rows))?;
        self.len = len;
        Ok(())
    }

    /// How many row numbers there are.
    pub fn len(&self) -> u64
        ensures { result ≡ length self.now }
    {
        self.len
    }

    /// Whether there is none.
    pub fn is_empty(&self) -> bool
        ensures { result ≡ (length self.now == 0) }
    {
        self.len == 0
    }

    /// The pieces alone, in order.
    pub fn into_pieces(self) -> Vec<Piece>
        ensures pieces { spec.in_pieces result.items ≡ self }
        ensures numbers { All spec.HasNumbers result.items }
    {
        let Fetched { pieces, len: _ } = self;
        pieces
    }

    /// The pieces, in order.
    pub fn pieces(&self) -> &[Piece]
        ensures pieces { spec.in_pieces result.now ≡ self.now }
        ensures numbers { All spec.HasNumbers result.now }
    {
        self.pieces.as_slice()
    }
}

/// The values of a row, or none, lent.
pub fn lent_values(row: &Option<Row>) -> Option<&[Value]>
    ensures { option_copied result ≡ row.now }
{
    match row {
        Some(row) => Some(row.values()),
        None => None,
    }
}

/// So many row numbers and these more. More than 64 bits count have no room in memory.
fn more(len: u64, rows: usize) -> Result<u64, NoMemory>
    ensures { IfOk result (λ sum. sum ≡ len + rows) }
{
    match len.checked_add(rows as u64) {
        Some(sum) => Ok(sum),
        None => Err(NoMemory),
    }
}
