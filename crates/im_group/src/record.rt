ghost use Rattle.std.specs.Prelude.{◌≡◌, take, drop};

use crate::cell::Cell;
use std::marker::Model;

/// A record of an answer that is not in order yet: what the list of the query asks for, and then its keys of ORDER BY.
#[derive(Drop)]
pub struct Record {
    cells: Vec<Cell>,
}

impl Model for Record {
    ghost use Rattle.std.specs.Prelude.{List};
    ghost use Rattle.im_group.specs.declared.cell.Cell.{Cell as AnyCell};

    ghost Value = { List AnyCell };

    ghost view = { λ r. r.cells.items };
}

impl Record {
    /// A record of these cells. It takes no memory.
    pub fn of(cells: Vec<Cell>) -> Record
        ensures { result ≡ cells.items }
    {
        Record { cells }
    }

    /// The cells behind the first ones.
    pub fn behind(&self, count: usize) -> &[Cell]
        ensures { result.now ≡ drop count self.now }
    {
        let cells = self.cells.as_slice();
        if count <= cells.len() {
            &cells[count..]
        } else {
            &[]
        }
    }

    /// The first cells, handed out. It takes no memory.
    pub fn into_first(self, count: usize) -> Vec<Cell>
        ensures { result.items ≡ take count self }
    {
        let Record { mut cells } = self;
        cells.truncate(count);
        cells
    }
}
