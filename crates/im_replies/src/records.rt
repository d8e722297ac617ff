ghost use Rattle.std.specs.Prelude.{◌≡◌, map};

use im_group::Cell;
use std::marker::Model;

/// The records of an answer, each a list of cells. Contracts see the list of these lists.
#[derive(Drop)]
pub struct Records {
    records: Vec<Vec<Cell>>,
}

impl Model for Records {
    ghost use Rattle.std.specs.Prelude.{List, map};
    ghost use Rattle.im_group.specs.declared.cell.Cell.{Cell};

    ghost Value = { List (List Cell) };

    ghost view = { λ r. map (λ cells. cells.items) r.records.items };
}

impl Records {
    /// These records. It takes no memory.
    pub fn of(records: Vec<Vec<Cell>>) -> Records
        ensures { result ≡ map (λ cells. cells.items) records.items }
    {
        Records { records }
    }

    /// The records, in order.
    pub fn records(&self) -> &[Vec<Cell>]
        ensures { map (λ cells. cells.items) result.now ≡ self.now }
    {
        self.records.as_slice()
    }
}
