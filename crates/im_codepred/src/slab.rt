ghost use Rattle.std.specs.Prelude.{◌≡◌, ◌<◌, ◌^◌, IfOk};
ghost use Rattle.im_syntax.specs.BoundFits.{HasColumn, value_at};
ghost use Rattle.im_codepred.specs.Asked.{is_met};
ghost use Rattle.im_codepred.specs.inner.Slabs.{count_of, passing, IsWhole, OfEach};

use crate::asked::{Asked, Wanted};
use crate::form::column_mask;
use crate::rows::rows_mask;
use im_column::Column;
use im_lanes::Mask;
use im_values::{NoMemory, WideRun};
use std::alloc::Global;
use std::sync::Arc;

/// Rows that are asked together, and are not made for it.
#[derive(Clone, Copy)]
pub enum Slab<'a> {
    /// Those of columns of one length, which is told.
    Columns(&'a [Arc<Column>], u64),

    /// Those of a run.
    Run(&'a WideRun<'a>),
}

impl Slab<'_> {
    /// How many there are.
    pub fn len(&self) -> u64
        ensures { result ≡ count_of self.now }
    {
        match self {
            Slab::Columns(_, n) => *n,
            Slab::Run(rows) => rows.len() as u64,
        }
    }

    /// Chooses those whose value in a column has the truth that is wanted.
    pub fn mask(
        &self,
        alloc: Global,
        wanted: Wanted,
        asked: &Asked,
        column: u32,
    ) -> Result<Mask, NoMemory>
        requires whole { IsWhole self.now }
        requires inside { OfEach (λ row. HasColumn row column) self.now }
        ensures { IfOk result (λ mask. mask ≡ passing (λ row. is_met wanted asked.now (value_at row column)) self.now) }
    {
        match self {
            Slab::Columns(columns, _) => { Ok(column_mask(alloc, wanted, asked, columns, column)?) }
            Slab::Run(rows) => Ok(rows_mask(alloc, wanted, asked, rows, column)?),
        }
    }
}
