ghost use Rattle.std.specs.Prelude.{◌≡◌, IfOk};
ghost use Rattle.im_play.specs.Between.{nothing_in};

use im_core::Core;
use im_history::Limits;
use im_reach::{Reach, Sole};
use im_unit::ColumnUnit;
use im_values::NoMemory;
use im_values::limits::{MOST_CHANGES, MOST_WEIGHT};
use std::alloc::Global;

/// The store in which nothing has happened, and which nobody else has. Its column units may take so many bytes together.
pub fn empty_store(alloc: Global, area: u64) -> Result<Sole<ColumnUnit>, NoMemory>
    ensures { IfOk result (λ store. ⟦<Sole<ColumnUnit> as Reach<ColumnUnit>>⟧.known store ≡ nothing_in area) }
{
    let limits = Limits {
        area,
        store: MOST_WEIGHT,
        changes: MOST_CHANGES,
    };
    match Core::new(alloc, limits) {
        Ok(core) => Ok(Sole::new(core)),
        Err(_) => Err(NoMemory),
    }
}
