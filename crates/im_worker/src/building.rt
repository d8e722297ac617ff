ghost use Rattle.std.specs.Prelude.{◌≡◌, ◌+◌, ◌<◌, ◌≤◌, [], length, true, IfOk};
ghost use Rattle.std.specs.Arc.{arc_value};
ghost use Rattle.std.specs.Option.{ForSome, option_map};
ghost use Rattle.im_core.specs.Tasks.{task_fetched};
ghost use Rattle.im_history.specs.Legal.{IsLawful};
ghost use Rattle.im_history.specs.Units.{task_content};
ghost use Rattle.im_reach.specs.Sides.{speaks};
ghost use Rattle.im_worker.specs.Reads.{IsCounted};
ghost use Rattle.im_worker.specs.inner.Beginning.{IsBegun, IsJust};
ghost use Rattle.im_worker.specs.inner.Built.{AreTaken, IsBeside, content_built, content_from};
ghost use Rattle.im_worker.specs.inner.Rests.{Went};
ghost use Rattle.im_worker.specs.inner.Standing.{Stands};

use crate::held::Build;
use crate::rows::{padded, unit_again, unit_of_rows};
use im_core::{Offer, Pin, ShownRows};
use im_edge::Outside;
use im_history::{Lying, Task};
use im_reach::Reach;
use im_unit::ColumnUnit;
use im_values::limits::NUMBERS;
use im_values::{NoMemory, Steps};
use std::alloc::Global;
use std::collections::VecDeque;
use std::sync::ledger::Ledger;
use std::sync::{Arc, Wait};

/// What comes of beginning the build that comes next.
#[derive(Drop)]
pub enum Beginning {
    /// It began, and its unit is ready.
    Ready(Build),
    /// There was none.
    Idle {
        /// The place of the reading.
        place: u64,
        /// How many sessions had left.
        left: u32,
    },
    /// Memory lacked, and none began.
    Lacks,
    /// Memory lacked when it had begun. It is cancelled.
    Dropped,
}

/// The unit of a build that no unit was lent to, of the rows that were fetched for it.
fn unit_anew(alloc: Global, task: &Task, fetched: &ShownRows) -> Result<ColumnUnit, NoMemory>
    requires taken { AreTaken task.now fetched.now }
    ensures { IfOk result (λ unit. unit ≡ content_from task.now fetched.now) }
{
    let Lying { pieces, defaults } = fetched.lying();
    let rows = padded(alloc, pieces, fetched.len(), task.per)?;
    unit_of_rows(alloc, task, rows.as_slice(), defaults)
}

/// The unit of a build, of what was read for it: the unit that was lent with the fetched rows in their places, or without one the
/// fetched rows alone.
fn unit_from(alloc: Global, task: &Task, pin: Pin<ColumnUnit>) -> Result<Arc<ColumnUnit>, NoMemory>
    requires beside { IsBeside task.now (option_map arc_value pin.unit) pin.fetched }
    requires taken { AreTaken task.now pin.fetched }
    ensures { IfOk result (λ unit. unit.value ≡ content_built task.now (option_map arc_value pin.unit) pin.fetched) }
{
    let Pin {
        place: _,
        unit,
        fetched,
    } = pin;
    let unit = match unit {
        Some(old) => unit_again(alloc, task, &old, &fetched)?,
        None => unit_anew(alloc, task, &fetched)?,
    };
    Ok(Arc::new(alloc, unit)?)
}

/// Reads what the unit of a build that just began is made of, and makes it.
///
/// Each row that is read is one step at most, also where memory is out.
fn unit_of<R: Wait, H: Reach<ColumnUnit>, G, L: Ledger>(
    outside: &Outside<R, G>,
    reach: &mut H,
    who: u32,
    task: &Task,
    steps: &mut Steps<L>,
) -> Option<Arc<ColumnUnit>>
    requires session { who < NUMBERS }
    requires speaks { speaks (H.known reach.old).side who ≡ true }
    requires just { IsJust who task.now (H.known reach.old) }
    ensures went { Went (H.known reach.old) (H.known reach.new) }
    ensures kept { H.known reach.new ≡ record (H.known reach.old) { log = (H.known reach.new).log } }
    ensures unit { ForSome result (λ unit. unit.value ≡ task_content (H.known reach.new).log task.now) }
    ensures steps { steps.new ≤ steps.old + length (task_fetched (H.known reach.new).log task.now) }
    ensures lawful { IsLawful (H.known reach.new).limits (H.known reach.new).log }
{
    let Ok(pin) = reach.read_task(outside.rt, who, task, steps) else {
        return None;
    };
    match unit_from(outside.alloc, task, pin) {
        Ok(unit) => Some(unit),
        Err(NoMemory) => None,
    }
}

/// Begins the build that comes next, beside those that are held, and makes its unit ready.
///
/// Each row that is read for it is one step at most, also where memory is out.
pub fn begin_next<R: Wait, H: Reach<ColumnUnit>, G, L: Ledger>(
    outside: &Outside<R, G>,
    reach: &mut H,
    who: u32,
    held: &VecDeque<Build>,
    steps: &mut Steps<L>,
) -> Beginning
    requires session { who < NUMBERS }
    requires speaks { speaks (H.known reach.old).side who ≡ true }
    requires stands { Stands who held.now.items [] (H.known reach.old).log }
    ensures begun { IsBegun who held.now.items (H.known reach.old) result (H.known reach.new) }
    ensures lawful { IsLawful (H.known reach.new).limits (H.known reach.new).log }
    ensures ticks { IsCounted who steps.old steps.new (H.known reach.old).log (H.known reach.new).log }
{
    let Ok(offer) = reach.build(outside.rt, who) else {
        return Beginning::Lacks;
    };
    let task = match offer {
        Offer::Task(task) => task,
        Offer::Idle { place, left } => return Beginning::Idle { place, left },
    };
    match unit_of(outside, reach, who, &task, steps) {
        Some(unit) => Beginning::Ready(Build { task, unit }),
        None => {
            reach.cancel(outside.rt, who, task);
            Beginning::Dropped
        }
    }
}
