ghost use Rattle.std.specs.Prelude.{◌≡◌, ◌<◌, true};
ghost use Rattle.im_history.specs.Legal.{IsLawful};
ghost use Rattle.im_history.specs.Units.{IsOwn, task_content};
ghost use Rattle.im_reach.specs.Sides.{speaks};
ghost use Rattle.im_worker.specs.inner.Rests.{Cancels, IsEnded, told_by};

use crate::held::Build;
use im_core::Switched;
use im_edge::{At, Gate, Outside};
use im_history::UnitLike;
use im_reach::Reach;
use im_replies::Ending;
use im_unit::ColumnUnit;
use im_values::limits::NUMBERS;
use std::sync::Wait;

/// What is said of a build of this number, whose unit counts for so many bytes, that was to become current.
fn ending_of(id: u64, bytes: u64, switched: Switched<ColumnUnit>) -> Ending
    ensures { result ≡ told_by id bytes switched }
{
    match switched {
        Switched::Done { used, .. } => Ending::Switch { id, bytes, used },
        Switched::AreaFull { need, free, .. } => Ending::Full { id, need, free },
        Switched::Cancelled { at, .. } => Ending::Cancelled { id, place: at },
    }
}

/// Ends a build whose unit is ready. It takes no memory.
///
/// The gate is called before and after, outside the store's turn.
pub fn end_build<R: Wait, H: Reach<ColumnUnit>, G: Gate>(
    outside: &Outside<R, G>,
    reach: &mut H,
    who: u32,
    build: Build,
) -> Ending
    requires session { who < NUMBERS }
    requires speaks { speaks (H.known reach.old).side who ≡ true }
    requires own { IsOwn (H.known reach.old).log who build.task }
    requires holds { build.content ≡ task_content (H.known reach.old).log build.task }
    ensures ended { IsEnded who (H.known reach.old) build.task result (H.known reach.new) }
    ensures lawful { IsLawful (H.known reach.new).limits (H.known reach.new).log }
{
    let Build { task, unit } = build;
    let (id, bytes) = (task.id, unit.bytes());
    outside.gate.before(outside.rt, who, At::Switch { id });
    let switched = reach.switch(outside.rt, who, task, unit);
    outside.gate.after(who, At::Switch { id });
    ending_of(id, bytes, switched)
}

/// Ends a build without its unit, and answers its number. It takes no memory.
pub fn cancel_build<R: Wait, H: Reach<ColumnUnit>>(
    rt: &R,
    reach: &mut H,
    who: u32,
    build: Build,
) -> u64
    requires session { who < NUMBERS }
    requires speaks { speaks (H.known reach.old).side who ≡ true }
    requires own { IsOwn (H.known reach.old).log who build.task }
    ensures id { result ≡ build.task.id }
    ensures added { Cancels who build.task (H.known reach.old) (H.known reach.new) }
    ensures lawful { IsLawful (H.known reach.new).limits (H.known reach.new).log }
{
    let Build { task, .. } = build;
    let id = task.id;
    reach.cancel(rt, who, task);
    id
}
