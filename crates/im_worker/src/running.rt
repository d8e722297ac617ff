ghost use Rattle.std.specs.Prelude.{◌≡◌, ◌*◌, ◌<◌, [], length, true};
ghost use Rattle.im_history.specs.Legal.{IsLawful};
ghost use Rattle.im_reach.specs.Sides.{speaks};
ghost use Rattle.im_worker.specs.Reads.{IsCounted};
ghost use Rattle.im_worker.specs.inner.Running.{IsRan, IsTurn};
ghost use Rattle.im_worker.specs.inner.Standing.{Stands};

use crate::building::{Beginning, begin_next};
use crate::ending::end_build;
use crate::held::Build;
use crate::replies::{built_of, out_of_memory};
use im_edge::{Gate, Outside};
use im_reach::Reach;
use im_replies::{Body, Built, Ending, Reply};
use im_unit::ColumnUnit;
use im_values::limits::NUMBERS;
use im_values::{List, Steps};
use std::collections::VecDeque;
use std::mem::replace;
use std::sync::Wait;
use std::sync::ledger::Ledger;

/// The entries of so many builds that began and ended.
fn entries_of(ran: &[(Built, Ending)]) -> u64
    ensures { result ≡ 2 * length ran.now }
{
    2 * ran.len() as u64
}

/// One round of RUN: a build begins and ends, and is told behind those before it. The reply where the line ends with it: no
/// build is left, or memory lacks.
fn round<R: Wait, H: Reach<ColumnUnit>, G: Gate, L: Ledger>(
    outside: &Outside<R, G>,
    reach: &mut H,
    who: u32,
    held: &VecDeque<Build>,
    ran: &mut Vec<(Built, Ending)>,
    steps: &mut Steps<L>,
) -> Option<Reply>
    requires session { who < NUMBERS }
    requires speaks { speaks (H.known reach.old).side who ≡ true }
    requires stands { Stands who held.now.items [] (H.known reach.old).log }
    ensures turn { IsTurn who held.now.items ran.old.items ran.new.items (H.known reach.old) result (H.known reach.new) }
    ensures ticks { IsCounted who steps.old steps.new (H.known reach.old).log (H.known reach.new).log }
{
    let entries = entries_of(ran.as_slice());
    if ran.reserve(1).is_err() {
        return Some(out_of_memory(outside.alloc, entries));
    }
    match begin_next(outside, reach, who, held, steps) {
        Beginning::Ready(build) => {
            let built = built_of(&build.task);
            let ending = end_build(outside, reach, who, build);
            ran.push_reserved((built, ending));
            None
        }
        Beginning::Idle { .. } => {
            let all = replace(ran, Vec::new(outside.alloc));
            Some(Reply::plain(outside.alloc, Body::Ran(List::of(all))))
        }
        Beginning::Lacks => Some(out_of_memory(outside.alloc, entries)),
        Beginning::Dropped => Some(out_of_memory(outside.alloc, entries + 1)),
    }
}

/// RUN: begins and ends builds until none is left.
pub fn run<R: Wait, H: Reach<ColumnUnit>, G: Gate, L: Ledger>(
    outside: &Outside<R, G>,
    reach: &mut H,
    who: u32,
    held: &VecDeque<Build>,
    steps: &mut Steps<L>,
) -> Reply
    requires session { who < NUMBERS }
    requires speaks { speaks (H.known reach.old).side who ≡ true }
    requires stands { Stands who held.now.items [] (H.known reach.old).log }
    ensures ran { IsRan who held.now.items (H.known reach.old) result (H.known reach.new) }
    ensures ticks { IsCounted who steps.old steps.new (H.known reach.old).log (H.known reach.new).log }
{
    let mut ran = Vec::new(outside.alloc);
    for _ in outside.rt.forever() {
        if let Some(reply) = round(outside, reach, who, held, &mut ran, steps) {
            return reply;
        }
    }
    unreachable!()
}
