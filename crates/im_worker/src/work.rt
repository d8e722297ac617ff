ghost use Rattle.std.specs.Prelude.{◌≡◌, ◌+◌, ◌-◌, ◌<◌, ◌≤◌, ◌^◌, [], Some, true};
ghost use Rattle.im_reach.specs.Sides.{speaks};
ghost use Rattle.im_worker.specs.Reads.{IsCounted};
ghost use Rattle.im_worker.specs.inner.Standing.{Stands};
ghost use Rattle.im_worker.specs.inner.Working.{HasEnded, IsAround};

use crate::building::{Beginning, begin_next};
use crate::ending::end_build;
use crate::held::Build;
use im_edge::{Gate, Outside};
use im_reach::Reach;
use im_unit::ColumnUnit;
use im_values::Steps;
use im_values::limits::NUMBERS;
use std::collections::VecDeque;
use std::sync::Wait;
use std::sync::atomic::AtomicU64;
use std::sync::ledger::Ledger;
use std::time::Duration;

/// How a worker's job ended.
#[derive(Clone, Copy)]
pub enum Ended {
    /// All its turns were made.
    Spent {
        /// In how many of them memory was out and no build began.
        lacks: u64,
        /// The last place at which no build came next.
        idle: Option<u64>,
    },
    /// No build came next, and all sessions had left.
    Over {
        /// The place at which that was so.
        place: u64,
    },
}

/// How many turns of a job are left, and what was met in those that were made.
#[derive(Clone, Copy)]
pub struct Progress {
    pub left: u64,
    pub lacks: u64,
    pub idle: Option<u64>,
}

impl Progress {
    /// A build began and ended: three turns, or those that were left.
    fn note_build(&mut self)
        ensures { self.new ≡ record self.old { left = self.old.left - 3 } }
    {
        self.left = self.left.saturating_sub(3);
    }

    /// No build came next at this place.
    fn note_idle(&mut self, place: u64)
        ensures { self.new ≡ record self.old { left = self.old.left - 1; idle = Some place } }
    {
        self.left = self.left.saturating_sub(1);
        self.idle = Some(place);
    }

    /// Memory was out, and no build began.
    fn note_lack(&mut self)
        requires room { self.old.lacks + 1 < 2 ^ 64 }
        ensures { self.new ≡ record self.old { left = self.old.left - 1; lacks = self.old.lacks + 1 } }
    {
        self.left = self.left.saturating_sub(1);
        self.lacks += 1;
    }
}

/// Sleeps for a millisecond, or less.
fn pause<R: Wait>(rt: &R) {
    AtomicU64::new(0).park_timeout(rt, 0, Duration::from_millis(1));
}

/// One round of a worker: a build begins and ends, or none comes next, or memory is out. The place, where the job is over with it.
///
/// Where no unit became ready the round ends with a pause.
fn round<R: Wait, H: Reach<ColumnUnit>, G: Gate, L: Ledger>(
    outside: &Outside<R, G>,
    reach: &mut H,
    who: u32,
    held: &VecDeque<Build>,
    sessions: u32,
    tally: &mut Progress,
    steps: &mut Steps<L>,
) -> Option<u64>
    requires session { who < NUMBERS }
    requires speaks { speaks (H.known reach.old).side who ≡ true }
    requires stands { Stands who held.now.items [] (H.known reach.old).log }
    requires room { tally.old.lacks + 1 < 2 ^ 64 }
    ensures round { IsAround who sessions held.now.items tally.old tally.new (H.known reach.old) result (H.known reach.new) }
    ensures ticks { IsCounted who steps.old steps.new (H.known reach.old).log (H.known reach.new).log }
{
    match begin_next(outside, reach, who, held, steps) {
        Beginning::Ready(build) => {
            end_build(outside, reach, who, build);
            tally.note_build();
            None
        }
        Beginning::Idle { place, left } => {
            if left == sessions {
                return Some(place);
            }
            tally.note_idle(place);
            pause(outside.rt);
            None
        }
        Beginning::Lacks => {
            tally.note_lack();
            pause(outside.rt);
            None
        }
        Beginning::Dropped => {
            tally.note_build();
            pause(outside.rt);
            None
        }
    }
}

/// Does a worker's job beside builds that are held.
pub fn job<R: Wait, H: Reach<ColumnUnit>, G: Gate, L: Ledger>(
    outside: &Outside<R, G>,
    reach: &mut H,
    who: u32,
    held: &VecDeque<Build>,
    turns: u64,
    sessions: u32,
    steps: &mut Steps<L>,
) -> Ended
    requires session { who < NUMBERS }
    requires speaks { speaks (H.known reach.old).side who ≡ true }
    requires stands { Stands who held.now.items [] (H.known reach.old).log }
    ensures ended { HasEnded who turns sessions held.now.items (H.known reach.old) result (H.known reach.new) }
    ensures ticks { IsCounted who steps.old steps.new (H.known reach.old).log (H.known reach.new).log }
{
    let mut tally = Progress {
        left: turns,
        lacks: 0,
        idle: None,
    };
    while tally.left > 0 {
        if let Some(place) = round(outside, reach, who, held, sessions, &mut tally, steps) {
            return Ended::Over { place };
        }
    }
    Ended::Spent {
        lacks: tally.lacks,
        idle: tally.idle,
    }
}
