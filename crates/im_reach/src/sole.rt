ghost use Rattle.std.specs.Prelude.{◌≡◌, ◌<◌};
ghost use Rattle.im_history.specs.Legal.{IsLawful};
ghost use Rattle.im_history.specs.Units.{IsOwn, task_content};
ghost use Rattle.im_reach.specs.Sides.{IsSwitched, missed, sole};

use crate::reach::Reach;
use im_core::{
    AddedColumn, Begun, Committed, Core, Evicted, Made, Offer, Pin, Purged, Sent, Switched, Wrote,
};
use im_history::{Change, Look, Mode, Opening, Priority, Refused, Shape, Task, UnitLike, View};
use im_values::limits::NUMBERS;
use im_values::{Column, Name, Rows, Schema, Steps, Value};
use std::sync::ledger::Ledger;
use std::sync::{Arc, Wait};

/// A store that nobody else has. It speaks for every number, and no call of it waits.
#[derive(Drop)]
pub struct Sole<U: UnitLike> {
    core: Core<U>,
    misses: u64,
}

impl<U: UnitLike> Reach<U> for Sole<U> {
    ghost known = { λ s. record { side = sole; limits = s.core.limits; log = s.core.log; misses = s.misses } };

    fn lawful(&self) {
        self.core.known();
    }

    fn look<R: Wait>(&mut self, _rt: &R, who: u32) -> Result<Look, Refused> {
        let answer = self.core.look(who);
        self.core.known();
        answer
    }

    fn create<R: Wait>(
        &mut self,
        _rt: &R,
        who: u32,
        name: Name,
        schema: Schema,
        shape: Shape,
    ) -> Result<Made, Refused> {
        let answer = self.core.create(who, name, schema, shape);
        self.core.known();
        answer
    }

    fn add_column<R: Wait>(
        &mut self,
        _rt: &R,
        who: u32,
        table: u32,
        column: Column,
        default: Value,
    ) -> Result<AddedColumn, Refused> {
        let answer = self.core.add_column(who, table, column, default);
        self.core.known();
        answer
    }

    fn begin<R: Wait>(&mut self, _rt: &R, who: u32, mode: Mode) -> Result<Begun, Refused> {
        let answer = self.core.begin(who, mode);
        self.core.known();
        answer
    }

    fn commit<R: Wait>(&mut self, _rt: &R, who: u32) -> Result<Committed, Refused> {
        let answer = self.core.commit(who);
        self.core.known();
        answer
    }

    fn rollback<R: Wait>(&mut self, _rt: &R, who: u32) -> u64 {
        let answer = self.core.rollback(who);
        self.core.known();
        answer
    }

    fn open_cursor<R: Wait>(
        &mut self,
        _rt: &R,
        who: u32,
        cursor: u32,
        opening: Opening,
        asked: Option<u64>,
    ) -> Result<View, Refused> {
        let answer = self.core.open_cursor(who, cursor, opening, asked);
        self.core.known();
        answer
    }

    fn pin<R: Wait, L: Ledger>(
        &mut self,
        _rt: &R,
        who: u32,
        cursor: u32,
        extent: u64,
        steps: &mut Steps<L>,
    ) -> Result<Pin<U>, Refused> {
        let answer = self.core.pin(who, cursor, extent, steps);
        self.core.known();
        answer
    }

    fn shut<R: Wait>(&mut self, _rt: &R, who: u32, cursor: u32) -> u64 {
        let answer = self.core.shut(who, cursor);
        self.core.known();
        answer
    }

    fn insert<R: Wait>(
        &mut self,
        _rt: &R,
        who: u32,
        opening: Opening,
        rows: Rows,
    ) -> Result<Wrote, Refused> {
        let answer = self.core.insert(who, opening, rows);
        self.core.known();
        answer
    }

    fn write<R: Wait>(
        &mut self,
        _rt: &R,
        who: u32,
        cursor: u32,
        changes: Vec<Change>,
    ) -> Result<u64, Refused> {
        let answer = self.core.write(who, cursor, changes);
        self.core.known();
        answer
    }

    fn set_memory<R: Wait>(
        &mut self,
        _rt: &R,
        who: u32,
        table: u32,
        priority: Option<Priority>,
    ) -> Result<u64, Refused> {
        let answer = self.core.set_memory(who, table, priority);
        self.core.known();
        answer
    }

    fn build<R: Wait>(&mut self, _rt: &R, who: u32) -> Result<Offer, Refused> {
        let answer = self.core.build(who);
        self.core.known();
        match answer {
            Ok(Offer::Task(task)) => Ok(Offer::Task(task)),
            missed => {
                self.miss();
                missed
            }
        }
    }

    fn read_task<R: Wait, L: Ledger>(
        &mut self,
        _rt: &R,
        who: u32,
        task: &Task,
        steps: &mut Steps<L>,
    ) -> Result<Pin<U>, Refused> {
        let answer = self.core.read_task(who, task, steps);
        self.core.known();
        answer
    }

    fn switch<R: Wait>(&mut self, _rt: &R, who: u32, task: Task, unit: Arc<U>) -> Switched<U>
        requires session { who < NUMBERS }
        requires own { IsOwn self.old.core.log who task }
        requires holds { U.content unit.value ≡ task_content self.old.core.log task }
        ensures switched { IsSwitched U.content (⟦<Sole<U> as Reach<U>>⟧.known self.old)
            (⟦<Sole<U> as Reach<U>>⟧.known self.new) who task result }
        ensures lawful { IsLawful self.new.core.limits self.new.core.log }
    {
        let answer = self.core.switch(who, task, unit);
        self.core.known();
        answer
    }

    fn cancel<R: Wait>(&mut self, _rt: &R, who: u32, task: Task) -> u64 {
        let answer = self.core.cancel(who, task);
        self.core.known();
        answer
    }

    fn evict<R: Wait>(
        &mut self,
        _rt: &R,
        who: u32,
        table: u32,
        extent: u64,
    ) -> Result<Evicted<U>, Refused> {
        let answer = self.core.evict(who, table, extent);
        self.core.known();
        answer
    }

    fn trickle<R: Wait>(&mut self, _rt: &R, who: u32, n: u32) -> Result<u128, Refused> {
        let answer = self.core.trickle(who, n);
        self.core.known();
        answer
    }

    fn purge<R: Wait>(&mut self, _rt: &R, who: u32) -> Result<Purged, Refused> {
        let answer = self.core.purge(who);
        self.core.known();
        answer
    }

    fn leave<R: Wait>(&mut self, _rt: &R, who: u32) -> Result<u64, Refused> {
        let answer = self.core.leave(who);
        self.core.known();
        answer
    }

    fn member<R: Wait, L: Ledger>(
        &mut self,
        _rt: &R,
        who: u32,
        n: u64,
        steps: &mut Steps<L>,
    ) -> Result<Sent, Refused> {
        let answer = self.core.member(who, n, steps);
        self.core.known();
        match answer {
            Ok(Sent::Member(member)) => Ok(Sent::Member(member)),
            missed => {
                self.miss();
                missed
            }
        }
    }
}

impl<U: UnitLike> Sole<U> {
    /// This store, with nobody else. It takes no memory.
    pub fn new(core: Core<U>) -> Sole<U>
        ensures { ⟦<Sole<U> as Reach<U>>⟧.known result ≡ record { side = sole; limits = core.limits; log = core.log; misses = 0 } }
    {
        Sole { core, misses: 0 }
    }

    /// The store, handed back. It takes no memory.
    pub fn into_core(self) -> Core<U>
        ensures { ⟦<Sole<U> as Reach<U>>⟧.known self
            ≡ record { side = sole; limits = result.limits; log = result.log; misses = self.misses } }
    {
        let Sole { core, misses: _ } = self;
        core
    }

    /// Counts a call that missed: it began no build, or found no commit.
    fn miss(&mut self)
        ensures { self.new ≡ record self.old { misses = missed self.old.misses } }
    {
        self.misses = self.misses.saturating_add(1);
    }
}
