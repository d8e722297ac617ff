// The calls of a store that threads share: each takes the store, calls it and gives it back.
ghost use Rattle.std.specs.Prelude.{◌≡◌, ◌<◌, true};
ghost use Rattle.im_history.specs.Legal.{IsLawful};
ghost use Rattle.im_history.specs.Units.{IsOwn, task_content};
ghost use Rattle.im_reach.specs.Sides.{IsSwitched, speaks};
ghost use Rattle.im_store.specs.Sides.{known_by, limits_of};

use crate::shared::{Shared, give, take};
use im_core::{
    AddedColumn, Begun, Committed, Evicted, Made, Offer, Pin, Purged, Sent, Switched, Wrote,
};
use im_history::{Change, Look, Mode, Opening, Priority, Refused, Shape, Task, UnitLike, View};
use im_reach::Reach;
use im_values::limits::NUMBERS;
use im_values::{Column, Name, Rows, Schema, Steps, Value};
use std::sync::ledger::Ledger;
use std::sync::{Arc, Wait};

impl<'a, U: UnitLike> Reach<U> for Shared<'a, U> {
    ghost known = { λ s. known_by s.pass s.misses };

    // Others may have the store too, so this side owes nothing.
    fn lawful(&self) {}

    fn look<R: Wait>(&mut self, rt: &R, who: u32) -> Result<Look, Refused> {
        let mut core = take(rt, self.store, &mut self.pass);
        let answer = core.look(who);
        give(self.store, &mut self.pass, core);
        answer
    }

    fn create<R: Wait>(
        &mut self,
        rt: &R,
        who: u32,
        name: Name,
        schema: Schema,
        shape: Shape,
    ) -> Result<Made, Refused> {
        let mut core = take(rt, self.store, &mut self.pass);
        let answer = core.create(who, name, schema, shape);
        give(self.store, &mut self.pass, core);
        answer
    }

    fn add_column<R: Wait>(
        &mut self,
        rt: &R,
        who: u32,
        table: u32,
        column: Column,
        default: Value,
    ) -> Result<AddedColumn, Refused> {
        let mut core = take(rt, self.store, &mut self.pass);
        let answer = core.add_column(who, table, column, default);
        give(self.store, &mut self.pass, core);
        answer
    }

    fn begin<R: Wait>(&mut self, rt: &R, who: u32, mode: Mode) -> Result<Begun, Refused> {
        let mut core = take(rt, self.store, &mut self.pass);
        let answer = core.begin(who, mode);
        give(self.store, &mut self.pass, core);
        answer
    }

    fn commit<R: Wait>(&mut self, rt: &R, who: u32) -> Result<Committed, Refused> {
        let mut core = take(rt, self.store, &mut self.pass);
        let answer = core.commit(who);
        give(self.store, &mut self.pass, core);
        answer
    }

    fn rollback<R: Wait>(&mut self, rt: &R, who: u32) -> u64 {
        let mut core = take(rt, self.store, &mut self.pass);
        let answer = core.rollback(who);
        give(self.store, &mut self.pass, core);
        answer
    }

    fn open_cursor<R: Wait>(
        &mut self,
        rt: &R,
        who: u32,
        cursor: u32,
        opening: Opening,
        asked: Option<u64>,
    ) -> Result<View, Refused> {
        let mut core = take(rt, self.store, &mut self.pass);
        let answer = core.open_cursor(who, cursor, opening, asked);
        give(self.store, &mut self.pass, core);
        answer
    }

    fn pin<R: Wait, L: Ledger>(
        &mut self,
        rt: &R,
        who: u32,
        cursor: u32,
        extent: u64,
        steps: &mut Steps<L>,
    ) -> Result<Pin<U>, Refused> {
        let mut core = take(rt, self.store, &mut self.pass);
        let answer = core.pin(who, cursor, extent, steps);
        give(self.store, &mut self.pass, core);
        answer
    }

    fn shut<R: Wait>(&mut self, rt: &R, who: u32, cursor: u32) -> u64 {
        let mut core = take(rt, self.store, &mut self.pass);
        let answer = core.shut(who, cursor);
        give(self.store, &mut self.pass, core);
        answer
    }

    fn insert<R: Wait>(
        &mut self,
        rt: &R,
        who: u32,
        opening: Opening,
        rows: Rows,
    ) -> Result<Wrote, Refused> {
        let mut core = take(rt, self.store, &mut self.pass);
        let answer = core.insert(who, opening, rows);
        give(self.store, &mut self.pass, core);
        answer
    }

    fn write<R: Wait>(
        &mut self,
        rt: &R,
        who: u32,
        cursor: u32,
        changes: Vec<Change>,
    ) -> Result<u64, Refused> {
        let mut core = take(rt, self.store, &mut self.pass);
        let answer = core.write(who, cursor, changes);
        give(self.store, &mut self.pass, core);
        answer
    }

    fn set_memory<R: Wait>(
        &mut self,
        rt: &R,
        who: u32,
        table: u32,
        priority: Option<Priority>,
    ) -> Result<u64, Refused> {
        let mut core = take(rt, self.store, &mut self.pass);
        let answer = core.set_memory(who, table, priority);
        give(self.store, &mut self.pass, core);
        answer
    }

    fn build<R: Wait>(&mut self, rt: &R, who: u32) -> Result<Offer, Refused> {
        let mut core = take(rt, self.store, &mut self.pass);
        let answer = core.build(who);
        give(self.store, &mut self.pass, core);
        match answer {
            Ok(Offer::Task(task)) => Ok(Offer::Task(task)),
            missed => {
                self.miss();
                missed
            }
        }
    }

    fn read_task<R: Wait, L: Ledger>(
        &mut self,
        rt: &R,
        who: u32,
        task: &Task,
        steps: &mut Steps<L>,
    ) -> Result<Pin<U>, Refused> {
        let mut core = take(rt, self.store, &mut self.pass);
        let answer = core.read_task(who, task, steps);
        give(self.store, &mut self.pass, core);
        answer
    }

    fn switch<R: Wait>(&mut self, rt: &R, who: u32, task: Task, unit: Arc<U>) -> Switched<U>
        requires session { who < NUMBERS }
        requires speaks { speaks (known_by self.old.pass self.old.misses).side who ≡ true }
        requires own { IsOwn self.old.pass.seen who task }
        requires holds { U.content unit.value ≡ task_content self.old.pass.seen task }
        ensures switched { IsSwitched U.content (known_by self.old.pass self.old.misses)
            (known_by self.new.pass self.new.misses) who task result }
        ensures lawful { IsLawful (limits_of self.new.pass.fixed) self.new.pass.seen }
    {
        let mut core = take(rt, self.store, &mut self.pass);
        let answer = core.switch(who, task, unit);
        give(self.store, &mut self.pass, core);
        answer
    }

    fn cancel<R: Wait>(&mut self, rt: &R, who: u32, task: Task) -> u64 {
        let mut core = take(rt, self.store, &mut self.pass);
        let answer = core.cancel(who, task);
        give(self.store, &mut self.pass, core);
        answer
    }

    fn evict<R: Wait>(
        &mut self,
        rt: &R,
        who: u32,
        table: u32,
        extent: u64,
    ) -> Result<Evicted<U>, Refused> {
        let mut core = take(rt, self.store, &mut self.pass);
        let answer = core.evict(who, table, extent);
        give(self.store, &mut self.pass, core);
        answer
    }

    fn trickle<R: Wait>(&mut self, rt: &R, who: u32, n: u32) -> Result<u128, Refused> {
        let mut core = take(rt, self.store, &mut self.pass);
        let answer = core.trickle(who, n);
        give(self.store, &mut self.pass, core);
        answer
    }

    fn purge<R: Wait>(&mut self, rt: &R, who: u32) -> Result<Purged, Refused> {
        let mut core = take(rt, self.store, &mut self.pass);
        let answer = core.purge(who);
        give(self.store, &mut self.pass, core);
        answer
    }

    fn leave<R: Wait>(&mut self, rt: &R, who: u32) -> Result<u64, Refused> {
        let mut core = take(rt, self.store, &mut self.pass);
        let answer = core.leave(who);
        give(self.store, &mut self.pass, core);
        answer
    }

    fn member<R: Wait, L: Ledger>(
        &mut self,
        rt: &R,
        who: u32,
        n: u64,
        steps: &mut Steps<L>,
    ) -> Result<Sent, Refused> {
        let core = take(rt, self.store, &mut self.pass);
        let answer = core.member(who, n, steps);
        give(self.store, &mut self.pass, core);
        match answer {
            Ok(Sent::Member(member)) => Ok(Sent::Member(member)),
            missed => {
                self.miss();
                missed
            }
        }
    }
}
