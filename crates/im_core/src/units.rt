ghost use Rattle.std.specs.Bool.{OnTrue};
ghost use Rattle.std.specs.Option.{ForSome};
ghost use Rattle.std.specs.Prelude.{◌≡◌, ◌+◌, ◌^◌, ◌≤◌, ◌<◌, length, nat_le, false, Some, None, IfOk, IfErr, OnOk, OnErr};
ghost use Rattle.im_history.specs.declared.entry.What.TheVariants as what;
ghost use Rattle.im_history.specs.Area.{task_bytes, used};
ghost use Rattle.im_history.specs.Leaves.{leaves};
ghost use Rattle.im_history.specs.Legal.{Exists, MayCancel, MaySetMemory};
ghost use Rattle.im_history.specs.Queue.{build_of, credits, next, task_of};
ghost use Rattle.im_history.specs.Units.{IsOwn, held_at, task_content, unit, unit_content};
ghost use Rattle.im_core.specs.Answers.{IsOffer, IsRefusal, IsHeld, IsSwitch, content_in, evict_refusal, killed_of};
ghost use Rattle.im_core.specs.inner.Lending.{content_as_wide};
ghost use Rattle.im_core.specs.Seen.{Adds};
ghost use Rattle.im_core.specs.Tasks.{task_fetched, task_lent, task_read, task_read_by, task_rows};

use crate::answers::{Evicted, Offer, Pin, Switched, Written};
use crate::store::{Core, owed};
use im_history::{Choice, Entry, Fetched, Held, Priority, Refused, Task, UnitLike, What, Who, Why};
use im_queue::next_task;
use im_values::limits::NUMBERS;
use im_values::{NoMemory, Steps};
use std::sync::Arc;
use std::sync::ledger::Ledger;

impl<U: UnitLike> Core<U> {
    /// Lets a table join the column store with a priority, or leave it where none is given: then the units of its extents
    /// are gone, and its living builds are killed. It answers the place of the entry.
    pub fn set_memory(
        &mut self,
        who: u32,
        table: u32,
        priority: Option<Priority>,
    ) -> Result<u64, Refused>
        requires session { who < NUMBERS }
        requires may { MaySetMemory self.old.log who table }
        ensures ok { OnOk result (Adds self.old who (what.Memory table priority) self.new) }
        ensures place { IfOk result (λ place. place ≡ length self.old.log) }
        ensures err { OnErr result (self.new ≡ self.old) }
        ensures refused { IfErr result (λ why. IsRefusal self.old.log None why) }
    {
        let caller = Who::of(who);
        let set = match priority {
            Some(level) => self.record_joined(caller, table, level),
            None => self.record_left(caller, table),
        };
        match set {
            Ok(place) => Ok(place),
            Err(NoMemory) => Err(self.refused(Why::NoMemory)),
        }
    }

    fn record_joined(&mut self, who: Who, table: u32, level: Priority) -> Result<u64, NoMemory>
        requires may { MaySetMemory self.old.log who table }
        ensures ok { OnOk result (Adds self.old who (what.Memory table (Some level)) self.new) }
        ensures place { IfOk result (λ place. place ≡ length self.old.log) }
        ensures err { OnErr result (self.new ≡ self.old) }
    {
        let priority = Some(level);
        let catalog = self.catalog.with_memory(self.alloc, table, priority)?;
        self.history
            .reserve(owed(&self.sessions, &self.directory) + 1)?;
        let place = self.history.len();
        self.catalog = catalog;
        self.history.append(Entry {
            who: who.number(),
            what: What::Memory { table, priority },
        });
        Ok(place)
    }

    fn record_left(&mut self, who: Who, table: u32) -> Result<u64, NoMemory>
        requires may { MaySetMemory self.old.log who table }
        ensures ok { OnOk result (Adds self.old who (what.Memory table None) self.new) }
        ensures place { IfOk result (λ place. place ≡ length self.old.log) }
        ensures err { OnErr result (self.new ≡ self.old) }
    {
        let priority = None;
        let catalog = self.catalog.with_memory(self.alloc, table, priority)?;
        self.history
            .reserve(owed(&self.sessions, &self.directory) + 1)?;
        let place = self.history.len();
        self.catalog = catalog;
        self.directory.drop_table(place, table);
        self.history.append(Entry {
            who: who.number(),
            what: What::Memory { table, priority },
        });
        Ok(place)
    }

    /// Begins the build that comes next, where there is one, and makes room for its end.
    pub fn build(&mut self, who: u32) -> Result<Offer, Refused>
        requires session { who < NUMBERS }
        ensures ok { IfOk result (λ offer. IsOffer self.old who offer self.new) }
        ensures err { OnErr result (self.new ≡ self.old) }
        ensures refused { IfErr result (λ why. IsRefusal self.old.log None why) }
    {
        let caller = Who::of(who);
        let Some(choice) = self.choose() else {
            return Ok(Offer::Idle {
                place: self.len(),
                left: self.left(),
            });
        };
        match self.record_build(caller, choice) {
            Ok(task) => Ok(Offer::Task(task)),
            Err(NoMemory) => Err(self.refused(Why::NoMemory)),
        }
    }

    /// The build that comes next.
    fn choose(&self) -> Option<Choice>
        ensures { result ≡ next self.now.log }
    {
        next_task(
            &self.catalog,
            self.given.as_slice(),
            &self.directory,
            self.history.demand(),
        )
    }

    /// How many sessions left.
    pub(crate) fn left(&self) -> u32
        ensures { result ≡ leaves self.now.log }
    {
        self.history.demand().left() as u32
    }

    /// The build of a choice, which would begin now.
    fn task_of(&self, choice: Choice) -> Task
        requires exists { Exists self.now.log choice.table }
        ensures { result ≡ task_of self.now.log choice }
    {
        let made = self.catalog.tables()[choice.table as usize - 1].info();
        Task {
            id: self.directory.begun() + 1,
            table: choice.table,
            extent: choice.extent,
            scn: self.history.scn(),
            per: made.shape.per_extent(),
            columns: made.schema.columns().len() as u32,
            trickle: choice.trickle,
        }
    }

    fn record_build(&mut self, who: Who, choice: Choice) -> Result<Task, NoMemory>
        requires comes { next self.old.log ≡ Some choice }
        ensures ok { OnOk result (Adds self.old who (build_of self.old.log choice) self.new) }
        ensures task { IfOk result (λ task. task ≡ task_of self.old.log choice) }
        ensures err { OnErr result (self.new ≡ self.old) }
    {
        let Choice {
            table,
            extent,
            trickle,
        } = choice;
        let given = self.given_of(table);
        let task = self.task_of(choice);
        let held = self.task_of(choice);
        self.history
            .reserve(owed(&self.sessions, &self.directory) + 2)?;
        self.directory.begin(Held {
            who: who.number(),
            task: held,
            given,
            killed: None,
        })?;
        self.history.append(Entry {
            who: who.number(),
            what: What::Build {
                id: task.id,
                table,
                extent,
                trickle,
            },
        });
        Ok(task)
    }

    /// How many bytes all current units count for.
    fn used(&self) -> u64
        ensures { result ≡ used self.now.log }
    {
        self.directory.used()
    }

    /// Gives credits for trickle repopulations, and answers those that are left then.
    pub fn trickle(&mut self, who: u32, n: u32) -> Result<u128, Refused>
        requires session { who < NUMBERS }
        ensures ok { OnOk result (Adds self.old who (what.Trickle n) self.new) }
        ensures left { IfOk result (λ left. left ≡ credits self.new.log) }
        ensures err { OnErr result (self.new ≡ self.old) }
        ensures refused { IfErr result (λ why. IsRefusal self.old.log None why) }
    {
        let caller = Who::of(who);
        match self.record_trickle(caller, n) {
            Ok(()) => Ok(self.credits()),
            Err(NoMemory) => Err(self.refused(Why::NoMemory)),
        }
    }

    fn record_trickle(&mut self, who: Who, n: u32) -> Result<(), NoMemory>
        ensures ok { OnOk result (Adds self.old who (what.Trickle n) self.new) }
        ensures err { OnErr result (self.new ≡ self.old) }
    {
        self.history
            .reserve(owed(&self.sessions, &self.directory) + 1)?;
        self.history.append(Entry {
            who: who.number(),
            what: What::Trickle { n },
        });
        Ok(())
    }

    /// The credits that are left.
    fn credits(&self) -> u128
        ensures { result ≡ credits self.now.log }
    {
        self.history.demand().credits()
    }

    /// Evicts an extent's current unit, which it hands back, and kills its living build. It is refused where there is no
    /// unit.
    pub fn evict(&mut self, who: u32, table: u32, extent: u64) -> Result<Evicted<U>, Refused>
        requires session { who < NUMBERS }
        requires exists { Exists self.old.log table }
        ensures ok { OnOk result (Adds self.old who (what.Evict table extent) self.new) }
        ensures answer { IfOk result (λ evicted. (evicted.place ≡ length self.old.log) × (evicted.used ≡ used self.new.log)) }
        ensures was { IfOk result (λ evicted. unit_content self.old.log table extent ≡ Some (U.content evicted.old.value)) }
        ensures err { OnErr result (self.new ≡ self.old) }
        ensures refused { IfErr result (λ why. IsRefusal self.old.log (evict_refusal self.old.log table extent) why) }
    {
        let caller = Who::of(who);
        if self.directory.unit(table, extent).is_none() {
            return Err(self.refused(Why::NoUnit));
        }
        match self.record_evict(caller, table, extent) {
            Ok(evicted) => Ok(evicted),
            Err(NoMemory) => Err(self.refused(Why::NoMemory)),
        }
    }

    fn record_evict(&mut self, who: Who, table: u32, extent: u64) -> Result<Evicted<U>, NoMemory>
        requires allowed { evict_refusal self.old.log table extent ≡ None }
        ensures ok { OnOk result (Adds self.old who (what.Evict table extent) self.new) }
        ensures answer { IfOk result (λ evicted. (evicted.place ≡ length self.old.log) × (evicted.used ≡ used self.new.log)) }
        ensures was { IfOk result (λ evicted. unit_content self.old.log table extent ≡ Some (U.content evicted.old.value)) }
        ensures err { OnErr result (self.new ≡ self.old) }
    {
        self.history
            .reserve(owed(&self.sessions, &self.directory) + 1)?;
        let place = self.history.len();
        let old = self.directory.evict(place, table, extent).unwrap();
        self.history.append(Entry {
            who: who.number(),
            what: What::Evict { table, extent },
        });
        Ok(Evicted {
            place,
            used: self.used(),
            old,
        })
    }

    /// Reads what a build makes its unit of: its extent's current column unit, unless that is newer than the build or has fewer
    /// columns, and the rows that commits touched since the unit's SCN; without such a unit all rows that were given when the build
    /// began. Each is the row committed at the build's SCN, with the columns that the table had there. It adds no entry.
    ///
    /// Each row that is read is one step at most.
    pub fn read_task<L: Ledger>(
        &mut self,
        who: u32,
        task: &Task,
        steps: &mut Steps<L>,
    ) -> Result<Pin<U>, Refused>
        requires own { IsOwn self.old.log who task.now }
        ensures same { self.new ≡ self.old }
        ensures place { IfOk result (λ pin. pin.place ≡ length self.old.log) }
        ensures unit { IfOk result (λ pin. content_in U.content pin.unit ≡ task_lent self.old.log task.now) }
        ensures fetched { IfOk result (λ pin. pin.fetched ≡ task_fetched self.old.log task.now) }
        ensures steps { steps.new ≤ steps.old + length (task_fetched self.old.log task.now) }
        ensures err { IfErr result (λ why. IsRefusal self.old.log None why) }
    {
        let _ = who;
        match self.read_for(task, steps) {
            Ok(pin) => Ok(pin),
            Err(NoMemory) => Err(self.refused(Why::NoMemory)),
        }
    }

    /// Reads what a held build needs of its extent.
    fn read_for<L: Ledger>(&self, task: &Task, steps: &mut Steps<L>) -> Result<Pin<U>, NoMemory>
        requires held { IsHeld self.now.log task.now }
        ensures place { IfOk result (λ pin. pin.place ≡ length self.now.log) }
        ensures unit { IfOk result (λ pin. content_in U.content pin.unit ≡ task_lent self.now.log task.now) }
        ensures fetched { IfOk result (λ pin. pin.fetched ≡ task_fetched self.now.log task.now) }
        ensures steps { steps.new ≤ steps.old + length (task_fetched self.now.log task.now) }
    {
        self.known();
        let read = self.read_written_for(task, steps)?;
        let fetched = self.shown(task.table, task.columns, read.fetched)?;
        Ok(Pin {
            place: read.place,
            unit: read.unit,
            fetched,
        })
    }

    /// Reads what a held build needs of its extent, the rows as they were written.
    fn read_written_for<L: Ledger>(
        &self,
        task: &Task,
        steps: &mut Steps<L>,
    ) -> Result<Written<U>, NoMemory>
        requires held { IsHeld self.now.log task.now }
        ensures place { IfOk result (λ read. read.place ≡ length self.now.log) }
        ensures unit { IfOk result (λ read. content_in U.content read.unit ≡ task_lent self.now.log task.now) }
        ensures fetched { IfOk result (λ read. read.fetched ≡ task_read self.now.log task.now) }
        ensures steps { steps.new ≤ steps.old + length (task_read self.now.log task.now) }
    {
        let place = self.len();
        match self.lend_wide(task)? {
            Some(unit) => Ok(Written {
                place,
                unit: Some(unit),
                fetched: self.fetch_beside(task, steps)?,
            }),
            None => Ok(Written {
                place,
                unit: None,
                fetched: self.fetch_task(task, steps)?,
            }),
        }
    }

    /// The unit that a build is lent.
    fn lend_wide(&self, task: &Task) -> Result<Option<Arc<U>>, NoMemory>
        ensures { IfOk result (λ lent. content_in U.content lent ≡ task_lent self.now.log task.now) }
    {
        let lent = self.lend(task.table, task.extent, task.scn)?;
        Ok(unit_as_wide(lent, task.columns))
    }

    /// Reads the rows of a held build's extent that are stale beside its unit.
    fn fetch_beside<L: Ledger>(
        &self,
        task: &Task,
        steps: &mut Steps<L>,
    ) -> Result<Fetched, NoMemory>
        requires held { IsHeld self.now.log task.now }
        ensures fetched { IfOk result (λ fetched. ForSome (unit self.now.log task.now.table task.now.extent) (λ at.
            fetched ≡ task_read_by self.now.log task.now (Some at))) }
        ensures steps { ForSome (unit self.now.log task.now.table task.now.extent) (λ at.
            steps.new ≤ steps.old + length (task_read_by self.now.log task.now (Some at))) }
    {
        self.known();
        self.fetch_stale(task.table, task.extent, task.scn, steps)
    }

    /// Reads all rows of a held build's extent that were given when it began.
    fn fetch_task<L: Ledger>(&self, task: &Task, steps: &mut Steps<L>) -> Result<Fetched, NoMemory>
        requires held { IsHeld self.now.log task.now }
        ensures fetched { IfOk result (λ fetched. fetched ≡ task_read_by self.now.log task.now None) }
        ensures steps { steps.new ≤ steps.old + task_rows self.now.log task.now }
    {
        let given = self.directory.build(task.id).unwrap().given;
        let first = task.extent * task.per;
        let count = task.per.min(given - first);
        let fetched = self
            .blocks
            .extent_rows(self.alloc, task.table, first, count, task.scn, steps)?;
        Ok(fetched)
    }

    /// Makes the unit of a finished build current, with the journal of what was touched since the build began, and hands
    /// back the unit that was. A build that was killed is cancelled, and so is one whose unit does not fit into the area
    /// beside all that is there, the one that it would replace among them: its extent then waits. It takes no memory.
    pub fn switch(&mut self, who: u32, task: Task, unit: Arc<U>) -> Switched<U>
        requires session { who < NUMBERS }
        requires own { IsOwn self.old.log who task }
        requires holds { U.content unit.value ≡ task_content self.old.log task }
        ensures { IsSwitch U.content self.old who task result self.new }
    {
        let caller = Who::of(who);
        match self.directory.build(task.id).unwrap().killed {
            None => self.switch_living(caller, task, unit),
            Some(at) => {
                let place = self.cancel(who, task);
                Switched::Cancelled { place, at }
            }
        }
    }

    /// Makes the unit of a living build current, if it fits into the area.
    fn switch_living(&mut self, who: Who, task: Task, unit: Arc<U>) -> Switched<U>
        requires own { IsOwn self.old.log who task }
        requires lives { killed_of (held_at self.old.log task.id) ≡ None }
        requires holds { U.content unit.value ≡ task_content self.old.log task }
        ensures { IsSwitch U.content self.old who task result self.new }
    {
        let place = self.len();
        let need = unit.bytes();
        let used = self.used();
        if fits(self.limits.area, used, need) {
            let old = self.record_switch(who, task, unit);
            let used = self.used();
            return Switched::Done { place, used, old };
        }
        let free = self.limits.area.saturating_sub(used);
        self.record_cancel(who, task, true);
        Switched::AreaFull { place, need, free }
    }

    /// Records that a unit became current, and hands back the one that was.
    fn record_switch(&mut self, who: Who, task: Task, unit: Arc<U>) -> Option<Arc<U>>
        requires own { IsOwn self.old.log who task }
        requires lives { killed_of (held_at self.old.log task.id) ≡ None }
        requires holds { U.content unit.value ≡ task_content self.old.log task }
        requires fits { used self.old.log + task_bytes self.old.log task ≤ self.old.limits.area }
        requires room { used self.old.log + task_bytes self.old.log task < 2 ^ 64 }
        ensures adds { Adds self.old who (what.Switch task.id) self.new }
        ensures was { content_in U.content result ≡ unit_content self.old.log task.table task.extent }
    {
        let old = self.directory.switch(task.id, unit);
        self.history.append(Entry {
            who: who.number(),
            what: What::Switch { id: task.id },
        });
        old
    }

    /// Cancels a build, and answers the place of the entry. It takes no memory.
    pub fn cancel(&mut self, who: u32, task: Task) -> u64
        requires session { who < NUMBERS }
        requires own { IsOwn self.old.log who task }
        ensures added { Adds self.old who (what.Cancel task.id false) self.new }
        ensures place { result ≡ length self.old.log }
    {
        let caller = Who::of(who);
        let place = self.len();
        self.record_cancel(caller, task, false);
        place
    }

    /// Records that a build was cancelled, because its unit does not fit into the area or for another cause.
    fn record_cancel(&mut self, who: Who, task: Task, full: bool)
        requires own { IsOwn self.old.log who task }
        requires cause { MayCancel self.old.limits self.old.log who task.id full }
        ensures { Adds self.old who (what.Cancel task.id full) self.new }
    {
        self.directory.cancel(task.id, full);
        self.history.append(Entry {
            who: who.number(),
            what: What::Cancel { id: task.id, full },
        });
    }
}

/// A unit, unless it has another number of columns.
fn unit_as_wide<U: UnitLike>(unit: Option<Arc<U>>, columns: u32) -> Option<Arc<U>>
    ensures { content_in U.content result ≡ content_as_wide columns (content_in U.content unit) }
{
    match unit {
        Some(unit) if unit.columns() == columns => Some(unit),
        _ => None,
    }
}

/// Whether so many bytes more fit into the area, of which so many are used.
fn fits(area: u64, used: u64, need: u64) -> bool
    ensures fits { result ≡ nat_le (used + need) area }
    ensures few { OnTrue result (used + need < 2 ^ 64) }
{
    need <= area && used <= area - need
}
