ghost use Rattle.std.specs.Prelude.{◌≡◌, ◌+◌, ◌<◌, length, true, None, IfOk, IfErr, OnOk, OnErr};
ghost use Rattle.im_history.specs.declared.entry.What.TheVariants as what;
ghost use Rattle.im_history.specs.Commits.{scn};
ghost use Rattle.im_history.specs.Legal.{MayLeave};
ghost use Rattle.im_history.specs.Refusals.{begin_refusal};
ghost use Rattle.im_history.specs.Transactions.{is_open};
ghost use Rattle.im_core.specs.Answers.{IsRefusal};
ghost use Rattle.im_core.specs.Seen.{Adds};

use crate::answers::{Begun, Committed};
use crate::store::{Core, owed};
use im_history::{Entry, Mode, Refused, UnitLike, What, Who, Why};
use im_values::NoMemory;
use im_values::limits::NUMBERS;

impl<U: UnitLike> Core<U> {
    /// Begins a transaction of a mode. It is refused where one is open.
    pub fn begin(&mut self, who: u32, mode: Mode) -> Result<Begun, Refused>
        requires session { who < NUMBERS }
        ensures ok { OnOk result (Adds self.old who (what.Begin mode) self.new) }
        ensures allowed { OnOk result (begin_refusal self.old.log who ≡ None) }
        ensures begun { IfOk result (λ begun. begun ≡ record { place = length self.old.log; scn = scn self.old.log }) }
        ensures err { OnErr result (self.new ≡ self.old) }
        ensures refused { IfErr result (λ why. IsRefusal self.old.log (begin_refusal self.old.log who) why) }
    {
        let caller = Who::of(who);
        if let Some(place) = self.sessions.begun(caller) {
            return Err(self.refused(Why::TransactionOpen { place }));
        }
        match self.record_begin(caller, mode) {
            Ok(begun) => Ok(begun),
            Err(NoMemory) => Err(self.refused(Why::NoMemory)),
        }
    }

    fn record_begin(&mut self, who: Who, mode: Mode) -> Result<Begun, NoMemory>
        requires allowed { begin_refusal self.old.log who ≡ None }
        ensures ok { OnOk result (Adds self.old who (what.Begin mode) self.new) }
        ensures begun { IfOk result (λ begun. begun ≡ record { place = length self.old.log; scn = scn self.old.log }) }
        ensures err { OnErr result (self.new ≡ self.old) }
    {
        self.history
            .reserve(owed(&self.sessions, &self.directory) + 2)?;
        let begun = Begun {
            place: self.history.len(),
            scn: self.history.scn(),
        };
        self.beginnings[who.index()] = begun.scn;
        self.sessions.begin(who, begun.place, mode);
        self.history.append(Entry {
            who: who.number(),
            what: What::Begin { mode },
        });
        Ok(begun)
    }

    /// Commits what a session has pending. All growth is made first.
    pub fn commit(&mut self, who: u32) -> Result<Committed, Refused>
        requires session { who < NUMBERS }
        ensures ok { OnOk result (Adds self.old who what.Commit self.new) }
        ensures committed { IfOk result (λ done. done ≡ record { place = length self.old.log; scn = scn self.old.log + 1 }) }
        ensures err { OnErr result (self.new ≡ self.old) }
        ensures refused { IfErr result (λ why. IsRefusal self.old.log None why) }
    {
        let caller = Who::of(who);
        match self.record_commit(caller) {
            Ok(committed) => Ok(committed),
            Err(NoMemory) => Err(self.refused(Why::NoMemory)),
        }
    }

    fn record_commit(&mut self, who: Who) -> Result<Committed, NoMemory>
        ensures ok { OnOk result (Adds self.old who what.Commit self.new) }
        ensures committed { IfOk result (λ done. done ≡ record { place = length self.old.log; scn = scn self.old.log + 1 }) }
        ensures err { OnErr result (self.new ≡ self.old) }
    {
        let ready = self.blocks.reserve(self.sessions.pending(who))?;
        self.directory
            .reserve(&self.catalog, self.sessions.pending(who))?;
        self.history
            .reserve(owed(&self.sessions, &self.directory) + 1)?;
        let committed = Committed {
            place: self.history.len(),
            scn: self.history.scn() + 1,
        };
        let writes = self.sessions.clear(who);
        self.directory
            .note(&self.catalog, committed.scn, writes.as_slice());
        self.blocks.apply(committed.scn, ready);
        self.history.append(Entry {
            who: who.number(),
            what: What::Commit,
        });
        Ok(committed)
    }

    /// Rolls back what a session has pending, and answers the place of the entry. It takes no memory.
    pub fn rollback(&mut self, who: u32) -> u64
        requires session { who < NUMBERS }
        requires transaction { is_open self.old.log who ≡ true }
        ensures added { Adds self.old who what.Rollback self.new }
        ensures place { result ≡ length self.old.log }
    {
        let caller = Who::of(who);
        let place = self.history.len();
        drop(self.sessions.clear(caller));
        self.history.append(Entry {
            who,
            what: What::Rollback,
        });
        place
    }

    /// Ends a session or worker, and answers the place of the entry.
    pub fn leave(&mut self, who: u32) -> Result<u64, Refused>
        requires session { who < NUMBERS }
        requires may { MayLeave self.old.log who }
        ensures ok { OnOk result (Adds self.old who what.Leave self.new) }
        ensures place { IfOk result (λ place. place ≡ length self.old.log) }
        ensures err { OnErr result (self.new ≡ self.old) }
        ensures refused { IfErr result (λ why. IsRefusal self.old.log None why) }
    {
        let caller = Who::of(who);
        match self.record_leave(caller) {
            Ok(place) => Ok(place),
            Err(NoMemory) => Err(self.refused(Why::NoMemory)),
        }
    }

    fn record_leave(&mut self, who: Who) -> Result<u64, NoMemory>
        requires may { MayLeave self.old.log who }
        ensures ok { OnOk result (Adds self.old who what.Leave self.new) }
        ensures place { IfOk result (λ place. place ≡ length self.old.log) }
        ensures err { OnErr result (self.new ≡ self.old) }
    {
        self.history
            .reserve(owed(&self.sessions, &self.directory) + 1)?;
        let place = self.history.len();
        self.history.append(Entry {
            who: who.number(),
            what: What::Leave,
        });
        Ok(place)
    }
}
