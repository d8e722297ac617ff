ghost use Rattle.std.specs.Prelude.{◌≡◌, ◌<◌, length, None, IfOk, IfErr, OnOk, OnErr};
ghost use Rattle.im_history.specs.declared.entry.What.TheVariants as what;
ghost use Rattle.im_history.specs.Horizon.{horizon, keep, kept};
ghost use Rattle.im_core.specs.Answers.{IsRefusal};
ghost use Rattle.im_core.specs.Seen.{Adds};

use crate::answers::Purged;
use crate::store::{Core, owed};
use im_history::{Refused, UnitLike, Who, Why};
use im_values::NoMemory;
use im_values::limits::NUMBERS;

impl<U: UnitLike> Core<U> {
    /// Lets go of the versions of rows that nobody may ask for any more.
    ///
    /// The horizon moves to the least SCN that somebody may still read at; of each row the versions behind it stay, and the last one
    /// up to it. It costs a look at each row number, and takes no memory but for its entry.
    pub fn purge(&mut self, who: u32) -> Result<Purged, Refused>
        requires session { who < NUMBERS }
        ensures ok { OnOk result (Adds self.old who what.Purge self.new) }
        ensures purged { IfOk result (λ purged. purged ≡ record {
          place = length self.old.log;
          horizon = horizon self.new.log;
          kept = kept self.new.log;
        }) }
        ensures err { OnErr result (self.new ≡ self.old) }
        ensures refused { IfErr result (λ why. IsRefusal self.old.log None why) }
    {
        let caller = Who::of(who);
        match self.record_purge(caller) {
            Ok(purged) => Ok(purged),
            Err(NoMemory) => Err(self.refused(Why::NoMemory)),
        }
    }

    /// Records a purge. It is refused where more versions stand than 64 bits can count, which have no room in memory: so those that
    /// are kept are counted exactly.
    fn record_purge(&mut self, who: Who) -> Result<Purged, NoMemory>
        ensures ok { OnOk result (Adds self.old who what.Purge self.new) }
        ensures purged { IfOk result (λ purged. purged ≡ record {
          place = length self.old.log;
          horizon = horizon self.new.log;
          kept = kept self.new.log;
        }) }
        ensures err { OnErr result (self.new ≡ self.old) }
    {
        if self.blocks.versions() == u64::MAX {
            return Err(NoMemory);
        }
        let horizon = self.keep();
        self.history
            .reserve(owed(&self.sessions, &self.directory) + 1)?;
        let place = self.history.len();
        self.blocks.purge(horizon);
        self.history.append_purge(who.number(), horizon);
        Ok(Purged {
            place,
            horizon,
            kept: self.blocks.versions(),
        })
    }

    /// The least SCN that somebody may still read at: a session in its transaction, an open cursor, or a held build.
    fn keep(&self) -> u64
        ensures { result ≡ keep self.now.log }
    {
        let mut least = self.history.scn();
        for number in 0..NUMBERS {
            let who = Who::of(number);
            least = self.sessions.least_scn(who, self.snapshot(who).min(least));
        }
        self.directory.least_scn(least)
    }
}
