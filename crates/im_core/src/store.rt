ghost use Rattle.std.specs.Prelude.{◌≡◌, ◌+◌, ◌^◌, ◌<◌, ◌≤◌, [], length, IfOk, IfErr, OnErr, None};
ghost use Rattle.im_history.specs.Legal.{IsLawful, IsLegal};
ghost use Rattle.im_history.specs.Views.{look_at};
ghost use Rattle.im_core.specs.Answers.{IsRefusal};
ghost use Rattle.im_core.specs.inner.Holds.{owed as owed_by};

use crate::chronicle::Chronicle;
use im_blocks::Blocks;
use im_directory::Directory;
use im_history::{Catalog, History, Limits, Look, Refused, UnitLike, Who, Why};
use im_txn::Sessions;
use im_values::NoMemory;
use im_values::limits::{MOST_CHANGES, MOST_WEIGHT, NUMBERS};
use std::alloc::Global;
use std::marker::Model;

/// A store of tables, over column units of the type `U`.
///
/// Contracts see its limits and its history. Everything else is kept beside the history, so that no call reads it again.
#[derive(Drop)]
pub struct Core<U: UnitLike> {
    pub(crate) alloc: Global,
    pub(crate) limits: Limits,
    pub(crate) history: Chronicle,
    pub(crate) catalog: Catalog,
    /// How many row numbers of each table were given.
    pub(crate) given: Vec<u64>,
    /// What all changes weigh that were ever written.
    pub(crate) weight: u64,
    /// The SCN at which each session's open transaction began.
    pub(crate) beginnings: [u64; NUMBERS as usize],
    pub(crate) blocks: Blocks,
    pub(crate) sessions: Sessions,
    pub(crate) directory: Directory<U>,
}

impl<U: UnitLike> Model for Core<U> {
    ghost use Rattle.im_core.specs.Seen.{Seen};

    ghost Value = { Seen };

    ghost use Rattle.im_core.specs.inner.Holds.{Holds};

    ghost view = { λ c. record { limits = c.limits; log = c.history.entries } };

    ghost invariant = { λ c. Holds U.content c.limits c.history (record {
      catalog = c.catalog;
      counts = c.given.items;
      weighed = c.weight;
      beginnings = c.beginnings;
      blocks = c.blocks;
      standing = c.sessions;
      kept = c.directory;
    }) };
}

impl<U: UnitLike> Core<U> {
    /// A store in which nothing has happened.
    pub fn new(alloc: Global, limits: Limits) -> Result<Core<U>, Refused>
        requires store { limits.store ≤ MOST_WEIGHT }
        requires changes { limits.changes ≤ MOST_CHANGES }
        ensures ok { IfOk result (λ made. made ≡ record { limits = limits; log = [] }) }
        ensures err { IfErr result (λ why. IsRefusal [] None why) }
    {
        match Core::empty(alloc, limits) {
            Ok(made) => Ok(made),
            Err(NoMemory) => Err(Refused {
                place: 0,
                why: Why::NoMemory,
            }),
        }
    }

    fn empty(alloc: Global, limits: Limits) -> Result<Core<U>, NoMemory>
        requires store { limits.store ≤ MOST_WEIGHT }
        requires changes { limits.changes ≤ MOST_CHANGES }
        ensures { IfOk result (λ made. made ≡ record { limits = limits; log = [] }) }
    {
        Ok(Core {
            alloc,
            limits,
            history: Chronicle::new(alloc),
            catalog: Catalog::new(alloc)?,
            given: Vec::new(alloc),
            weight: 0,
            beginnings: [0; NUMBERS as usize],
            blocks: Blocks::new(alloc),
            sessions: Sessions::new(alloc)?,
            directory: Directory::new(alloc),
        })
    }

    /// What is true of every store: its limits are small, and its history is legal. That is a fact of its type, which
    /// reaches a caller only through a call.
    pub fn known(&self)
        ensures { IsLawful self.now.limits self.now.log }
    {
        let _ = &self.limits;
    }

    /// How many entries the history has. It takes no memory.
    pub fn len(&self) -> u64
        ensures { result ≡ length self.now.log }
    {
        self.history.len()
    }

    /// The history, handed out. It takes no memory.
    pub fn into_history(self) -> History
        ensures { result.entries ≡ self.log }
    {
        let Core { history, .. } = self;
        history.into_history()
    }

    /// What a session finds: the place, the SCN, its transaction, and the tables. It adds no entry.
    ///
    /// The history of a store is always legal, which this call says too.
    pub fn look(&mut self, who: u32) -> Result<Look, Refused>
        requires session { who < NUMBERS }
        ensures same { self.new ≡ self.old }
        ensures legal { IsLegal self.old.limits self.old.log }
        ensures ok { IfOk result (λ look. look ≡ look_at self.old.log who) }
        ensures err { IfErr result (λ why. IsRefusal self.old.log None why) }
    {
        let caller = Who::of(who);
        match self.catalog.share() {
            Ok(tables) => Ok(Look {
                place: self.len(),
                scn: self.history.scn(),
                begun: self.sessions.begun(caller),
                mode: self.sessions.mode(caller),
                tables,
            }),
            Err(NoMemory) => Err(self.refused(Why::NoMemory)),
        }
    }

    /// A refusal of a call at this moment.
    pub(crate) fn refused(&self, why: Why) -> Refused
        ensures place { result.place ≡ length self.now.log }
        ensures why { result.why ≡ why }
    {
        Refused {
            place: self.len(),
            why,
        }
    }
}

/// How many entries will be needed without fail: a Rollback for each open transaction, a Shut for each open cursor, and a
/// Switch or a Cancel for each held build.
pub(crate) fn owed<U: UnitLike>(sessions: &Sessions, directory: &Directory<U>) -> u64
    ensures owed { result ≡ owed_by sessions.now directory.now }
    ensures few { result + 2 < 2 ^ 64 }
{
    sessions.owed() + directory.held()
}
