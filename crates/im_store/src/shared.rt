// A side of a store, and how each of its calls takes the store and gives it back.
ghost use Rattle.std.specs.Prelude.{◌≡◌, ◌++◌, true, false, drop, length};
ghost use Rattle.im_reach.specs.Sides.{missed};
ghost use Rattle.im_store.specs.Sides.{who_of};
ghost use Rattle.im_store.specs.inner.Turns.{Gave, Grew, Took};
ghost use Rattle.im_turn.specs.Passes.{KnowsOwn};

use crate::handed::Handed;
use crate::store::{Pass, Store};
use im_core::Core;
use im_history::UnitLike;
use std::marker::Model;
use std::sync::Wait;

/// A side of a store that threads share. It speaks for the number of its pass. Each call waits for its turn, has the store for this
/// one call, and gives it back: nothing is promised of how long it waits.
#[derive(Drop)]
pub struct Shared<'a, U: UnitLike> {
    pub(crate) store: &'a Store<U>,
    pub(crate) pass: Pass<U>,
    pub(crate) misses: u64,
}

impl<'a, U: UnitLike> Model for Shared<'a, U> {
    ghost use Rattle.std.specs.Prelude.{◌≡◌, false};
    ghost use Rattle.im_store.specs.Sides.{SharedState};

    ghost Value = { SharedState };

    ghost view = { λ s. record { pass = s.pass; misses = s.misses } };

    ghost invariant = { λ s. (s.pass.turn ≡ s.store.now.id) × (s.pass.holding ≡ false) };
}

impl<'a, U: UnitLike> Shared<'a, U> {
    pub(crate) fn new(store: &'a Store<U>, pass: Pass<U>) -> Shared<'a, U>
        requires store { pass.turn ≡ store.now.id }
        requires idle { pass.holding ≡ false }
        ensures { result ≡ record { pass = pass; misses = 0 } }
    {
        Shared {
            store,
            pass,
            misses: 0,
        }
    }

    /// The pass, handed back. It takes no memory.
    pub fn into_pass(self) -> Pass<U>
        ensures pass { result ≡ self.entry.pass }
        ensures idle { result.holding ≡ false }
        ensures own { KnowsOwn who_of result }
    {
        let Shared {
            store: _,
            pass,
            misses: _,
        } = self;
        pass.recall();
        pass
    }

    /// Counts a call that missed: it began no build, or found no commit.
    pub(crate) fn miss(&mut self)
        ensures { self.new ≡ record self.old { misses = missed self.old.misses } }
    {
        self.misses = self.misses.saturating_add(1);
    }
}

/// Takes the store, once it is this pass's turn.
pub(crate) fn take<U: UnitLike, R: Wait>(rt: &R, store: &Store<U>, pass: &mut Pass<U>) -> Core<U>
    requires store { pass.old.turn ≡ store.now.id }
    requires idle { pass.old.holding ≡ false }
    ensures pass { pass.new ≡ record pass.old { holding = true; seen = result.log } }
    ensures took { Took pass.old pass.new result }
{
    let Handed { core } = store.turn.take(rt, pass);
    core.known();
    core
}

/// Gives the store back.
pub(crate) fn give<U: UnitLike>(store: &Store<U>, pass: &mut Pass<U>, core: Core<U>)
    requires store { pass.old.turn ≡ store.now.id }
    requires holding { pass.old.holding ≡ true }
    requires grew { Grew pass.old core }
    ensures pass { pass.new ≡ record pass.old {
      holding = false;
      seen = core.log;
      mine = pass.old.mine ++ drop (length pass.old.seen) core.log;
    } }
    ensures gave { Gave pass.old pass.new core }
{
    core.known();
    store.turn.give(pass, Handed { core });
}
