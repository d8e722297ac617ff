// The store that threads share, made, split, joined and closed.
ghost use Rattle.std.specs.Prelude.{◌≡◌, ◌≢◌, ◌<◌, ◌++◌, ℕ, [], ◌∷◌, false, All, Contains, IfOk, IfErr, map};
ghost use Rattle.im_store.specs.Sides.{fixed_of, known_by, limits_of, who_of};
ghost use Rattle.im_turn.specs.Logs.{AreInLine, Begins, entries_since, longer};
ghost use Rattle.im_turn.specs.Passes.{KnowsOwn, first_pass, new_pass, numbers_of};

use crate::handed::Handed;
use crate::shared::Shared;
use im_core::Core;
use im_history::UnitLike;
use im_reach::Reach;
use im_turn::Turn;
use im_values::limits::NUMBERS;
use std::alloc::Global;
use std::marker::Model;

/// The right to call a store under a number, and what its holder knows of the history. It has no bytes, and may go to another
/// thread. Where a pass is dropped, its store can no longer be closed.
pub type Pass<U> = im_turn::Pass<Handed<U>>;

/// A store that threads share by reference.
#[derive(Drop)]
pub struct Store<U: UnitLike> {
    pub(crate) turn: Turn<Handed<U>>,
}

impl<U: UnitLike> Model for Store<U> {
    ghost use Rattle.std.specs.Prelude.{◌≡◌};
    ghost use Rattle.im_turn.specs.Turns.{TurnState};
    ghost use Rattle.im_values.specs.declared.limits.TheConstants.{NUMBERS as count};

    ghost Value = { TurnState };

    ghost view = { λ s. s.turn };

    ghost invariant = { λ s. s.turn.count ≡ count };
}

impl<U: UnitLike> Store<U> {
    /// Makes a store that threads may share, with its first pass, whose number is 0. All numbers are below [`NUMBERS`].
    ///
    /// `Err` means that there was no memory, and hands the store back. No other call but those of [`Shared`] takes memory.
    pub fn new(alloc: Global, core: Core<U>) -> Result<(Store<U>, Pass<U>), Core<U>>
        ensures count { IfOk result (λ made. made.0.count ≡ NUMBERS) }
        ensures pass { IfOk result (λ made. made.1 ≡ first_pass made.0.id core.log (fixed_of core.limits)) }
        ensures err { IfErr result (λ back. back ≡ core) }
    {
        match Turn::new(alloc, Handed { core }, NUMBERS) {
            Ok((turn, pass)) => Ok((Store { turn }, pass)),
            Err(Handed { core }) => Err(core),
        }
    }

    /// Makes another pass, under a number that was not given before. Only the first pass splits.
    pub fn split(&self, pass: &mut Pass<U>, who: u32) -> Pass<U>
        requires store { pass.old.turn ≡ self.now.id }
        requires first { pass.old.who ≡ 0 }
        requires in_range { who < NUMBERS }
        requires not_first { who ≢ 0 }
        requires not_given { ¬ Contains pass.old.gave who }
        ensures pass { pass.new ≡ record pass.old { gave = pass.old.gave ++ who ∷ [] } }
        ensures made { result ≡ new_pass who pass.old }
        ensures own { KnowsOwn who_of result }
    {
        self.turn.split(pass, who)
    }

    /// Ends another pass. The first pass keeps its number and its entries, and has then seen what either had seen.
    pub fn join(&self, pass: &mut Pass<U>, other: Pass<U>)
        requires store { pass.old.turn ≡ self.now.id }
        requires other_store { other.turn ≡ self.now.id }
        requires first { pass.old.who ≡ 0 }
        requires idle { pass.old.holding ≡ false }
        requires other_idle { other.holding ≡ false }
        ensures pass { pass.new ≡ record pass.old {
          seen = longer pass.old.seen other.seen;
          olds = pass.old.olds ++ (other.who, other.mine) ∷ [];
        } }
        ensures in_line { AreInLine pass.old.seen other.seen }
        ensures begins { Begins pass.old.seen pass.new.seen }
        ensures other_begins { Begins other.seen pass.new.seen }
        ensures own { KnowsOwn who_of pass.new }
    {
        self.turn.join(pass, other);
    }

    /// Ends each of a list of passes, in their order.
    pub fn join_all(&self, pass: &mut Pass<U>, others: Vec<Pass<U>>)
        requires store { pass.old.turn ≡ self.now.id }
        requires others_store { All (λ other. other.turn ≡ self.now.id) others.items }
        requires first { pass.old.who ≡ 0 }
        requires idle { pass.old.holding ≡ false }
        requires others_idle { All (λ other. other.holding ≡ false) others.items }
        ensures pass { pass.new ≡ record pass.old {
          seen = pass.new.seen;
          olds = pass.old.olds ++ map (λ other. (other.who, other.mine)) others.items;
        } }
        ensures begins { Begins pass.old.seen pass.new.seen }
        ensures others_begin { All (λ other. Begins other.seen pass.new.seen) others.items }
    {
        self.turn.join_all(pass, others);
    }

    /// A side of the store, by the number of its pass.
    pub fn shared<'a>(&'a self, pass: Pass<U>) -> Shared<'a, U>
        requires store { pass.turn ≡ self.now.id }
        requires idle { pass.holding ≡ false }
        ensures known { ⟦<Shared<'a, U> as Reach<U>>⟧.known result ≡ known_by pass 0 }
        ensures pass { result.pass ≡ pass }
    {
        Shared::new(self, pass)
    }

    /// Ends the sharing, once all other passes have joined, and hands the store out: its history has, since it was made, the
    /// entries of each pass, whole and in order, and no others.
    pub fn close(self, pass: Pass<U>) -> Core<U>
        requires store { pass.turn ≡ self.id }
        requires first { pass.who ≡ 0 }
        requires idle { pass.holding ≡ false }
        requires all_joined { All (Contains (numbers_of pass.olds)) pass.gave }
        ensures seen { Begins pass.seen result.log }
        ensures own { entries_since who_of 0 pass.base result.log ≡ pass.mine }
        ensures olds { All (λ old. entries_since who_of old.0 pass.base result.log ≡ old.1) pass.olds }
        ensures no_others { (n : ℕ) → n ≢ 0 → ¬ Contains (numbers_of pass.olds) n
            → entries_since who_of n pass.base result.log ≡ [] }
        ensures limits { result.limits ≡ limits_of pass.fixed }
    {
        let Store { turn } = self;
        let Handed { core } = turn.close(pass);
        core
    }
}
