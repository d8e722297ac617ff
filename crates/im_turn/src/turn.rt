// The turn, made and closed.
ghost use Rattle.std.specs.Prelude.{◌≡◌, ◌≤◌, ◌≢◌, ℕ, [], ◌∷◌, All, Contains, IfOk, IfErr, Some, false};
ghost use Rattle.im_turn.specs.Logs.{entries_since, Begins};
ghost use Rattle.im_turn.specs.Passes.{first_pass, numbers_of};

use crate::logged::Logged;
use crate::pass::Pass;
use crate::rule::InOneHistory;
use crate::view::View;
use atomic_table::{Refused, Table};
use std::alloc::Global;
use std::marker::Model;
use std::snapshot::Snapshot;

// The word that counts the entries of the log.
pub(crate) const COUNT: usize = 0;

// The word that says where the value is.
pub(crate) const FLAG: usize = 1;

// The two numbers of that word.
pub(crate) const HOME: u64 = 0;

pub(crate) const OUT: u64 = 1;

// The slot of the value.
pub(crate) const SLOT: usize = 0;

pub(crate) type Shared<V> = atomic_table::Shared<
    Option<V>,
    View<<V as Logged>::Item>,
    Snapshot<V>,
    InOneHistory,
>;

/// One value, and the right to hand it round between passes. Threads share it by reference.
#[derive(Drop)]
pub struct Turn<V: Logged> {
    pub(crate) table: Table<
        Option<V>,
        View<<V as Logged>::Item>,
        Snapshot<V>,
        InOneHistory,
        Global,
    >,
    pub(crate) count: u32,
}

impl<V: Logged> Model for Turn<V> {
    ghost use Rattle.im_turn.specs.Turns.{IsSized, TurnState};

    ghost Value = { TurnState };

    ghost view = { λ t. record { id = t.table.shared.table_id; count = t.count } };

    ghost invariant = { λ t. IsSized t.table.shared.table_id };
}

// The value of the one slot.
fn only<V>(mut slots: Vec<Option<V>>) -> V
    requires { (v : V) × (slots.items ≡ Some v ∷ []) }
    ensures { slots.items ≡ Some result ∷ [] }
{
    let last = slots.pop();
    slots.destroy_empty();
    match last {
        Some(Some(v)) => v,
        Some(None) | None => unreachable!(),
    }
}

impl<V: Logged> Turn<V> {
    /// Makes a turn over a value, with its first pass, whose number is 0. All numbers are below `count`.
    ///
    /// `Err` means that there was no memory, and hands the value back. No other call takes memory.
    pub fn new(alloc: Global, v: V, count: u32) -> Result<(Turn<V>, Pass<V>), V>
        requires { 1 ≤ count }
        ensures turn { IfOk result (λ made. made.0.count ≡ count) }
        ensures pass { IfOk result (λ made. made.1 ≡ first_pass made.0.id (V.log v) (V.fixed v)) }
        ensures err { IfErr result (λ back. back ≡ v) }
    {
        let key = Snapshot::of(&v);
        let words = [v.entries(), HOME];
        let Ok(mut slots) = Vec::with_capacity(alloc, 1) else {
            return Err(v);
        };
        slots.push_reserved(Some(v));
        match Table::new(alloc, &words, slots, &key) {
            Ok((table, seat)) => Ok((Turn { table, count }, Pass { seat })),
            Err(Refused { slots }) => Err(only(slots)),
        }
    }

    /// Ends the turn, once all other passes have joined, and hands the value out.
    pub fn close(self, pass: Pass<V>) -> V
        requires turn { pass.turn ≡ self.id }
        requires first { pass.who ≡ 0 }
        requires idle { pass.holding ≡ false }
        requires all_joined { All (Contains (numbers_of pass.olds)) pass.gave }
        ensures seen { Begins pass.seen (V.log result) }
        ensures own { entries_since V.who 0 pass.base (V.log result) ≡ pass.mine }
        ensures olds { All (λ old. entries_since V.who old.0 pass.base (V.log result) ≡ old.1)
            pass.olds }
        ensures no_others { (n : ℕ) → n ≢ 0 → ¬ Contains (numbers_of pass.olds) n
            → entries_since V.who n pass.base (V.log result) ≡ [] }
        ensures fixed { V.fixed result ≡ pass.fixed }
    {
        let Turn { table, count: _ } = self;
        let Pass { seat } = pass;
        let mut closed = table.close_with(seat);
        let slot = closed.take(SLOT);
        closed.free();
        match slot {
            Some(v) => v,
            None => unreachable!(),
        }
    }
}
