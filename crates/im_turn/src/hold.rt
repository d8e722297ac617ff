// Taking the value and giving it back.
ghost use Rattle.std.specs.Prelude.{◌≡◌, ◌++◌, [], ◌∷◌, true, false, drop, length};
ghost use Rattle.im_turn.specs.Logs.{GrewByOthers, GrewByOwn};
ghost use Rattle.im_turn.specs.Passes.{KnowsOwn};
ghost use Rattle.im_turn.specs.inner.Steps.{IsFilled, IsFree, IsHolder, Took};
ghost use Rattle.im_turn.specs.Turns.{IsSized};
ghost use Rattle.im_turn.specs.inner.Views.{taken, loaded, added, returned};

use crate::logged::Logged;
use crate::pass::{Pass, TurnSeat};
use crate::rule::{Add, GiveBack, Load, Take};
use crate::turn::{COUNT, FLAG, HOME, OUT, SLOT, Shared, Turn};
use std::snapshot::Snapshot;
use std::sync::Wait;

// Waits until the value is at home, and takes its slot.
fn seize<V: Logged, R: Wait>(rt: &R, shared: &Shared<V>, seat: &mut TurnSeat<V>)
    requires sized { IsSized shared.now.table_id }
    requires seat { seat.old.table_id ≡ shared.now.table_id }
    requires free { IsFree V.who seat.old.me }
    ensures seat { (seat.new.table_id ≡ seat.old.table_id) × (seat.new.id ≡ seat.old.id) }
    ensures took { Took V.log V.who V.fixed seat.old.me seat.new.me }
{
    for _ in rt.forever() {
        let found = shared.compare_exchange::<Take>(seat, FLAG, HOME, OUT);
        if found == HOME {
            return;
        }
        shared.park(rt, FLAG, OUT as u32);
    }
    unreachable!()
}

// Takes the value out of its slot, once it is at home, and records its log.
fn fetch<V: Logged, R: Wait>(rt: &R, shared: &Shared<V>, seat: &mut TurnSeat<V>) -> V
    requires sized { IsSized shared.now.table_id }
    requires seat { seat.old.table_id ≡ shared.now.table_id }
    requires free { IsFree V.who seat.old.me }
    ensures seat { (seat.new.table_id ≡ seat.old.table_id) × (seat.new.id ≡ seat.old.id) }
    ensures taken { seat.new.me ≡ (loaded (taken (V.log result) seat.old.me.0), (0, None) ∷ []) }
    ensures others { GrewByOthers V.who seat.old.me.0.who seat.old.me.0.seen (V.log result) }
    ensures fixed { V.fixed result ≡ seat.old.me.0.fixed }
    ensures holder { IsHolder V.who seat.new.me }
{
    seize(rt, shared, seat);
    shared.load::<Load>(seat, COUNT);
    shared.exchange(seat, SLOT, None).unwrap()
}

// Puts the value into its slot.
fn fill<V: Logged>(shared: &Shared<V>, seat: &mut TurnSeat<V>, v: V)
    requires seat { seat.old.table_id ≡ shared.now.table_id }
    requires holder { IsHolder V.who seat.old.me }
    ensures seat { (seat.new.table_id ≡ seat.old.table_id) × (seat.new.id ≡ seat.old.id) }
    ensures view { seat.new.me.0 ≡ seat.old.me.0 }
    ensures filled { IsFilled v seat.new.me }
{
    let emptied = shared.exchange(seat, SLOT, Some(v));
    match emptied {
        None => {}
        Some(_) => unreachable!(),
    }
}

// Counts the entries that the value in the slot has gained.
fn count<V: Logged>(shared: &Shared<V>, seat: &mut TurnSeat<V>, value: &Snapshot<V>, entries: u64)
    requires sized { IsSized shared.now.table_id }
    requires seat { seat.old.table_id ≡ shared.now.table_id }
    requires filled { IsFilled value.now.value seat.old.me }
    requires all { entries ≡ length (V.log value.now.value) }
    requires own { GrewByOwn V.who seat.old.me.0.who seat.old.me.0.seen (V.log value.now.value) }
    ensures seat { (seat.new.table_id ≡ seat.old.table_id) × (seat.new.id ≡ seat.old.id) }
    ensures view { seat.new.me.0 ≡ added (V.log value.now.value) seat.old.me.0 }
    ensures filled { IsFilled value.now.value seat.new.me }
{
    shared.store::<Add>(seat, COUNT, entries);
}

// Says that the value in the slot is at home.
fn hand_back<V: Logged>(shared: &Shared<V>, seat: &mut TurnSeat<V>, value: &Snapshot<V>)
    requires sized { IsSized shared.now.table_id }
    requires seat { seat.old.table_id ≡ shared.now.table_id }
    requires filled { IsFilled value.now.value seat.old.me }
    requires counted { V.log value.now.value ≡ seat.old.me.0.seen }
    requires fixed { V.fixed value.now.value ≡ seat.old.me.0.fixed }
    ensures seat { (seat.new.table_id ≡ seat.old.table_id) × (seat.new.id ≡ seat.old.id) }
    ensures given { seat.new.me ≡ (returned seat.old.me.0, []) }
{
    shared.store::<GiveBack>(seat, FLAG, HOME);
    shared.wake_one(FLAG);
}

// Puts the value back: first into its slot, then its new entries into the count.
fn restore<V: Logged>(shared: &Shared<V>, seat: &mut TurnSeat<V>, v: V)
    requires sized { IsSized shared.now.table_id }
    requires seat { seat.old.table_id ≡ shared.now.table_id }
    requires holder { IsHolder V.who seat.old.me }
    requires own { GrewByOwn V.who seat.old.me.0.who seat.old.me.0.seen (V.log v) }
    requires fixed { V.fixed v ≡ seat.old.me.0.fixed }
    ensures seat { (seat.new.table_id ≡ seat.old.table_id) × (seat.new.id ≡ seat.old.id) }
    ensures given { seat.new.me ≡ (returned (added (V.log v) seat.old.me.0), []) }
    ensures free { IsFree V.who seat.new.me }
{
    let value = Snapshot::of(&v);
    let entries = v.entries();
    fill(shared, seat, v);
    count(shared, seat, &value, entries);
    hand_back(shared, seat, &value);
}

impl<V: Logged> Turn<V> {
    /// Takes the value, and sleeps while another pass has it. Nothing is promised of how long that is, nor of the order
    /// in which those who wait come to have it.
    pub fn take<R: Wait>(&self, rt: &R, pass: &mut Pass<V>) -> V
        requires turn { pass.old.turn ≡ self.now.id }
        requires idle { pass.old.holding ≡ false }
        ensures pass { pass.new ≡ record pass.old { holding = true; seen = V.log result } }
        ensures others { GrewByOthers V.who pass.old.who pass.old.seen (V.log result) }
        ensures own { KnowsOwn V.who pass.new }
        ensures fixed { V.fixed result ≡ pass.old.fixed }
    {
        fetch(rt, &self.table.shared, &mut pass.seat)
    }

    /// Gives the value back, with entries of the pass's own number added to its log, and wakes one pass that waits.
    /// A pass that never gives the value back keeps it from all others.
    pub fn give(&self, pass: &mut Pass<V>, v: V)
        requires turn { pass.old.turn ≡ self.now.id }
        requires holding { pass.old.holding ≡ true }
        requires own { GrewByOwn V.who pass.old.who pass.old.seen (V.log v) }
        requires fixed { V.fixed v ≡ pass.old.fixed }
        ensures pass { pass.new ≡ record pass.old {
          holding = false;
          seen = V.log v;
          mine = pass.old.mine ++ drop (length pass.old.seen) (V.log v);
        } }
        ensures own { KnowsOwn V.who pass.new }
    {
        restore(&self.table.shared, &mut pass.seat, v);
    }
}
