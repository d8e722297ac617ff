// Splitting passes off and joining them.
ghost use Rattle.std.specs.Prelude.{◌≡◌, ◌≢◌, ◌<◌, ◌++◌, [], ◌∷◌, true, false, All, Contains, map};
ghost use Rattle.im_turn.specs.Logs.{AreInLine, Begins, longer};
ghost use Rattle.im_turn.specs.Passes.{KnowsOwn, new_pass};
ghost use Rattle.im_turn.specs.Turns.{IsSized};
ghost use Rattle.im_turn.specs.inner.Views.{giving, newcomer};

use crate::logged::Logged;
use crate::pass::{Pass, TurnSeat};
use crate::rule::{Compare, Cut, Merge, Numbered, Recall};
use crate::turn::{COUNT, Shared, Turn};
use std::marker::Brand;

// Splits a seat off, with the number that the call picks.
fn cut<V: Logged, N: Numbered>(shared: &Shared<V>, seat: &mut TurnSeat<V>, who: u32) -> TurnSeat<V>
    requires sized { IsSized shared.now.table_id }
    requires seat { seat.old.table_id ≡ shared.now.table_id }
    requires live { seat.old.me.0.live ≡ true }
    requires first { seat.old.me.0.who ≡ 0 }
    requires not_first { who ≢ 0 }
    requires not_given { ¬ Contains seat.old.me.0.gave who }
    requires number { who ≡ N.number }
    ensures seat { (seat.new.table_id ≡ seat.old.table_id) × (seat.new.id ≡ seat.old.id) }
    ensures left { seat.new.me ≡ (giving who seat.old.me.0, seat.old.me.1) }
    ensures made { (result.table_id ≡ seat.old.table_id) × (result.me ≡ (newcomer who seat.old.me.0, [])) }
{
    shared.split_seat::<Cut<N>>(seat)
}

impl<V: Logged> Turn<V> {
    /// Makes another pass, under a number that was not given before. Only the first pass splits, and it may do so while
    /// it has the value.
    pub fn split(&self, pass: &mut Pass<V>, who: u32) -> Pass<V>
        requires turn { pass.old.turn ≡ self.now.id }
        requires first { pass.old.who ≡ 0 }
        requires in_range { who < self.now.count }
        requires not_first { who ≢ 0 }
        requires not_given { ¬ Contains pass.old.gave who }
        ensures pass { pass.new ≡ record pass.old { gave = pass.old.gave ++ who ∷ [] } }
        ensures made { result ≡ new_pass who pass.old }
        ensures own { KnowsOwn V.who result }
    {
        let shared = &self.table.shared;
        let mut seat = cut::<V, Brand>(shared, &mut pass.seat, who);
        shared.load::<Recall>(&mut seat, COUNT);
        Pass { seat }
    }

    /// Ends another pass. The first pass keeps its number and its entries, and has then seen what either had seen.
    pub fn join(&self, pass: &mut Pass<V>, other: Pass<V>)
        requires turn { pass.old.turn ≡ self.now.id }
        requires other_turn { other.turn ≡ self.now.id }
        requires first { pass.old.who ≡ 0 }
        requires idle { pass.old.holding ≡ false }
        requires other_idle { other.holding ≡ false }
        ensures pass { pass.new ≡ record pass.old {
          seen = longer pass.old.seen other.seen;
          olds = pass.old.olds ++ (other.who, other.mine) ∷ [];
        } }
        ensures in_line { AreInLine pass.old.seen other.seen }
        ensures begins { Begins pass.old.seen pass.new.seen }
        ensures other_begins { Begins other.seen pass.new.seen }
        ensures own { KnowsOwn V.who pass.new }
    {
        let shared = &self.table.shared;
        let Pass { seat } = other;
        shared.join_seat::<Merge>(&mut pass.seat, seat);
        shared.load::<Compare>(&mut pass.seat, COUNT);
    }
}

impl<V: Logged + Drop> Turn<V> {
    /// Ends each of a list of passes, in their order.
    pub fn join_all(&self, pass: &mut Pass<V>, others: Vec<Pass<V>>)
        requires turn { pass.old.turn ≡ self.now.id }
        requires others_turn { All (λ other. other.turn ≡ self.now.id) others.items }
        requires first { pass.old.who ≡ 0 }
        requires idle { pass.old.holding ≡ false }
        requires others_idle { All (λ other. other.holding ≡ false) others.items }
        ensures pass { pass.new ≡ record pass.old {
          seen = pass.new.seen;
          olds = pass.old.olds ++ map (λ other. (other.who, other.mine)) others.items;
        } }
        ensures begins { Begins pass.old.seen pass.new.seen }
        ensures others_begin { All (λ other. Begins other.seen pass.new.seen) others.items }
    {
        for other in others {
            self.join(pass, other);
        }
    }
}
