// The rule of the table, and the names of its steps.
ghost use Rattle.im_turn.specs.inner.Views.{first_view, giving, newcomer, joined, spent};
ghost use Rattle.im_turn.specs.inner.Rule.{OneHistory};
ghost use Rattle.im_turn.specs.inner.Steps.{takes, loads, adds, gives_back, recalls, Compares};

use crate::logged::Logged;
use crate::view::View;
use atomic_table::{Join, Play, Split, TableRule};
use std::marker::{Brand, PhantomData};
use std::snapshot::Snapshot;

pub struct InOneHistory;

// The key is the value with which the turn is made.
impl<V: Logged> TableRule<Option<V>, View<V::Item>, Snapshot<V>> for InOneHistory {
    ghost holds = { λ _. OneHistory V.log V.who V.fixed };

    ghost first = { λ key. first_view (V.log key.value) (V.fixed key.value) };
}

// The exchange that takes.
pub struct Take;

impl<V: Logged> Play<Option<V>, View<V::Item>> for Take {
    ghost then = { λ _ before found after. takes V.log V.who V.fixed before found after };
}

// The load that records what is seen.
pub struct Load;

impl<V: Logged> Play<Option<V>, View<V::Item>> for Load {
    ghost then = { λ _ before _ after. loads before after };
}

// The add to the count of entries.
pub struct Add;

impl<V: Logged> Play<Option<V>, View<V::Item>> for Add {
    ghost then = { λ _ before _ after. adds V.log before after };
}

// The exchange that gives.
pub struct GiveBack;

impl<V: Logged> Play<Option<V>, View<V::Item>> for GiveBack {
    ghost then = { λ _ before _ after. gives_back before after };
}

// The load after a split.
pub struct Recall;

impl<V: Logged> Play<Option<V>, View<V::Item>> for Recall {
    ghost then = { λ _ before _ after. recalls V.who before after };
}

// The load after a join.
pub struct Compare;

impl<V: Logged> Play<Option<V>, View<V::Item>> for Compare {
    ghost then = { λ _ before _ after. Compares V.who before after };
}

// The number that a split gives, which each call of `split` picks.
pub trait Numbered {
    ghost use Rattle.std.specs.Prelude.{ℕ};

    ghost number: { ℕ };
}

impl Numbered for Brand {
    ghost number = { 0 };
}

pub struct Cut<N: Numbered>(PhantomData<N>);

impl<I, N: Numbered> Split<View<I>> for Cut<N> {
    ghost left = { giving N.number };

    ghost right = { newcomer N.number };
}

pub struct Merge;

impl<I> Join<View<I>> for Merge {
    ghost both = { joined };

    ghost spent = { spent };
}
