// A store as it is handed round.
use im_core::Core;
use im_history::{Entry, UnitLike};
use im_turn::Logged;
use std::marker::Model;

/// A store as it is handed round. What contracts see of it is what they see of the store; its limits stay fixed.
#[derive(Drop)]
pub struct Handed<U: UnitLike> {
    pub(crate) core: Core<U>,
}

impl<U: UnitLike> Model for Handed<U> {
    ghost use Rattle.im_core.specs.Seen.{Seen};

    ghost Value = { Seen };

    ghost view = { λ h. h.core };
}

impl<U: UnitLike> Logged for Handed<U> {
    type Item = Entry;

    ghost use Rattle.im_store.specs.Sides.{fixed_of, who_of};

    ghost log = { λ seen. seen.log };

    ghost who = { who_of };

    ghost fixed = { λ seen. fixed_of seen.limits };

    fn entries(&self) -> u64 {
        self.core.len()
    }
}
