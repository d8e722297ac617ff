ghost use Rattle.std.specs.Prelude.{◌≡◌, ◌<◌, All};
ghost use Rattle.im_history.specs.declared.limits.Limits.{Limits};
ghost use Rattle.im_history.specs.History.{History};
ghost use Rattle.im_history.specs.Legal.{IsLegal};

use im_values::limits::NUMBERS;
use std::marker::Model;

/// The number of whoever calls a store: 0 is the background of a script, then come the sessions, the workers and the sender.
///
/// Contracts see the number. That it is below [`NUMBERS`] is a fact of the type, which [`Who::number`] and [`Who::index`]
/// hand out.
#[derive(Clone, Copy)]
pub struct Who {
    number: u32,
}

impl Model for Who {
    ghost use Rattle.std.specs.Prelude.{ℕ, ◌<◌};
    ghost use Rattle.im_values.specs.declared.limits.TheConstants.{NUMBERS};

    ghost Value = { ℕ };

    ghost view = { λ w. w.number };

    ghost invariant = { λ w. w.number < NUMBERS };

    ghost inverse = { λ number. record { number = number } };
}

impl Who {
    /// The caller of this number.
    pub fn of(number: u32) -> Who
        requires { number < NUMBERS }
        ensures { result ≡ number }
    {
        Who { number }
    }

    /// The number.
    pub fn number(self) -> u32
        ensures same { result ≡ self }
        ensures few { result < NUMBERS }
    {
        self.number
    }

    /// The number, as the place of what is kept for its owner among the same for all.
    pub fn index(self) -> usize
        ensures same { result ≡ self }
        ensures few { result < NUMBERS }
    {
        self.number as usize
    }
}

/// A law, for contracts alone: whoever made an entry of a legal history has a number, so [`Who`] has them all.
pub fn callers_have_numbers()
    ensures { (limits : Limits) (history : History) → IsLegal limits history →
        All (λ entry. entry.who < NUMBERS) history }
{}
