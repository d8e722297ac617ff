ghost use Rattle.std.specs.Prelude.{◌≡◌, List, Bool};
ghost use Rattle.im_readers.specs.Reading.{Read, Found};
ghost use Rattle.im_readers.specs.Answers.{Gives};

use crate::halt::Halt;
use std::alloc::Global;

/// A part of a grammar that stands in lists: how one value is read, and the mark between two.
pub trait Part<T> {
    type Value: Drop;

    ghost marks: { T → Bool };

    ghost reads: { Self → List T → Read T Self.Value };

    /// Whether the token stands between two values.
    fn is_mark(&self, token: &T) -> bool
        ensures { result ≡ marks token.now };

    /// The value at the front, and the tokens behind it.
    fn read<'a>(&self, alloc: Global, tokens: &'a [T]) -> Result<(Self::Value, &'a [T]), Halt>
        ensures { Gives (λ x. Found x.0 x.1.now) result (reads self.now tokens.now) };
}
