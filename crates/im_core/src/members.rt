ghost use Rattle.std.specs.Prelude.{◌≡◌, ◌+◌, ◌<◌, ◌≤◌, None, IfOk, IfErr};
ghost use Rattle.im_history.specs.Commits.{writes_of};
ghost use Rattle.im_core.specs.Answers.{IsRefusal, IsSent};

use crate::answers::Sent;
use crate::store::Core;
use im_history::{Refused, UnitLike, Why, callers_have_numbers};
use im_values::limits::NUMBERS;
use im_values::{NoMemory, Steps};
use std::sync::ledger::Ledger;

impl<U: UnitLike> Core<U> {
    /// Commit n, from 1 on, for a second store; where it is not there yet, how many sessions have ended. It adds no entry.
    ///
    /// It costs what the commit has written, and not what came before: reading it is a step, and one more for each write. Its rows
    /// are shared.
    pub fn member<L: Ledger>(
        &self,
        _who: u32,
        n: u64,
        steps: &mut Steps<L>,
    ) -> Result<Sent, Refused>
        requires session { _who < NUMBERS }
        requires first { 1 ≤ n }
        ensures ok { IfOk result (λ sent. IsSent self.now.log n sent) }
        ensures err { IfErr result (λ why. IsRefusal self.now.log None why) }
        ensures steps { steps.new ≤ steps.old + 1 + writes_of self.now.log n }
    {
        if n > self.history.scn() {
            return Ok(Sent::None { left: self.left() });
        }
        callers_have_numbers();
        match self.history.member(self.alloc, n, steps) {
            Ok(member) => Ok(Sent::Member(member)),
            Err(NoMemory) => Err(self.refused(Why::NoMemory)),
        }
    }
}
