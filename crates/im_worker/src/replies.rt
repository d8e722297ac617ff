ghost use Rattle.std.specs.Prelude.{◌≡◌, None, []};
ghost use Rattle.im_replies.specs.Causes as causes;
ghost use Rattle.im_replies.specs.declared.body.Body.TheVariants.{Error};
ghost use Rattle.im_statements.specs.Background as plan;
ghost use Rattle.im_statements.specs.Turns.{memory_reply};

use im_history::Task;
use im_replies::{Built, Fault, Reply};
use std::alloc::Global;

/// The reply of a line that ran out of memory once it had made so many entries.
pub fn out_of_memory(alloc: Global, k: u64) -> Reply
    ensures { result ≡ memory_reply k }
{
    Reply::refusal(alloc, Fault::Memory { k })
}

/// What is said of a build that began.
pub fn built_of(task: &Task) -> Built
    ensures { result ≡ plan.built_of task.now }
{
    Built {
        id: task.id,
        table: task.table,
        extent: task.extent,
        scn: task.scn,
        trickle: task.trickle,
    }
}
