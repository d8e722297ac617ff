ghost use Rattle.im_play.specs.Lines.{IsKnown, IsRead};

use im_script::{Line, line_of};
use std::alloc::Global;

/// The line of these bytes. What it has is known.
pub fn read_line(alloc: Global, number: u64, bytes: &[u8]) -> Line
    ensures read { IsRead number bytes.now result }
    ensures known { IsKnown result.kind }
{
    line_of(alloc, number, bytes)
}
