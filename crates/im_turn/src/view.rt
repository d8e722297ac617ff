// What a pass knows. The rule speaks of it, and no value of it is ever made.
use std::collections::LinkedList;

// Where a pass is between a take and a give.
pub enum Phase {
    Idle,
    // The value is out with it, and the log was found.
    Taken,
    // The log that was found is seen.
    Holding,
}

pub struct View<I> {
    // False once the pass was joined into another.
    pub live: bool,
    pub phase: Phase,
    pub who: u32,
    pub base: u64,
    pub seen: LinkedList<I>,
    pub mine: LinkedList<I>,
    // A log that was found and is still to be seen: that of the value that was taken, or of a pass that was joined.
    pub held: LinkedList<I>,
    pub olds: LinkedList<(u32, LinkedList<I>)>,
    pub gave: LinkedList<u32>,
    pub fixed: LinkedList<u64>,
}
