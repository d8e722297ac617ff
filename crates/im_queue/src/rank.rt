ghost use Rattle.std.specs.Prelude.{◌≡◌};
ghost use Rattle.im_history.specs.Queue.{has_rank, is_wanted, rank_of};

use im_values::Priority;

/// How urgent a priority is: the least rank is the most urgent.
fn rank_of(priority: Priority) -> u32
    ensures { result ≡ rank_of priority }
{
    match priority {
        Priority::Critical => 0,
        Priority::High => 1,
        Priority::Medium => 2,
        Priority::Low => 3,
        Priority::None => 4,
    }
}

/// Whether a table is in the column store with a priority of this rank.
pub fn has_rank(memory: Option<Priority>, rank: u32) -> bool
    ensures { result ≡ has_rank rank memory }
{
    match memory {
        Some(priority) => rank_of(priority) == rank,
        None => false,
    }
}

/// Whether the extents of a table are populated: with the lowest priority only once it was opened.
pub fn is_wanted(memory: Option<Priority>, opened: bool) -> bool
    ensures { result ≡ is_wanted memory opened }
{
    match memory {
        Some(Priority::None) => opened,
        Some(_) => true,
        None => false,
    }
}
