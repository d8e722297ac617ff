ghost use Rattle.std.specs.Prelude.{◌≡◌};
ghost use Rattle.im_history.specs.History.{History};
ghost use Rattle.im_history.specs.Queue.{next};
ghost use Rattle.im_queue.specs.Queues.{IsQueueOf};

use crate::demand::Demand;
use crate::reason::Reason;
use crate::sources::Sources;
use im_directory::Directory;
use im_history::{Catalog, Choice, UnitLike};

/// The build that comes next, of whichever history the tables, the row numbers given of each table in order, the directory and
/// the demand are.
///
/// It costs a look at each table for each of the five priorities and each of the three lists, and one look-up of an extent
/// for each table and list at most. It takes no memory.
pub fn next_task<U: UnitLike>(
    tables: &Catalog,
    given: &[u64],
    directory: &Directory<U>,
    demand: &Demand,
) -> Option<Choice>
    ensures { (history : History) → IsQueueOf U.content history tables.now given.now directory.now demand.now → result ≡ next history }
{
    let sources = Sources {
        tables: tables.tables(),
        given,
        directory,
        demand,
    };
    if let Some(choice) = sources.most_urgent(Reason::Empty) {
        return Some(choice);
    }
    if let Some(choice) = sources.most_urgent(Reason::Due) {
        return Some(choice);
    }
    if demand.credits() == 0 {
        return None;
    }
    sources.most_urgent(Reason::Stale)
}
