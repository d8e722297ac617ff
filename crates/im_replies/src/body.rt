use crate::fault::Fault;
use crate::records::Records;
use crate::served::How;
use crate::task::{Built, Ending};
use im_values::List;

/// What a reply says.
#[derive(Drop)]
pub enum Body {
    /// CREATE TABLE made a table.
    Created {
        /// The table's number, from 1.
        table: u32,
        /// The SCN after its creation.
        scn: u64,
    },
    /// ALTER TABLE changed whether, or with which priority, a table has column units, or gave it a column.
    Altered {
        /// The table's number, from 1.
        table: u32,
    },
    /// SET TRANSACTION began a transaction.
    Begun {
        /// The SCN at which it reads, or the present one where each of its statements reads anew.
        scn: u64,
    },
    /// INSERT put rows.
    Inserted {
        /// How many.
        rows: u64,
        /// The first one's row number; the others have the next ones.
        first: u64,
    },
    /// UPDATE changed rows.
    Updated {
        /// How many, also 0.
        rows: u64,
    },
    /// DELETE took rows away.
    Deleted {
        /// How many, also 0.
        rows: u64,
    },
    /// COMMIT made the session's changes part of what others read.
    Committed {
        /// The SCN after it.
        scn: u64,
    },
    /// ROLLBACK threw the session's changes away.
    RolledBack,
    /// SELECT or FETCH answered a query.
    Answer {
        /// The SCN that was read at.
        scn: u64,
        /// The records, in the order of the answer.
        records: Records,
    },
    /// OPEN made a cursor.
    Opened {
        /// The session's number for it.
        cursor: u32,
        /// The SCN that it reads at.
        scn: u64,
        /// How many extents it scans.
        extents: u64,
    },
    /// STEP served the next extent of a cursor.
    Step {
        /// The extent's number, from 0.
        extent: u64,
        /// What it was served by.
        how: How,
    },
    /// STEP of a cursor that has no extent left. The cursor stays open.
    End {
        /// The session's number for it.
        cursor: u32,
    },
    /// CLOSE closed a cursor.
    Closed {
        /// The session's number for it.
        cursor: u32,
    },
    /// EXPLAIN: how a scan is served.
    Plan {
        /// The SCN that was read at.
        scn: u64,
        /// Each extent's number and what it was served by, in rising order.
        served: List<(u64, How)>,
    },
    /// RUN built what there was to build: each task with its end, in order. After them it was idle.
    Ran(List<(Built, Ending)>),
    /// BEGIN began a build and holds it.
    Build(Built),
    /// BEGIN found nothing to build.
    Idle,
    /// SWITCH or CANCEL ended the oldest build that was held.
    Ended(Ending),
    /// SWITCH or CANCEL found no build held.
    Nothing,
    /// TRICKLE gave credits for repopulation.
    Trickle {
        /// The credits that there are now.
        credits: u128,
    },
    /// EVICT took a unit away.
    Evicted {
        /// The table's number, from 1.
        table: u32,
        /// The extent's number in it, from 0.
        extent: u64,
        /// The counted bytes of the units that are left.
        used: u64,
    },
    /// PURGE let old versions of rows go.
    Purged {
        /// The horizon that it set: the least SCN that may be asked for behind it.
        horizon: u64,
        /// How many versions of rows are kept.
        kept: u64,
    },
    /// The line was refused.
    Error(Fault),
}
