use im_values::Name;

/// Why a line was refused.
#[derive(Drop)]
pub enum Fault {
    /// The line is longer than a line may be, and was read no further.
    LineTooLong {
        /// Its bytes, without the end of the line.
        length: u64,
    },
    /// The line is no statement.
    Syntax {
        /// The first byte at which it leaves the language, from 1.
        byte: u64,
    },
    /// No table has the name.
    UnknownTable {
        /// The name as written, in capitals.
        name: Name,
    },
    /// The table has no column of the name.
    UnknownColumn {
        /// The name as written, in capitals.
        name: Name,
    },
    /// The name stands twice among the columns that are created, inserted or set, or a column of the table has the name already.
    RepeatedColumn {
        /// The name that stands twice.
        name: Name,
    },
    /// A tuple has another number of values than there are columns.
    WrongCount {
        /// The tuple's values.
        got: u64,
        /// The columns that are listed, or the table's.
        wanted: u64,
    },
    /// A text stands for a number or a number for a text, or texts are to be added up.
    WrongKind {
        /// The column that the value or the sum is of.
        column: Name,
    },
    /// A text is longer than its column allows.
    TooLong {
        /// The column.
        column: Name,
        /// The text's bytes.
        length: u64,
        /// The most bytes that the column takes.
        limit: u64,
    },
    /// A grouped query lists or sorts by what is not grouped by.
    NotGrouped {
        /// The column. None is the `*` of a grouped query.
        column: Option<Name>,
    },
    /// A table has the name already.
    TableExists {
        /// The name.
        name: Name,
    },
    /// The most tables stand that there may be.
    TooManyTables,
    /// STEP, FETCH or CLOSE of a cursor that is not open.
    CursorUnknown {
        /// The session's number for the cursor.
        cursor: u32,
    },
    /// OPEN of a cursor that is open.
    CursorOpen {
        /// The session's number for the cursor.
        cursor: u32,
    },
    /// OPEN while the session has the most cursors open that it may have.
    TooManyCursors,
    /// A query asks for an SCN that was not reached.
    NoSuchScn {
        /// The SCN that it asks for.
        asked: u64,
        /// The present SCN.
        scn: u64,
    },
    /// A query asks for an SCN below the horizon: versions of that time were let go.
    SnapshotTooOld {
        /// The SCN that it asks for.
        asked: u64,
        /// The least SCN that may be asked for.
        horizon: u64,
    },
    /// SET TRANSACTION while a transaction is open.
    TransactionOpen {
        /// The place in the history of the entry that began it.
        place: u64,
    },
    /// INSERT, UPDATE or DELETE in a transaction that only reads.
    ReadOnly,
    /// Another transaction has changed a row that this one is to change.
    RowLocked {
        /// The least such row number.
        row: u64,
        /// The number of the session that holds the row.
        holder: u32,
    },
    /// A row that a serializable transaction is to change was touched by a commit after its snapshot.
    CannotSerialize {
        /// The least such row number.
        row: u64,
        /// The SCN of the last commit that touched it.
        scn: u64,
    },
    /// The transaction would have more changes than one may have.
    TooManyChanges {
        /// The changes that the statement makes.
        need: u64,
        /// The changes that the transaction had left.
        left: u64,
    },
    /// The changes of the whole history would weigh more than the store takes.
    StoreFull {
        /// The weight of the statement's changes.
        need: u64,
        /// The weight that the store had left.
        left: u64,
    },
    /// EVICT of an extent that has no unit.
    NoUnit {
        /// The table's number, from 1.
        table: u32,
        /// The extent as asked for.
        extent: u64,
    },
    /// The table has the most columns that it may have.
    TooManyColumns,
    /// The table got a column after the statement's names were looked up.
    TableAltered {
        /// The table's number, from 1.
        table: u32,
        /// The place in the history of the entry that added its last column.
        place: u64,
    },
    /// Out of memory. The entries made so far stay, and no row was changed.
    Memory {
        /// How many entries of the history the line had made.
        k: u64,
    },
}
