// The entries of a history.
use super::record::{Record, Value};
use super::wrong::{Wrong, check};
use std::alloc::Global;

/// The number of the first worker.
pub const FIRST_WORKER: usize = 17;

/// What an entry records, as far as it matters here.
#[derive(Clone, Copy, PartialEq, Eq)]
pub enum What {
    /// So many row numbers make an extent of the table.
    Create {
        extent: usize,
    },
    /// A column of numbers that the table got, and what rows from before have in it.
    Add {
        table: usize,
        default: Value,
    },
    Memory {
        table: usize,
    },
    /// Whether the transaction keeps its first snapshot.
    Begin {
        keeps: bool,
    },
    Open {
        cursor: usize,
        table: usize,
        /// The SCN that was asked for, if one was.
        asked: Option<usize>,
    },
    Shut {
        cursor: usize,
    },
    Write {
        changes: usize,
    },
    Commit,
    Rollback,
    Build {
        id: usize,
        table: usize,
        extent: usize,
    },
    Switch {
        id: usize,
    },
    Cancel {
        id: usize,
    },
    Leave,
    Purge,
}

/// What was done to a row.
#[derive(Drop)]
pub struct Change {
    pub table: usize,
    pub row: usize,
    /// The values of the row, unless it was taken away.
    pub values: Option<Vec<Value>>,
}

/// An entry of a history.
#[derive(Drop)]
pub struct Entry<'a> {
    pub who: usize,
    pub what: What,
    /// Those of a write.
    pub changes: Vec<Change>,
    /// As it stands in the report.
    pub record: Record<'a>,
}

/// The SCN that was asked for where a cursor was opened.
fn asked_of(record: &Record<'_>) -> Result<Option<usize>, Wrong> {
    if record.len() == 6 {
        return Ok(None);
    }
    check(record.len() == 7, record.wrong())?;
    Ok(Some(record.count(6)?))
}

/// What an entry records.
fn what_of(record: &Record<'_>) -> Result<What, Wrong> {
    Ok(match record.field(3) {
        "create" => What::Create {
            extent: record.count(5)?.saturating_mul(record.count(6)?),
        },
        "add" => {
            check(record.len() == 8 && record.field(6) == "0", record.wrong())?;
            What::Add {
                table: record.count(4)?,
                default: record.value(7)?,
            }
        }
        "memory" => {
            let is_read = record.field(5) != "none" && record.field(5) != "off";
            check(is_read, record.wrong())?;
            What::Memory {
                table: record.count(4)?,
            }
        }
        "begin" => What::Begin {
            keeps: record.field(4) != "committed",
        },
        "open" => What::Open {
            cursor: record.count(4)?,
            table: record.count(5)?,
            asked: asked_of(record)?,
        },
        "shut" => What::Shut {
            cursor: record.count(4)?,
        },
        "write" => What::Write {
            changes: record.count(4)?,
        },
        "commit" => What::Commit,
        "rollback" => What::Rollback,
        "build" => What::Build {
            id: record.count(4)?,
            table: record.count(5)?,
            extent: record.count(6)?,
        },
        "switch" => What::Switch {
            id: record.count(4)?,
        },
        "cancel" => What::Cancel {
            id: record.count(4)?,
        },
        "leave" => What::Leave,
        "purge" => What::Purge,
        _ => return Err(record.wrong()),
    })
}

impl<'a> Entry<'a> {
    /// The entry that a record is, so far without changes.
    pub fn read(alloc: Global, record: Record<'a>) -> Result<Entry<'a>, Wrong> {
        Ok(Entry {
            who: record.count(2)?,
            what: what_of(&record)?,
            changes: Vec::new(alloc),
            record,
        })
    }

    /// Whether it has as many changes as it should have.
    pub fn is_whole(&self) -> bool {
        match self.what {
            What::Write { changes } => self.changes.len() == changes,
            _ => self.changes.is_empty(),
        }
    }

    /// The SCN that it asks for, if it opens a cursor and asks for one.
    pub fn asked(&self) -> Option<usize> {
        match self.what {
            What::Open { asked, .. } => asked,
            _ => None,
        }
    }

    /// How many columns the table has that it creates.
    pub fn columns(&self) -> usize {
        self.record.len().saturating_sub(7) / 2
    }

    /// Which column of the table that it creates has this name, from 0.
    pub fn column(&self, name: &str) -> Option<usize> {
        let mut found = None;
        for at in 0..self.record.len() {
            if at >= 7 && at % 2 == 1 && self.record.field(at) == name {
                found = Some((at - 7) / 2);
            }
        }
        found
    }
}

/// The values of a row, which are the fields of a record from one on.
fn values_of(alloc: Global, record: &Record<'_>, first: usize) -> Result<Vec<Value>, Wrong> {
    let mut values = Vec::new(alloc);
    for at in first..record.len() {
        values.push(record.value(at)?)?;
    }
    Ok(values)
}

impl Change {
    /// The change that a record is.
    pub fn read(alloc: Global, record: &Record<'_>) -> Result<Change, Wrong> {
        let values = match record.field(4) {
            "put" => Some(values_of(alloc, record, 5)?),
            _ => {
                check(
                    record.field(4) == "out" && record.len() == 5,
                    record.wrong(),
                )?;
                None
            }
        };
        Ok(Change {
            table: record.count(2)?,
            row: record.count(3)?,
            values,
        })
    }
}
