// The parts of a report, one behind the other.
use super::entry::{Change, Entry, FIRST_WORKER};
use super::record::Record;
use super::wrong::{Wrong, check};
use std::alloc::Global;

/// How a worker ended.
#[derive(Clone, Copy)]
pub enum End {
    Over { place: usize },
    /// The last place, if there was one, at which no build could begin.
    Spent { idle: Option<usize> },
}

/// The unit that served an extent.
#[derive(Clone, Copy, PartialEq, Eq)]
pub struct Unit {
    /// Whether no row of it can meet what is asked for.
    pub is_pruned: bool,
    pub scn: usize,
    pub stale: usize,
}

/// How a line was served an extent.
#[derive(Clone, Copy)]
pub struct Mark {
    pub place: usize,
    pub extent: usize,
    /// Nothing where the blocks served it.
    pub unit: Option<Unit>,
}

/// A line of a race that was answered.
#[derive(Drop)]
pub struct Answer<'a> {
    pub line: usize,
    pub place: Option<usize>,
    pub marks: Vec<Mark>,
    /// Its reply.
    pub records: Vec<Record<'a>>,
}

/// A report.
#[derive(Drop)]
pub struct Report<'a> {
    /// The replies before the history.
    pub prelude: Vec<Record<'a>>,
    /// How many entries the history is said to have, where that is said.
    length: Option<usize>,
    pub entries: Vec<Entry<'a>>,
    pub ends: Vec<End>,
    pub answers: Vec<Answer<'a>>,
}

/// How the worker of a record ended.
fn end_of(record: &Record<'_>) -> Result<End, Wrong> {
    if record.field(2) == "over" {
        check(record.len() == 4, record.wrong())?;
        return Ok(End::Over {
            place: record.count(3)?,
        });
    }
    check(
        record.field(2) == "spent" && record.len() == 5,
        record.wrong(),
    )?;
    record.count(3)?;
    if record.field(4).is_empty() {
        return Ok(End::Spent { idle: None });
    }
    Ok(End::Spent {
        idle: Some(record.count(4)?),
    })
}

/// The unit of a mark, where it has one.
fn unit_of(record: &Record<'_>) -> Result<Option<Unit>, Wrong> {
    if record.field(4) == "blocks" {
        check(record.len() == 5, record.wrong())?;
        return Ok(None);
    }
    let is_unit = record.field(4) == "unit" || record.field(4) == "pruned";
    check(is_unit && record.len() == 7, record.wrong())?;
    Ok(Some(Unit {
        is_pruned: record.field(4) == "pruned",
        scn: record.count(5)?,
        stale: record.count(6)?,
    }))
}

/// The mark that a record is.
fn mark_of(record: &Record<'_>) -> Result<Mark, Wrong> {
    Ok(Mark {
        place: record.count(2)?,
        extent: record.count(3)?,
        unit: unit_of(record)?,
    })
}

impl Mark {
    /// Whether the reply to a STEP says the same.
    pub fn is_told(&self, reply: &Record<'_>) -> bool {
        let is_extent = reply.is_number(2, self.extent);
        let Some(unit) = self.unit else {
            return is_extent && reply.len() == 4 && reply.field(3) == "blocks";
        };
        let word = if unit.is_pruned { "pruned" } else { "unit" };
        let is_unit = reply.is_number(4, unit.scn) && reply.is_number(5, unit.stale);
        is_extent && is_unit && reply.len() == 6 && reply.field(3) == word
    }
}

impl<'a> Answer<'a> {
    /// A line that has no record yet.
    fn new(alloc: Global, line: usize, place: Option<usize>) -> Answer<'a> {
        Answer {
            line,
            place,
            marks: Vec::new(alloc),
            records: Vec::new(alloc),
        }
    }

    /// A field of the first record of its reply.
    pub fn field(&self, at: usize) -> &'a str {
        match self.records.first() {
            Some(record) => record.field(at),
            None => "",
        }
    }
}

impl<'a> Report<'a> {
    /// Reads a text, record by record.
    pub fn read(alloc: Global, text: &'a str) -> Result<Report<'a>, Wrong> {
        let mut report = Report {
            prelude: Vec::new(alloc),
            length: None,
            entries: Vec::new(alloc),
            ends: Vec::new(alloc),
            answers: Vec::new(alloc),
        };
        for (index, line) in text.lines().enumerate() {
            report.add(alloc, Record::read(alloc, index.saturating_add(1), line)?)?;
        }
        check(report.is_whole(), Wrong::Length)?;
        Ok(report)
    }

    /// Whether no part ends too early.
    fn is_whole(&self) -> bool {
        self.length == Some(self.entries.len())
            && self.entries.iter().all(|entry| entry.is_whole())
            && self.answers.iter().all(|answer| !answer.records.is_empty())
    }

    /// Adds the next record.
    fn add(&mut self, alloc: Global, record: Record<'a>) -> Result<(), Wrong> {
        match record.field(0) {
            "history" => self.add_length(&record),
            "h" => self.add_entry(alloc, record),
            "c" => self.add_change(alloc, &record),
            "worker" => self.add_end(&record),
            "at" => self.add_place(alloc, &record),
            "mark" => self.add_mark(&record),
            _ => self.add_reply(alloc, record),
        }
    }

    fn add_length(&mut self, record: &Record<'a>) -> Result<(), Wrong> {
        check(self.length.is_none() && record.len() == 2, record.wrong())?;
        self.length = Some(record.count(1)?);
        Ok(())
    }

    /// Whether the next record may be one of the history.
    fn is_in_history(&self) -> bool {
        self.length.is_some() && self.ends.is_empty() && self.answers.is_empty()
    }

    fn add_entry(&mut self, alloc: Global, record: Record<'a>) -> Result<(), Wrong> {
        let is_next = record.count(1)? == self.entries.len();
        check(self.is_in_history() && is_next, record.wrong())?;
        self.entries.push(Entry::read(alloc, record)?)?;
        Ok(())
    }

    fn add_change(&mut self, alloc: Global, record: &Record<'a>) -> Result<(), Wrong> {
        let is_of_last = record.count(1)?.checked_add(1) == Some(self.entries.len());
        check(self.is_in_history() && is_of_last, record.wrong())?;
        match self.entries.last_mut() {
            Some(entry) => entry.changes.push(Change::read(alloc, record)?)?,
            None => return Err(record.wrong()),
        }
        Ok(())
    }

    fn add_end(&mut self, record: &Record<'a>) -> Result<(), Wrong> {
        let is_next = record.count(1)?.checked_sub(FIRST_WORKER) == Some(self.ends.len());
        check(is_next && self.answers.is_empty(), record.wrong())?;
        self.ends.push(end_of(record)?)?;
        Ok(())
    }

    fn add_place(&mut self, alloc: Global, record: &Record<'a>) -> Result<(), Wrong> {
        check(self.length.is_some() && record.len() == 3, record.wrong())?;
        let place = record.count(2)?;
        self.answers
            .push(Answer::new(alloc, record.count(1)?, Some(place)))?;
        Ok(())
    }

    fn add_mark(&mut self, record: &Record<'a>) -> Result<(), Wrong> {
        let line = record.count(1)?;
        match self.answers.last_mut() {
            Some(answer) => {
                check(
                    answer.line == line && answer.records.is_empty(),
                    record.wrong(),
                )?;
                answer.marks.push(mark_of(record)?)?;
                Ok(())
            }
            None => Err(record.wrong()),
        }
    }

    fn add_reply(&mut self, alloc: Global, record: Record<'a>) -> Result<(), Wrong> {
        let line = record.count(0)?;
        if self.length.is_none() {
            self.prelude.push(record)?;
            return Ok(());
        }
        let is_begun = match self.answers.last() {
            Some(answer) => answer.line == line,
            None => false,
        };
        if !is_begun {
            self.answers.push(Answer::new(alloc, line, None))?;
        }
        match self.answers.last_mut() {
            Some(answer) => answer.records.push(record)?,
            None => return Err(record.wrong()),
        }
        Ok(())
    }
}
