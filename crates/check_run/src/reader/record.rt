// The records of a report.
use super::wrong::Wrong;
use std::alloc::Global;

/// A value of a column of numbers, if it is not NULL.
pub type Value = Option<i64>;

/// A record of a report.
#[derive(Drop)]
pub struct Record<'a> {
    /// Which record it is, from 1.
    number: usize,
    fields: Vec<&'a str>,
}

impl<'a> Record<'a> {
    /// The record that a line of text is, without quotes.
    pub fn read(alloc: Global, number: usize, line: &'a str) -> Result<Record<'a>, Wrong> {
        let mut fields = Vec::new(alloc);
        for field in line.split(',') {
            fields.push(field)?;
        }
        Ok(Record { number, fields })
    }

    /// That this record may not stand where it stands.
    pub fn wrong(&self) -> Wrong {
        Wrong::Record(self.number)
    }

    /// How many fields it has.
    pub fn len(&self) -> usize {
        self.fields.len()
    }

    /// A field, or nothing past the last one.
    pub fn field(&self, at: usize) -> &'a str {
        self.fields.get(at).copied().unwrap_or("")
    }

    /// Whether a field is this number.
    pub fn is_number(&self, at: usize, number: usize) -> bool {
        self.field(at).parse::<usize>() == Ok(number)
    }

    /// Whether it answers with this word and these numbers, and with no more.
    pub fn says(&self, word: &str, numbers: &[usize]) -> bool {
        let mut is_so = self.field(1) == word && self.len() == numbers.len().saturating_add(2);
        for (at, number) in numbers.iter().enumerate() {
            is_so = is_so && self.is_number(at.saturating_add(2), *number);
        }
        is_so
    }

    /// The number that is a field.
    pub fn count(&self, at: usize) -> Result<usize, Wrong> {
        match self.field(at).parse::<usize>() {
            Ok(count) => Ok(count),
            Err(_) => Err(self.wrong()),
        }
    }

    /// The value that is a field.
    pub fn value(&self, at: usize) -> Result<Value, Wrong> {
        let text = self.field(at);
        if text.is_empty() {
            return Ok(None);
        }
        match text.parse::<i64>() {
            Ok(value) => Ok(Some(value)),
            Err(_) => Err(self.wrong()),
        }
    }
}
