// The lines of a script, as far as they matter here.
use super::entry::FIRST_WORKER;
use super::record::Value;
use super::wrong::Wrong;
use std::alloc::Global;

/// What a query asks of all rows of a table.
#[derive(Clone, Copy)]
pub enum Query<'a> {
    Count { table: &'a str },
    Sum { column: &'a str, table: &'a str },
}

/// A line that has a reply.
#[derive(Drop)]
pub struct Line<'a> {
    pub number: usize,
    /// Who speaks in it: the number of a session, or 0 for the background.
    pub who: Option<usize>,
    words: Vec<&'a str>,
}

/// A script: the lines before the race, and those of the race.
#[derive(Drop)]
pub struct Script<'a> {
    pub prelude: Vec<Line<'a>>,
    pub race: Vec<Line<'a>>,
}

/// The sum or the count of a whole table that an item asks for.
fn query_for<'a>(item: &'a str, table: &'a str) -> Option<Query<'a>> {
    if item == "COUNT(*)" {
        return Some(Query::Count { table });
    }
    let column = item.strip_prefix("SUM(")?.strip_suffix(")")?;
    Some(Query::Sum { column, table })
}

/// The query that words spell, where it is a sum or a count of a whole table, perhaps as of an SCN.
fn query_of<'a>(words: &[&'a str]) -> Option<Query<'a>> {
    match words {
        ["SELECT", item, "FROM", table] => query_for(item, table),
        ["SELECT", item, "FROM", table, "AS", "OF", "SCN", _] => query_for(item, table),
        _ => None,
    }
}

/// The number of who speaks by a line prefix.
fn who_of(prefix: &str) -> Option<usize> {
    if prefix == "bg" {
        return Some(0);
    }
    prefix.parse::<usize>().ok()
}

impl<'a> Line<'a> {
    /// The line of a number, which has this text.
    fn read(alloc: Global, number: usize, text: &'a str) -> Result<Line<'a>, Wrong> {
        let (prefix, statement) = text.split_once('>').unwrap_or(("", text));
        let mut words = Vec::new(alloc);
        for word in statement.split_whitespace() {
            words.push(word)?;
        }
        Ok(Line {
            number,
            who: who_of(prefix.trim()),
            words,
        })
    }

    /// A word of its statement, or nothing past the last one.
    pub fn word(&self, at: usize) -> &'a str {
        self.words.get(at).copied().unwrap_or("")
    }

    /// The first word of its statement.
    pub fn verb(&self) -> &'a str {
        self.word(0)
    }

    /// The cursor that it scans by: that of a statement's own scan is cursor 0.
    pub fn cursor(&self) -> usize {
        match self.verb() {
            "STEP" | "FETCH" => self.word(1).parse::<usize>().unwrap_or(0),
            _ => 0,
        }
    }

    /// The SCN that its query names, if it names one.
    pub fn scn(&self) -> Option<usize> {
        let at = self.words.iter().position(|word| *word == "AS")?;
        self.word(at.saturating_add(3)).parse::<usize>().ok()
    }

    /// The value that a word is, in brackets or not.
    fn value(&self, at: usize) -> Value {
        let word = self.word(at);
        let word = word.strip_suffix(",").unwrap_or(word);
        let word = word.strip_suffix(")").unwrap_or(word);
        word.strip_prefix("(").unwrap_or(word).parse::<i64>().ok()
    }

    /// The table that it writes to.
    pub fn written(&self) -> &'a str {
        self.word(if self.verb() == "UPDATE" { 1 } else { 2 })
    }

    /// How many rows an INSERT has.
    pub fn rows(&self) -> usize {
        self.words.len().saturating_sub(4)
    }

    /// The value of a row of an INSERT.
    pub fn inserted(&self, row: usize) -> Value {
        self.value(row.saturating_add(4))
    }

    /// The value that an UPDATE puts into each row that it finds: a DELETE puts none.
    pub fn put(&self) -> Option<Value> {
        match self.verb() {
            "UPDATE" => Some(self.value(5)),
            _ => None,
        }
    }

    /// The value that an UPDATE or a DELETE asks for.
    pub fn asked(&self) -> Value {
        match self.verb() {
            "UPDATE" => self.value(9),
            "DELETE" => self.value(6),
            _ => None,
        }
    }

    /// The word of its reply, unless it is refused.
    pub fn reply(&self) -> &str {
        match self.verb() {
            "CREATE" => "created",
            "ALTER" => "altered",
            "INSERT" => "inserted",
            "UPDATE" => "updated",
            "DELETE" => "deleted",
            "SELECT" | "FETCH" => "answer",
            "COMMIT" => "committed",
            "ROLLBACK" => "rolled-back",
            "OPEN" => "opened",
            "STEP" => "served",
            "CLOSE" => "closed",
            "PURGE" => "purged",
            _ => "error",
        }
    }

    /// Whether it opens this cursor of this session.
    fn opens(&self, who: usize, cursor: usize) -> bool {
        self.who == Some(who)
            && self.verb() == "OPEN"
            && self.word(1).parse::<usize>() == Ok(cursor)
    }

    /// The query that it has.
    fn query(&self) -> Option<Query<'a>> {
        let words = self.words.as_slice();
        match self.verb() {
            "OPEN" => query_of(words.get(3..)?),
            _ => query_of(words),
        }
    }
}

impl<'a> Script<'a> {
    /// Reads a text, line by line. Blank lines, comments and each `race>` have no reply.
    pub fn read(alloc: Global, text: &'a str) -> Result<Script<'a>, Wrong> {
        let mut script = Script {
            prelude: Vec::new(alloc),
            race: Vec::new(alloc),
        };
        let mut is_race = false;
        for (index, text) in text.lines().enumerate() {
            let text = text.trim();
            if text == "race>" {
                is_race = true;
            } else if !text.is_empty() && !text.starts_with("--") {
                script.add(is_race, Line::read(alloc, index.saturating_add(1), text)?)?;
            }
        }
        Ok(script)
    }

    fn add(&mut self, is_race: bool, line: Line<'a>) -> Result<(), Wrong> {
        if is_race {
            self.race.push(line)?;
        } else {
            self.prelude.push(line)?;
        }
        Ok(())
    }

    /// Whether a session speaks in the race. The background does not.
    pub fn plays(&self, who: usize) -> bool {
        who > 0 && self.race.iter().any(|line| line.who == Some(who))
    }

    /// How many sessions speak in the race.
    pub fn sessions(&self) -> usize {
        (1..FIRST_WORKER).filter(|who| self.plays(*who)).count()
    }

    /// The query that a line of a session answers: its own, or for FETCH that of its cursor.
    pub fn query(&self, line: &Line<'a>, who: usize) -> Option<Query<'a>> {
        if line.verb() != "FETCH" {
            return line.query();
        }
        let mut found = None;
        for other in self.prelude.iter().chain(self.race.iter()) {
            if other.number < line.number && other.opens(who, line.cursor()) {
                found = other.query();
            }
        }
        found
    }
}
