ghost use Rattle.std.specs.Prelude.{◌≡◌, ◌<◌, [], false, true, length, IfSome, None, OnOk};
ghost use Rattle.im_tables.specs.Flags.{IsLeast, NoneUp};
ghost use Rattle.im_tables.specs.Table.{HasCell, IsGrown, IsPadded, cell_at, with_cell};

use crate::flag_line::FlagLine;
use im_values::NoMemory;
use std::alloc::Global;
use std::marker::Model;

/// A flag for each number of each table, up or down.
#[derive(Drop)]
pub struct Flags {
    alloc: Global,
    lines: Vec<FlagLine>,
}

impl Model for Flags {
    ghost use Rattle.std.specs.Prelude.{List, Bool};

    ghost Value = { List (List Bool) };

    ghost view = { λ f. f.lines.items };
}

impl Flags {
    /// No flags. It takes no memory.
    pub fn new(alloc: Global) -> Flags
        ensures { result ≡ [] }
    {
        Flags {
            alloc,
            lines: Vec::new(alloc),
        }
    }

    /// Whether the flag of a number of a table is up; past the ends it is down.
    pub fn get(&self, table: u32, number: u64) -> bool
        ensures { result ≡ cell_at false self.now table number }
    {
        match self.lines.get(table as usize) {
            Some(line) => line.get(number),
            None => false,
        }
    }

    /// Puts the flag of a number of a table that is there. It takes no memory.
    ///
    /// Where a least number gives way to a greater one, it costs a step for each 64 numbers between them, and nothing more.
    pub fn put(&mut self, table: u32, number: u64, flag: bool)
        requires { HasCell self.old table number }
        ensures { self.new ≡ with_cell table number flag self.old }
    {
        self.lines[table as usize].put(number, flag);
    }

    /// The least number of a table whose flag is up, found at once.
    pub fn first_up(&self, table: u32) -> Option<u64>
        ensures up { IfSome result (λ number. IsLeast true self.now table number) }
        ensures none { result ≡ None → NoneUp self.now table }
    {
        self.lines.get(table as usize)?.first_up()
    }

    /// The least number of a table whose flag is down, found at once. There is always one.
    pub fn first_down(&self, table: u32) -> u64
        ensures { IsLeast false self.now table result }
    {
        match self.lines.get(table as usize) {
            Some(line) => line.first_down(),
            None => 0,
        }
    }

    /// Makes flags up to a number of a table, down where they are new. After an error some of them may be there.
    ///
    /// It costs a word of memory for each 64 flags that are new. Numbers from 2^64 - 64 on get no flag: it says then that memory lacks.
    pub fn reserve(&mut self, table: u32, number: u64) -> Result<(), NoMemory>
        ensures same { IsGrown false self.old self.new }
        ensures there { OnOk result (HasCell self.new table number) }
    {
        self.grow(table)?;
        self.lines[table as usize].grow(number)
    }

    /// Adds tables without flags until there is one of this number.
    fn grow(&mut self, table: u32) -> Result<(), NoMemory>
        ensures same { IsPadded [] self.old self.new }
        ensures there { OnOk result (table < length self.new) }
    {
        while self.lines.len() <= table as usize {
            self.lines.push(FlagLine::new(self.alloc))?;
        }
        Ok(())
    }
}
