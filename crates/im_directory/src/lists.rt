ghost use Rattle.std.specs.Prelude.{◌≡◌, [], IfSome, None, OnOk};
ghost use Rattle.im_tables.specs.Flags.{IsLeast, NoneUp};
ghost use Rattle.im_directory.specs.inner.Listed.{HasMarks, KeepsMarks, marks_at, with_marks};

use crate::marks::Marks;
use im_tables::Flags;
use im_values::NoMemory;
use std::alloc::Global;

/// The extents of each table that are taken, due, stale, and waiting, so that the first one is found at once.
#[derive(Drop)]
pub struct Lists {
    pub taken: Flags,
    pub due: Flags,
    pub stale: Flags,
    pub waiting: Flags,
    /// More than the number of any table that has an extent.
    pub tables: u64,
}

impl Lists {
    /// No extents. It takes no memory.
    pub fn new(alloc: Global) -> Lists
        ensures { result ≡ record { taken = []; due = []; stale = []; waiting = []; tables = 0 } }
    {
        Lists {
            taken: Flags::new(alloc),
            due: Flags::new(alloc),
            stale: Flags::new(alloc),
            waiting: Flags::new(alloc),
            tables: 0,
        }
    }

    /// Makes room for the marks of an extent, and of those of its table before it. After an error some of it may be there.
    pub fn reserve(&mut self, table: u32, extent: u64) -> Result<(), NoMemory>
        ensures same { KeepsMarks self.old self.new }
        ensures there { OnOk result (HasMarks self.new table extent) }
    {
        self.tables = self.tables.max(table as u64 + 1);
        self.taken.reserve(table, extent)?;
        self.due.reserve(table, extent)?;
        self.stale.reserve(table, extent)?;
        self.waiting.reserve(table, extent)
    }

    /// Puts the marks of an extent. It takes no memory.
    pub fn put(&mut self, table: u32, extent: u64, marks: Marks)
        requires { HasMarks self.old table extent }
        ensures { self.new ≡ with_marks table extent marks self.old }
    {
        self.taken.put(table, extent, marks.taken);
        self.due.put(table, extent, marks.due);
        self.stale.put(table, extent, marks.stale);
        self.waiting.put(table, extent, marks.waits);
    }
}
