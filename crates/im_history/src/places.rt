ghost use Rattle.std.specs.Prelude.{◌≡◌, ◌<◌, ◌+◌, ◌==◌, ◌^◌, ℕ, [], length, slice_get, Some, OnOk, if◌then◌else◌};
ghost use Rattle.im_values.specs.declared.limits.TheConstants.{NUMBERS};
ghost use Rattle.im_history.specs.inner.Places.{ArePlaces, AreNoted, AreRoomier, HaveRoom, head_of};

use crate::entry::What;
use im_values::NoMemory;
use im_values::limits::NUMBERS;
use std::alloc::Global;

/// Where the commits of a history are, and the writes of each: so a commit is found without reading what is before it.
///
/// The places of writes are counted from 1, and 0 is none. Each entry has a link to the last write that was pending before it
/// of the same session, so that the writes of a commit are a chain, the last of them first.
#[derive(Drop)]
pub(crate) struct Places {
    /// The link of each entry.
    links: Vec<u64>,
    /// The places of the entries that commit something, from 0.
    commits: Vec<u64>,
    /// The last write that is pending of whoever has a number.
    heads: [u64; NUMBERS as usize],
}

impl Places {
    /// Those of the empty history. It takes no memory.
    pub(crate) fn new(alloc: Global) -> Places
        ensures places { ArePlaces result [] }
        ensures room { HaveRoom result 0 }
    {
        Places {
            links: Vec::new(alloc),
            commits: Vec::new(alloc),
            heads: [0; NUMBERS as usize],
        }
    }

    /// Makes room for so many entries.
    pub(crate) fn reserve(&mut self, room: u64) -> Result<(), NoMemory>
        ensures same { AreRoomier self.old self.new }
        ensures ok { OnOk result (HaveRoom self.new room) }
    {
        self.links.reserve(room as usize)?;
        self.commits.reserve(room as usize)?;
        Ok(())
    }

    /// Notes the next entry. It takes no memory.
    pub(crate) fn note(&mut self, who: u32, what: &What)
        requires room { HaveRoom self.old 1 }
        ensures noted { AreNoted self.old self.new who what.now }
        ensures room { (room : ℕ) → HaveRoom self.old (room + 1) → HaveRoom self.new room }
    {
        let place = self.links.len() as u64;
        let head = self.head(who);
        if what.moves_clock() {
            self.commits.push(place).unwrap();
        }
        self.links.push(head).unwrap();
        match what {
            What::Write { .. } => self.set_head(who, place + 1),
            What::Commit | What::Rollback => self.set_head(who, 0),
            _ => {}
        }
    }

    /// The last pending write of whoever has this number.
    fn head(&self, who: u32) -> u64
        ensures { result ≡ head_of self.now.heads who }
    {
        match self.heads.get(who as usize) {
            Some(head) => *head,
            None => 0,
        }
    }

    fn set_head(&mut self, who: u32, head: u64)
        ensures links { self.new.links ≡ self.old.links }
        ensures commits { self.new.commits ≡ self.old.commits }
        ensures heads { (other : ℕ) → other < NUMBERS →
            head_of self.new.heads other ≡ (if who == other then head else head_of self.old.heads other) }
    {
        if who < NUMBERS {
            self.heads[who as usize] = head;
        }
    }

    /// How many entries commit something.
    pub(crate) fn commits(&self) -> u64
        ensures commits { result ≡ length self.now.commits.items }
        ensures few { result < 2 ^ 63 }
    {
        self.commits.len() as u64
    }

    /// The place of an entry that commits something, by its place among those.
    pub(crate) fn commit(&self, place: u64) -> u64
        requires { place < length self.now.commits.items }
        ensures { slice_get self.now.commits.items place ≡ Some result }
    {
        self.commits[place as usize]
    }

    /// The link of the entry at a place.
    pub(crate) fn link(&self, place: u64) -> u64
        requires { place < length self.now.links.items }
        ensures { result ≡ head_of self.now.links.items place }
    {
        self.links[place as usize]
    }
}
