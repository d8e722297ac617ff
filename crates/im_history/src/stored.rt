ghost use Rattle.std.specs.Prelude.{◌≡◌, ◌==◌, List, ◌+◌, ◌-◌, ◌^◌, ◌<◌, ◌≤◌, [], ◌∷◌, ◌++◌, length, max, slice_get, take, All, Some, IfOk, OnOk, OnErr};
ghost use Rattle.im_values.specs.declared.limits.TheConstants.{NUMBERS};
ghost use Rattle.im_history.specs.Commits.{member_at, scn, writes, writes_of};
ghost use Rattle.im_history.specs.declared.change.Change.{Change};
ghost use Rattle.im_history.specs.declared.entry.Entry.{Entry as AnyEntry};
ghost use Rattle.im_history.specs.declared.entry.What.TheVariants.{Write};
ghost use Rattle.im_history.specs.Puts.{all_changes};
ghost use Rattle.im_history.specs.Transactions.{pending};

use crate::changes::Changes;
use crate::entry::{Entry, What};
use crate::member::{AllChanges, Member};
use crate::places::Places;
use im_values::{NoMemory, Steps};
use std::alloc::Global;
use std::marker::Model;
use std::sync::ledger::Ledger;

/// The recorded history: a list of entries that only grows.
///
/// Contracts see its entries and its spare room, the number of entries that [`History::append`] can add without taking
/// memory.
#[derive(Drop)]
pub struct History {
    entries: Vec<Entry>,
    spare: u64,
    places: Places,
}

impl Model for History {
    ghost use Rattle.im_history.specs.Stored.{Stored};

    ghost Value = { Stored };

    ghost use Rattle.std.specs.Prelude.{◌+◌, ◌≤◌, vec_len, vec_capacity};
    ghost use Rattle.im_history.specs.inner.Places.{ArePlaces, HaveRoom};

    ghost view = { λ h. record { entries = h.entries.items; spare = h.spare } };

    ghost invariant = { λ h. (vec_len h.entries + h.spare ≤ vec_capacity h.entries)
        × HaveRoom h.places h.spare
        × ArePlaces h.places h.entries.items };
}

impl History {
    /// A history without entries and without spare room. It takes no memory.
    pub fn new(alloc: Global) -> History
        ensures { result ≡ record { entries = []; spare = 0 } }
    {
        History {
            entries: Vec::new(alloc),
            spare: 0,
            places: Places::new(alloc),
        }
    }

    /// Makes room for so many entries, unless there is as much.
    pub fn reserve(&mut self, room: u64) -> Result<(), NoMemory>
        ensures ok { OnOk result (self.new ≡ record self.old { spare = max self.old.spare room }) }
        ensures err { OnErr result (self.new ≡ self.old) }
    {
        if room <= self.spare {
            return Ok(());
        }
        self.entries.reserve(room as usize)?;
        self.places.reserve(room)?;
        self.spare = room;
        Ok(())
    }

    /// Adds an entry at the end. It takes no memory.
    pub fn append(&mut self, entry: Entry)
        requires { 0 < self.old.spare }
        ensures added { self.new ≡ record { entries = self.old.entries ++ entry ∷ []; spare = self.old.spare - 1 } }
        ensures few { length self.new.entries < 2 ^ 63 }
    {
        self.spare -= 1;
        self.places.note(entry.who, &entry.what);
        self.entries.push(entry).unwrap();
    }

    /// The entry at a place, from 0. Reading it is one step.
    pub fn entry<L: Ledger>(&self, place: u64, steps: &mut Steps<L>) -> &Entry
        requires { place < length self.now.entries }
        ensures entry { slice_get self.now.entries place ≡ Some result.now }
        ensures next { take (place + 1) self.now.entries ≡ take place self.now.entries ++ result.now ∷ [] }
        ensures step { steps.new ≡ steps.old + 1 }
    {
        steps.tick();
        &self.entries[place as usize]
    }

    /// The present SCN.
    pub fn scn(&self) -> u64
        ensures scn { result ≡ scn self.now.entries }
        ensures few { result < 2 ^ 63 }
    {
        self.places.commits()
    }

    /// How many entries there are.
    pub fn len(&self) -> u64
        ensures { result ≡ length self.now.entries }
    {
        self.entries.len() as u64
    }

    /// Whether there is no entry.
    pub fn is_empty(&self) -> bool
        ensures { result ≡ (length self.now.entries == 0) }
    {
        self.entries.is_empty()
    }

    /// Commit n, from 1 on, once more: its rows are shared. Reading it is a step, and one more for each write of it.
    ///
    /// It costs that, and not what came before. It is refused where a row is shared as often as one can be.
    pub fn member<L: Ledger>(
        &self,
        alloc: Global,
        n: u64,
        steps: &mut Steps<L>,
    ) -> Result<Member, NoMemory>
        requires numbers { All (λ entry. entry.who < NUMBERS) self.now.entries }
        requires first { 1 ≤ n }
        requires last { n ≤ scn self.now.entries }
        ensures member { IfOk result (λ member. member_at self.now.entries n ≡ Some member) }
        ensures steps { steps.new ≤ steps.old + 1 + writes_of self.now.entries n }
    {
        let place = self.places.commit(n - 1);
        let entry = self.entry(place, steps);
        match &entry.what {
            What::Create {
                name,
                schema,
                shape,
            } => Member::created(alloc, name, schema, *shape),
            What::Add {
                table,
                column,
                default,
            } => Member::added(alloc, *table, column, default),
            _ => {
                let writes = self.writes_before(alloc, place, steps)?;
                Ok(Member::Changes(AllChanges::of(writes)))
            }
        }
    }

    /// The writes that were pending before the entry at a place, of the same session, the first one first.
    fn writes_before<L: Ledger>(
        &self,
        alloc: Global,
        place: u64,
        steps: &mut Steps<L>,
    ) -> Result<Vec<Changes>, NoMemory>
        requires numbers { All (λ entry. entry.who < NUMBERS) self.now.entries }
        requires within { place < length self.now.entries }
        ensures writes { IfOk result (λ writes. (entry : AnyEntry) → slice_get self.now.entries place ≡ Some entry →
            all_changes writes.items ≡ pending (take place self.now.entries) entry.who) }
        ensures steps { (entry : AnyEntry) → slice_get self.now.entries place ≡ Some entry →
            steps.new ≤ steps.old + writes (take place self.now.entries) entry.who }
    {
        let mut pending = Vec::new(alloc);
        let mut at = self.places.link(place);
        while at > 0 {
            let entry = self.entry(at - 1, steps);
            push_write(alloc, &mut pending, &entry.what)?;
            at = self.places.link(at - 1);
        }
        pending.reverse();
        Ok(pending)
    }
}

/// Adds the changes that an entry writes, shared.
fn push_write(alloc: Global, writes: &mut Vec<Changes>, what: &What) -> Result<(), NoMemory>
    ensures { OnOk result ((changes : List Change) → what.now ≡ Write changes → writes.new.items ≡ writes.old.items ++ changes ∷ []) }
{
    if let What::Write { changes } = what {
        writes.push(changes.share(alloc)?)?;
    }
    Ok(())
}
