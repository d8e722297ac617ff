ghost use Rattle.std.specs.Prelude.{◌≡◌, ◌+◌, ◌*◌, ◌^◌, ◌<◌, ◌≤◌, length, None, IfOk, IfErr, OnOk, OnErr};
ghost use Rattle.std.specs.Option.{option_or};
ghost use Rattle.im_history.specs.declared.entry.What.TheVariants as what;
ghost use Rattle.im_history.specs.Legal.{Exists, MayWrite, IsAllowed, put_from};
ghost use Rattle.im_history.specs.Refusals.{altered, insert_refusal, write_refusal};
ghost use Rattle.im_history.specs.Tables.{tables, given};
ghost use Rattle.im_history.specs.Weights.{changes_weight, weight};
ghost use Rattle.im_core.specs.Answers.{IsRefusal, MayPut, cursor_view};
ghost use Rattle.im_core.specs.inner.Kept.{Gives};
ghost use Rattle.im_core.specs.Seen.{Adds};

use crate::answers::Wrote;
use crate::store::{Core, owed};
use crate::weights::weight_of;
use im_history::{Change, Changes, Entry, Opening, Refused, UnitLike, What, Who, Why};
use im_values::limits::{CHANGE_WEIGHT, MOST_ROWS, NUMBERS};
use im_values::{NoMemory, Rows};

impl<U: UnitLike> Core<U> {
    /// Inserts rows into a table, at its next row numbers. It is refused where the table has got columns since the caller saw it, then
    /// where the transaction is READ ONLY, then where it would have too many changes, and then where the store would be too full.
    pub fn insert(&mut self, who: u32, opening: Opening, rows: Rows) -> Result<Wrote, Refused>
        requires session { who < NUMBERS }
        requires may { MayPut self.old.log opening rows }
        ensures ok { OnOk result (Adds self.old who
            (what.Write (put_from opening.table (given self.old.log opening.table) rows)) self.new) }
        ensures seen { OnOk result (altered self.old.log opening.table opening.columns ≡ None) }
        ensures allowed { OnOk result (insert_refusal self.old.limits self.old.log who
            (put_from opening.table (given self.old.log opening.table) rows) ≡ None) }
        ensures wrote { IfOk result (λ wrote. wrote ≡ record {
          place = length self.old.log;
          first = given self.old.log opening.table;
        }) }
        ensures err { OnErr result (self.new ≡ self.old) }
        ensures refused { IfErr result (λ why. IsRefusal self.old.log (option_or (altered self.old.log opening.table opening.columns)
            (insert_refusal self.old.limits self.old.log who
            (put_from opening.table (given self.old.log opening.table) rows))) why) }
    {
        let caller = Who::of(who);
        if let Some(why) = self.altered(opening) {
            return Err(self.refused(why));
        }
        let table = opening.table;
        let first = self.given_of(table);
        let Ok(count) = given_with(first, rows.len()) else {
            return Err(self.refused(Why::NoMemory));
        };
        let changes = Changes::put(table, first, rows);
        let Ok(weight) = weight_of(&changes) else {
            return Err(self.refused(Why::NoMemory));
        };
        if let Some(why) = self.insert_refusal(caller, &changes, weight) {
            return Err(self.refused(why));
        }
        match self.record_write(caller, table, count, changes, weight) {
            Ok(place) => Ok(Wrote { place, first }),
            Err(NoMemory) => Err(self.refused(Why::NoMemory)),
        }
    }

    /// Writes changes to rows that an open cursor saw, and answers the place of the entry. It is refused where the
    /// transaction is READ ONLY; then where another session has a change to such a row pending; then where a commit after
    /// the cursor's SCN touched such a row; and then as an insert is.
    pub fn write(&mut self, who: u32, cursor: u32, changes: Vec<Change>) -> Result<u64, Refused>
        requires session { who < NUMBERS }
        requires may { MayWrite self.old.log who cursor changes.items }
        ensures ok { OnOk result (Adds self.old who (what.Write changes.items) self.new) }
        ensures allowed { OnOk result (write_refusal self.old.limits self.old.log who
            (cursor_view self.old.log who cursor).scn changes.items ≡ None) }
        ensures place { IfOk result (λ place. place ≡ length self.old.log) }
        ensures err { OnErr result (self.new ≡ self.old) }
        ensures refused { IfErr result (λ why. IsRefusal self.old.log (write_refusal self.old.limits self.old.log who
            (cursor_view self.old.log who cursor).scn changes.items) why) }
    {
        let caller = Who::of(who);
        let view = self.sessions.cursor(caller, cursor).unwrap();
        let changes = Changes::of(changes);
        let Ok(weight) = weight_of(&changes) else {
            return Err(self.refused(Why::NoMemory));
        };
        if let Some(cause) = self.write_refusal(caller, view.scn, &changes, weight) {
            return Err(self.refused(cause));
        }
        let count = self.given_of(view.table);
        match self.record_write(caller, view.table, count, changes, weight) {
            Ok(place) => Ok(place),
            Err(NoMemory) => Err(self.refused(Why::NoMemory)),
        }
    }

    /// How many row numbers of a table were given.
    pub(crate) fn given_of(&self, table: u32) -> u64
        requires { Exists self.now.log table }
        ensures given { result ≡ given self.now.log table }
        ensures few { result ≤ MOST_ROWS }
        ensures light { given self.now.log table * CHANGE_WEIGHT ≤ weight self.now.log }
    {
        self.given[table as usize - 1]
    }

    /// Records changes to one table, of which so many row numbers are given then. The session has them pending, and the
    /// history keeps them once more: their rows are shared.
    fn record_write(
        &mut self,
        who: Who,
        table: u32,
        count: u64,
        changes: Changes,
        weight: u64,
    ) -> Result<u64, NoMemory>
        requires weight { weight ≡ changes_weight changes }
        requires table { (1 ≤ table) × (table ≤ length (tables self.old.log)) }
        requires allowed { IsAllowed self.old.limits self.old.log who (what.Write changes) }
        requires gives { Gives self.old.log table changes count }
        ensures ok { OnOk result (Adds self.old who (what.Write changes) self.new) }
        ensures place { IfOk result (λ place. place ≡ length self.old.log) }
        ensures err { OnErr result (self.new ≡ self.old) }
    {
        let kept = changes.share(self.alloc)?;
        let beginning = self.beginning(who);
        self.sessions.reserve_write(who, &changes)?;
        self.history
            .reserve(owed(&self.sessions, &self.directory) + 2)?;
        let place = self.history.len();
        self.weight += weight;
        self.given[table as usize - 1] = count;
        self.beginnings[who.index()] = beginning;
        self.sessions.write(who, place, changes);
        self.history.append(Entry {
            who: who.number(),
            what: What::Write { changes: kept },
        });
        Ok(place)
    }
}

/// So many row numbers and these more. More than 2^63 have no room in memory.
fn given_with(given: u64, more: usize) -> Result<u64, NoMemory>
    ensures sum { IfOk result (λ count. count ≡ given + more) }
    ensures few { IfOk result (λ count. count ≤ 2 ^ 63) }
{
    match given.checked_add(more as u64) {
        Some(count) if count <= 1 << 63 => Ok(count),
        _ => Err(NoMemory),
    }
}
