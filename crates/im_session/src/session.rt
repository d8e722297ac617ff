ghost use Rattle.std.specs.Prelude.{◌≡◌, ◌<◌, [], true, false, OnOk, OnErr};
ghost use Rattle.im_history.specs.Leaves.{has_left};
ghost use Rattle.im_reach.specs.Sides.{speaks};
ghost use Rattle.im_session.specs.Ends.{IsEnded, end_plan, end_without_leave};
ghost use Rattle.im_session.specs.Reads.{IsCounted, reading_of};
ghost use Rattle.im_session.specs.Sessions.{Agrees, IsStatementPlayed, state_of};
ghost use Rattle.im_syntax.specs.Rules.{IsStmt};

use crate::context::Context;
use crate::cursor::Cursor;
use crate::ending::{close_each, leave, roll_back_open};
use crate::playing::run;
use crate::transaction::is_open_after;
use im_edge::{Gate, Outside};
use im_reach::Reach;
use im_replies::Reply;
use im_syntax::Stmt;
use im_unit::ColumnUnit;
use im_values::limits::NUMBERS;
use im_values::{NoMemory, Steps};
use std::alloc::Global;
use std::marker::Model;
use std::sync::Wait;
use std::sync::ledger::Ledger;
use std::thread::Threads;

/// A session: its number, the cursors that it has open, and whether its transaction is.
#[derive(Drop)]
pub struct Session {
    alloc: Global,
    who: u32,
    cursors: Vec<Cursor>,
    in_transaction: bool,
}

impl Model for Session {
    ghost use Rattle.std.specs.Prelude.{ℕ, Bool, List, refl};
    ghost use Rattle.std.specs.Coded.{code_by, coded_bool, coded_list, coded_ℕ, coded×};
    ghost use Rattle.im_session.specs.contracts.cursor.Cursor as cursor;
    ghost use Rattle.im_session.specs.declared.cursor.Cursor.{Cursor};
    ghost use Rattle.im_session.specs.Sessions.{Kept};

    ghost Value = { Kept };

    ghost coded = { code_by (ℕ × (List Cursor × Bool)) (coded× coded_ℕ (coded× (coded_list cursor.the_row.coded) coded_bool))
        (λ kept. (kept.who, (kept.cursors, kept.in_transaction)))
        (λ parts. record { who = parts.0; cursors = parts.1.0; in_transaction = parts.1.1 }) (λ kept. refl) };

    ghost view = { λ s. record { who = s.who; cursors = s.cursors.items; in_transaction = s.in_transaction } };
}

impl Session {
    /// The session of a number, which has no cursor and no transaction open. It takes no memory.
    pub fn new(alloc: Global, who: u32) -> Session
        ensures { result ≡ record { who = who; cursors = []; in_transaction = false } }
    {
        Session {
            alloc,
            who,
            cursors: Vec::new(alloc),
            in_transaction: false,
        }
    }

    /// Plays one statement, and answers it.
    ///
    /// A statement of the background is not a session's: nothing is done, and the reply says so. The gate is called before and
    /// after each extent that a scan is served, outside the store's turn. Each row that is read from the blocks is one step at
    /// most: no more than the marks of the reply tell of, and where memory is out no extent twice.
    pub fn execute<R: Threads + Wait + Sync, H: Reach<ColumnUnit>, G: Gate, L: Ledger>(
        &mut self,
        outside: &Outside<R, G>,
        reach: &mut H,
        statement: &Stmt,
        steps: &mut Steps<L>,
    ) -> Reply
        requires session { self.old.who < NUMBERS }
        requires speaks { speaks (H.known reach.old).side self.old.who ≡ true }
        requires statement { IsStmt statement.now }
        requires agrees { Agrees self.old (H.known reach.old) }
        ensures played { IsStatementPlayed statement.now self.old (H.known reach.old) result self.new (H.known reach.new) }
        ensures agrees { Agrees self.new (H.known reach.new) }
        ensures ticks { IsCounted (reading_of statement.now) (state_of self.old.cursors) self.old.who result steps.old steps.new
            (H.known reach.old).log (H.known reach.new).log }
    {
        let before = self.in_transaction;
        let context = Context {
            outside,
            who: self.who,
        };
        let reply = run(&context, reach, &mut self.cursors, statement, steps);
        self.in_transaction = is_open_after(statement, &reply, before);
        reply
    }

    /// Ends the session: its cursors are closed in rising order, its transaction is rolled back where one is open, and it leaves.
    /// Then it keeps no cursor and no transaction.
    ///
    /// Only leaving takes memory. Where that is out, all else is done, and the session may be ended again.
    pub fn end<R: Wait, H: Reach<ColumnUnit>>(
        &mut self,
        rt: &R,
        reach: &mut H,
    ) -> Result<(), NoMemory>
        requires session { self.old.who < NUMBERS }
        requires speaks { speaks (H.known reach.old).side self.old.who ≡ true }
        requires agrees { Agrees self.old (H.known reach.old) }
        requires stays { has_left (H.known reach.old).log self.old.who ≡ false }
        ensures ok { OnOk result (IsEnded self.old.who (H.known reach.old) (end_plan self.old.who) (H.known reach.new)) }
        ensures err { OnErr result (IsEnded self.old.who (H.known reach.old) (end_without_leave self.old.who) (H.known reach.new)) }
        ensures stays { OnErr result (has_left (H.known reach.new).log self.old.who ≡ false) }
        ensures kept { self.new ≡ record { who = self.old.who; cursors = []; in_transaction = false } }
        ensures agrees { Agrees self.new (H.known reach.new) }
    {
        close_each(rt, reach, self.who, &mut self.cursors);
        roll_back_open(rt, reach, self.who, self.in_transaction);
        self.in_transaction = false;
        leave(rt, reach, self.who)
    }
}
