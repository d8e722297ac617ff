ghost use Rattle.std.specs.Prelude.{◌≡◌, ◌<◌, ◌≤◌, [], true, All, IfSome, None, OnOk, OnErr, ⊤};
ghost use Rattle.std.specs.List.{list_any};
ghost use Rattle.im_history.specs.declared.entry.What.TheVariants as what;
ghost use Rattle.im_history.specs.Cursors.{opened};
ghost use Rattle.im_history.specs.Legal.{MayLeave};
ghost use Rattle.im_history.specs.Transactions.{is_open};
ghost use Rattle.im_reach.specs.Sides.{Added, Found, speaks};
ghost use Rattle.im_session.specs.Sessions.{AreApart, state_of};
ghost use Rattle.im_session.specs.inner.Ends.{IsClosing, IsRolledBack};
ghost use Rattle.im_session.specs.inner.Running.{is_number};
ghost use Rattle.im_statements.specs.Agreement.{AreQueriesOf};

use crate::cursor::{Cursor, forget};
use im_reach::Reach;
use im_unit::ColumnUnit;
use im_values::NoMemory;
use im_values::limits::NUMBERS;
use std::sync::Wait;

/// Closes the cursors of a session, in rising order, and keeps none. It takes no memory.
pub fn close_each<R: Wait, H: Reach<ColumnUnit>>(
    rt: &R,
    reach: &mut H,
    who: u32,
    cursors: &mut Vec<Cursor>,
)
    requires session { who < NUMBERS }
    requires speaks { speaks (H.known reach.old).side who ≡ true }
    requires queries { AreQueriesOf (state_of cursors.old.items).queries (opened (H.known reach.old).log who) }
    requires apart { AreApart cursors.old.items }
    ensures none { cursors.new.items ≡ [] }
    ensures closing { IsClosing who cursors.old.items (H.known reach.old) [] (H.known reach.new) }
{
    while let Some(number) = least(cursors.as_slice()) {
        reach.shut(rt, who, number);
        forget(cursors, number);
    }
}

/// The least number of the cursors that are kept.
fn least(cursors: &[Cursor]) -> Option<u32>
    ensures kept { IfSome result (λ number. list_any (is_number number) cursors.now ≡ true) }
    ensures least { IfSome result (λ number. All (λ kept. number ≤ kept.number) cursors.now) }
    ensures none { result ≡ None → cursors.now ≡ [] }
{
    cursors.iter().map(|kept| kept.number).min()
}

/// Rolls back what a session has pending, where a transaction of it is open. It takes no memory.
pub fn roll_back_open<R: Wait, H: Reach<ColumnUnit>>(
    rt: &R,
    reach: &mut H,
    who: u32,
    in_transaction: bool,
)
    requires session { who < NUMBERS }
    requires speaks { speaks (H.known reach.old).side who ≡ true }
    requires transaction { in_transaction ≡ is_open (H.known reach.old).log who }
    ensures { IsRolledBack who (H.known reach.old) (H.known reach.new) }
{
    if in_transaction {
        reach.rollback(rt, who);
    }
}

/// Lets a session that has nothing open leave.
pub fn leave<R: Wait, H: Reach<ColumnUnit>>(rt: &R, reach: &mut H, who: u32) -> Result<(), NoMemory>
    requires session { who < NUMBERS }
    requires speaks { speaks (H.known reach.old).side who ≡ true }
    requires may { MayLeave (H.known reach.old).log who }
    ensures ok { OnOk result (Added (H.known reach.old) (H.known reach.new) who (λ at. what.Leave) (λ at. ⊤)) }
    ensures err { OnErr result (Found (H.known reach.old) (H.known reach.new) (λ at. ⊤)) }
{
    match reach.leave(rt, who) {
        Ok(_) => Ok(()),
        Err(_) => Err(NoMemory),
    }
}
