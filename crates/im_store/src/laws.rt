ghost use Rattle.std.specs.Prelude.{◌≡◌, ◌≢◌, ◌≤◌, ℕ, length, true, Option, Some, None};
ghost use Rattle.im_core.specs.declared.answers.Begun.{Begun};
ghost use Rattle.im_history.specs.declared.entry.Mode.TheVariants as modes;
ghost use Rattle.im_history.specs.declared.entry.Mode.{Mode};
ghost use Rattle.im_history.specs.declared.entry.What.TheVariants as what;
ghost use Rattle.im_history.specs.declared.refused.Why.TheVariants.{Altered};
ghost use Rattle.im_history.specs.declared.view.Opening.{Opening};
ghost use Rattle.im_history.specs.declared.view.View.{View};
ghost use Rattle.im_history.specs.Columns.{columns_of};
ghost use Rattle.im_history.specs.Commits.{scn};
ghost use Rattle.im_history.specs.History.{History};
ghost use Rattle.im_history.specs.Legal.{Exists};
ghost use Rattle.im_history.specs.Refusals.{altered, begin_refusal, open_refusal};
ghost use Rattle.im_history.specs.Rows.{scn_at, snapshot};
ghost use Rattle.im_history.specs.Tables.{table_at};
ghost use Rattle.im_history.specs.Transactions.{begun as begun_at, mode};
ghost use Rattle.im_history.specs.Views.{view_at};
ghost use Rattle.im_plan.specs.Goes.{After};
ghost use Rattle.im_reach.specs.Sides.{Added, AreOthers, GotColumn, Known, StoreSide};

/// No side of a store falls back behind what it had seen.
///
/// Where a side opens a cursor or begins a transaction, the SCN is at least that of all that the side had seen before. The SCN at
/// the place of its Open is the snapshot of a cursor under READ COMMITTED that asks for no SCN, and under another mode it is that at
/// the place where the transaction began.
pub fn no_side_falls_back()
    ensures opened { (old new : Known) (who cursor : ℕ) (opening : Opening) (asked : Option ℕ) (view : View)
        → (added : Added old new who (λ at. what.Open cursor opening.table asked) (λ at.
        (altered at opening.table opening.columns ≡ None)
        × (open_refusal at who cursor asked ≡ None)
        × (view ≡ view_at at who opening.table asked))) → scn old.log ≤ scn added.at }
    ensures begun { (old new : Known) (who : ℕ) (mode : Mode) (begun : Begun)
        → (added : Added old new who (λ at. what.Begin mode) (λ at.
        (begin_refusal at who ≡ None) × (begun ≡ record { place = length at; scn = scn at }))) → scn old.log ≤ scn added.at }
    ensures committed { (at : History) (who : ℕ) → mode at who ≡ modes.Committed → snapshot at who ≡ scn at }
    ensures fixed { (at : History) (who place : ℕ) → mode at who ≢ modes.Committed → begun_at at who ≡ Some place
        → snapshot at who ≡ scn_at at place }
{}

/// Where a side finds that a table has other columns than it knew of it, others added the last of them.
///
/// The entry that a refused opening or insert names is behind all that the side knew, and of a number that the side does not speak
/// for. A side that nobody shares the store with is never refused so.
pub fn columns_come_from_others()
    ensures others { (side : StoreSide) (old at : History) (table columns place : ℕ) → Exists old table
        → columns ≡ columns_of (table_at old table) → After (AreOthers side) old at
        → altered at table columns ≡ Some (Altered place) → GotColumn side old at table place }
    ensures alone { (side : StoreSide) (old at : History) (table columns : ℕ) → side.alone ≡ true
        → columns ≡ columns_of (table_at old table) → After (AreOthers side) old at → altered at table columns ≡ None }
{}
