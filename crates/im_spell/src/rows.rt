ghost use Rattle.std.specs.Prelude.{◌≡◌, ◌++◌, OnOk};
ghost use Rattle.im_readers.specs.Grammar.{spell_joined};
ghost use Rattle.im_syntax.specs.Spelling as spelled;
ghost use Rattle.im_syntax.specs.declared.statement.Stmt.TheVariants as stmt;

use crate::query::put_where;
use crate::spelled::{Spelled, put_in_parens, put_list, put_lit, put_name, put_sign, put_word};
use im_syntax::{Cond, Keyword, Lit, Sign, Token, Tuples, TuplesForm};
use im_values::{Name, NoMemory};
use std::alloc::Global;

impl Spelled for (Name, Lit) {
    ghost tokens = { spelled.spell_set };

    fn put(&self, alloc: Global, out: &mut Vec<Token>) -> Result<(), NoMemory> {
        put_name(alloc, out, &self.0)?;
        put_sign(out, Sign::Eq)?;
        put_lit(alloc, out, &self.1)
    }
}

fn put_columns(alloc: Global, out: &mut Vec<Token>, columns: &[Name]) -> Result<(), NoMemory>
    ensures { OnOk result (out.new.items ≡ out.old.items ++ spelled.spell_columns columns.now) }
{
    match columns {
        [] => Ok(()),
        [_, ..] => put_in_parens(alloc, out, columns),
    }
}

fn put_tuples(alloc: Global, out: &mut Vec<Token>, tuples: &Tuples) -> Result<(), NoMemory>
    ensures { OnOk result (out.new.items ≡ out.old.items ++ spell_joined spelled.comma spelled.spell_tuple tuples.now) }
{
    match tuples.form() {
        TuplesForm::Even(tuples) => {
            let tuples = tuples.to_list(alloc)?;
            put_list(alloc, out, tuples.as_slice())
        }
        TuplesForm::Listed(tuples) => put_list(alloc, out, tuples.items()),
    }
}

/// INSERT.
pub fn put_insert(
    alloc: Global,
    out: &mut Vec<Token>,
    name: &Name,
    columns: &[Name],
    tuples: &Tuples,
) -> Result<(), NoMemory>
    ensures { OnOk result (out.new.items
        ≡ out.old.items ++ spelled.spelling (stmt.Insert name.now columns.now tuples.now)) }
{
    put_word(out, Keyword::Insert)?;
    put_word(out, Keyword::Into)?;
    put_name(alloc, out, name)?;
    put_columns(alloc, out, columns)?;
    put_word(out, Keyword::Values)?;
    put_tuples(alloc, out, tuples)
}

/// UPDATE.
pub fn put_update(
    alloc: Global,
    out: &mut Vec<Token>,
    name: &Name,
    sets: &[(Name, Lit)],
    cond: &Option<Cond>,
) -> Result<(), NoMemory>
    ensures { OnOk result (out.new.items
        ≡ out.old.items ++ spelled.spelling (stmt.Update name.now sets.now cond.now)) }
{
    put_word(out, Keyword::Update)?;
    put_name(alloc, out, name)?;
    put_word(out, Keyword::Set)?;
    put_list(alloc, out, sets)?;
    put_where(alloc, out, cond)
}

/// DELETE.
pub fn put_delete(
    alloc: Global,
    out: &mut Vec<Token>,
    name: &Name,
    cond: &Option<Cond>,
) -> Result<(), NoMemory>
    ensures { OnOk result (out.new.items ≡ out.old.items ++ spelled.spelling (stmt.Delete name.now cond.now)) }
{
    put_word(out, Keyword::Delete)?;
    put_word(out, Keyword::From)?;
    put_name(alloc, out, name)?;
    put_where(alloc, out, cond)
}
