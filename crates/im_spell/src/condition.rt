ghost use Rattle.std.specs.Prelude.{◌≡◌, ◌++◌, ◌∷◌, [], ◌==◌, if◌then◌else◌, OnOk};
ghost use Rattle.im_syntax.specs.Spelling as spelled;

use crate::spelled::{put_in_parens, put_lit, put_name, put_sign, put_word};
use im_syntax::{Cond, Conj, Keyword, Sign, Term, TermForm, Token};
use im_values::{Cmp, NoMemory};
use std::alloc::Global;

fn sign_of(cmp: Cmp) -> Sign
    ensures { result ≡ spelled.cmp_sign cmp }
{
    match cmp {
        Cmp::Eq => Sign::Eq,
        Cmp::Ne => Sign::Ne,
        Cmp::Lt => Sign::Lt,
        Cmp::Le => Sign::Le,
        Cmp::Gt => Sign::Gt,
        Cmp::Ge => Sign::Ge,
    }
}

fn put_not(out: &mut Vec<Token>, negated: bool) -> Result<(), NoMemory>
    ensures { OnOk result (out.new.items ≡ out.old.items ++ spelled.spell_not negated) }
{
    if negated {
        put_word(out, Keyword::Not)
    } else {
        Ok(())
    }
}

/// The word that stands before each part but the first.
fn put_between(out: &mut Vec<Token>, keyword: Keyword, index: usize) -> Result<(), NoMemory>
    ensures { OnOk result (out.new.items
        ≡ out.old.items ++ (if index == 0 then [] else (spelled.word keyword ∷ []))) }
{
    if index == 0 {
        Ok(())
    } else {
        put_word(out, keyword)
    }
}

#[cycle(put_condition)]
fn put_term(alloc: Global, out: &mut Vec<Token>, term: &Term) -> Result<(), NoMemory>
    ensures { OnOk result (out.new.items ≡ out.old.items ++ spelled.spell_term term.now) }
{
    match term.form() {
        TermForm::Not(term) => {
            put_word(out, Keyword::Not)?;
            put_term(alloc, out, term)
        }
        TermForm::Nest(cond) => {
            put_sign(out, Sign::LeftParen)?;
            put_cond(alloc, out, cond)?;
            put_sign(out, Sign::RightParen)
        }
        TermForm::Compare { column, cmp, value } => {
            put_name(alloc, out, column)?;
            put_sign(out, sign_of(*cmp))?;
            put_lit(alloc, out, value)
        }
        TermForm::IsNull { column, negated } => {
            put_name(alloc, out, column)?;
            put_word(out, Keyword::Is)?;
            put_not(out, *negated)?;
            put_word(out, Keyword::Null)
        }
        TermForm::Between {
            column,
            negated,
            low,
            high,
        } => {
            put_name(alloc, out, column)?;
            put_not(out, *negated)?;
            put_word(out, Keyword::Between)?;
            put_lit(alloc, out, low)?;
            put_word(out, Keyword::And)?;
            put_lit(alloc, out, high)
        }
        TermForm::Within {
            column,
            negated,
            values,
        } => {
            put_name(alloc, out, column)?;
            put_not(out, *negated)?;
            put_word(out, Keyword::In)?;
            put_in_parens(alloc, out, values.items())
        }
    }
}

#[cycle(put_condition)]
fn put_conj(alloc: Global, out: &mut Vec<Token>, conj: &Conj) -> Result<(), NoMemory>
    ensures { OnOk result (out.new.items ≡ out.old.items ++ spelled.spell_conj conj.now) }
{
    for (i, term) in conj.terms().iter().enumerate() {
        put_between(out, Keyword::And, i)?;
        put_term(alloc, out, term)?;
    }
    Ok(())
}

/// The tokens of a condition.
#[cycle(put_condition)]
pub fn put_cond(alloc: Global, out: &mut Vec<Token>, cond: &Cond) -> Result<(), NoMemory>
    ensures { OnOk result (out.new.items ≡ out.old.items ++ spelled.spell_cond cond.now) }
{
    for (i, conj) in cond.lists().iter().enumerate() {
        put_between(out, Keyword::Or, i)?;
        put_conj(alloc, out, conj)?;
    }
    Ok(())
}
