ghost use Rattle.std.specs.Prelude.{◌≡◌, ◌++◌, ◌∷◌, [], OnOk};
ghost use Rattle.im_syntax.specs.Spelling as spelled;
ghost use Rattle.im_syntax.specs.Rules.{IsAsked, IsQuery};

use crate::condition::put_cond;
use crate::spelled::{Spelled, put_list, put_name, put_sign, put_wide_number, put_word};
use im_syntax::{Cond, ItemPart, KeyPart, Keyword, ListPart, Query, Sign, Token, Way};
use im_values::{Name, NoMemory};
use std::alloc::Global;

impl Spelled for ItemPart {
    ghost tokens = { spelled.spell_item };

    fn put(&self, alloc: Global, out: &mut Vec<Token>) -> Result<(), NoMemory> {
        match self {
            ItemPart::Column(column) => put_name(alloc, out, column),
            ItemPart::CountAll => {
                put_word(out, Keyword::Count)?;
                put_sign(out, Sign::LeftParen)?;
                put_sign(out, Sign::Star)?;
                put_sign(out, Sign::RightParen)
            }
            ItemPart::Aggregate(function, column) => {
                put_word(out, function.keyword())?;
                put_sign(out, Sign::LeftParen)?;
                put_name(alloc, out, column)?;
                put_sign(out, Sign::RightParen)
            }
        }
    }
}

fn put_way(out: &mut Vec<Token>, way: Way) -> Result<(), NoMemory>
    ensures { OnOk result (out.new.items ≡ out.old.items ++ spelled.spell_way way) }
{
    match way {
        Way::Unsaid => Ok(()),
        Way::Asc => put_word(out, Keyword::Asc),
        Way::Desc => put_word(out, Keyword::Desc),
    }
}

impl Spelled for KeyPart {
    ghost tokens = { spelled.spell_key };

    fn put(&self, alloc: Global, out: &mut Vec<Token>) -> Result<(), NoMemory> {
        self.item.put(alloc, out)?;
        put_way(out, self.way)
    }
}

fn put_select_list(alloc: Global, out: &mut Vec<Token>, list: &ListPart) -> Result<(), NoMemory>
    ensures { OnOk result (out.new.items ≡ out.old.items ++ spelled.spell_list list.now) }
{
    match list {
        ListPart::Star => put_sign(out, Sign::Star),
        ListPart::Items(items) => put_list(alloc, out, items.items()),
    }
}

/// AS OF SCN and its number, where it is written.
fn put_asked(out: &mut Vec<Token>, asked: Option<u64>) -> Result<(), NoMemory>
    requires { IsAsked asked }
    ensures { OnOk result (out.new.items ≡ out.old.items ++ spelled.spell_asked asked) }
{
    match asked {
        None => Ok(()),
        Some(scn) => {
            put_word(out, Keyword::As)?;
            put_word(out, Keyword::Of)?;
            put_word(out, Keyword::Scn)?;
            put_wide_number(out, scn)
        }
    }
}

/// WHERE and its condition, where it is written.
pub fn put_where(alloc: Global, out: &mut Vec<Token>, cond: &Option<Cond>) -> Result<(), NoMemory>
    ensures { OnOk result (out.new.items ≡ out.old.items ++ spelled.spell_where cond.now) }
{
    match cond {
        None => Ok(()),
        Some(cond) => {
            put_word(out, Keyword::Where)?;
            put_cond(alloc, out, cond)
        }
    }
}

fn put_groups(alloc: Global, out: &mut Vec<Token>, groups: &[Name]) -> Result<(), NoMemory>
    ensures { OnOk result (out.new.items ≡ out.old.items ++ spelled.spell_groups groups.now) }
{
    match groups {
        [] => Ok(()),
        [_, ..] => {
            put_word(out, Keyword::Group)?;
            put_word(out, Keyword::By)?;
            put_list(alloc, out, groups)
        }
    }
}

fn put_keys(alloc: Global, out: &mut Vec<Token>, keys: &[KeyPart]) -> Result<(), NoMemory>
    ensures { OnOk result (out.new.items ≡ out.old.items ++ spelled.spell_keys keys.now) }
{
    match keys {
        [] => Ok(()),
        [_, ..] => {
            put_word(out, Keyword::Order)?;
            put_word(out, Keyword::By)?;
            put_list(alloc, out, keys)
        }
    }
}

/// The tokens of a query.
pub fn put_query(alloc: Global, out: &mut Vec<Token>, query: &Query) -> Result<(), NoMemory>
    requires { IsQuery query.now }
    ensures { OnOk result (out.new.items ≡ out.old.items ++ spelled.spell_query query.now) }
{
    put_word(out, Keyword::Select)?;
    put_select_list(alloc, out, &query.list)?;
    put_word(out, Keyword::From)?;
    put_name(alloc, out, &query.table)?;
    put_asked(out, query.asked)?;
    put_where(alloc, out, &query.cond)?;
    put_groups(alloc, out, query.groups.items())?;
    put_keys(alloc, out, query.keys.items())
}
