ghost use Rattle.std.specs.Prelude.{◌≡◌, true};
ghost use Rattle.im_readers.specs.Reading.{Found};
ghost use Rattle.im_readers.specs.Answers.{Gives};
ghost use Rattle.im_parse.specs.inner.Marks as marks;
ghost use Rattle.im_parse.specs.inner.Queries as queries;

use crate::conditions::cond;
use crate::marks::{
    begins, is_comma, is_key, left_paren, name, peek, right_paren, star, wide_number, word,
};
use crate::values::Names;
use im_readers::{Halt, Part, list};
use im_syntax::limits::LAST_SCN;
use im_syntax::{Cond, Function, ItemPart, KeyPart, Keyword, ListPart, Query, Sign, Token, Way};
use im_values::limits::MOST_LEVELS;
use im_values::{List, Name};
use std::alloc::Global;

/// The star that stands for all rows, in the parentheses of COUNT.
#[tactic(auto, unfolding(crate::specs::inner::Queries::operand_by))]
fn all_rows(function: Function, tokens: &[Token]) -> Result<(ItemPart, &[Token]), Halt>
    ensures { Gives (λ x. Found x.0 x.1.now) result (queries.operand_by function true tokens.now) }
{
    match function {
        Function::Count => {
            let rest = star(tokens)?;
            Ok((ItemPart::CountAll, rest))
        }
        _ => Err(Halt::Left(tokens.len())),
    }
}

/// What stands in the parentheses of a function.
#[tactic(auto, unfolding(crate::specs::inner::Queries::operand_at, crate::specs::inner::Queries::operand_by))]
fn operand(
    alloc: Global,
    function: Function,
    tokens: &[Token],
) -> Result<(ItemPart, &[Token]), Halt>
    ensures { Gives (λ x. Found x.0 x.1.now) result (queries.operand_at function tokens.now) }
{
    match peek(tokens)? {
        Token::Sign(Sign::Star) => all_rows(function, tokens),
        _ => {
            let (column, rest) = name(alloc, tokens)?;
            Ok((ItemPart::Aggregate(function, column), rest))
        }
    }
}

/// A function of what stands in parentheses behind its keyword.
#[tactic(auto, unfolding(crate::specs::inner::Queries::call_at))]
fn call(alloc: Global, function: Function, tokens: &[Token]) -> Result<(ItemPart, &[Token]), Halt>
    ensures { Gives (λ x. Found x.0 x.1.now) result (queries.call_at function tokens.now) }
{
    let rest = word(tokens, function.keyword())?;
    let rest = left_paren(rest)?;
    let (item, rest) = operand(alloc, function, rest)?;
    let rest = right_paren(rest)?;
    Ok((item, rest))
}

/// What begins with a keyword: a function.
fn called(
    alloc: Global,
    function: Option<Function>,
    tokens: &[Token],
) -> Result<(ItemPart, &[Token]), Halt>
    ensures { Gives (λ x. Found x.0 x.1.now) result (queries.called_by function tokens.now) }
{
    match function {
        Some(function) => call(alloc, function, tokens),
        None => Err(Halt::Left(tokens.len())),
    }
}

/// One column of an answer.
#[tactic(auto, unfolding(crate::specs::inner::Queries::item_at))]
fn item(alloc: Global, tokens: &[Token]) -> Result<(ItemPart, &[Token]), Halt>
    ensures { Gives (λ x. Found x.0 x.1.now) result (queries.item_at tokens.now) }
{
    match peek(tokens)? {
        Token::Keyword(keyword) => called(alloc, Function::of(*keyword), tokens),
        Token::Word(_) => {
            let (column, rest) = name(alloc, tokens)?;
            Ok((ItemPart::Column(column), rest))
        }
        _ => Err(Halt::Left(tokens.len())),
    }
}

/// ASC or DESC, where it is written.
#[tactic(auto, unfolding(crate::specs::inner::Queries::way_at))]
fn way(tokens: &[Token]) -> (Way, &[Token])
    ensures { queries.way_at tokens.now ≡ Found result.0 result.1.now }
{
    match tokens {
        [token, rest @ ..] if is_key(token, Keyword::Asc) => (Way::Asc, rest),
        [token, rest @ ..] if is_key(token, Keyword::Desc) => (Way::Desc, rest),
        _ => (Way::Unsaid, tokens),
    }
}

/// One key of ORDER BY.
#[tactic(auto, unfolding(crate::specs::inner::Queries::key_at))]
fn key(alloc: Global, tokens: &[Token]) -> Result<(KeyPart, &[Token]), Halt>
    ensures { Gives (λ x. Found x.0 x.1.now) result (queries.key_at tokens.now) }
{
    let (item, rest) = item(alloc, tokens)?;
    let (way, rest) = way(rest);
    Ok((KeyPart { item, way }, rest))
}

/// Items in a list.
struct Items;

impl Part<Token> for Items {
    type Value = ItemPart;

    ghost marks = { marks.is_comma };

    ghost reads = { λ _. queries.item_at };

    fn is_mark(&self, token: &Token) -> bool {
        is_comma(token)
    }

    fn read<'a>(
        &self,
        alloc: Global,
        tokens: &'a [Token],
    ) -> Result<(ItemPart, &'a [Token]), Halt> {
        item(alloc, tokens)
    }
}

/// Keys in a list.
struct Keys;

impl Part<Token> for Keys {
    type Value = KeyPart;

    ghost marks = { marks.is_comma };

    ghost reads = { λ _. queries.key_at };

    fn is_mark(&self, token: &Token) -> bool {
        is_comma(token)
    }

    fn read<'a>(&self, alloc: Global, tokens: &'a [Token]) -> Result<(KeyPart, &'a [Token]), Halt> {
        key(alloc, tokens)
    }
}

/// What a query answers: a star, or items.
#[tactic(auto, unfolding(crate::specs::inner::Queries::list_at))]
fn select_list(alloc: Global, tokens: &[Token]) -> Result<(ListPart, &[Token]), Halt>
    ensures { Gives (λ x. Found x.0 x.1.now) result (queries.list_at tokens.now) }
{
    match peek(tokens)? {
        Token::Sign(Sign::Star) => {
            let rest = star(tokens)?;
            Ok((ListPart::Star, rest))
        }
        _ => {
            let (items, rest) = list(alloc, &Items, tokens)?;
            Ok((ListPart::Items(List::of(items)), rest))
        }
    }
}

/// AS OF SCN and its number, where it is written.
#[tactic(auto, unfolding(crate::specs::inner::Queries::asked_at))]
fn as_of(tokens: &[Token]) -> Result<(Option<u64>, &[Token]), Halt>
    ensures { Gives (λ x. Found x.0 x.1.now) result (queries.asked_at tokens.now) }
{
    if !begins(tokens, Keyword::As) {
        return Ok((None, tokens));
    }
    let rest = word(tokens, Keyword::As)?;
    let rest = word(rest, Keyword::Of)?;
    let rest = word(rest, Keyword::Scn)?;
    let (scn, rest) = wide_number(rest, 0, LAST_SCN)?;
    Ok((Some(scn), rest))
}

/// WHERE and its condition, where it is written.
#[tactic(auto, unfolding(crate::specs::inner::Queries::where_at))]
pub fn where_part(alloc: Global, tokens: &[Token]) -> Result<(Option<Cond>, &[Token]), Halt>
    ensures { Gives (λ x. Found x.0 x.1.now) result (queries.where_at tokens.now) }
{
    if !begins(tokens, Keyword::Where) {
        return Ok((None, tokens));
    }
    let rest = word(tokens, Keyword::Where)?;
    let (cond, rest) = cond(alloc, MOST_LEVELS, rest)?;
    Ok((Some(cond), rest))
}

/// GROUP BY and its columns, where it is written.
#[tactic(auto, unfolding(crate::specs::inner::Queries::groups_at))]
fn group_by(alloc: Global, tokens: &[Token]) -> Result<(List<Name>, &[Token]), Halt>
    ensures { Gives (λ x. Found x.0 x.1.now) result (queries.groups_at tokens.now) }
{
    if !begins(tokens, Keyword::Group) {
        return Ok((List::of(Vec::new(alloc)), tokens));
    }
    let rest = word(tokens, Keyword::Group)?;
    let rest = word(rest, Keyword::By)?;
    let (names, rest) = list(alloc, &Names, rest)?;
    Ok((List::of(names), rest))
}

/// ORDER BY and its keys, where it is written.
#[tactic(auto, unfolding(crate::specs::inner::Queries::keys_at))]
fn order_by(alloc: Global, tokens: &[Token]) -> Result<(List<KeyPart>, &[Token]), Halt>
    ensures { Gives (λ x. Found x.0 x.1.now) result (queries.keys_at tokens.now) }
{
    if !begins(tokens, Keyword::Order) {
        return Ok((List::of(Vec::new(alloc)), tokens));
    }
    let rest = word(tokens, Keyword::Order)?;
    let rest = word(rest, Keyword::By)?;
    let (keys, rest) = list(alloc, &Keys, rest)?;
    Ok((List::of(keys), rest))
}

/// A query, with each clause in its place.
#[tactic(auto, unfolding(crate::specs::inner::Queries::query_at))]
pub fn query(alloc: Global, tokens: &[Token]) -> Result<(Query, &[Token]), Halt>
    ensures { Gives (λ x. Found x.0 x.1.now) result (queries.query_at tokens.now) }
{
    let rest = word(tokens, Keyword::Select)?;
    let (list, rest) = select_list(alloc, rest)?;
    let rest = word(rest, Keyword::From)?;
    let (table, rest) = name(alloc, rest)?;
    let (asked, rest) = as_of(rest)?;
    let (cond, rest) = where_part(alloc, rest)?;
    let (groups, rest) = group_by(alloc, rest)?;
    let (keys, rest) = order_by(alloc, rest)?;
    Ok((
        Query {
            list,
            table,
            asked,
            cond,
            groups,
            keys,
        },
        rest,
    ))
}
