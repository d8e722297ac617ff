ghost use Rattle.std.specs.Prelude.{◌≡◌};
ghost use Rattle.im_readers.specs.Reading.{Found};
ghost use Rattle.im_readers.specs.Answers.{Gives};
ghost use Rattle.im_parse.specs.inner.Marks as marks;
ghost use Rattle.im_parse.specs.inner.Tables as tables;

use crate::marks::{
    begins, is_comma, left_paren, level, lit, name, number, peek, right_paren, word,
};
use im_readers::{Halt, Part, list_up_to};
use im_syntax::limits::MOST_TEXT_BYTES;
use im_syntax::{ColumnPart, Keyword, KindWord, Lit, MemoryPart, Stmt, Token};
use im_values::limits::{MOST_COLUMNS, MOST_IN_SHAPE};
use im_values::{List, Name, Priority};
use std::alloc::Global;

/// The length of a VARCHAR2, in bytes.
#[tactic(auto, unfolding(crate::specs::inner::Tables::varchar2_at))]
fn varchar2(tokens: &[Token]) -> Result<(u16, &[Token]), Halt>
    ensures { Gives (λ x. Found x.0 x.1.now) result (tables.varchar2_at tokens.now) }
{
    let rest = word(tokens, Keyword::Varchar2)?;
    let rest = left_paren(rest)?;
    let (length, rest) = number(rest, 1, MOST_TEXT_BYTES)?;
    let rest = right_paren(rest)?;
    Ok((length as u16, rest))
}

/// The kind of a column.
#[tactic(auto, unfolding(crate::specs::inner::Tables::kind_at))]
fn kind(tokens: &[Token]) -> Result<(KindWord, &[Token]), Halt>
    ensures { Gives (λ x. Found x.0 x.1.now) result (tables.kind_at tokens.now) }
{
    match peek(tokens)? {
        Token::Keyword(Keyword::Number) => {
            let rest = word(tokens, Keyword::Number)?;
            Ok((KindWord::Number, rest))
        }
        Token::Keyword(Keyword::Integer) => {
            let rest = word(tokens, Keyword::Integer)?;
            Ok((KindWord::Integer, rest))
        }
        Token::Keyword(Keyword::Varchar2) => {
            let (length, rest) = varchar2(tokens)?;
            Ok((KindWord::Varchar2(length), rest))
        }
        _ => Err(Halt::Left(tokens.len())),
    }
}

/// Columns in a list.
struct Columns;

impl Part<Token> for Columns {
    type Value = ColumnPart;

    ghost marks = { marks.is_comma };

    ghost reads = { λ _. tables.column_at };

    fn is_mark(&self, token: &Token) -> bool {
        is_comma(token)
    }

    fn read<'a>(
        &self,
        alloc: Global,
        tokens: &'a [Token],
    ) -> Result<(ColumnPart, &'a [Token]), Halt> {
        column(alloc, tokens)
    }
}

/// A name and a kind.
#[tactic(auto, unfolding(crate::specs::inner::Tables::column_at))]
fn column(alloc: Global, tokens: &[Token]) -> Result<(ColumnPart, &[Token]), Halt>
    ensures { Gives (λ x. Found x.0 x.1.now) result (tables.column_at tokens.now) }
{
    let (name, rest) = name(alloc, tokens)?;
    let (kind, rest) = kind(rest)?;
    Ok((ColumnPart { name, kind }, rest))
}

/// Columns in parentheses.
#[tactic(auto, unfolding(crate::specs::inner::Tables::columns_at))]
fn column_list(alloc: Global, tokens: &[Token]) -> Result<(List<ColumnPart>, &[Token]), Halt>
    ensures { Gives (λ x. Found x.0 x.1.now) result (tables.columns_at tokens.now) }
{
    let rest = left_paren(tokens)?;
    let (columns, rest) = list_up_to(alloc, &Columns, MOST_COLUMNS - 1, rest)?;
    let rest = right_paren(rest)?;
    Ok((List::of(columns), rest))
}

/// MEMCOMPRESS FOR QUERY LOW, where it is written.
#[tactic(auto, unfolding(crate::specs::inner::Tables::compress_at))]
fn compress(tokens: &[Token]) -> Result<(bool, &[Token]), Halt>
    ensures { Gives (λ x. Found x.0 x.1.now) result (tables.compress_at tokens.now) }
{
    if !begins(tokens, Keyword::MemCompress) {
        return Ok((false, tokens));
    }
    let rest = word(tokens, Keyword::MemCompress)?;
    let rest = word(rest, Keyword::For)?;
    let rest = word(rest, Keyword::Query)?;
    let rest = word(rest, Keyword::Low)?;
    Ok((true, rest))
}

/// PRIORITY and its level, where it is written.
#[tactic(auto, unfolding(crate::specs::inner::Tables::priority_at))]
fn priority(tokens: &[Token]) -> Result<(Option<Priority>, &[Token]), Halt>
    ensures { Gives (λ x. Found x.0 x.1.now) result (tables.priority_at tokens.now) }
{
    if !begins(tokens, Keyword::Priority) {
        return Ok((None, tokens));
    }
    let rest = word(tokens, Keyword::Priority)?;
    let (level, rest) = level(rest)?;
    Ok((Some(level), rest))
}

/// An INMEMORY clause.
#[tactic(auto, unfolding(crate::specs::inner::Tables::memory_at))]
fn memory(tokens: &[Token]) -> Result<(MemoryPart, &[Token]), Halt>
    ensures { Gives (λ x. Found x.0 x.1.now) result (tables.memory_at tokens.now) }
{
    let rest = word(tokens, Keyword::InMemory)?;
    let (compress, rest) = compress(rest)?;
    let (level, rest) = priority(rest)?;
    Ok((MemoryPart { compress, level }, rest))
}

/// BLOCK or EXTENT and its number, where it is written.
#[tactic(auto, unfolding(crate::specs::inner::Tables::option_at))]
fn option(tokens: &[Token], keyword: Keyword) -> Result<(Option<u32>, &[Token]), Halt>
    ensures { Gives (λ x. Found x.0 x.1.now) result (tables.option_at keyword tokens.now) }
{
    if !begins(tokens, keyword) {
        return Ok((None, tokens));
    }
    let rest = word(tokens, keyword)?;
    let (number, rest) = number(rest, 1, MOST_IN_SHAPE)?;
    Ok((Some(number), rest))
}

/// An INMEMORY clause, where it is written.
#[tactic(auto, unfolding(crate::specs::inner::Tables::memory_option_at))]
fn memory_option(tokens: &[Token]) -> Result<(Option<MemoryPart>, &[Token]), Halt>
    ensures { Gives (λ x. Found x.0 x.1.now) result (tables.memory_option_at tokens.now) }
{
    if !begins(tokens, Keyword::InMemory) {
        return Ok((None, tokens));
    }
    let (memory, rest) = memory(tokens)?;
    Ok((Some(memory), rest))
}

/// CREATE TABLE.
#[tactic(auto, unfolding(crate::specs::inner::Tables::create_at))]
pub fn create(alloc: Global, tokens: &[Token]) -> Result<(Stmt, &[Token]), Halt>
    ensures { Gives (λ x. Found x.0 x.1.now) result (tables.create_at tokens.now) }
{
    let rest = word(tokens, Keyword::Create)?;
    let rest = word(rest, Keyword::Table)?;
    let (name, rest) = name(alloc, rest)?;
    let (columns, rest) = column_list(alloc, rest)?;
    let (block, rest) = option(rest, Keyword::Block)?;
    let (extent, rest) = option(rest, Keyword::Extent)?;
    let (memory, rest) = memory_option(rest)?;
    Ok((
        Stmt::Create {
            name,
            columns,
            block,
            extent,
            memory,
        },
        rest,
    ))
}

/// DEFAULT and a value, where it is written.
#[tactic(auto, unfolding(crate::specs::inner::Tables::default_at))]
fn default(alloc: Global, tokens: &[Token]) -> Result<(Option<Lit>, &[Token]), Halt>
    ensures { Gives (λ x. Found x.0 x.1.now) result (tables.default_at tokens.now) }
{
    if !begins(tokens, Keyword::Default) {
        return Ok((None, tokens));
    }
    let rest = word(tokens, Keyword::Default)?;
    let (value, rest) = lit(alloc, rest)?;
    Ok((Some(value), rest))
}

/// What stands behind the name in ALTER TABLE.
#[derive(Drop)]
pub enum Alteration {
    /// An INMEMORY clause.
    Memory(MemoryPart),
    /// NO INMEMORY.
    NoMemory,
    /// ADD, and a column with its default in parentheses.
    Column(ColumnPart, Option<Lit>),
}

/// ADD, and a column with its default in parentheses.
#[tactic(auto, unfolding(crate::specs::inner::Tables::added_at))]
fn added(alloc: Global, tokens: &[Token]) -> Result<(Alteration, &[Token]), Halt>
    ensures { Gives (λ x. Found x.0 x.1.now) result (tables.added_at tokens.now) }
{
    let rest = word(tokens, Keyword::Add)?;
    let rest = left_paren(rest)?;
    let (column, rest) = column(alloc, rest)?;
    let (default, rest) = default(alloc, rest)?;
    let rest = right_paren(rest)?;
    Ok((Alteration::Column(column, default), rest))
}

#[tactic(auto, unfolding(crate::specs::inner::Tables::altered_at))]
fn altered(alloc: Global, tokens: &[Token]) -> Result<(Alteration, &[Token]), Halt>
    ensures { Gives (λ x. Found x.0 x.1.now) result (tables.altered_at tokens.now) }
{
    match peek(tokens)? {
        Token::Keyword(Keyword::InMemory) => {
            let (memory, rest) = memory(tokens)?;
            Ok((Alteration::Memory(memory), rest))
        }
        Token::Keyword(Keyword::No) => {
            let rest = word(tokens, Keyword::No)?;
            let rest = word(rest, Keyword::InMemory)?;
            Ok((Alteration::NoMemory, rest))
        }
        Token::Keyword(Keyword::Add) => added(alloc, tokens),
        _ => Err(Halt::Left(tokens.len())),
    }
}

/// The statement that an alteration of the table of a name is.
fn statement_of(name: Name, alteration: Alteration) -> Stmt
    ensures { result ≡ tables.alter_of (name, alteration) }
{
    match alteration {
        Alteration::Memory(memory) => Stmt::AlterMemory { name, memory },
        Alteration::NoMemory => Stmt::AlterNoMemory { name },
        Alteration::Column(column, default) => Stmt::AddColumn {
            name,
            column,
            default,
        },
    }
}

/// ALTER TABLE.
#[tactic(auto, unfolding(crate::specs::inner::Tables::alter_at))]
pub fn alter(alloc: Global, tokens: &[Token]) -> Result<(Stmt, &[Token]), Halt>
    ensures { Gives (λ x. Found x.0 x.1.now) result (tables.alter_at tokens.now) }
{
    let rest = word(tokens, Keyword::Alter)?;
    let rest = word(rest, Keyword::Table)?;
    let (name, rest) = name(alloc, rest)?;
    let (alteration, rest) = altered(alloc, rest)?;
    Ok((statement_of(name, alteration), rest))
}
