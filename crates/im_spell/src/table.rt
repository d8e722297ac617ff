ghost use Rattle.std.specs.Prelude.{◌≡◌, ◌++◌, ◌∷◌, [], OnOk};
ghost use Rattle.im_readers.specs.Grammar.{spell_optional};
ghost use Rattle.im_syntax.specs.Spelling as spelled;
ghost use Rattle.im_syntax.specs.declared.token.Token.TheVariants as token;
ghost use Rattle.im_syntax.specs.declared.keyword.Keyword.TheVariants as key;
ghost use Rattle.im_syntax.specs.declared.statement.Stmt.TheVariants as stmt;

use crate::spelled::{Spelled, put_in_parens, put_lit, put_name, put_number, put_sign, put_word};
use im_syntax::{ColumnPart, Keyword, KindWord, Lit, MemoryPart, Sign, Token};
use im_values::{Name, NoMemory, Priority};
use std::alloc::Global;

fn put_kind(out: &mut Vec<Token>, kind: KindWord) -> Result<(), NoMemory>
    ensures { OnOk result (out.new.items ≡ out.old.items ++ spelled.spell_kind kind) }
{
    match kind {
        KindWord::Number => put_word(out, Keyword::Number),
        KindWord::Integer => put_word(out, Keyword::Integer),
        KindWord::Varchar2(length) => {
            put_word(out, Keyword::Varchar2)?;
            put_sign(out, Sign::LeftParen)?;
            put_number(out, u32::from(length))?;
            put_sign(out, Sign::RightParen)
        }
    }
}

impl Spelled for ColumnPart {
    ghost tokens = { spelled.spell_column };

    fn put(&self, alloc: Global, out: &mut Vec<Token>) -> Result<(), NoMemory> {
        put_name(alloc, out, &self.name)?;
        put_kind(out, self.kind)
    }
}

fn level_word(level: Priority) -> Keyword
    ensures { result ≡ spelled.level_word level }
{
    match level {
        Priority::Critical => Keyword::Critical,
        Priority::High => Keyword::High,
        Priority::Medium => Keyword::Medium,
        Priority::Low => Keyword::Low,
        Priority::None => Keyword::None,
    }
}

fn put_compress(out: &mut Vec<Token>, compress: bool) -> Result<(), NoMemory>
    ensures { OnOk result (out.new.items ≡ out.old.items ++ spelled.spell_compress compress) }
{
    if !compress {
        return Ok(());
    }
    put_word(out, Keyword::MemCompress)?;
    put_word(out, Keyword::For)?;
    put_word(out, Keyword::Query)?;
    put_word(out, Keyword::Low)
}

/// An INMEMORY clause.
pub fn put_memory(out: &mut Vec<Token>, memory: MemoryPart) -> Result<(), NoMemory>
    ensures { OnOk result (out.new.items ≡ out.old.items ++ spelled.spell_memory memory) }
{
    put_word(out, Keyword::InMemory)?;
    put_compress(out, memory.compress)?;
    match memory.level {
        None => Ok(()),
        Some(level) => {
            put_word(out, Keyword::Priority)?;
            put_word(out, level_word(level))
        }
    }
}

fn put_option(out: &mut Vec<Token>, keyword: Keyword, number: Option<u32>) -> Result<(), NoMemory>
    ensures { OnOk result (out.new.items ≡ out.old.items ++ spelled.spell_option keyword number) }
{
    match number {
        None => Ok(()),
        Some(number) => {
            put_word(out, keyword)?;
            put_number(out, number)
        }
    }
}

fn put_shape(
    out: &mut Vec<Token>,
    block: Option<u32>,
    extent: Option<u32>,
    memory: Option<MemoryPart>,
) -> Result<(), NoMemory>
    ensures { OnOk result (out.new.items ≡ out.old.items ++ (spelled.spell_option key.Block block
        ++ (spelled.spell_option key.Extent extent ++ spell_optional spelled.spell_memory memory))) }
{
    put_option(out, Keyword::Block, block)?;
    put_option(out, Keyword::Extent, extent)?;
    match memory {
        None => Ok(()),
        Some(memory) => put_memory(out, memory),
    }
}

/// CREATE TABLE.
pub fn put_create(
    alloc: Global,
    out: &mut Vec<Token>,
    name: &Name,
    columns: &[ColumnPart],
    block: Option<u32>,
    extent: Option<u32>,
    memory: Option<MemoryPart>,
) -> Result<(), NoMemory>
    ensures { OnOk result (out.new.items
        ≡ out.old.items ++ spelled.spelling (stmt.Create name.now columns.now block extent memory)) }
{
    put_word(out, Keyword::Create)?;
    put_word(out, Keyword::Table)?;
    put_name(alloc, out, name)?;
    put_in_parens(alloc, out, columns)?;
    put_shape(out, block, extent, memory)
}

/// ALTER TABLE with an INMEMORY clause.
pub fn put_alter_memory(
    alloc: Global,
    out: &mut Vec<Token>,
    name: &Name,
    memory: MemoryPart,
) -> Result<(), NoMemory>
    ensures { OnOk result (out.new.items ≡ out.old.items ++ spelled.spelling (stmt.AlterMemory name.now memory)) }
{
    put_word(out, Keyword::Alter)?;
    put_word(out, Keyword::Table)?;
    put_name(alloc, out, name)?;
    put_memory(out, memory)
}

/// ALTER TABLE with NO INMEMORY.
pub fn put_alter_no_memory(alloc: Global, out: &mut Vec<Token>, name: &Name) -> Result<(), NoMemory>
    ensures { OnOk result (out.new.items ≡ out.old.items ++ spelled.spelling (stmt.AlterNoMemory name.now)) }
{
    put_word(out, Keyword::Alter)?;
    put_word(out, Keyword::Table)?;
    put_name(alloc, out, name)?;
    put_word(out, Keyword::No)?;
    put_word(out, Keyword::InMemory)
}

fn put_default(alloc: Global, out: &mut Vec<Token>, default: &Option<Lit>) -> Result<(), NoMemory>
    ensures { OnOk result (out.new.items ≡ out.old.items ++ spelled.spell_default default.now) }
{
    match default {
        None => Ok(()),
        Some(value) => {
            put_word(out, Keyword::Default)?;
            put_lit(alloc, out, value)
        }
    }
}

/// ADD, and a column with its default in parentheses.
fn put_added(
    alloc: Global,
    out: &mut Vec<Token>,
    column: &ColumnPart,
    default: &Option<Lit>,
) -> Result<(), NoMemory>
    ensures { OnOk result (out.new.items ≡ out.old.items ++ spelled.spell_added column.now default.now) }
{
    put_word(out, Keyword::Add)?;
    put_sign(out, Sign::LeftParen)?;
    column.put(alloc, out)?;
    put_default(alloc, out, default)?;
    put_sign(out, Sign::RightParen)
}

/// ALTER TABLE with ADD.
pub fn put_add_column(
    alloc: Global,
    out: &mut Vec<Token>,
    name: &Name,
    column: &ColumnPart,
    default: &Option<Lit>,
) -> Result<(), NoMemory>
    ensures { OnOk result (out.new.items
        ≡ out.old.items ++ spelled.spelling (stmt.AddColumn name.now column.now default.now)) }
{
    put_word(out, Keyword::Alter)?;
    put_word(out, Keyword::Table)?;
    put_name(alloc, out, name)?;
    put_added(alloc, out, column, default)
}
