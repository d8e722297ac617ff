ghost use Rattle.std.specs.Prelude.{◌≡◌, ◌+◌, ◌^◌, ◌<◌, ◌++◌, ◌∷◌, [], pos, IfOk, OnOk};
ghost use Rattle.im_syntax.specs.Spelling as spelled;
ghost use Rattle.im_syntax.specs.Rules.{IsQuery, IsStmt};
ghost use Rattle.im_syntax.specs.declared.token.Token.TheVariants as token;
ghost use Rattle.im_syntax.specs.declared.statement.Stmt.TheVariants as stmt;

use crate::query::put_query;
use crate::rows::{put_delete, put_insert, put_update};
use crate::spelled::{put_name, put_number, put_wide_number, put_word};
use crate::table::{put_add_column, put_alter_memory, put_alter_no_memory, put_create};
use im_syntax::{Keyword, Query, Stmt, Token};
use im_values::{Name, NoMemory};
use std::alloc::Global;

fn put_pair(out: &mut Vec<Token>, first: Keyword, second: Keyword) -> Result<(), NoMemory>
    ensures { OnOk result (out.new.items
        ≡ out.old.items ++ spelled.word first ∷ spelled.word second ∷ []) }
{
    put_word(out, first)?;
    put_word(out, second)
}

fn put_numbered(out: &mut Vec<Token>, keyword: Keyword, number: u32) -> Result<(), NoMemory>
    ensures { OnOk result (out.new.items
        ≡ out.old.items ++ spelled.word keyword ∷ spelled.number number ∷ []) }
{
    put_word(out, keyword)?;
    put_number(out, number)
}

fn put_explain(alloc: Global, out: &mut Vec<Token>, query: &Query) -> Result<(), NoMemory>
    requires { IsQuery query.now }
    ensures { OnOk result (out.new.items ≡ out.old.items ++ spelled.spelling (stmt.Explain query.now)) }
{
    put_word(out, Keyword::Explain)?;
    put_query(alloc, out, query)
}

fn put_open(alloc: Global, out: &mut Vec<Token>, cursor: u32, query: &Query) -> Result<(), NoMemory>
    requires { IsQuery query.now }
    ensures { OnOk result (out.new.items ≡ out.old.items ++ spelled.spelling (stmt.OpenFor cursor query.now)) }
{
    put_numbered(out, Keyword::Open, cursor)?;
    put_word(out, Keyword::For)?;
    put_query(alloc, out, query)
}

fn put_read_only(out: &mut Vec<Token>) -> Result<(), NoMemory>
    ensures { OnOk result (out.new.items ≡ out.old.items ++ spelled.spelling stmt.SetReadOnly) }
{
    put_pair(out, Keyword::Set, Keyword::Transaction)?;
    put_pair(out, Keyword::Read, Keyword::Only)
}

fn put_serializable(out: &mut Vec<Token>) -> Result<(), NoMemory>
    ensures { OnOk result (out.new.items ≡ out.old.items ++ spelled.spelling stmt.SetSerializable) }
{
    put_pair(out, Keyword::Set, Keyword::Transaction)?;
    put_pair(out, Keyword::Isolation, Keyword::Level)?;
    put_word(out, Keyword::Serializable)
}

fn put_committed(out: &mut Vec<Token>) -> Result<(), NoMemory>
    ensures { OnOk result (out.new.items ≡ out.old.items ++ spelled.spelling stmt.SetCommitted) }
{
    put_pair(out, Keyword::Set, Keyword::Transaction)?;
    put_pair(out, Keyword::Isolation, Keyword::Level)?;
    put_pair(out, Keyword::Read, Keyword::Committed)
}

fn put_evict(alloc: Global, out: &mut Vec<Token>, name: &Name, extent: u64) -> Result<(), NoMemory>
    requires { extent < 2 ^ 63 }
    ensures { OnOk result (out.new.items ≡ out.old.items ++ spelled.spelling (stmt.Evict name.now extent)) }
{
    put_word(out, Keyword::Evict)?;
    put_name(alloc, out, name)?;
    put_wide_number(out, extent)
}

fn put_stmt(alloc: Global, out: &mut Vec<Token>, stmt: &Stmt) -> Result<(), NoMemory>
    requires { IsStmt stmt.now }
    ensures { OnOk result (out.new.items ≡ out.old.items ++ spelled.spelling stmt.now) }
{
    match stmt {
        Stmt::Select(query) => put_query(alloc, out, query),
        Stmt::Explain(query) => put_explain(alloc, out, query),
        Stmt::Create {
            name,
            columns,
            block,
            extent,
            memory,
        } => put_create(alloc, out, name, columns.items(), *block, *extent, *memory),
        Stmt::AlterMemory { name, memory } => put_alter_memory(alloc, out, name, *memory),
        Stmt::AlterNoMemory { name } => put_alter_no_memory(alloc, out, name),
        Stmt::AddColumn {
            name,
            column,
            default,
        } => put_add_column(alloc, out, name, column, default),
        Stmt::Insert {
            name,
            columns,
            tuples,
        } => put_insert(alloc, out, name, columns.items(), tuples),
        Stmt::Update { name, sets, cond } => put_update(alloc, out, name, sets.items(), cond),
        Stmt::Delete { name, cond } => put_delete(alloc, out, name, cond),
        Stmt::SetReadOnly => put_read_only(out),
        Stmt::SetSerializable => put_serializable(out),
        Stmt::SetCommitted => put_committed(out),
        Stmt::Commit => put_word(out, Keyword::Commit),
        Stmt::Rollback => put_word(out, Keyword::Rollback),
        Stmt::OpenFor { cursor, query } => put_open(alloc, out, *cursor, query),
        Stmt::Step(cursor) => put_numbered(out, Keyword::Step, *cursor),
        Stmt::Fetch(cursor) => put_numbered(out, Keyword::Fetch, *cursor),
        Stmt::Close(cursor) => put_numbered(out, Keyword::Close, *cursor),
        Stmt::Run => put_word(out, Keyword::Run),
        Stmt::Begin => put_word(out, Keyword::Begin),
        Stmt::Switch => put_word(out, Keyword::Switch),
        Stmt::Cancel => put_word(out, Keyword::Cancel),
        Stmt::Trickle(number) => put_numbered(out, Keyword::Trickle, *number),
        Stmt::Evict { name, extent } => put_evict(alloc, out, name, *extent),
        Stmt::Purge => put_word(out, Keyword::Purge),
    }
}

/// The one list of tokens of a statement. An error is out of memory.
pub fn spell(alloc: Global, stmt: &Stmt) -> Result<Vec<Token>, NoMemory>
    requires { IsStmt stmt.now }
    ensures { IfOk result (λ tokens. tokens.items ≡ spelled.spelling stmt.now) }
{
    let mut out = Vec::new(alloc);
    put_stmt(alloc, &mut out, stmt)?;
    Ok(out)
}
