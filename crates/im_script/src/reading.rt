ghost use Rattle.std.specs.Prelude.{◌≡◌, ◌+◌, ◌≤◌, ◌<◌, ◌^◌, ℕ, List, length, drop};
ghost use Rattle.im_syntax.specs.declared.statement.Side.TheVariants as side;
ghost use Rattle.im_syntax.specs.declared.token.Token.{Token as AnyToken};
ghost use Rattle.im_lex.specs.Lexing.{Lexes};
ghost use Rattle.im_script.specs.declared.line.LineKind.TheVariants as kind;
ghost use Rattle.im_script.specs.Forms as forms;
ghost use Rattle.im_script.specs.Lines as lines_are;
ghost use Rattle.im_script.specs.inner.Statements as statements;

use crate::form::Form;
use crate::forms::{first, form, who};
use crate::line::{Line, LineKind};
use im_lex::{LexFault, behind, insert, lex, place_of};
use im_parse::{ParseFault, parse_for};
use im_syntax::{Side, Stmt};
use std::alloc::Global;

/// The kind of a line that leaves the language at its n-th token, or behind all of them.
#[cold]
fn bad_token(alloc: Global, before: usize, line: &[u8], n: u64) -> LineKind
    requires within { before ≤ length line.now }
    requires short { length line.now < 2 ^ 32 }
    ensures { (ts : List (AnyToken × ℕ)) → Lexes 0 (drop before line.now) ts → statements.IsBadToken before line.now ts n result }
{
    match place_of(alloc, behind(line, before), n) {
        Ok(Some(place)) => LineKind::Bad(before as u64 + place + 1),
        Ok(None) => LineKind::Bad(line.len() as u64 + 1),
        Err(_) => LineKind::NoMemory,
    }
}

/// The kind of a statement, of a session of this number or of the background.
fn kind_of(side: Side, number: u32, stmt: Stmt) -> LineKind
    ensures { result ≡ statements.kind_of side number stmt }
{
    match side {
        Side::Session => LineKind::Session(number, stmt),
        Side::Background => LineKind::Background(stmt),
    }
}

/// What the statement part behind so many bytes of a line says, by its tokens.
fn statement(alloc: Global, side: Side, number: u32, before: usize, line: &[u8]) -> LineKind
    requires within { before ≤ length line.now }
    requires short { length line.now < 2 ^ 32 }
    ensures { lines_are.Says side before line.now (statements.kind_of side number) result }
{
    match lex(alloc, behind(line, before)) {
        Ok(tokens) => match parse_for(alloc, side, tokens.as_slice()) {
            Ok(stmt) => kind_of(side, number, stmt),
            Err(ParseFault::At(n)) => bad_token(alloc, before, line, n),
            Err(ParseFault::NoMemory) => LineKind::NoMemory,
        },
        Err(LexFault::At(at)) => LineKind::Bad(before as u64 + at + 1),
        Err(LexFault::NoMemory) => LineKind::NoMemory,
    }
}

/// What the statement part of a session's line says. Most are an INSERT, which is read straight from its bytes where it can be.
///
/// It stands by itself, and what calls it does not: so a statement, which is long, is copied less often on its way into its line.
#[inline(never)]
fn session_statement(alloc: Global, number: u32, before: usize, line: &[u8]) -> LineKind
    requires within { before ≤ length line.now }
    requires short { length line.now < 2 ^ 32 }
    ensures { lines_are.Says side.Session before line.now (kind.Session number) result }
{
    match insert(alloc, behind(line, before)) {
        Ok(Some(stmt)) => LineKind::Session(number, stmt),
        Ok(None) => statement(alloc, Side::Session, number, before, line),
        Err(_) => LineKind::NoMemory,
    }
}

/// The kind of a line of a form.
#[inline(always)]
fn kind_of_form(alloc: Global, form: Form, line: &[u8]) -> LineKind
    requires { form ≡ forms.form_of line.now }
    ensures { lines_are.HasKind form line.now result }
{
    match form {
        Form::Long => LineKind::Long(line.len() as u64),
        Form::Skip => LineKind::Skip,
        Form::Race => LineKind::Race,
        Form::Bare => LineKind::Bad(first(line)),
        Form::Session(number, before) => session_statement(alloc, number, before, line),
        Form::Background(before) => statement(alloc, Side::Background, 0, before, line),
    }
}

/// The line of these bytes, with its number.
///
/// A line for which memory ran out has the kind NoMemory.
#[inline(always)]
pub fn line_of(alloc: Global, number: u64, line: &[u8]) -> Line
    // It is the line of its bytes.
    ensures is { lines_are.IsLine number line.now result }
    // It names a session, the background by 0, or nobody.
    ensures names { lines_are.NamesOneOf16 result }
{
    let form = form(line);
    Line {
        number,
        first: first(line),
        who: who(form),
        kind: kind_of_form(alloc, form, line),
    }
}
