ghost use Rattle.std.specs.Prelude.{◌≡◌, ◌^◌, ◌<◌, ◌++◌, ◌∷◌, [], List, OnOk, map};
ghost use Rattle.im_readers.specs.Grammar.{spell_joined, spell_others};
ghost use Rattle.im_syntax.specs.Spelling as spell;
ghost use Rattle.im_syntax.specs.declared.token.Token.{Token};
ghost use Rattle.im_syntax.specs.declared.token.Token.TheVariants as token;

use im_syntax::{Keyword, Lit, Sign, Token};
use im_values::{List, Name, NoMemory};
use std::alloc::Global;

/// A part of a statement that has a spelling, and writes it at the end of a list of tokens.
pub trait Spelled {
    ghost tokens: { Self → List Token };

    /// Writes the part's tokens.
    fn put(&self, alloc: Global, out: &mut Vec<Token>) -> Result<(), NoMemory>
        ensures { OnOk result (out.new.items ≡ out.old.items ++ tokens self.now) };
}

/// A keyword.
pub fn put_word(out: &mut Vec<Token>, keyword: Keyword) -> Result<(), NoMemory>
    ensures { OnOk result (out.new.items ≡ out.old.items ++ spell.word keyword ∷ []) }
{
    out.push(Token::Keyword(keyword))?;
    Ok(())
}

/// The name of a table or of a column.
pub fn put_name(alloc: Global, out: &mut Vec<Token>, name: &Name) -> Result<(), NoMemory>
    ensures { OnOk result (out.new.items ≡ out.old.items ++ token.Word name.now ∷ []) }
{
    out.push(Token::Word(name.copy(alloc)?))?;
    Ok(())
}

/// A sign.
pub fn put_sign(out: &mut Vec<Token>, sign: Sign) -> Result<(), NoMemory>
    ensures { OnOk result (out.new.items ≡ out.old.items ++ token.Sign sign ∷ []) }
{
    out.push(Token::Sign(sign))?;
    Ok(())
}

/// A number without a sign.
pub fn put_number(out: &mut Vec<Token>, number: u32) -> Result<(), NoMemory>
    ensures { OnOk result (out.new.items ≡ out.old.items ++ spell.number number ∷ []) }
{
    out.push(Token::Int(i64::from(number)))?;
    Ok(())
}

/// A number without a sign, of 63 bits.
pub fn put_wide_number(out: &mut Vec<Token>, number: u64) -> Result<(), NoMemory>
    requires { number < 2 ^ 63 }
    ensures { OnOk result (out.new.items ≡ out.old.items ++ spell.number number ∷ []) }
{
    out.push(Token::Int(number as i64))?;
    Ok(())
}

/// A value.
pub fn put_lit(alloc: Global, out: &mut Vec<Token>, lit: &Lit) -> Result<(), NoMemory>
    ensures { OnOk result (out.new.items ≡ out.old.items ++ spell.lit_token lit.now ∷ []) }
{
    match lit {
        Lit::Null => put_word(out, Keyword::Null),
        Lit::Int(number) => {
            out.push(Token::Int(*number))?;
            Ok(())
        }
        Lit::Text(text) => {
            out.push(Token::Text(text.copy(alloc)?))?;
            Ok(())
        }
    }
}

/// The parts, a comma before each.
fn put_others<T: Spelled>(alloc: Global, out: &mut Vec<Token>, parts: &[T]) -> Result<(), NoMemory>
    ensures { OnOk result (out.new.items ≡ out.old.items ++ spell_others spell.comma T.tokens parts.now) }
{
    for part in parts {
        put_sign(out, Sign::Comma)?;
        part.put(alloc, out)?;
    }
    Ok(())
}

/// The parts with commas between them.
pub fn put_list<T: Spelled>(
    alloc: Global,
    out: &mut Vec<Token>,
    parts: &[T],
) -> Result<(), NoMemory>
    ensures { OnOk result (out.new.items ≡ out.old.items ++ spell_joined spell.comma T.tokens parts.now) }
{
    match parts {
        [] => Ok(()),
        [first, others @ ..] => {
            first.put(alloc, out)?;
            put_others(alloc, out, others)
        }
    }
}

/// The parts in parentheses.
pub fn put_in_parens<T: Spelled>(
    alloc: Global,
    out: &mut Vec<Token>,
    parts: &[T],
) -> Result<(), NoMemory>
    ensures { OnOk result (out.new.items ≡ out.old.items ++ spell.in_parens (spell_joined spell.comma T.tokens parts.now)) }
{
    put_sign(out, Sign::LeftParen)?;
    put_list(alloc, out, parts)?;
    put_sign(out, Sign::RightParen)
}

impl Spelled for Name {
    ghost tokens = { λ n. token.Word n ∷ [] };

    fn put(&self, alloc: Global, out: &mut Vec<Token>) -> Result<(), NoMemory> {
        put_name(alloc, out, self)
    }
}

impl Spelled for Lit {
    ghost tokens = { λ v. spell.lit_token v ∷ [] };

    fn put(&self, alloc: Global, out: &mut Vec<Token>) -> Result<(), NoMemory> {
        put_lit(alloc, out, self)
    }
}

impl Spelled for List<Lit> {
    ghost tokens = { spell.spell_tuple };

    fn put(&self, alloc: Global, out: &mut Vec<Token>) -> Result<(), NoMemory> {
        put_in_parens(alloc, out, self.items())
    }
}
