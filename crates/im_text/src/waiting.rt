ghost use Rattle.std.specs.Prelude.{◌≡◌, ◌++◌, [], length, take, IfOk, OnOk, OnErr};
ghost use Rattle.im_replies.specs.declared.body.Body.TheVariants.{Inserted};
ghost use Rattle.im_text.specs.Passages.{passage_text};
ghost use Rattle.im_text.specs.Replies.{reply_text};
ghost use Rattle.im_text.specs.inner.Pages.{IsReady};

use crate::page::Page;
use crate::passage::{Passage, put_on_page};
use im_replies::Body;
use im_values::NoMemory;
use itoa::Buffer;
use std::alloc::Global;
use std::marker::Model;

/// The most bytes of a text for which there is always room behind a piece.
const SHORT: usize = 4096;

/// The text of replies that waits to be written.
///
/// Lines are numbered from 1. The text is bytes, since a text of a table may hold any. Memory for a piece of it is taken at
/// the start and kept: as long as less than a piece waits, a further text of at most 4,096 bytes, as that of a refusal,
/// takes none.
#[derive(Drop)]
pub struct Waiting {
    page: Page,
    text: Vec<u8>,
    piece: usize,
}

impl Model for Waiting {
    ghost use Rattle.std.specs.Prelude.{ℕ, List};
    ghost use Rattle.im_text.specs.inner.Pages.{IsReady};

    ghost Value = { List ℕ };

    ghost view = { λ waiting. waiting.text.items };

    ghost invariant = { λ waiting. IsReady waiting.page };
}

/// Puts the record of rows that were inserted at the end of a text, by no page: none of its fields calls for quotes. Where there is
/// no memory for all of it, a part of it may be there.
fn put_inserted(text: &mut Vec<u8>, line: u64, rows: u64, first: u64) -> Result<(), NoMemory>
    ensures behind { take (length text.old.items) text.new.items ≡ text.old.items }
    ensures ok { OnOk result (text.new.items ≡ text.old.items ++ reply_text line (Inserted rows first)) }
{
    let mut digits = Buffer::new();
    text.extend_from_slice(digits.format(line).as_bytes())?;
    text.extend_from_slice(b",inserted,")?;
    text.extend_from_slice(digits.format(rows).as_bytes())?;
    text.push(b',')?;
    text.extend_from_slice(digits.format(first).as_bytes())?;
    text.push(b'\n')?;
    Ok(())
}

/// The same, or nothing where there is no memory for all of it.
fn put_inserted_behind(text: &mut Vec<u8>, line: u64, rows: u64, first: u64) -> Result<(), NoMemory>
    ensures ok { OnOk result (text.new.items ≡ text.old.items ++ reply_text line (Inserted rows first)) }
    ensures err { OnErr result (text.new.items ≡ text.old.items) }
{
    let start = text.len();
    let put = put_inserted(text, line, rows, first);
    if put.is_err() {
        text.truncate(start);
    }
    put
}

/// Puts a passage at the end of a page, and its text behind what waits.
fn put_behind(page: &mut Page, passage: Passage<'_>, text: &mut Vec<u8>) -> Result<(), NoMemory>
    requires { IsReady page.old }
    ensures ready { OnOk result (IsReady page.new) }
    ensures ok { OnOk result (text.new.items ≡ text.old.items ++ passage_text passage.entry) }
    ensures err { OnErr result (text.new.items ≡ text.old.items) }
{
    let start = page.bytes().len();
    put_on_page(page, passage)?;
    text.extend_from_slice(&page.bytes()[start..])?;
    Ok(())
}

/// Goes on with an empty page, with this room where there is memory. The old one is let go of first, so that its memory can
/// serve the new one.
fn renew(page: &mut Page, alloc: Global, room: usize)
    ensures { IsReady page.new }
{
    *page = Page::over(Vec::new(alloc));
    if let Ok(bytes) = Vec::with_capacity(alloc, room) {
        *page = Page::over(bytes);
    }
}

/// The room for a piece and a short text.
fn room_for(piece: usize) -> usize {
    piece.saturating_add(SHORT)
}

impl Waiting {
    /// Nothing, with room for a piece of so many bytes.
    pub fn with_room(alloc: Global, piece: usize) -> Result<Waiting, NoMemory>
        ensures { IfOk result (λ waiting. waiting ≡ []) }
    {
        let room = room_for(piece);
        Ok(Waiting {
            page: Page::over(Vec::with_capacity(alloc, room)?),
            text: Vec::with_capacity(alloc, room)?,
            piece,
        })
    }

    /// All that waits.
    pub fn bytes(&self) -> &[u8]
        ensures { result.now ≡ self.now }
    {
        self.text.as_slice()
    }

    /// Puts a passage behind what waits, by the page.
    fn put_by_page(&mut self, alloc: Global, passage: Passage<'_>) -> Result<(), NoMemory>
        ensures ok { OnOk result (self.new ≡ self.old ++ passage_text passage.entry) }
        ensures err { OnErr result (self.new ≡ self.old) }
    {
        let put = put_behind(&mut self.page, passage, &mut self.text);
        if put.is_err() || self.page.bytes().len() >= self.piece {
            renew(&mut self.page, alloc, room_for(self.piece));
        }
        put
    }

    /// Puts a passage behind what waits. It fails out of memory alone.
    pub fn put(&mut self, alloc: Global, passage: Passage<'_>) -> Result<(), NoMemory>
        ensures ok { OnOk result (self.new ≡ self.old ++ passage_text passage.entry) }
        ensures err { OnErr result (self.new ≡ self.old) }
    {
        match passage {
            Passage::Reply(line, Body::Inserted { rows, first }) => {
                put_inserted_behind(&mut self.text, line, *rows, *first)
            }
            _ => self.put_by_page(alloc, passage),
        }
    }

    /// Lets go of all that waits, and of room past a piece and a short text.
    pub fn clear(&mut self)
        ensures { self.new ≡ [] }
    {
        self.text.clear();
        self.text.shrink_to(room_for(self.piece));
    }
}
