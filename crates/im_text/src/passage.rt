ghost use Rattle.std.specs.Prelude.{OnOk};
ghost use Rattle.im_text.specs.Passages.{passage_text};
ghost use Rattle.im_text.specs.Replies.{reply_text};
ghost use Rattle.im_text.specs.Report.{line_text};
ghost use Rattle.im_text.specs.inner.Pages.{IsReady, Says, Shows};

use crate::bodies::put_body;
use crate::entries::put_entry;
use crate::page::Page;
use crate::report::{put_history, put_places, put_worker};
use im_history::Entry;
use im_replies::{Body, Reply};
use im_values::NoMemory;

/// What is put at once behind the text that waits.
#[derive(Clone, Copy)]
pub enum Passage<'a> {
    /// The reply to the line of this number.
    Reply(u64, &'a Body),
    /// How many entries the history of a race has.
    History(u64),
    /// The entry at this place of the history.
    Entry(u64, &'a Entry),
    /// How the worker of a number ended.
    Worker {
        /// Its number.
        who: u32,
        /// Whether it was over, and not its turns spent.
        over: bool,
        /// How many of its turns were spent for lack of memory.
        lacks: u64,
        /// The place at which it was over; or the last at which it had nothing to do, if there was one.
        place: Option<u64>,
    },
    /// The line of this number in a race: the place at which it was answered, its marks, and its reply. A reply that was settled
    /// at no place has neither.
    Line(u64, &'a Reply),
}

/// Puts the reply to a line.
fn put_reply(page: &mut Page, line: u64, body: &Body) -> Result<(), NoMemory>
    requires { IsReady page.old }
    ensures { OnOk result (Shows page.old page.new (reply_text line body.now)) }
{
    page.turn_to(line);
    put_body(page, body)
}

/// Puts where a line was answered, what it was served, and the reply to it.
fn put_line(page: &mut Page, line: u64, reply: &Reply) -> Result<(), NoMemory>
    requires { IsReady page.old }
    ensures { OnOk result (Shows page.old page.new (line_text line reply.now)) }
{
    page.turn_to(line);
    put_places(page, line, reply.place, reply.marks.items())?;
    put_body(page, &reply.body)
}

/// Puts a passage.
fn put_passage(page: &mut Page, passage: Passage<'_>) -> Result<(), NoMemory>
    requires { IsReady page.old }
    ensures { OnOk result (Shows page.old page.new (passage_text passage.entry)) }
{
    match passage {
        Passage::Reply(line, body) => put_reply(page, line, body),
        Passage::History(count) => put_history(page, count),
        Passage::Entry(place, entry) => put_entry(page, place, entry),
        Passage::Worker {
            who,
            over,
            lacks,
            place,
        } => put_worker(page, who, over, lacks, place),
        Passage::Line(line, reply) => put_line(page, line, reply),
    }
}

/// Puts a passage at the end of a page, and writes it out.
pub fn put_on_page(page: &mut Page, passage: Passage<'_>) -> Result<(), NoMemory>
    requires { IsReady page.old }
    ensures { OnOk result (Says page.old page.new (passage_text passage.entry)) }
{
    put_passage(page, passage)?;
    page.flush()
}
