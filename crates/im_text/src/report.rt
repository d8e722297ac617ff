ghost use Rattle.std.specs.Prelude.{◌∷◌, OnOk, map};
ghost use Rattle.im_text.specs.Fields.{field_text};
ghost use Rattle.im_text.specs.Records.{further, record_text, records_text};
ghost use Rattle.im_text.specs.Report as spec;
ghost use Rattle.im_text.specs.inner.Pages.{IsBetween, IsInside, Adds, Ends};

use crate::extents::put_how;
use crate::field::Field;
use crate::page::Page;
use im_replies::Served;
use im_values::NoMemory;

/// Puts how many entries the history has.
pub fn put_history(page: &mut Page, count: u64) -> Result<(), NoMemory>
    requires { IsBetween page.old }
    ensures { OnOk result (Ends page.old page.new (record_text (spec.history_record count))) }
{
    page.begin_with("history")?;
    page.put_each_number(&[count])?;
    page.end()
}

/// Puts that a worker was over or that its turns were spent, as further fields.
fn put_ending_word(page: &mut Page, over: bool, lacks: u64) -> Result<(), NoMemory>
    requires { IsInside page.old }
    ensures { OnOk result (Adds page.old page.new (further (spec.end_fields over lacks))) }
{
    if over {
        page.put_phrase("over", &[])
    } else {
        page.put_phrase("spent", &[lacks])
    }
}

/// Puts a place as a further field, which is empty where there is none.
fn put_place(page: &mut Page, place: Option<u64>) -> Result<(), NoMemory>
    requires { IsInside page.old }
    ensures { OnOk result (Adds page.old page.new (44 ∷ field_text (spec.place_field place))) }
{
    match place {
        Some(place) => page.put_field(Field::Number(place)),
        None => page.put(b""),
    }
}

/// Puts how a worker ended.
pub fn put_worker(
    page: &mut Page,
    who: u32,
    over: bool,
    lacks: u64,
    place: Option<u64>,
) -> Result<(), NoMemory>
    requires { IsBetween page.old }
    ensures { OnOk result (Ends page.old page.new (record_text (spec.worker_record who over lacks place))) }
{
    page.begin_with("worker")?;
    page.put_each_number(&[u64::from(who)])?;
    put_ending_word(page, over, lacks)?;
    put_place(page, place)?;
    page.end()
}

/// Puts the place at which a line was answered.
fn put_at(page: &mut Page, line: u64, place: u64) -> Result<(), NoMemory>
    requires { IsBetween page.old }
    ensures { OnOk result (Ends page.old page.new (record_text (spec.at_record line place))) }
{
    page.begin_with("at")?;
    page.put_each_number(&[line, place])?;
    page.end()
}

/// Puts an extent that a line was served, with the place at which it was.
fn put_mark(page: &mut Page, line: u64, mark: &Served) -> Result<(), NoMemory>
    requires { IsBetween page.old }
    ensures { OnOk result (Ends page.old page.new (record_text (spec.mark_record line mark.now))) }
{
    page.begin_with("mark")?;
    page.put_each_number(&[line, mark.place, mark.extent])?;
    put_how(page, mark.how)?;
    page.end()
}

/// Puts each extent that a line was served.
fn put_marks(page: &mut Page, line: u64, marks: &[Served]) -> Result<(), NoMemory>
    requires { IsBetween page.old }
    ensures { OnOk result (Ends page.old page.new (records_text (map (spec.mark_record line) marks.now))) }
{
    for mark in marks {
        put_mark(page, line, mark)?;
    }
    Ok(())
}

/// Puts where a line was answered and what it was served, or nothing where its reply was settled at no place.
pub fn put_places(
    page: &mut Page,
    line: u64,
    place: Option<u64>,
    marks: &[Served],
) -> Result<(), NoMemory>
    requires { IsBetween page.old }
    ensures { OnOk result (Ends page.old page.new (records_text (spec.place_records line place marks.now))) }
{
    match place {
        Some(place) => {
            put_at(page, line, place)?;
            put_marks(page, line, marks)
        }
        None => Ok(()),
    }
}
