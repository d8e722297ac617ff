ghost use Rattle.std.specs.Prelude.{OnOk};
ghost use Rattle.im_text.specs.Bodies as spec;
ghost use Rattle.im_text.specs.inner.Pages.{IsBetween, Puts};

use crate::extents::{put_extents, put_served};
use crate::faults::put_fault;
use crate::field::Field;
use crate::page::Page;
use crate::rows::put_rows;
use crate::tasks::{put_build, put_ending, put_tasks};
use im_replies::{Body, Built, Ending, How, Records};
use im_values::NoMemory;

/// Puts an answer: its SCN and number of records, then the records.
fn put_answer(page: &mut Page, scn: u64, records: &Records) -> Result<(), NoMemory>
    requires { IsBetween page.old }
    ensures { OnOk result (Puts page.old page.new (spec.answer_records scn records.now)) }
{
    let count = records.records().len() as u64;
    page.put_numbers("answer", &[scn, count])?;
    put_rows(page, records)
}

/// Puts a plan: its SCN and number of extents, then what served each.
fn put_plan(page: &mut Page, scn: u64, served: &[(u64, How)]) -> Result<(), NoMemory>
    requires { IsBetween page.old }
    ensures { OnOk result (Puts page.old page.new (spec.plan_records scn served.now)) }
{
    let count = served.len() as u64;
    page.put_numbers("plan", &[scn, count])?;
    put_extents(page, served)
}

/// Puts what was built, and that nothing is left to build.
fn put_ran(page: &mut Page, tasks: &[(Built, Ending)]) -> Result<(), NoMemory>
    requires { IsBetween page.old }
    ensures { OnOk result (Puts page.old page.new (spec.ran_records tasks.now)) }
{
    put_tasks(page, tasks)?;
    page.put_numbers("idle", &[])
}

/// Puts what a reply says.
pub fn put_body(page: &mut Page, body: &Body) -> Result<(), NoMemory>
    requires { IsBetween page.old }
    ensures { OnOk result (Puts page.old page.new (spec.records_of body.now)) }
{
    match body {
        Body::Created { table, scn } => page.put_numbers("created", &[u64::from(*table), *scn]),
        Body::Altered { table } => page.put_numbers("altered", &[u64::from(*table)]),
        Body::Begun { scn } => page.put_numbers("begun", &[*scn]),
        Body::Inserted { rows, first } => page.put_numbers("inserted", &[*rows, *first]),
        Body::Updated { rows } => page.put_numbers("updated", &[*rows]),
        Body::Deleted { rows } => page.put_numbers("deleted", &[*rows]),
        Body::Committed { scn } => page.put_numbers("committed", &[*scn]),
        Body::RolledBack => page.put_numbers("rolled-back", &[]),
        Body::Answer { scn, records } => put_answer(page, *scn, records),
        Body::Opened {
            cursor,
            scn,
            extents,
        } => page.put_numbers("opened", &[u64::from(*cursor), *scn, *extents]),
        Body::Step { extent, how } => put_served(page, *extent, *how),
        Body::End { cursor } => page.put_numbers("end", &[u64::from(*cursor)]),
        Body::Closed { cursor } => page.put_numbers("closed", &[u64::from(*cursor)]),
        Body::Plan { scn, served } => put_plan(page, *scn, served.items()),
        Body::Ran(tasks) => put_ran(page, tasks.items()),
        Body::Build(built) => put_build(page, built),
        Body::Idle => page.put_numbers("idle", &[]),
        Body::Ended(ending) => put_ending(page, ending),
        Body::Nothing => page.put_numbers("none", &[]),
        Body::Trickle { credits } => page.put_record(&[
            Field::Word("trickle"),
            Field::Credits(*credits),
        ]),
        Body::Evicted {
            table,
            extent,
            used,
        } => page.put_numbers("evicted", &[u64::from(*table), *extent, *used]),
        Body::Purged { horizon, kept } => page.put_numbers("purged", &[*horizon, *kept]),
        Body::Error(fault) => put_fault(page, fault),
    }
}
