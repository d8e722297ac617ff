ghost use Rattle.std.specs.Prelude.{[], ◌∷◌, OnOk, flat_map};
ghost use Rattle.im_text.specs.Tasks.{build_record, ending_record, task_records};
ghost use Rattle.im_text.specs.inner.Pages.{IsBetween, Puts};

use crate::page::Page;
use im_replies::{Built, Ending};
use im_values::NoMemory;

/// Puts the beginning of a build.
pub fn put_build(page: &mut Page, built: &Built) -> Result<(), NoMemory>
    requires { IsBetween page.old }
    ensures { OnOk result (Puts page.old page.new (build_record built.now ∷ [])) }
{
    let trickle = if built.trickle { 1 } else { 0 };
    let table = u64::from(built.table);
    page.put_numbers(
        "build",
        &[built.id, table, built.extent, built.scn, trickle],
    )
}

/// Puts the end of a build.
pub fn put_ending(page: &mut Page, ending: &Ending) -> Result<(), NoMemory>
    requires { IsBetween page.old }
    ensures { OnOk result (Puts page.old page.new (ending_record ending.now ∷ [])) }
{
    match *ending {
        Ending::Switch { id, bytes, used } => page.put_numbers("switch", &[id, bytes, used]),
        Ending::Full { id, need, free } => page.put_numbers("full", &[id, need, free]),
        Ending::Cancelled { id, place } => page.put_numbers("cancelled", &[id, place]),
        Ending::Dropped { id } => page.put_numbers("dropped", &[id]),
    }
}

/// Puts builds, each from its beginning to its end.
pub fn put_tasks(page: &mut Page, tasks: &[(Built, Ending)]) -> Result<(), NoMemory>
    requires { IsBetween page.old }
    ensures { OnOk result (Puts page.old page.new (flat_map task_records tasks.now)) }
{
    for (built, ending) in tasks {
        put_build(page, built)?;
        put_ending(page, ending)?;
    }
    Ok(())
}
