ghost use Rattle.std.specs.Prelude.{[], ◌∷◌, OnOk, map};
ghost use Rattle.im_text.specs.Extents.{how_fields, served_record};
ghost use Rattle.im_text.specs.Records.{further};
ghost use Rattle.im_text.specs.inner.Pages.{IsBetween, IsInside, Adds, Puts};

use crate::page::Page;
use im_replies::How;
use im_values::NoMemory;

/// Puts what served an extent, as further fields.
pub fn put_how(page: &mut Page, how: How) -> Result<(), NoMemory>
    requires { IsInside page.old }
    ensures { OnOk result (Adds page.old page.new (further (how_fields how))) }
{
    match how {
        How::Unit { scn, stale } => page.put_phrase("unit", &[scn, stale]),
        How::Pruned { scn, stale } => page.put_phrase("pruned", &[scn, stale]),
        How::Blocks => page.put_phrase("blocks", &[]),
    }
}

/// Puts an extent and what served it.
pub fn put_served(page: &mut Page, extent: u64, how: How) -> Result<(), NoMemory>
    requires { IsBetween page.old }
    ensures { OnOk result (Puts page.old page.new (served_record extent how ∷ [])) }
{
    page.begin()?;
    page.put_phrase("served", &[extent])?;
    put_how(page, how)?;
    page.end()
}

/// Puts what served each extent.
pub fn put_extents(page: &mut Page, extents: &[(u64, How)]) -> Result<(), NoMemory>
    requires { IsBetween page.old }
    ensures { OnOk result (Puts page.old page.new (map (λ e. served_record e.0 e.1) extents.now)) }
{
    for (extent, how) in extents {
        put_served(page, *extent, *how)?;
    }
    Ok(())
}
