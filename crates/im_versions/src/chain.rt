ghost use Rattle.std.specs.Prelude.{◌≡◌, ℕ, ◌+◌, ◌-◌, ◌<◌, ◌≤◌, [], ◌∷◌, ◌++◌, drop, length, max, OnOk, OnErr};
ghost use Rattle.std.specs.Option.{ForSome, option_copied};
ghost use Rattle.im_versions.specs.Form as kept;
ghost use Rattle.im_versions.specs.Versions.{no_chain, row_at, latest, newest_row, versions_to, cut, IsRising};

use crate::version::Version;
use im_values::{NoMemory, Row, Steps};
use std::alloc::Global;
use std::marker::Model;
use std::sync::ledger::Ledger;

/// How the versions of a chain are kept.
#[derive(Drop)]
enum Form {
    /// No version, and room in place for one.
    Empty,
    /// One version, in place.
    One(Version),
    /// Versions in memory of their own.
    Many(Vec<Version>),
}

/// The versions of one row, oldest first.
///
/// Contracts see the versions and the spare room, the number of versions that [`Chain::push`] can add without taking
/// memory. The first version stands in the chain itself and takes no memory. The second takes memory for both; longer
/// chains grow by doubling. A chain takes 64 bytes beside that, with a version or without.
#[derive(Drop)]
pub struct Chain {
    form: Form,
    spare: u64,
    alloc: Global,
}

impl Model for Chain {
    ghost use Rattle.im_versions.specs.Versions.{Versions, IsRising};

    ghost Value = { Versions };

    ghost use Rattle.im_versions.specs.Form.{versions_in, HasRoom};

    ghost view = { λ c. record { versions = versions_in c.form; spare = c.spare } };

    ghost invariant = { λ c. HasRoom c.form c.spare × IsRising (versions_in c.form) };
}

impl Chain {
    /// A chain without versions and without spare room. It takes no memory.
    pub fn new(alloc: Global) -> Chain
        ensures { result ≡ no_chain }
    {
        Chain {
            form: Form::Empty,
            spare: 0,
            alloc,
        }
    }

    /// Makes room for one version, unless there is some.
    pub fn reserve(&mut self) -> Result<(), NoMemory>
        ensures ok { OnOk result (self.new ≡ record self.old { spare = max self.old.spare 1 }) }
        ensures err { OnErr result (self.new ≡ self.old) }
    {
        if self.spare > 0 {
            return Ok(());
        }
        make_room(self.alloc, &mut self.form)?;
        self.spare = 1;
        Ok(())
    }

    /// Puts a version on top: the row that the commit with this SCN left, or none where it took the row away.
    ///
    /// It takes no memory.
    pub fn push(&mut self, scn: u64, row: Option<Row>)
        requires room { 0 < self.old.spare }
        requires later { ForSome (latest self.old.versions) (λ last. last < scn) }
        ensures versions { self.new.versions ≡ self.old.versions ++ record { scn = scn; row = row } ∷ [] }
        ensures spare { self.new.spare ≡ self.old.spare - 1 }
    {
        self.spare -= 1;
        put(&mut self.form, Version { scn, row });
    }

    /// Lets go of the versions that no reading at this floor or above it asks for. It takes no memory.
    ///
    /// It is a search, and where something goes it costs the versions that there are. Where one version is left, it stands in the
    /// chain itself again: the memory of the others goes too.
    pub fn purge(&mut self, floor: u64)
        ensures versions { self.new.versions ≡ cut floor self.old.versions }
        ensures rising { IsRising self.old.versions }
    {
        let many = outdated(versions_in(&self.form), floor);
        if many > 0 {
            drop_oldest(&mut self.form, many);
            self.spare = 0;
        }
    }

    /// How many versions there are.
    pub fn count(&self) -> u64
        ensures { result ≡ length self.now.versions }
    {
        versions_in(&self.form).len() as u64
    }

    /// The row at an SCN, or none where there was none. It is one step.
    ///
    /// The newest version is found at once, an older one by a binary search.
    pub fn at<L: Ledger>(&self, scn: u64, steps: &mut Steps<L>) -> Option<&Row>
        ensures row { option_copied result ≡ row_at self.now.versions scn }
        ensures step { steps.new ≡ steps.old + 1 }
    {
        steps.tick();
        newest_row(versions_to(versions_in(&self.form), scn))
    }

    /// The row that the newest version left, or none where there is no version, or it took the row away.
    pub fn newest(&self) -> Option<&Row>
        ensures { option_copied result ≡ newest_row self.now.versions }
    {
        newest_row(versions_in(&self.form))
    }

    /// The SCN of the newest version, or none where there is no version.
    pub fn latest(&self) -> Option<u64>
        ensures { result ≡ latest self.now.versions }
    {
        Some(versions_in(&self.form).last()?.scn)
    }
}

/// The versions, oldest first.
fn versions_in(form: &Form) -> &[Version]
    ensures { result.now ≡ kept.versions_in form.now }
{
    match form {
        Form::Empty => &[],
        Form::One(version) => std::slice::from_ref(version),
        Form::Many(versions) => versions.as_slice(),
    }
}

/// Makes room for one version more.
fn make_room(alloc: Global, form: &mut Form) -> Result<(), NoMemory>
    ensures same { kept.versions_in form.new ≡ kept.versions_in form.old }
    ensures ok { OnOk result (kept.HasRoom form.new 1) }
    ensures err { OnErr result (kept.HasRoom form.new 0) }
{
    match form {
        Form::Empty => Ok(()),
        Form::One(_) => {
            let mut versions = Vec::with_capacity(alloc, 2)?;
            if let Form::One(version) = std::mem::replace(form, Form::Empty) {
                versions.push(version).unwrap();
            }
            *form = Form::Many(versions);
            Ok(())
        }
        Form::Many(versions) => {
            versions.reserve(1)?;
            Ok(())
        }
    }
}

/// Puts a version on top, where there is room.
fn put(form: &mut Form, version: Version)
    requires { kept.HasRoom form.old 1 }
    ensures versions { kept.versions_in form.new ≡ kept.versions_in form.old ++ version ∷ [] }
    ensures room { (spare : ℕ) → kept.HasRoom form.old (spare + 1) → kept.HasRoom form.new spare }
{
    match form {
        Form::Empty => *form = Form::One(version),
        Form::One(_) => unreachable!(),
        Form::Many(versions) => versions.push(version).unwrap(),
    }
}

/// The versions at or below an SCN.
fn versions_to(versions: &[Version], scn: u64) -> &[Version]
    requires { IsRising versions.now }
    ensures { result.now ≡ versions_to scn versions.now }
{
    match versions.last() {
        Some(newest) if newest.scn <= scn => versions,
        _ => &versions[..versions.partition_point(|version| version.scn <= scn)],
    }
}

/// The row of the newest version.
fn newest_row(versions: &[Version]) -> Option<&Row>
    ensures { option_copied result ≡ newest_row versions.now }
{
    versions.last()?.row.as_ref()
}

/// How many of the oldest versions no reading at a floor or above it asks for.
fn outdated(versions: &[Version], floor: u64) -> usize
    requires { IsRising versions.now }
    ensures few { result ≤ length versions.now }
    ensures rest { drop result versions.now ≡ cut floor versions.now }
{
    let below = versions_to(versions, floor);
    match below.last() {
        Some(newest) if newest.row.is_some() => below.len() - 1,
        _ => below.len(),
    }
}

/// Lets go of so many of the oldest versions.
fn drop_oldest(form: &mut Form, many: usize)
    requires some { 0 < many }
    requires few { many ≤ length (kept.versions_in form.old) }
    ensures rest { kept.versions_in form.new ≡ drop many (kept.versions_in form.old) }
    ensures room { kept.HasRoom form.new 0 }
{
    match form {
        Form::Empty => (),
        Form::One(_) => *form = Form::Empty,
        Form::Many(versions) => {
            let left = versions.len() - many;
            if left > 1 {
                versions.rotate_left(many);
                versions.truncate(left);
            } else {
                *form = newest_alone(versions, left);
            }
        }
    }
}

/// The newest version alone, where one is left.
fn newest_alone(versions: &mut Vec<Version>, left: usize) -> Form
    requires one { left ≤ 1 }
    requires there { left ≤ length versions.old.items }
    ensures rest { kept.versions_in result ≡ drop (length versions.old.items - left) versions.old.items }
    ensures room { kept.HasRoom result 0 }
{
    if left == 0 {
        return Form::Empty;
    }
    match versions.pop() {
        Some(newest) => Form::One(newest),
        None => Form::Empty,
    }
}
