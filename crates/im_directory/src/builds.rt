ghost use Rattle.std.specs.Prelude.{◌≡◌, ◌+◌, ◌-◌, ◌^◌, ◌<◌, [], ◌∷◌, ◌++◌, count_by, is_some, length, option_copied, option_map, set, IsSome, OnErr, OnOk};
ghost use Rattle.std.specs.Option.{ForSome};
ghost use Rattle.im_history.specs.Horizon.{least};
ghost use Rattle.im_directory.specs.Slots.{build_among, scns_among};
ghost use Rattle.im_directory.specs.Steps.{builds_killed, killed_at};

use im_history::Held;
use im_values::NoMemory;
use std::alloc::Global;
use std::marker::Model;
use std::mem::replace;

/// All builds that began, the first of which is build 1: those that are held, and nothing of the others.
#[derive(Drop)]
pub struct Builds {
    list: Vec<Option<Held>>,
    held: u64,
}

impl Model for Builds {
    ghost use Rattle.std.specs.Prelude.{◌≡◌, List, Option, count_by, is_some};
    ghost use Rattle.im_history.specs.declared.task.Held.{Held};

    ghost Value = { List (Option Held) };

    ghost view = { λ b. b.list.items };

    ghost invariant = { λ b. b.held ≡ count_by is_some b.list.items };
}

impl Builds {
    /// No build began. It takes no memory.
    pub fn new(alloc: Global) -> Builds
        ensures { result ≡ [] }
    {
        Builds {
            list: Vec::new(alloc),
            held: 0,
        }
    }

    /// How many builds began.
    pub fn len(&self) -> u64
        ensures len { result ≡ length self.now }
        ensures few { result < 2 ^ 63 }
    {
        self.list.len() as u64
    }

    /// How many builds are held.
    pub fn held(&self) -> u64
        ensures held { result ≡ count_by is_some self.now }
        ensures few { result < 2 ^ 63 }
    {
        self.held
    }

    /// The held build of a number.
    pub fn get(&self, id: u64) -> Option<&Held>
        ensures { option_copied result ≡ build_among self.now id }
    {
        if id == 0 {
            return None;
        }
        self.list.get(id as usize - 1)?.as_ref()
    }

    /// The least of a number and the SCNs of all held builds. It costs a step for each build that began.
    pub fn least_scn(&self, most: u64) -> u64
        ensures { result ≡ least most (scns_among self.now) }
    {
        let mut least = most;
        for build in &self.list {
            least = least_with(least, build);
        }
        least
    }

    /// A build more, which is held.
    pub fn push(&mut self, held: Held) -> Result<(), NoMemory>
        ensures ok { OnOk result (self.new ≡ self.old ++ Some held ∷ []) }
        ensures err { OnErr result (self.new ≡ self.old) }
    {
        self.list.push(Some(held))?;
        self.held += 1;
        Ok(())
    }

    /// Ends a held build, and answers it.
    pub fn end(&mut self, id: u64) -> Held
        requires { IsSome (build_among self.old id) }
        ensures rest { self.new ≡ set self.old (id - 1) None }
        ensures ended { build_among self.old id ≡ Some result }
    {
        self.held -= 1;
        replace(&mut self.list[id as usize - 1], None).unwrap()
    }

    /// Kills the held build of a number, where one is given, by an entry at this place.
    pub fn kill(&mut self, id: Option<u64>, place: u64)
        requires { ForSome id (λ id. IsSome (build_among self.old id)) }
        ensures { self.new ≡ builds_killed place id self.old }
    {
        if let Some(id) = id {
            kill(&mut self.list[id as usize - 1], place);
        }
    }
}

/// The least of a number and the SCN of this build, if it is held.
fn least_with(most: u64, build: &Option<Held>) -> u64
    ensures { result ≡ least most (scns_among (build.now ∷ [])) }
{
    match build {
        Some(held) => most.min(held.task.scn),
        None => most,
    }
}

/// Kills a held build by an entry at this place, unless it was killed before.
fn kill(build: &mut Option<Held>, place: u64)
    ensures { build.new ≡ option_map (killed_at place) build.old }
{
    if let Some(held) = build {
        if held.killed.is_none() {
            held.killed = Some(place);
        }
    }
}
