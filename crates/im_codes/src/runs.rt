ghost use Rattle.std.specs.Prelude.{◌≡◌, ◌==◌, ◌^◌, ◌<◌, IfOk, OnOk, length, replicate, slice_index};
ghost use Rattle.im_codes.specs.Runs.{codes_of, run_count, AreRuns, IsRunAt, Extends};

use crate::run::Run;
use im_values::NoMemory;
use std::alloc::Global;
use std::marker::Model;

/// A list of codes, kept as runs of equal ones. Each run is as long as it can be.
///
/// There are fewer than 2^31 codes.
#[derive(Drop)]
pub struct Runs {
    runs: Vec<Run>,
    len: u64,
}

impl Model for Runs {
    ghost use Rattle.std.specs.Prelude.{List, ℕ, ◌≡◌, ◌^◌, ◌<◌, length};
    ghost use Rattle.im_codes.specs.Runs.{codes_of, AreRuns};

    ghost Value = { List ℕ };

    ghost view = { λ r. codes_of r.runs.items };

    ghost invariant = { λ r. AreRuns r.runs.items × (r.len ≡ length (codes_of r.runs.items)) × (r.len < 2 ^ 31) };
}

impl Runs {
    /// The runs of a list of codes.
    pub fn build(alloc: Global, codes: &[u32]) -> Result<Runs, NoMemory>
        requires { length codes.now < 2 ^ 31 }
        ensures { IfOk result (λ runs. runs ≡ codes.now) }
    {
        let mut runs = Vec::new(alloc);
        for i in 0..codes.len() {
            extend(&mut runs, codes[i])?;
        }
        Ok(Runs {
            runs,
            len: codes.len() as u64,
        })
    }

    /// The one run of a code that stands so many times. Its cost does not grow with these.
    pub fn of_one(alloc: Global, code: u32, len: u64) -> Result<Runs, NoMemory>
        requires some { 0 < len }
        requires few { len < 2 ^ 31 }
        ensures { IfOk result (λ runs. runs ≡ replicate len code) }
    {
        let mut runs = Vec::with_capacity(alloc, 1)?;
        runs.push(Run {
            code,
            end: len as u32,
        })?;
        Ok(Runs { runs, len })
    }

    /// The code at a place, from 0. It costs a binary search.
    pub fn get(&self, i: u64) -> u32
        requires { i < length self.now }
        ensures { result ≡ slice_index self.now i }
    {
        self.runs[run_at(self.runs.as_slice(), i)].code
    }

    /// The codes, one beside another.
    pub fn codes(&self, alloc: Global) -> Result<Vec<u32>, NoMemory>
        ensures { IfOk result (λ codes. codes.items ≡ self.now) }
    {
        let codes = laid_out(alloc, self.runs.as_slice())?;
        Ok(codes)
    }

    /// How many codes there are.
    pub fn len(&self) -> u64
        ensures len { result ≡ length self.now }
        ensures few { result < 2 ^ 31 }
    {
        self.len
    }

    /// Whether there is no code.
    pub fn is_empty(&self) -> bool
        ensures { result ≡ (length self.now == 0) }
    {
        self.len == 0
    }

    /// The runs, in order: each with its code and the place past it.
    pub fn runs(&self) -> &[Run]
        ensures codes { codes_of result.now ≡ self.now }
        ensures longest { AreRuns result.now }
        ensures count { length result.now ≡ run_count self.now }
    {
        self.runs.as_slice()
    }
}

/// The codes of runs, one beside another.
fn laid_out(alloc: Global, runs: &[Run]) -> Result<Vec<u32>, NoMemory>
    requires { AreRuns runs.now }
    ensures { IfOk result (λ codes. codes.items ≡ codes_of runs.now) }
{
    let mut codes = Vec::new(alloc);
    for i in 0..runs.len() {
        codes.resize(runs[i].end as usize, runs[i].code)?;
    }
    Ok(codes)
}

/// Which run a place of the list lies in.
fn run_at(runs: &[Run], i: u64) -> usize
    requires runs { AreRuns runs.now }
    requires inside { i < length (codes_of runs.now) }
    ensures { IsRunAt runs.now i result }
{
    runs.partition_point(|run| u64::from(run.end) <= i)
}

/// Puts one more code behind the codes of runs.
fn extend(runs: &mut Vec<Run>, code: u32) -> Result<(), NoMemory>
    requires runs { AreRuns runs.old.items }
    requires few { length (codes_of runs.old.items) < 2 ^ 31 }
    ensures { OnOk result (Extends runs.old.items runs.new.items code) }
{
    match runs.pop() {
        None => runs.push(Run { code, end: 1 })?,
        Some(last) if last.code == code => {
            let end = last.end + 1;
            runs.push(Run { code, end })?;
        }
        Some(last) => {
            let end = last.end + 1;
            runs.push(last)?;
            runs.push(Run { code, end })?;
        }
    }
    Ok(())
}
