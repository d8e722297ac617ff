ghost use Rattle.std.specs.Prelude.{◌≡◌, ◌+◌, ◌^◌, ◌∷◌, ◌<◌, ◌≤◌, ◌++◌, [], All, length, option_copied, true, IfOk, OnOk, OnErr};
ghost use Rattle.im_versions.specs.Versions as versions;
ghost use Rattle.im_blocks.specs.Chains.{chain_at, chain_versions, newest_scn};
ghost use Rattle.im_blocks.specs.inner.Letting.{ArePurged};
ghost use Rattle.im_blocks.specs.inner.Packing.{IsNumbered};
ghost use Rattle.im_blocks.specs.inner.Puts.{IsChained};

use crate::slot::MOST;
use crate::touched::Touched;
use im_values::{NoMemory, Steps, Value};
use im_versions::Chain;
use std::alloc::Global;
use std::sync::ledger::Ledger;

/// The chain of a number, if it is that of the row number.
pub fn at(chains: &[Touched], number: u32, table: u32, rid: u64) -> Option<&Touched>
    ensures { option_copied result ≡ chain_at chains.now number table rid }
{
    let touched = chains.get(number as usize)?;
    if touched.table == table && touched.rid == rid {
        Some(touched)
    } else {
        None
    }
}

/// The values of a row number at an SCN, by its chain. It is one step at most.
pub fn values_at<'a, L: Ledger>(
    touched: Option<&'a Touched>,
    scn: u64,
    steps: &mut Steps<L>,
) -> Option<&'a [Value]>
    ensures row { option_copied result ≡ versions.row_at (chain_versions (option_copied touched.entry)) scn }
    ensures few { steps.new ≤ steps.old + 1 }
{
    Some(touched?.chain.at(scn, steps)?.values())
}

/// The values of the row that the newest version of a row number left, by its chain.
pub fn newest_values(touched: Option<&Touched>) -> Option<&[Value]>
    ensures { option_copied result ≡ versions.newest_row (chain_versions (option_copied touched.entry)) }
{
    Some(touched?.chain.newest()?.values())
}

/// The SCN of the newest version of a row number, by its chain.
pub fn newest(touched: Option<&Touched>) -> u64
    ensures { result ≡ newest_scn (chain_versions (option_copied touched.entry)) }
{
    match touched {
        Some(touched) => touched.chain.latest().unwrap_or(0),
        None => 0,
    }
}

/// Whether a row number has no version, by its chain.
pub fn are_empty(touched: Option<&Touched>) -> bool
    ensures { result ≡ true → chain_versions (option_copied touched.entry) ≡ [] }
{
    match touched {
        Some(touched) => touched.chain.latest().is_none(),
        None => true,
    }
}

/// Adds a chain for a row number, with room for one version more, and answers its number.
pub fn push(chains: &mut Vec<Touched>, table: u32, rid: u64, chain: Chain) -> Result<u32, NoMemory>
    ensures ok { IfOk result (λ number. IsChained chains.old.items chains.new.items number table rid chain.versions) }
    ensures few { IfOk result (λ number. IsNumbered number) }
    ensures err { OnErr result (chains.new.items ≡ chains.old.items) }
{
    if chains.len() >= MOST {
        return Err(NoMemory);
    }
    let number = chains.len() as u32;
    let mut chain = chain;
    chain.reserve()?;
    chains.push(Touched { table, rid, chain })?;
    Ok(number)
}

/// How many versions a row number has, by its chain.
pub fn count(touched: Option<&Touched>) -> u64
    ensures { result ≡ length (chain_versions (option_copied touched.entry)) }
{
    match touched {
        Some(touched) => touched.chain.count(),
        None => 0,
    }
}

/// Lets go of the versions in all chains that no reading at a floor or above it asks for. It takes no memory.
pub fn purge_each(chains: &mut Vec<Touched>, floor: u64)
    ensures { ArePurged chains.old.items chains.new.items floor }
{
    for touched in chains.iter_mut() {
        touched.purge(floor);
    }
}

/// A number past those of the tables that the chains are of.
pub fn tables_end(chains: &[Touched]) -> u64
    ensures few { result ≤ 2 ^ 32 }
    ensures past { All (λ touched. touched.table < result) chains.now }
{
    let mut end: u64 = 0;
    for touched in chains {
        end = end.max(u64::from(touched.table) + 1);
    }
    end
}
