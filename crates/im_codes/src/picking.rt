ghost use Rattle.std.specs.Prelude.{◌≡◌, ◌+◌, ◌++◌, ◌^◌, ◌<◌, ◌≤◌, ℕ, All, Contains, IfOk, IfSome, OnOk, length, slice_index_or, true, vec_len};
ghost use Rattle.std.specs.Bool.{OnTrue};
ghost use Rattle.im_codes.specs.Dictionary.{AreCodesOf, IsDictionaryOf, coded, lent, values_at};

use crate::coding::through;
use crate::dict::Dict;
use im_values::{NoMemory, Value};
use std::alloc::Global;

impl Dict {
    /// The codes of the values at places of a list: codes of this dictionary, and values behind them.
    ///
    /// None where this is not the dictionary of the values at these places: one of the values behind has no code, or a value
    /// of the dictionary stands at no place. It costs a look-up for each value behind, a step for each place, and no value is
    /// copied.
    pub fn codes_picked(
        &self,
        alloc: Global,
        codes: Vec<u32>,
        fresh: &[&Value],
        places: &[u32],
    ) -> Result<Option<Vec<u32>>, NoMemory>
        requires codes { All (λ code. code < length (coded self.now)) codes.items }
        requires places { All (λ place. place < length codes.items + length fresh.now) places.now }
        ensures codes { IfOk result (λ found. IfSome found (λ picked.
            AreCodesOf (values_at (values_at (coded self.now) codes.items ++ lent fresh.now) places.now) self.now picked.items)) }
        ensures dictionary { IfOk result (λ found. IfSome found (λ _.
            IsDictionaryOf (values_at (values_at (coded self.now) codes.items ++ lent fresh.now) places.now) self.now)) }
    {
        let Some(stock) = codes_behind(self, codes, fresh)? else {
            return Ok(None);
        };
        let picked = through(alloc, places, stock.as_slice())?;
        if !uses_all(alloc, self.len(), picked.as_slice())? {
            return Ok(None);
        }
        Ok(Some(picked))
    }
}

/// Codes, and behind them those of more values: none where one of these has no code.
fn codes_behind(
    dict: &Dict,
    codes: Vec<u32>,
    fresh: &[&Value],
) -> Result<Option<Vec<u32>>, NoMemory>
    requires { All (λ code. code < length (coded dict.now)) codes.items }
    ensures { IfOk result (λ found. IfSome found (λ stock.
        AreCodesOf (values_at (coded dict.now) codes.items ++ lent fresh.now) dict.now stock.items)) }
{
    let mut stock = codes;
    for i in 0..fresh.len() {
        let Some(code) = dict.code_of(fresh[i]) else {
            return Ok(None);
        };
        stock.push(code)?;
    }
    Ok(Some(stock))
}

/// Whether each code from 1 up to a greatest one is among codes.
fn uses_all(alloc: Global, greatest: u32, codes: &[u32]) -> Result<bool, NoMemory>
    requires few { greatest < 2 ^ 31 }
    requires codes { All (λ code. code < greatest + 1) codes.now }
    ensures { IfOk result (λ all. OnTrue all ((code : ℕ) → 0 < code → code ≤ greatest → Contains codes.now code)) }
{
    let mut used = vec![in alloc; false; greatest as usize + 1]?;
    for code in codes {
        used[*code as usize] = true;
    }
    Ok(all_used(used.as_slice()))
}

/// Whether each flag behind the first is set.
fn all_used(used: &[bool]) -> bool
    ensures { OnTrue result ((code : ℕ) → 0 < code → code < length used.now → slice_index_or used.now code true ≡ true) }
{
    for code in 1..used.len() {
        if !used[code] {
            return false;
        }
    }
    true
}
