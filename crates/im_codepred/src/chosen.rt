ghost use Rattle.std.specs.Prelude.{◌≡◌, ◌∷◌, ◌^◌, ◌<◌, All, IfOk, length, map};
ghost use Rattle.im_values.specs.declared.content.Content.TheVariants.{Null};
ghost use Rattle.im_codes.specs.Dictionary.{coded};
ghost use Rattle.im_codepred.specs.Asked.{is_met};
ghost use Rattle.im_codepred.specs.inner.Spans.{is_in, is_chosen, AreChosen, HasFlags};

use crate::asked::{Asked, Wanted, asks};
use crate::spans::{Spans, spans_of};
use im_bits::Bits;
use im_codes::Dict;
use im_lanes::{Mask, mask_by_flags, mask_within};
use im_values::{NoMemory, Value};
use std::alloc::Global;

/// Which codes of a dictionary are chosen.
#[derive(Drop)]
pub enum Chosen {
    /// Those of two ranges.
    Spans(Spans),

    /// Those whose flag is set. There is one for each code.
    Flags(Vec<bool>),
}

impl Chosen {
    /// The codes of a dictionary whose value has the truth that is wanted.
    pub fn of(alloc: Global, wanted: Wanted, asked: &Asked, dict: &Dict) -> Result<Chosen, NoMemory>
        ensures { IfOk result (λ chosen. AreChosen chosen (is_met wanted asked.now) dict.now) }
    {
        match spans_of(wanted, asked, dict) {
            Some(spans) => Ok(Chosen::Spans(spans)),
            None => Ok(Chosen::Flags(flags_of(alloc, wanted, asked, dict.values())?)),
        }
    }

    /// Whether a code is chosen.
    pub fn has(&self, code: u32) -> bool
        ensures { result ≡ is_chosen self.now code }
    {
        match self {
            Chosen::Spans(spans) => spans.has(code),
            Chosen::Flags(flags) => flags.get(code as usize).copied().unwrap_or(false),
        }
    }

    /// Chooses these of packed codes.
    pub fn mask(&self, alloc: Global, bits: &Bits, most: u32) -> Result<Mask, NoMemory>
        requires flags { HasFlags self.now most }
        requires codes { All (λ code. code < most) bits.now.codes }
        ensures { IfOk result (λ mask. mask ≡ map (is_chosen self.now) bits.now.codes) }
    {
        match self {
            Chosen::Spans(spans) => Ok(mask_by_spans(alloc, bits, spans)?),
            Chosen::Flags(flags) => Ok(mask_by_flags(alloc, bits, flags.as_slice())?),
        }
    }
}

/// Chooses the codes of two ranges: 64 of them are compared at once.
fn mask_by_spans(alloc: Global, bits: &Bits, spans: &Spans) -> Result<Mask, NoMemory>
    ensures { IfOk result (λ mask. mask ≡ map (is_in spans.now) bits.now.codes) }
{
    let mut mask = mask_within(alloc, bits, spans.first.low, spans.first.end)?;
    if spans.second.low < spans.second.end {
        let second = mask_within(alloc, bits, spans.second.low, spans.second.end)?;
        mask.or_with(&second);
    }
    Ok(mask)
}

/// Of each code whether its value has the truth that is wanted. The first is that of NULL.
fn flags_of(
    alloc: Global,
    wanted: Wanted,
    asked: &Asked,
    dict: &[Value],
) -> Result<Vec<bool>, NoMemory>
    requires { length dict.now < 2 ^ 31 }
    ensures { IfOk result (λ flags. flags.items ≡ map (is_met wanted asked.now) (coded dict.now)) }
{
    let mut flags = Vec::with_capacity(alloc, dict.len() + 1)?;
    flags.push(asks(wanted, asked, &Value::null()))?;
    for value in dict {
        flags.push(asks(wanted, asked, value))?;
    }
    Ok(flags)
}
