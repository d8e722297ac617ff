ghost use Rattle.std.specs.Prelude.{◌≡◌, false, pos, ◌+ℤ◌, ◌*ℤ◌, ◌+◌, ◌*◌, ◌^◌, ◌<◌, ◌≤◌, ℕ, All, count_by, fold, length, map, take, drop, option_copied, slice_index_or};
ghost use Rattle.im_values.specs.declared.content.Content.TheVariants.{Null};
ghost use Rattle.im_codes.specs.Dictionary.{coded, IsDictionary};
ghost use Rattle.im_lanes.specs.Masks.{is_within};
ghost use Rattle.im_codepred.specs.inner.CodeNumbers.{AreFrom};
ghost use Rattle.im_codepred.specs.inner.Ranged.{AreThere, IsSpanBelow};
ghost use Rattle.im_codepred.specs.Tallies.{IsWithin, chosen, some_of};
ghost use Rattle.im_codepred.specs.inner.Tallying.{at_bits, lesser_code, nothing, taken, taken_for, taken_run, totals_of, times_of, with_run, IsInside, Shows};

use crate::code_numbers::{CodeNumbers, number_at};
use crate::ranged::codes_within;
use crate::spans::Span;
use crate::tally::Tally;
use im_bits::{Bits, ROOM};
use im_codes::Runs;
use im_lanes::{Mask, count_within};
use im_values::Value;
use std::marker::Model;

/// What is found among the codes of a dictionary: how many are not that of NULL, the sum of the numbers that they stand for,
/// and the least and the greatest of them, or 0.
#[derive(Drop)]
pub struct Found {
    values: u64,
    sum: i128,
    least: u32,
    greatest: u32,
}

impl Model for Found {
    ghost use Rattle.im_codepred.specs.inner.Tallying.{FoundOf};
    ghost use Rattle.im_codepred.specs.Tallies.{IsWithin};

    ghost Value = { FoundOf };

    ghost view = { λ f. record { values = f.values; sum = f.sum; least = f.least; greatest = f.greatest } };

    ghost invariant = { λ f. IsWithin f.values f.sum };
}

impl Found {
    /// Nothing yet.
    pub fn none() -> Found
        ensures { result ≡ nothing }
    {
        Found {
            values: 0,
            sum: 0,
            least: 0,
            greatest: 0,
        }
    }

    /// Takes one code more.
    #[inline(always)]
    pub fn take(&mut self, numbers: &CodeNumbers, code: u32)
        requires few { self.old.values < 2 ^ 63 }
        requires code { code < length (coded numbers.now) }
        ensures { self.new ≡ taken numbers.now self.old code }
    {
        if code == 0 {
            return;
        }
        self.values += 1;
        self.sum += i128::from(numbers.at(code));
        self.least = lesser_code(self.least, code);
        self.greatest = self.greatest.max(code);
    }

    /// The same, but the least and the greatest only where the ends are wanted.
    #[inline(always)]
    pub fn take_for(&mut self, ends: bool, numbers: &CodeNumbers, code: u32)
        requires few { self.old.values < 2 ^ 63 }
        requires code { code < length (coded numbers.now) }
        ensures { self.new ≡ taken_for ends numbers.now self.old code }
    {
        if ends {
            self.take(numbers, code);
        } else {
            self.take_sum(numbers, code);
        }
    }

    /// Takes one code more, but no end.
    #[inline(always)]
    fn take_sum(&mut self, numbers: &CodeNumbers, code: u32)
        requires few { self.old.values < 2 ^ 63 }
        requires code { code < length (coded numbers.now) }
        ensures { self.new ≡ taken_for false numbers.now self.old code }
    {
        if code == 0 {
            return;
        }
        self.values += 1;
        self.sum += i128::from(numbers.at(code));
    }

    /// Takes one code so many times.
    fn take_run(&mut self, dict: &[Value], code: u32, count: u64)
        requires few { self.old.values < 2 ^ 62 }
        requires count { count < 2 ^ 31 }
        requires code { code < length (coded dict.now) }
        ensures { self.new ≡ taken_run dict.now self.old code count }
    {
        if count > 0 && code > 0 {
            self.put_run(dict, code, count);
        }
    }

    /// Takes a code from 1 on so many times, at least once.
    fn put_run(&mut self, dict: &[Value], code: u32, count: u64)
        requires few { self.old.values < 2 ^ 62 }
        requires count { count < 2 ^ 31 }
        requires some { 0 < code }
        requires code { code < length (coded dict.now) }
        ensures { self.new ≡ with_run dict.now self.old code count }
    {
        self.values += count;
        self.sum += times(count, number_at(dict, code));
        self.least = lesser_code(self.least, code);
        self.greatest = self.greatest.max(code);
    }

    /// Takes the codes at the bits of a word that are set. It costs a step for each.
    fn take_word(&mut self, numbers: &CodeNumbers, codes: &[u32], word: u64)
        requires few { self.old.values < 2 ^ 62 }
        requires short { length codes.now ≤ 64 }
        requires codes { All (λ code. code < length (coded numbers.now)) codes.now }
        requires word { word < 2 ^ length codes.now }
        ensures { self.new ≡ fold (taken numbers.now) self.old (at_bits word codes.now) }
    {
        let mut rest = word;
        while rest != 0 {
            self.take(numbers, codes[rest.trailing_zeros() as usize]);
            rest &= rest - 1;
        }
    }

    /// What is found, as values.
    pub fn tally<'a>(&self, dict: &'a [Value]) -> Tally<'a>
        requires inside { IsInside dict.now self.now }
        requires dictionary { IsDictionary dict.now }
        ensures { Shows (totals_of dict.now self.now) result }
    {
        Tally {
            values: self.values,
            sum: self.sum,
            least: value_of(dict, self.least),
            greatest: value_of(dict, self.greatest),
        }
    }
}

/// The value of a code, and none for that of NULL.
fn value_of<'a>(dict: &'a [Value], code: u32) -> Option<&'a Value>
    requires inside { code < length (coded dict.now) }
    requires dictionary { IsDictionary dict.now }
    ensures { option_copied result ≡ some_of (slice_index_or (coded dict.now) code Null) }
{
    if code == 0 {
        None
    } else {
        Some(&dict[code as usize - 1])
    }
}

/// A number so many times.
fn times(count: u64, number: i64) -> i128
    requires { count < 2 ^ 31 }
    ensures product { result ≡ times_of count number }
    ensures within { IsWithin count result }
{
    product(count, number)
}

fn product(count: u64, number: i64) -> i128
    requires { count < 2 ^ 31 }
    ensures { result ≡ pos count *ℤ number }
{
    i128::from(count) * i128::from(number)
}

/// The lesser of a code and another from 1 on, where 0 gives way to it.
#[inline(always)]
fn lesser_code(least: u32, code: u32) -> u32
    ensures { result ≡ lesser_code least code }
{
    if least == 0 || code < least {
        code
    } else {
        least
    }
}

/// What is found among the chosen of packed codes. Where 512 codes have no chosen one, they are not unpacked.
pub fn found_in(numbers: &CodeNumbers, bits: &Bits, mask: &Mask) -> Found
    requires long { length mask.now ≡ length bits.now.codes }
    requires codes { All (λ code. code < length (coded numbers.now)) bits.now.codes }
    ensures { result ≡ fold (taken numbers.now) nothing (chosen mask.now bits.now.codes) }
{
    let words = mask.words();
    let mut codes = [0; ROOM];
    let mut held = 0;
    let mut found = Found::none();
    for place in 0..words.len() {
        if words[place] != 0 {
            held = bits.turn_to(place as u64, held, &mut codes);
            found.take_word(numbers, bits.share_of(place as u64, &codes), words[place]);
        }
    }
    found
}

/// What is found among the packed codes of a range, where the numbers follow one another from the first on, and each code is there.
///
/// So the ends are those of the range, and the codes alone are added up.
pub fn found_within(numbers: &CodeNumbers, first: i64, bits: &Bits, span: Span) -> Found
    requires span { IsSpanBelow (length (coded numbers.now)) span }
    requires first { AreFrom numbers.now first }
    requires there { AreThere numbers.now bits.now.codes }
    ensures found { result ≡ fold (taken numbers.now) nothing (chosen (map (is_within span.low span.end) bits.now.codes) bits.now.codes) }
    ensures all { result.values ≡ count_by (λ chosen. chosen) (map (is_within span.low span.end) bits.now.codes) }
{
    let within = codes_within(bits, span.low, span.end);
    Found {
        values: within.count,
        sum: total(within.count, numbers.at(span.low), within.sum),
        least: span.low,
        greatest: span.end - 1,
    }
}

/// A number so many times, and what is above it.
fn total(count: u64, number: i64, above: u64) -> i128
    requires count { count < 2 ^ 31 }
    requires above { above < 2 ^ 47 }
    ensures { result ≡ times_of count number +ℤ pos above }
{
    times(count, number) + i128::from(above)
}

/// What is found among the chosen of runs of codes. A run costs a step for each word of the mask that it lies in.
pub fn found_among(dict: &[Value], runs: &Runs, mask: &Mask) -> Found
    requires long { length mask.now ≡ length runs.now }
    requires codes { All (λ code. code < length (coded dict.now)) runs.now }
    ensures { result ≡ fold (taken dict.now) nothing (chosen mask.now runs.now) }
{
    let _ = runs.len();
    let mut found = Found::none();
    let mut begin = 0;
    for run in runs.runs() {
        let end = u64::from(run.end);
        found.take_run(dict, run.code, count_within(mask, begin, end));
        begin = end;
    }
    found
}
