ghost use Rattle.std.specs.Prelude.{◌≡◌, ◌+◌, ◌*◌, ◌^◌, ◌<◌, ◌≤◌, All, IfOk, length, map, is_some, nat_lt, take, get_or, false};
ghost use Rattle.std.specs.Bool.{OnTrue};
ghost use Rattle.std.specs.Int.{div_ceil};
ghost use Rattle.im_unit.specs.inner.Kept.{count_set, ranks_of};

use im_bits::{Bits, words_for};
use im_values::NoMemory;
use std::alloc::Global;
use std::marker::Model;
use std::sync::Arc;

/// Which rows of an extent are present: a bit for each row number. There are fewer than 2^31.
///
/// It never changes, so units with other columns of the same rows share it.
#[derive(Drop)]
pub struct Presence {
    bits: Arc<Bits>,
    ranks: Arc<Vec<u64>>,
    count: u64,
}

impl Model for Presence {
    ghost use Rattle.std.specs.Prelude.{◌≡◌, ◌^◌, ◌<◌, List, Bool, map, nat_lt};
    ghost use Rattle.std.specs.Arc.{arc_value};
    ghost use Rattle.im_unit.specs.inner.Kept.{count_set, ranks_of};

    ghost Value = { List Bool };

    ghost view = { λ p. map (nat_lt 0) (arc_value p.bits).codes };

    ghost invariant = { λ p. (p.count ≡ count_set (map (nat_lt 0) (arc_value p.bits).codes)) × (p.count < 2 ^ 31) × ((arc_value p.ranks).items ≡ ranks_of (map (nat_lt 0) (arc_value p.bits).codes)) };
}

/// 1 for a row, and 0 for none.
fn bit_of<T>(row: &Option<T>) -> u32
    ensures flag { nat_lt 0 result ≡ is_some row.now }
    ensures fits { result < 2 }
{
    u32::from(row.is_some())
}

/// The bit of each row.
fn bits_of<T>(alloc: Global, rows: &[Option<T>]) -> Result<Vec<u32>, NoMemory>
    ensures flags { IfOk result (λ bits. map (nat_lt 0) bits.items ≡ map is_some rows.now) }
    ensures fit { IfOk result (λ bits. All (λ bit. bit < 2) bits.items) }
{
    let mut bits = Vec::with_capacity(alloc, rows.len())?;
    for row in rows {
        bits.push_reserved(bit_of(row));
    }
    Ok(bits)
}

/// How many of the bits before a place are set, where it is known how many are before an earlier one.
fn count_on(bits: &Bits, first: u64, known: u64, place: u64) -> u64
    requires order { first ≤ place }
    requires within { place ≤ length bits.now.codes }
    requires known { known ≡ count_set (take first (map (nat_lt 0) bits.now.codes)) }
    requires few { known ≤ first }
    ensures count { result ≡ count_set (take place (map (nat_lt 0) bits.now.codes)) }
    ensures most { result ≤ place }
{
    let mut count = known;
    for i in first..place {
        if bits.get(i) != 0 {
            count += 1;
        }
    }
    count
}

/// How many bits lie between two ranks.
const STEP: usize = 64;

/// How many of the bits before a place are set, where it is known how many are before an earlier one, and the bits lie one beside
/// another.
fn count_beside(bits: &[u32], first: usize, known: u64, place: usize) -> u64
    requires order { first ≤ place }
    requires within { place ≤ length bits.now }
    requires known { known ≡ count_set (take first (map (nat_lt 0) bits.now)) }
    requires few { known ≤ first }
    ensures count { result ≡ count_set (take place (map (nat_lt 0) bits.now)) }
    ensures most { result ≤ place }
{
    let mut count = known;
    for i in first..place {
        if bits[i] != 0 {
            count += 1;
        }
    }
    count
}

/// How many of the bits are set before each 64th one.
fn ranks_of(alloc: Global, bits: &[u32]) -> Result<Vec<u64>, NoMemory>
    ensures { IfOk result (λ ranks. ranks.items ≡ ranks_of (map (nat_lt 0) bits.now)) }
{
    let len = bits.len();
    let many = len / STEP + 1;
    let mut ranks = Vec::with_capacity(alloc, many)?;
    let mut count = 0;
    for i in 0..many {
        ranks.push_reserved(count);
        count = count_beside(bits, i * STEP, count, len.min((i + 1) * STEP));
    }
    Ok(ranks)
}

/// How many of the bits before a place are set, by the rank before it. It costs at most 63 bits.
fn count_at(bits: &Bits, ranks: &[u64], place: u64) -> u64
    requires within { place ≤ length bits.now.codes }
    requires ranks { ranks.now ≡ ranks_of (map (nat_lt 0) bits.now.codes) }
    ensures count { result ≡ count_set (take place (map (nat_lt 0) bits.now.codes)) }
    ensures most { result ≤ place }
{
    let rank = place / STEP as u64;
    count_on(bits, rank * STEP as u64, ranks[rank as usize], place)
}

impl Presence {
    /// Which of these rows are there, or of whatever stands for them.
    pub fn of<T>(alloc: Global, rows: &[Option<T>]) -> Result<Presence, NoMemory>
        requires { length rows.now < 2 ^ 31 }
        ensures { IfOk result (λ presence. presence ≡ map is_some rows.now) }
    {
        let flags = bits_of(alloc, rows)?;
        let bits = Bits::pack(alloc, flags.as_slice(), 1)?;
        let ranks = ranks_of(alloc, flags.as_slice())?;
        let count = count_at(&bits, ranks.as_slice(), bits.len());
        Ok(Presence {
            bits: Arc::new(alloc, bits)?,
            ranks: Arc::new(alloc, ranks)?,
            count,
        })
    }

    /// The same, shared. It is refused where as many share it as can.
    pub fn share(&self) -> Result<Presence, NoMemory>
        ensures { IfOk result (λ presence. presence ≡ self.now) }
    {
        Ok(Presence {
            bits: self.bits.clone()?,
            ranks: self.ranks.clone()?,
            count: self.count,
        })
    }

    /// How many row numbers there are.
    pub fn len(&self) -> u64
        ensures len { result ≡ length self.now }
        ensures few { result < 2 ^ 31 }
    {
        self.bits.len()
    }

    /// How many rows are present.
    pub fn count(&self) -> u64
        ensures count { result ≡ count_set self.now }
        ensures few { result < 2 ^ 31 }
    {
        self.count
    }

    /// Whether every row is present.
    pub fn is_full(&self) -> bool
        ensures { OnTrue result (count_set self.now ≡ length self.now) }
    {
        self.count == self.bits.len()
    }

    /// Whether the row at a place is present.
    pub fn is_present(&self, place: u64) -> bool
        requires { place < length self.now }
        ensures { result ≡ get_or self.now place false }
    {
        if self.is_full() {
            return true;
        }
        self.bits.get(place) != 0
    }

    /// How many rows before a place are present. It costs at most 63 bits, and nothing where every row is present.
    pub fn before(&self, place: u64) -> u64
        requires { place ≤ length self.now }
        ensures { result ≡ count_set (take place self.now) }
    {
        if self.is_full() {
            return place;
        }
        count_at(&self.bits, self.ranks.as_slice(), place)
    }

    /// The bytes that it counts for.
    pub fn bytes(&self) -> u64
        ensures bytes { result ≡ 8 * div_ceil (length self.now) 64 }
        ensures few { result < 2 ^ 32 }
    {
        8 * words_for(self.bits.len(), 1)
    }
}
