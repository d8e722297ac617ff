ghost use Rattle.std.specs.Prelude.{◌<◌, length};
ghost use Rattle.std.specs.List.{AllByRecursion};

use crate::row_value::value_in;
use crate::same::Sought;
use im_values::{RowValues, Seen};

/// How many hints there are.
pub const SLOTS: usize = 64;

/// Where to look first for the group of a row, by a print of the row's key.
///
/// A hint may be wrong: two keys may have the same print, and groups of places past 65,535 have none. It takes no memory.
#[derive(Drop)]
pub struct Hints {
    places: [u16; SLOTS],
}

/// A number that values seldom share: of a text its ends and how many bytes there are.
#[inline(always)]
fn print_of(sought: Sought<'_>) -> u64 {
    match sought.value.seen() {
        Seen::Int(number) => number.cast_unsigned(),
        Seen::Text(text) => sought.ends ^ ((text.len() as u64) << 56),
        Seen::Null => u64::MAX,
    }
}

/// A print and one more, mixed.
#[inline(always)]
fn mixed(print: u64, more: u64) -> u64 {
    (print ^ more).wrapping_mul(0x9E37_79B9_7F4A_7C15)
}

/// The slot of a print.
#[inline(always)]
fn slot_at(print: u64) -> usize
    ensures { result < SLOTS }
{
    (print >> 58) as usize % SLOTS
}

/// The slot of a key of one value.
#[inline(always)]
pub fn slot_of_one(sought: Sought<'_>) -> usize
    ensures { result < SLOTS }
{
    slot_at(mixed(0, print_of(sought)))
}

/// The slot of the key of a row.
#[inline(always)]
pub fn slot_of(columns: &[u32], row: &RowValues<'_>) -> usize
    requires { AllByRecursion (λ column. column < length row.now) columns.now }
    ensures { result < SLOTS }
{
    let mut print = 0;
    for column in columns {
        print = mixed(print, print_of(Sought::of(value_in(row, *column))));
    }
    slot_at(print)
}

impl Hints {
    /// Hints before the first row.
    pub fn new() -> Hints {
        Hints { places: [0; SLOTS] }
    }

    /// Where the group stands to which the hint of a slot points.
    #[inline(always)]
    pub fn place(&self, slot: usize) -> usize
        requires { slot < SLOTS }
    {
        usize::from(self.places[slot])
    }

    /// Points a slot to the group at a place.
    #[inline(always)]
    pub fn point(&mut self, slot: usize, place: usize)
        requires { slot < SLOTS }
    {
        if let Ok(place) = u16::try_from(place) {
            self.places[slot] = place;
        }
    }
}
