//! Packed codes: a list of small numbers of one width, in whole words of 64 bits.
//!
//! A word holds as many whole codes as fit, the first in its lowest bits, and no code lies across two words. Codes of
//! width 0 are all 0 and keep no word. Bits that no code fills are 0.
//!
//! Contracts see [`Bits`] as its width and its list of codes. [`Bits::get`] reads one code, [`Bits::codes_from`] unpacks
//! 64, and [`Bits::turn_to`] a block of 512 for those who go over a list; [`Bits::words`] lends the whole words to those who
//! compare many codes at once, and `proofs/ForCallers.antt` says where a code lies in them.
//!
//! Start with `specs/Packed.antt` and then `bits.rt`.
#![tactic(auto)]

mod bits;
mod size;

pub use bits::{Bits, ROOM};
pub use size::{MOST_WIDTH, words_for};
