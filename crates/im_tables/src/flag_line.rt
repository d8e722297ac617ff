ghost use Rattle.std.specs.Prelude.{◌≡◌, ◌+◌, ◌*◌, ◌-◌, ◌^◌, ◌<◌, ◌≢◌, [], false, true, get_or, set, length, slice_index, IfSome, None, OnOk};
ghost use Rattle.im_tables.specs.Table.{IsPadded};
ghost use Rattle.im_tables.specs.inner.Words.{is_up, HasFlag, IsLowest, AreBefore, AreBeforeBut, IsHint, IsFirst, AreDown};

use im_values::NoMemory;
use std::alloc::Global;
use std::marker::Model;

/// The flags of one table, by number, 64 in a word.
///
/// Two hints say where the first words stand that are not all down and not all up, so the least numbers are found at once.
#[derive(Drop)]
pub struct FlagLine {
    words: Vec<u64>,
    up: usize,
    down: usize,
}

impl Model for FlagLine {
    ghost use Rattle.std.specs.Prelude.{List, Bool};
    ghost use Rattle.im_tables.specs.inner.Words.{flags_of, IsLine};

    ghost Value = { List Bool };

    ghost view = { λ l. flags_of l.words.items };

    ghost invariant = { λ l. IsLine l.words.items l.up l.down };
}

/// The most words of a line: with more its numbers would not fit 64 bits.
const MOST_WORDS: usize = (1 << 58) - 1;

/// The word at a place, and past the last one a word whose flags are down.
fn word_at(words: &[u64], place: usize) -> u64
    ensures { result ≡ slice_index words.now place }
{
    if place >= words.len() {
        return 0;
    }
    words[place]
}

/// Whether the flag at a place of a word is up.
fn flag_at(word: u64, place: u32) -> bool
    requires { place < 64 }
    ensures { result ≡ is_up word place }
{
    (word >> place) & 1 == 1
}

/// The word with this flag at a place.
fn with_flag(word: u64, place: u32, flag: bool) -> u64
    requires { place < 64 }
    ensures { HasFlag word place flag result }
{
    if flag {
        word | (1 << place)
    } else {
        word & !(1 << place)
    }
}

/// The lowest place of a word whose flag is up.
fn lowest_up(word: u64) -> u32
    requires { word ≢ 0 }
    ensures { IsLowest true word result }
{
    word.trailing_zeros()
}

/// The lowest place of a word whose flag is down.
fn lowest_down(word: u64) -> u32
    requires { word ≢ 2 ^ 64 - 1 }
    ensures { IsLowest false word result }
{
    word.trailing_ones()
}

/// The place of the first word that is not blank, or the number of words where all are.
/// All words before `start` are blank. It costs the words that it passes.
fn first_other(words: &[u64], start: usize, blank: u64) -> usize
    requires { AreBefore blank words.now start }
    ensures { IsHint blank words.now result }
{
    let mut place = start;
    while place < words.len() && words[place] == blank {
        place += 1;
    }
    place
}

/// The place of the first word that is not blank, or the number of words where all are, after the word at `index` has changed.
/// `hint` was that place before. It costs the words that it passes.
fn hint_after(words: &[u64], hint: usize, index: usize, blank: u64) -> usize
    requires hint { AreBeforeBut blank words.now index hint }
    requires there { index < length words.now }
    ensures { IsHint blank words.now result }
{
    if index < hint && words[index] != blank {
        return index;
    }
    first_other(words, hint, blank)
}

impl FlagLine {
    /// No flags. It takes no memory.
    pub fn new(alloc: Global) -> FlagLine
        ensures { result ≡ [] }
    {
        FlagLine {
            words: Vec::new(alloc),
            up: 0,
            down: 0,
        }
    }

    /// Whether the flag of a number is up; past the end it is down.
    pub fn get(&self, number: u64) -> bool
        ensures { result ≡ get_or self.now number false }
    {
        flag_at(
            word_at(&self.words, (number / 64) as usize),
            (number % 64) as u32,
        )
    }

    /// Puts the flag of a number that is there. It costs the words that a hint passes: none where the least numbers stay in their words.
    pub fn put(&mut self, number: u64, flag: bool)
        requires { number < length self.old }
        ensures { self.new ≡ set self.old number flag }
    {
        let index = (number / 64) as usize;
        self.words[index] = with_flag(self.words[index], (number % 64) as u32, flag);
        self.up = hint_after(&self.words, self.up, index, 0);
        self.down = hint_after(&self.words, self.down, index, u64::MAX);
    }

    /// Adds flags that are down until there is one of this number. It costs the words that are added.
    pub fn grow(&mut self, number: u64) -> Result<(), NoMemory>
        ensures same { IsPadded false self.old self.new }
        ensures there { OnOk result (number < length self.new) }
    {
        let index = (number / 64) as usize;
        if index < self.words.len() {
            return Ok(());
        }
        if index >= MOST_WORDS {
            return Err(NoMemory);
        }
        self.words.resize(index + 1, 0)?;
        self.up = first_other(&self.words, self.up, 0);
        Ok(())
    }

    /// The least number whose flag is up.
    pub fn first_up(&self) -> Option<u64>
        ensures up { IfSome result (λ number. IsFirst true self.now number) }
        ensures none { result ≡ None → AreDown self.now }
    {
        let word = *self.words.get(self.up)?;
        Some(64 * self.up as u64 + u64::from(lowest_up(word)))
    }

    /// The least number whose flag is down: past the end all are.
    pub fn first_down(&self) -> u64
        ensures { IsFirst false self.now result }
    {
        64 * self.down as u64 + u64::from(lowest_down(word_at(&self.words, self.down)))
    }
}
