ghost use Rattle.std.specs.Prelude.{◌≡◌, IfOk, IfErr, MatchResult};
ghost use Rattle.clap.specs.Words.{found_of, rows_of};
ghost use Rattle.im_words.specs.Asked as spec;
ghost use Rattle.im_words.specs.Command.{Refuses, Takes};
ghost use Rattle.im_words.specs.Good.{IsGood};

use crate::asked::Asked;
use crate::command::{MODE, command};
use crate::fault::WordsFault;
use crate::mode::Mode;
use crate::setting::Setting;
use crate::word::Word;
use clap::ArgMatches;
use std::alloc::Global;

/// The number of a setting, or its usual one where the words do not set it.
fn number_of(matches: &ArgMatches<'_>, setting: Setting) -> u64
    requires numbers { spec.HasNumbers (rows_of (found_of matches.now)) }
    ensures number { result ≡ spec.number_in (rows_of (found_of matches.now)) setting }
    ensures range { spec.IsFor setting result }
{
    matches
        .get_one::<u64>(setting.name())
        .unwrap_or(setting.usual())
}

/// The mode that the matches name.
fn mode_of(matches: &ArgMatches<'_>) -> Mode
    ensures { result ≡ spec.mode_in (rows_of (found_of matches.now)) }
{
    match matches.get_str(MODE) {
        Some(name) => Mode::called(name),
        None => Mode::Run,
    }
}

/// What the matches ask for.
fn asked_of(matches: &ArgMatches<'_>) -> Asked
    requires numbers { spec.HasNumbers (rows_of (found_of matches.now)) }
    ensures asked { result ≡ spec.asked_in (rows_of (found_of matches.now)) }
    ensures ranges { spec.IsInRange result }
{
    Asked {
        mode: mode_of(matches),
        area: number_of(matches, Setting::Area),
        workers: number_of(matches, Setting::Workers) as u32,
        turns: number_of(matches, Setting::Turns),
        rows: number_of(matches, Setting::Rows),
        seed: number_of(matches, Setting::Seed) as u32,
    }
}

/// Reads the words of the command line, the program's name first.
///
/// They are the name of a mode and up to five options, `--area N`, `--workers N`, `--turns N`,
/// `--rows N` and `--seed N`, in any order. A number may stand as a word of its own or behind `=`.
pub fn read_words(alloc: Global, words: &[Word]) -> Result<Asked, WordsFault>
    ensures good { (asked : Asked) → IsGood words.now asked
        → MatchResult result (λ read. read ≡ asked) (λ fault. fault ≡ WordsFault.NoMemory) }
    ensures taken { IfOk result (λ asked. Takes words.now asked) }
    ensures usage { IfErr result (λ fault. fault ≡ WordsFault.Usage → Refuses words.now) }
    ensures ranges { IfOk result spec.IsInRange }
{
    let matches = command(alloc)?.try_get_matches_from(words)?;
    Ok(asked_of(&matches))
}
