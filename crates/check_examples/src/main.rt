//! Plays each script of `data/`, and compares the text that it comes to with the text that stands beside it.
//!
//! `data/examples/` has the scripts that the manual shows, `data/scripts/` others. What `NAME.ime` is to come to is
//! `NAME.out`; `COMMANDS` has the words of those that are not played by `ime run`. A folder is answered by one line: how many
//! scripts came to their texts, or the name of one that did not.
#![tactic(auto)]

ghost use Rattle.std.specs.Prelude.{◌≡◌, ◌<◌};

use anyhow::Error;
use im_edge::{MemSink, MemSource, OpenGate};
use im_shell::{Status, Word, run};
use im_values::{NoMemory, Steps};
use std::alloc::Global;
use std::fs;
use std::marker::Brand;
use std::rt::Files;
use std::sync::Wait;
use std::sync::ledger::{Blank, Ledger};
use std::thread::Threads;

/// How many bytes a call reads or writes at most.
const PIECE: usize = 1000;

/// How many bytes a text may have.
const ROOM: usize = 1_000_000;

/// Scripts that are played by other words than `run`, and those words.
const COMMANDS: [(&str, &[&str]); 16] = [
    ("every_form", &["race"]),
    ("every_reply", &["run", "--area", "202"]),
    ("full_area", &["run", "--area", "60"]),
    ("lists_of_builds", &["run", "--area", "250"]),
    (
        "made_by_last_seed",
        &["gen", "--rows", "150", "--seed", "4294967295"],
    ),
    ("made_orders", &["gen", "--rows", "200", "--seed", "3"]),
    ("race_left_open", &["race"]),
    ("race_locked_row", &["race"]),
    ("race_of_every_entry", &["race", "--area", "130"]),
    ("race_of_no_statement", &["race"]),
    ("race_of_nobody", &["race"]),
    ("race_of_older_scns", &["race"]),
    ("race_of_one", &["race"]),
    ("race_of_workers", &["race"]),
    ("race_over", &["race", "--turns", "10"]),
    ("race_spent_turns", &["race", "--turns", "4"]),
];

/// The words behind the program's name of the command that plays the script of this name.
fn command(name: &str) -> &'static [&'static str] {
    for (script, words) in COMMANDS {
        if script == name {
            return words;
        }
    }
    &["run"]
}

/// The words of the command that plays the script of this name.
fn words(alloc: Global, name: &str) -> Result<Vec<Word>, NoMemory> {
    let mut words = Vec::new(alloc);
    words.push(Word::of(String::from_str(alloc, "ime")?))?;
    for text in command(name) {
        words.push(Word::of(String::from_str(alloc, text)?))?;
    }
    Ok(words)
}

/// The text that a script comes to by a command, where it is played to its end.
fn text_of<R: Threads + Wait + Sync, L: Ledger>(
    rt: &R,
    alloc: Global,
    words: &[Word],
    script: Vec<u8>,
    blank: Blank,
) -> Result<Option<Vec<u8>>, NoMemory>
    requires name { blank.name ≡ L.name }
    requires parts { blank.parts ≡ L.parts }
    requires some { 0 < blank.parts }
{
    let mut source = MemSource::new(script, PIECE, Vec::new(alloc));
    let mut sink = MemSink::new(alloc, PIECE, Vec::new(alloc));
    sink.push_room(ROOM)?;
    let mut steps = Steps::<L>::new(rt, blank);
    let status = run(
        rt,
        alloc,
        words,
        &mut source,
        &mut sink,
        &OpenGate,
        &mut steps,
    );
    if status != Status::Done {
        return Ok(None);
    }
    Ok(Some(Vec::from_slice(alloc, sink.taken())?))
}

/// Whether a script comes to a text by a command.
fn comes_to<R: Threads + Wait + Sync>(
    rt: &R,
    alloc: Global,
    words: &[Word],
    script: Vec<u8>,
    text: &[u8],
) -> Result<bool, NoMemory> {
    match text_of::<R, Brand>(rt, alloc, words, script, Blank::new(1))? {
        Some(played) => Ok(played.as_slice() == text),
        None => Ok(false),
    }
}

/// Whether the script of this name in a folder comes to the text beside it.
fn is_as_written<R: Files + AllocGlobal + Threads + Wait + Sync>(
    rt: &R,
    folder: &str,
    name: &str,
) -> Result<bool, Error> {
    let alloc = rt.alloc();
    let script = fs::read(rt, format!(in alloc; "{folder}/{name}.ime")?)?;
    let text = fs::read(rt, format!(in alloc; "{folder}/{name}.out")?)?;
    let words = words(alloc, name)?;
    let words = words.as_slice();
    Ok(comes_to(rt, alloc, words, script, text.as_slice())?)
}

/// How many scripts of a folder come to their texts. One that does not is named.
fn play_folder<R: Files + AllocGlobal + Clone + Drop + Print + Threads + Wait + Sync>(
    rt: &R,
    folder: &str,
) -> Result<u64, Error> {
    let mut count: u64 = 0;
    for entry in fs::read_dir(rt, folder)? {
        let entry = entry?;
        let Some(name) = entry.file_name().strip_suffix(".ime") else {
            continue;
        };
        if is_as_written(rt, folder, name)? {
            count = count.saturating_add(1);
        } else {
            println!(rt; "{folder}/{name}.ime comes to another text")?;
        }
    }
    Ok(count)
}

fn main(rt: HostRuntime) -> Result<(), Error> {
    for folder in ["examples", "scripts"] {
        let count = play_folder(&rt, folder)?;
        println!(rt; "{folder}: {count} scripts come to their texts")?;
    }
    Ok(())
}
