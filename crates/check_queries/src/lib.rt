//! What no clause and no script shows of parts, of texts and of the program's edges: that a part may be made of counts and of rows
//! that are known to be kept, texts of what a script does not come to, texts that wait behind each other, the words of the
//! command, and what sources and sinks do when they stumble.
//!
//! Nothing here is for callers. Each file tests the crate that it is named after, by public calls alone. They take what is wanted
//! from the manual, `docs/replies.md` and `docs/report.md`, and not from the program. Conditions, answers, and the texts of
//! replies and of reports are shown by the scripts of `check_examples`.
#![tactic(auto)]

#[cfg(test)]
mod edge;
#[cfg(test)]
mod group;
#[cfg(test)]
mod text;
#[cfg(test)]
mod words;
