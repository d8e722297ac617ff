//! The words of the command line: what the program is asked to do.
//!
//! [`read_words`] reads them by one simple command of `clap`: the name of a [`Mode`], and up to five options, each a name
//! and a number. `specs/Command.antt` is that command as `clap`'s own definitions see it, and says which words it
//! refuses. `specs/Asked.antt` is what is read of the words that it takes. `specs/Good.antt` says it without `clap`: which
//! words are good, and what they ask for. Its promise is that good words are never refused and come to exactly what
//! stands in them, and that other words are refused exactly where `clap` refuses them.
//!
//! Start with `specs/Good.antt`, then `setting.rt` and `read.rt`.
#![tactic(auto)]

mod asked;
mod command;
mod fault;
mod mode;
mod read;
mod setting;
mod word;

pub use asked::Asked;
pub use fault::WordsFault;
pub use mode::Mode;
pub use read::read_words;
pub use setting::Setting;
pub use word::Word;
