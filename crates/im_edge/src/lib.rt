//! The traits of the outside: where bytes come from, where they go, and what may hold a scan up.
//!
//! A `Source` hands out bytes and a `Sink` takes them, in pieces of whatever size they like.
//! Contracts see of a source the bytes that are `left`, and of a sink those that it has `taken`,
//! where they show them. Both count their `faults`, and a call fails only where the count rose, so a
//! caller who answers with a fault has to have met one. A `Gate` is called round each step of a
//! scan and each switch of a unit, so that a test can hold one of them: that is what a `HoldGate` does.
//! `Outside` is what those who play statements have of all this.
//!
//! `MemSource` and `MemSink` are exact doubles in memory. `StdSource` and `StdSink` are the trusted
//! edge: they adapt a reader and a writer of std, and show no bytes. `read_all` and `write_all`
//! carry a whole text through any of them.
//!
//! Start with `source.rt` and `sink.rt`, and then the words of `specs/Source.antt` and
//! `specs/Faults.antt`.
#![tactic(auto)]

mod calls;
mod from_memory;
mod from_std;
mod gate;
mod hold;
mod outside;
mod reading;
mod sink;
mod source;
mod writing;

pub use from_memory::{MemSink, MemSource};
pub use from_std::{StdSink, StdSource};
pub use gate::{At, Gate, OpenGate};
pub use hold::HoldGate;
pub use outside::Outside;
pub use reading::{ReadError, read_all};
pub use sink::{Put, Sink};
pub use source::{Got, Source};
pub use writing::{WriteFault, write_all};
