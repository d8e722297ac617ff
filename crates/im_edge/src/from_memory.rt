//! A source and a sink in memory, for tests: they say exactly what each call answers.
mod sink;
mod source;

pub use sink::MemSink;
pub use source::MemSource;
