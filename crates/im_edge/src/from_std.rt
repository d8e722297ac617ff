//! The standard streams as a source and a sink: the trusted edge.
//!
//! No contract can say what a stream of the system gives or takes, so neither shows its bytes. Over a reader or a
//! writer whose bytes std knows, each passes on exactly these.
mod retry;
mod sink;
mod source;

pub use sink::StdSink;
pub use source::StdSource;
