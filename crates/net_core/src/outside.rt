// The outside: files that are read by name, sinks that take bytes, and both of them in memory.
mod counted;
mod files;
mod mem_files;
mod mem_sink;
mod sink;
mod writing;

pub use files::{Files, ReadRefusal};
pub use mem_files::{Entry, MemFiles};
pub use mem_sink::MemSink;
pub use sink::{Sink, WriteRefusal};
pub use writing::write_all;
