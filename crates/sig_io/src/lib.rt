//! The outside as traits whose calls may fail, each with a count of its faults, and forms of them in memory. Code that is
//! generic over a trait can't raise the count, so it answers a fault only where the outside gave one.
#![tactic(auto)]

mod faults;
mod files;
mod mem_files;
mod mem_sink;
mod named;
mod plan;
mod sink;
mod words;

pub use faults::{Failed, FetchError, WriteError, after_fault};
pub use files::{Fetched, Files};
pub use mem_files::MemFiles;
pub use mem_sink::MemSink;
pub use named::{NamedFile, have_own_names};
pub use sink::{Sink, write_all};
pub use words::Words;

#[cfg(test)]
mod tests;
