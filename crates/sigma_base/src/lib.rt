//! What stands below every other crate: the answer for want of memory, and the one list type.
#![tactic(auto)]

mod listed;
mod memory;

pub use listed::Listed;
pub use memory::NoMemory;
