//! Streams of bytes in and out, connections and their door, a counter of steps, and how a call ends
//! that wants memory.
#![tactic(auto)]

mod calls;
mod door;
mod listed;
mod loopback;
mod memory;
mod memory_door;
mod standard;
mod steps;
mod stop;
mod streams;
#[cfg(test)]
mod tests;

pub use calls::Calls;
pub use door::{Door, Wire};
pub use listed::Listed;
pub use loopback::{TcpDoor, TcpEnd};
pub use memory::{MemSink, MemSource};
pub use memory_door::{MemDoor, MemEnd};
pub use standard::{StdSink, StdSource};
pub use steps::Steps;
pub use stop::{NoMemory, Stop};
pub use streams::{Failed, Sink, Source};
