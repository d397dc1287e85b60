//! Files and sinks: all that a run reads from outside and writes to it. And the gate that its actors pass.
//!
//! Each object of the outside counts its faults, so that a refused reading or a refused write has a
//! cause that its caller can name.
#![tactic(auto)]

mod files;
mod gate;
mod host;
mod memory;
mod sink;

pub use files::{FileFault, Files};
pub use gate::{Gate, OpenGate, Who};
pub use host::{HostFiles, HostSink};
pub use memory::{MemFiles, MemSink, SureFiles, SureSink};
pub use sink::{Sink, SinkFault, write_whole};
