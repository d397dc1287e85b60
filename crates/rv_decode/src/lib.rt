//! The instructions of RV32IMA and the words that mean them.
#![tactic(auto)]

mod decoding;
mod encoding;
mod fields;
mod insn;
mod kinds;
pub mod laws;
mod ranges;

pub use decoding::decode;
pub use encoding::encode;
pub use insn::{AmoKind, BranchKind, Class, ImmKind, Insn, LoadKind, RegKind, StoreKind};
pub use ranges::fits;
