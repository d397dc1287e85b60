//! Guest programs for tests and for what is measured, the files that hold them, and what is loaded of these.
#![tactic(auto)]

mod files;
mod loading;
mod programs;

pub use crate::files::{echo_image, file_of, push_words, small_image};
pub use crate::loading::{guest_of, loaded};
pub use crate::programs::{
    BYTE_JUMP, COUNT, ECHO, HEADERS, HI, JUMP, LRSC, ODD, PASS, STORE_BUFFERING,
};
