//! Commands on files in memory, as tests give them: what is there before, what is to be left, and what is left in its place.
#![tactic(auto)]

mod cases;
mod difference;
mod images;
mod known;
mod surroundings;

pub use crate::cases::{Case, left_by, plain, try_case, try_case_at, try_cases, try_replay};
pub use crate::difference::Difference;
pub use crate::images::{echo, image_of, words_file};
pub use crate::known::{FINE, HI_MAP, HI_OUTPUT, HI_REPORT, INSPECT, REPLAY, RUN, SAME};
pub use crate::surroundings::{Answer, Outcome, Surroundings, answered, refused, strings};
