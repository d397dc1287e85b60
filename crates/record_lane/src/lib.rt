//! What a hart tells its tag actor of each unit, what comes back, and the lanes through which both go.
#![tactic(auto)]

mod answer;
pub mod call;
mod item;
mod lane;
mod lane_left;
mod lane_rule;
mod lane_token;
pub mod limits;
mod note;
mod record;
mod reply;
mod ring;
mod ring_left;
mod ring_rule;
mod ring_step;
mod ring_token;

pub use answer::{Got, Sent};
pub use item::Item;
pub use lane::Lane;
pub use lane_left::Left;
pub use lane_token::{Sender, Taker};
pub use note::{CallNote, Notes};
pub use record::{MeetKind, Record, Why};
pub use reply::{Reply, Trap};
pub use ring::Ring;
pub use ring_left::RingLeft;
pub use ring_token::{RingSender, RingTaker};
