//! The report of a finished run as a text: its lines, its writer, and the comparison of bytes with it.
#![tactic(auto)]

mod block;
mod cursor;
mod difference;
mod form;
mod found;
mod header;
mod kinds;
pub mod laws;
pub mod limits;
mod lines;
mod match_line;
mod place;
mod reader;
mod report_line;
mod saved;
mod sections;
mod spelling;
mod writer;

pub use block::Block;
pub use difference::first_difference;
pub use reader::read_report;
pub use report_line::{HeaderLine, ReportLine, Section};
pub use saved::{ReportFault, ReportKind, Saved};
pub use spelling::{ROOM_BEFORE_LINE, push_line};
pub use writer::write_report;
