//! What is read of a report.
ghost use Rattle.std.specs.Prelude.{◌≡◌, ◌≤◌, length};
ghost use Rattle.trap_report.specs.ReportKinds.{report_kind_number, report_kind_name};

use order_core::Order;

/// What a report says of its run: the numbers of the setup, and the core of each unit.
#[derive(Debug, Drop)]
pub struct Saved {
    pub cores: u8,
    pub budget: u32,
    pub limit: u32,
    pub stack: u32,
    pub heap: u32,
    pub order: Order,
}

/// What is wrong with a line of a report.
#[derive(Clone, Copy, Debug, PartialEq, Eq)]
pub enum ReportKind {
    /// The first line is another text.
    Version = 1,
    /// It has not its words and its count of fields, or a field has not its form.
    Shape = 2,
    /// A decimal has a leading zero or is out of its range.
    Number = 3,
    /// The text ends before the line's line feed.
    Truncated = 4,
    /// It follows the last line.
    TooLong = 5,
    /// The order of the units is not complete; only a run tells this.
    Order = 6,
}

impl ReportKind {
    /// The kind's number, from 1 to 6.
    pub fn number(self) -> u8
        ensures { result ≡ report_kind_number self }
    {
        match self {
            ReportKind::Version => 1,
            ReportKind::Shape => 2,
            ReportKind::Number => 3,
            ReportKind::Truncated => 4,
            ReportKind::TooLong => 5,
            ReportKind::Order => 6,
        }
    }

    /// The kind's name, as it stands here.
    pub fn name(self) -> &'static str
        ensures name { result.now ≡ report_kind_name self }
        ensures short { length result.now ≤ 9 }
    {
        match self {
            ReportKind::Version => "Version",
            ReportKind::Shape => "Shape",
            ReportKind::Number => "Number",
            ReportKind::Truncated => "Truncated",
            ReportKind::TooLong => "TooLong",
            ReportKind::Order => "Order",
        }
    }
}

/// Why a report could not be read.
#[derive(Clone, Copy, Debug, PartialEq, Eq)]
pub enum ReportFault {
    /// The first line that is bad, counted from 1.
    Bad { line: u32, kind: ReportKind },
    NoMemory,
}
