//! A text that is read line by line.
ghost use Rattle.std.specs.Prelude.{◌≡◌, ◌+◌, ◌^◌, ◌<◌, ◌≤◌, [], ◌∷◌, length, MatchResult, Result};
ghost use Rattle.trap_report.specs.Reading.{lines_in};
ghost use Rattle.trap_report.specs.Walking.{HasOne, at_line, fault_at};

use crate::match_line::cut_at;
use crate::saved::{ReportFault, ReportKind};

/// What is left of a text, and how many of its lines were taken.
#[derive(Drop)]
pub struct Lines<'a> {
    pub rest: &'a [u8],
    pub taken: u32,
    ghost few: { taken + length rest.now ≤ 536870912 },
}

impl<'a> Lines<'a> {
    /// At the first line.
    pub fn new(text: &'a [u8]) -> Lines<'a>
        requires { length text.now ≤ 536870912 }
        ensures rest { result.rest.now ≡ text.now }
        ensures taken { result.taken ≡ 0 }
    {
        Lines {
            rest: text,
            taken: 0,
        }
    }

    /// The next line, without its line feed.
    pub fn take(&mut self) -> Result<&'a [u8], ReportFault>
        ensures { MatchResult result
            (λ line. (lines_in self.old.rest.now ≡ line.now ∷ lines_in self.new.rest.now)
            × (self.new.taken ≡ self.old.taken + 1))
            (λ fault. (fault ≡ fault_at (self.old.taken + 1) ReportKind.Truncated)
            × HasOne (lines_in self.old.rest.now)) }
    {
        let (line, rest) = cut_at(self.rest, b'\n');
        match rest {
            Some(rest) => {
                self.rest = rest;
                self.taken += 1;
                Ok(line)
            }
            None => Err(ReportFault::Bad {
                line: self.taken + 1,
                kind: ReportKind::Truncated,
            }),
        }
    }

    /// What the line that was taken last tells, or that it is bad.
    pub fn told(&self, read: Result<u32, ReportKind>) -> Result<u32, ReportFault>
        ensures { result ≡ at_line self.now.taken read }
    {
        match read {
            Ok(number) => Ok(number),
            Err(kind) => Err(ReportFault::Bad {
                line: self.taken,
                kind,
            }),
        }
    }
}
