//! Laws of the instruction rows, each the contract of a function that does nothing.

ghost use Rattle.rv_decode.specs.Agreement.{OneRow, RowsAgree};

/// No word means two instructions.
pub fn one_row()
    ensures { OneRow }
{}

/// The instruction that is computed from a word is the one that the word means.
pub fn rows_agree()
    ensures { RowsAgree }
{}
