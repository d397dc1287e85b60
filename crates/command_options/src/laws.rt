//! What holds of all words. Each law is the contract of a function that does nothing.
ghost use Rattle.command_options.specs.Laws.{ReadOnce, RequiredGiven};

/// Words give one list of options at most.
#[tactic(auto, using(crate::proofs::ScanLemmas::read_once))]
pub fn read_once()
    ensures { ReadOnce }
{}

/// A required option has a value.
#[tactic(auto, using(crate::proofs::ScanLemmas::required_given))]
pub fn required_given()
    ensures { RequiredGiven }
{}
