//! What holds of all logs. Each law is the contract of a function that does nothing.

ghost use Rattle.order_core.specs.MergeLaws.{CanonicalIsLegal, CanonicalIsLeast, CanonicalIsUnique, HistoryMerges};

/// Where logs have a legal merge, the canonical merge is a legal merge of the whole logs.
#[tactic(auto, using(crate::proofs::CanonicalLaws::canonical_legal))]
pub fn canonical_is_legal()
    ensures { CanonicalIsLegal }
{}

/// Where logs have a legal merge, the least ready core stands at each place of the canonical merge.
#[tactic(auto, using(crate::proofs::CanonicalLaws::canonical_least))]
pub fn canonical_is_least()
    ensures { CanonicalIsLeast }
{}

/// Where logs have a legal merge, only one order has the least ready core at each place.
#[tactic(auto, using(crate::proofs::CanonicalLaws::canonical_only))]
pub fn canonical_is_unique()
    ensures { CanonicalIsUnique }
{}

/// A history whose parts are the accesses of the logs, numbered from 0 at each word, is a legal merge of the logs
/// once the units without access are put in.
#[tactic(auto, using(crate::proofs::HistoryLaws::history_merges))]
pub fn history_merges()
    ensures { HistoryMerges }
{}
