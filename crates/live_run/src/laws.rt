//! What holds of the parts that the actors of a run leave. Each law is the contract of a function that does nothing.

ghost use Rattle.live_run.specs.AssembledLaws.{AssembledMerge, AssembledRun};

/// The parts that all actors leave at their ends, over two histories of the tables, are a finished run of the setup.
pub fn assembled_run()
    ensures { AssembledRun }
{}

/// Their logs have a legal merge, so the canonical merge can be walked.
pub fn assembled_merge()
    ensures { AssembledMerge }
{}
