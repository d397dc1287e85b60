//! What holds of all reports. Each law is the contract of a function that does nothing.
ghost use Rattle.trap_report.specs.ReportLaws.{NoBadOrder, OneOrder, ReadsBack};

/// Where two orders of a setup have the same report, they are the same order.
#[tactic(auto, using(crate::proofs::OrderLaws::one_text_one_order))]
pub fn one_order()
    ensures { OneOrder }
{}

/// Reading the report of a setup that a report can tell of, along an order that it can play, gives the numbers of the setup, and
/// the order, back.
#[tactic(auto, using(crate::proofs::ReadLaws::reads_back))]
pub fn reads_back()
    ensures { ReadsBack }
{}

/// Reading a report finds no order bad.
#[tactic(auto, using(crate::proofs::KindLaws::no_bad_order))]
pub fn no_bad_order()
    ensures { NoBadOrder }
{}
