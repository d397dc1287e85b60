//! The status class of a finished run.
ghost use Rattle.std.specs.Prelude.{◌≡◌, ◌≤◌, Some, is_some, map};
ghost use Rattle.std.specs.List.{list_any};
ghost use Rattle.machine.specs.Outcomes.{class_of, is_fault, is_spent, is_budget, is_failure};
ghost use Rattle.inline_tracker.specs.Outcomes.{outcome_summary};

use crate::finished::CoreOutcome;
use syscall_drain::End;

fn is_fault(end: End) -> bool
    ensures { result ≡ is_fault (Some end) }
{
    matches!(end, End::Fault(_))
}

fn is_spent(end: End) -> bool
    ensures { result ≡ is_spent (Some end) }
{
    matches!(end, End::Spent)
}

fn is_budget(end: End) -> bool
    ensures { result ≡ is_budget (Some end) }
{
    matches!(end, End::Budget)
}

fn is_failure(end: End) -> bool
    ensures { result ≡ is_failure (Some end) }
{
    matches!(end, End::Exit(code) if code > 0)
}

fn some_trap(outcomes: &[CoreOutcome]) -> bool
    ensures { result ≡ list_any (λ core. is_some core.trap) outcomes.now }
{
    outcomes.iter().any(|core| core.trap.is_some())
}

fn some_fault(outcomes: &[CoreOutcome]) -> bool
    ensures { result ≡ list_any (λ core. is_fault (Some core.end)) outcomes.now }
{
    outcomes.iter().any(|core| is_fault(core.end))
}

fn some_spent(outcomes: &[CoreOutcome]) -> bool
    ensures { result ≡ list_any (λ core. is_spent (Some core.end)) outcomes.now }
{
    outcomes.iter().any(|core| is_spent(core.end))
}

fn some_budget(outcomes: &[CoreOutcome]) -> bool
    ensures { result ≡ list_any (λ core. is_budget (Some core.end)) outcomes.now }
{
    outcomes.iter().any(|core| is_budget(core.end))
}

fn some_failure(outcomes: &[CoreOutcome]) -> bool
    ensures { result ≡ list_any (λ core. is_failure (Some core.end)) outcomes.now }
{
    outcomes.iter().any(|core| is_failure(core.end))
}

#[tactic(auto, using(crate::proofs::Lists::list_any_map))]
pub(crate) fn class_of_outcomes(outcomes: &[CoreOutcome]) -> u8
    ensures class { result ≡ class_of (map outcome_summary outcomes.now) }
    ensures within { result ≤ 5 }
{
    if some_trap(outcomes) {
        2
    } else if some_fault(outcomes) {
        3
    } else if some_spent(outcomes) {
        5
    } else if some_budget(outcomes) {
        4
    } else if some_failure(outcomes) {
        1
    } else {
        0
    }
}
