//! What the moves of a tag actor are. Each law is the contract of a function that does nothing.

ghost use Rattle.tag_actor.specs.Machine.{MovesOfTheMachine};

/// Each move of a turn is a move of the protocol machine, enabled where the step of the move shows its turn, or none:
/// a record that is taken stays in the lane until it is served or answered.
#[tactic(auto, using(crate::proofs::Machine::machine_moves))]
pub fn moves_of_the_machine()
    ensures { MovesOfTheMachine }
{}
