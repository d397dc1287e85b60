ghost use Rattle.std.specs.Prelude.{◌≡◌, ◌≤◌};

use std::marker::Model;
use syscall_drain::Guest;
use tag_policy::Policy;

/// What a run is a run of: a guest, a policy, the units that each of its cores may spend, and the number from which
/// on an access to a word is spent.
#[derive(Drop)]
pub struct Setup {
    guest: Guest,
    policy: Policy,
    budget: u32,
    limit: u32,
}

impl Model for Setup {
    ghost use Rattle.tag_policy.specs.Policies.{policy_in};
    ghost use Rattle.machine.specs.Setups.{Setup as SetupSeen, IsSetup};

    ghost Value = { SetupSeen };

    ghost view = { λ setup. record { program = setup.guest; policy = policy_in setup.policy; budget = setup.budget; limit = setup.limit } };

    ghost invariant = { λ setup. IsSetup (record { program = setup.guest; policy = policy_in setup.policy; budget = setup.budget; limit = setup.limit }) };
}

impl Setup {
    ghost use Rattle.tag_policy.specs.Policies.{policy_in};
    ghost use Rattle.machine.specs.Setups.{IsSetup, core_count};

    /// A run of the guest under the policy in which each core may spend `budget` units, and each word has accesses of
    /// numbers below `limit`.
    pub fn new(guest: Guest, policy: Policy, budget: u32, limit: u32) -> Setup
        requires { IsSetup (record { program = guest; policy = policy_in policy; budget = budget; limit = limit }) }
        ensures { result ≡ record { program = guest; policy = policy_in policy; budget = budget; limit = limit } }
    {
        Setup {
            guest,
            policy,
            budget,
            limit,
        }
    }

    /// The program and its input.
    pub fn guest(&self) -> &Guest
        ensures guest { result.now ≡ self.now.program }
        ensures ranges { IsSetup self.now }
    {
        &self.guest
    }

    /// The policy of its tags.
    pub fn policy(&self) -> &Policy
        ensures { policy_in result.now ≡ self.now.policy }
    {
        &self.policy
    }

    /// The most units of each core: 1 to 1,048,576.
    pub fn budget(&self) -> u32
        ensures { result ≡ self.now.budget }
    {
        self.budget
    }

    /// The first access number of a word that is spent.
    pub fn limit(&self) -> u32
        ensures { result ≡ self.now.limit }
    {
        self.limit
    }
}
