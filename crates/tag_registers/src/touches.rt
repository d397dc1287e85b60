//! What a unit does to the tag word of the word that it touches.

ghost use Rattle.std.specs.Prelude.{◌≡◌, ◌<◌};
ghost use Rattle.rv_decode.specs.Ranges.{Fits};
ghost use Rattle.record_lane.specs.Sound.{IsSoundWhy};
ghost use Rattle.tag_policy.specs.Memory.{joins, spread, spread_mask};
ghost use Rattle.tag_policy.specs.Policies.{policy_in};
ghost use Rattle.tag_registers.specs.Rows.{amo_change, bytes_of_touch, insn_row, touch_row};
ghost use Rattle.tag_registers.specs.Tags.{put_operation, stored_tag, word_operation};
ghost use Rattle.tag_registers.specs.Files.{tags_in};

use crate::file::TagFile;
use record_lane::Why;
use rv_decode::{AmoKind, Insn};
use rv_execute::Op;
use tag_policy::{Change, Policy};

impl TagFile {
    /// The operation of a touch on the tag word.
    pub(crate) fn touch_operation(&self, policy: &Policy, why: &Why) -> Op
        requires { IsSoundWhy why.now }
        ensures { result ≡ word_operation (policy_in policy.now) (tags_in self.now).registers (bytes_of_touch why.now) (touch_row why.now).word }
    {
        match why {
            Why::Insn { insn, hit, bytes } => self.access_operation(policy, insn, *hit, *bytes),
            Why::Fill { bytes } => put(policy, Change::Replace, policy.source(), *bytes),
            Why::Gather { .. } | Why::Claim | Why::Spent => Op::Read,
        }
    }

    /// The operation of an instruction's access; `hit` is whether a store-conditional stored.
    fn access_operation(&self, policy: &Policy, insn: &Insn, hit: bool, bytes: u8) -> Op
        requires insn { Fits insn.now }
        requires bytes { bytes < 16 }
        ensures { result ≡ word_operation (policy_in policy.now) (tags_in self.now).registers bytes (insn_row insn.now hit).word }
    {
        match *insn {
            Insn::Store { rs1, rs2, .. } => {
                put(
                    policy,
                    Change::Replace,
                    self.stored(policy, rs1, rs2),
                    bytes,
                )
            }
            Insn::Sc { rs1, rs2, .. } if hit => {
                put(
                    policy,
                    Change::Replace,
                    self.stored(policy, rs1, rs2),
                    bytes,
                )
            }
            Insn::Amo { kind, rs1, rs2, .. } => {
                put(
                    policy,
                    change_by(kind),
                    self.stored(policy, rs1, rs2),
                    bytes,
                )
            }
            _ => Op::Read,
        }
    }

    /// The tag that a store brings.
    fn stored(&self, policy: &Policy, address: u8, value: u8) -> u8
        requires address { address < 32 }
        requires value { value < 32 }
        ensures value { result ≡ stored_tag (policy_in policy.now) (tags_in self.now).registers value address }
        ensures small { result < 16 }
    {
        policy.stored(self.tag(value), self.tag(address))
    }
}

/// A swap stores its operand; every other atomic operation stores a result of the old word too.
fn change_by(kind: AmoKind) -> Change
    ensures { result ≡ amo_change kind }
{
    match kind {
        AmoKind::Swap => Change::Replace,
        _ => Change::Join,
    }
}

/// The operation that brings this tag to these bytes.
fn put(policy: &Policy, change: Change, tag: u8, bytes: u8) -> Op
    requires tag { tag < 16 }
    requires bytes { bytes < 16 }
    ensures { result ≡ put_operation (joins (policy_in policy.now).version change bytes) (spread_mask (policy_in policy.now).version bytes) (spread (policy_in policy.now).version tag bytes) }
{
    let (mask, value) = policy.spread(tag, bytes);
    if policy.joins(change, bytes) {
        Op::Amo {
            kind: AmoKind::Or,
            value,
        }
    } else {
        Op::Write { mask, value }
    }
}
