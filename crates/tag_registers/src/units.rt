//! What the unit of a record does to the tags of its core.

ghost use Rattle.std.specs.Prelude.{◌≡◌, ◌<◌, Bool, ℕ, ◌&&◌, ◌==◌};
ghost use Rattle.rv_decode.specs.Ranges.{Fits, IsRegister};
ghost use Rattle.rv_decode.specs.Classes.{class_of_imm};
ghost use Rattle.record_lane.specs.Sound.{IsSoundWhy};
ghost use Rattle.tag_policy.specs.Memory.{found_tag};
ghost use Rattle.tag_policy.specs.Policies.{policy_in};
ghost use Rattle.tag_registers.specs.Rows.{OfLoad, OfOperand, bytes_of_touch, cancels, insn_row, meet_row, quiet_row, reg_rule, touch_row};
ghost use Rattle.tag_registers.specs.Tags.{registers_after, unit_after};
ghost use Rattle.tag_registers.specs.Files.{tags_in};

use crate::file::TagFile;
use crate::looks::{Unit, call_arguments};
use record_lane::{MeetKind, Why};
use rv_decode::{ImmKind, Insn, RegKind};
use tag_policy::{Check, Policy};

impl TagFile {
    /// An instruction whose access, if it made one, found this tag.
    #[inline(always)]
    #[tactic(auto, using(crate::proofs::Keeping::kept_none, crate::proofs::Keeping::looked_twice))]
    pub(crate) fn run(&mut self, policy: &Policy, unit: Unit, insn: &Insn, found: u8)
        requires insn { Fits insn.now }
        requires found { found < 16 }
        ensures { (hit : Bool) → tags_in self.new ≡ unit_after (policy_in policy.now) (tags_in self.old) unit.step unit.pc found (insn_row insn.now hit) }
    {
        match *insn {
            Insn::Lui { rd, .. } | Insn::Auipc { rd, .. } | Insn::Jal { rd, .. } => self.set(rd, 0),
            Insn::Imm { kind, rd, rs1, .. } => self.operate_alone(policy, kind, rd, rs1),
            Insn::Reg { kind, rd, rs1, rs2 } => self.operate(policy, kind, rd, rs1, rs2),
            Insn::Load { rd, rs1, .. } | Insn::Lr { rd, rs1 } => {
                self.look(policy, unit, Check::LoadAddress, &[rs1]);
                self.load(policy, found, rd, rs1);
            }
            Insn::Store { rs1, .. } => self.look(policy, unit, Check::StoreAddress, &[rs1]),
            Insn::Sc { rd, rs1, .. } => {
                self.look(policy, unit, Check::StoreAddress, &[rs1]);
                self.set(rd, 0);
            }
            Insn::Amo { rd, rs1, .. } => {
                self.look(policy, unit, Check::LoadAddress, &[rs1]);
                self.look(policy, unit, Check::StoreAddress, &[rs1]);
                self.load(policy, found, rd, rs1);
            }
            Insn::Jalr { rd, rs1, .. } => {
                self.look(policy, unit, Check::Jump, &[rs1]);
                self.set(rd, 0);
            }
            Insn::Branch { rs1, rs2, .. } => {
                self.look(policy, unit, Check::BranchCondition, &[rs1, rs2]);
            }
            Insn::Fence | Insn::Ecall | Insn::Ebreak => {}
        }
    }

    /// An operation on a register and an immediate, which has no tag.
    fn operate_alone(&mut self, policy: &Policy, kind: ImmKind, rd: u8, rs1: u8)
        requires rd { IsRegister rd }
        requires rs1 { IsRegister rs1 }
        ensures { (found : ℕ) → tags_in self.new ≡ record (tags_in self.old) { registers = registers_after (policy_in policy.now) (tags_in self.old).registers found (OfOperand rd (class_of_imm kind) rs1) } }
    {
        self.set(rd, policy.result(kind.class(), self.tag(rs1), 0));
    }

    /// An operation on two registers.
    fn operate(&mut self, policy: &Policy, kind: RegKind, rd: u8, rs1: u8, rs2: u8)
        requires rd { IsRegister rd }
        requires rs1 { IsRegister rs1 }
        requires rs2 { IsRegister rs2 }
        ensures { (found : ℕ) → tags_in self.new ≡ record (tags_in self.old) { registers = registers_after (policy_in policy.now) (tags_in self.old).registers found (reg_rule kind rd rs1 rs2) } }
    {
        if is_cancelling(kind) && rs1 == rs2 {
            self.set(rd, 0);
        } else {
            self.set(
                rd,
                policy.result(kind.class(), self.tag(rs1), self.tag(rs2)),
            );
        }
    }

    /// A load that found this tag.
    fn load(&mut self, policy: &Policy, found: u8, rd: u8, rs1: u8)
        requires found { found < 16 }
        requires rd { IsRegister rd }
        requires rs1 { IsRegister rs1 }
        ensures { tags_in self.new ≡ record (tags_in self.old) { registers = registers_after (policy_in policy.now) (tags_in self.old).registers found (OfLoad rd rs1) } }
    {
        self.set(rd, policy.loaded(found, self.tag(rs1)));
    }

    /// An instruction that made no access. One that faulted makes its checks, and keeps all tags.
    pub(crate) fn quiet(&mut self, policy: &Policy, unit: Unit, insn: &Insn, faulted: bool)
        requires { Fits insn.now }
        ensures { tags_in self.new ≡ unit_after (policy_in policy.now) (tags_in self.old) unit.step unit.pc 0 (quiet_row insn.now faulted) }
    {
        let before = *self;
        self.run(policy, unit, insn, 0);
        if faulted {
            self.restore_tags(before);
        }
    }

    /// A meeting.
    pub(crate) fn meet(&mut self, policy: &Policy, unit: Unit, call: u32, kind: MeetKind)
        ensures { (found : ℕ) → tags_in self.new ≡ unit_after (policy_in policy.now) (tags_in self.old) unit.step unit.pc found (meet_row call kind) }
    {
        match kind {
            MeetKind::Call => {
                self.look(policy, unit, Check::CallNumber, &[17]);
                self.look(policy, unit, Check::CallArgument, call_arguments(call));
                self.clear_buffer();
            }
            MeetKind::Verdict => self.judge(policy, unit),
        }
    }

    /// A unit that touched a word and found this tag word.
    pub(crate) fn touch(&mut self, policy: &Policy, unit: Unit, why: &Why, old: u32)
        requires { IsSoundWhy why.now }
        ensures { tags_in self.new ≡ unit_after (policy_in policy.now) (tags_in self.old) unit.step unit.pc (found_tag (policy_in policy.now).version old (bytes_of_touch why.now)) (touch_row why.now) }
    {
        match why {
            Why::Insn { insn, bytes, .. } => {
                let found = policy.tag_of(old, *bytes);
                self.run(policy, unit, insn, found);
            }
            Why::Gather { bytes } => self.join_buffer(policy.tag_of(old, *bytes)),
            Why::Fill { .. } | Why::Claim | Why::Spent => {}
        }
    }
}

/// Whether the operation of a register with itself gives 0 whatever it holds.
fn is_cancelling(kind: RegKind) -> bool
    ensures { (a : ℕ) (b : ℕ) → cancels kind a b ≡ (result && (a == b)) }
{
    matches!(kind, RegKind::Xor | RegKind::Sub)
}
