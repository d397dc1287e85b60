//! What an instruction leaves in its hart.

ghost use Rattle.std.specs.Prelude.{◌≡◌, ◌<◌, ◌%◌, ◌==◌, if◌then◌else◌, IsTrue};
ghost use Rattle.std.specs.Option.{ForSome};
ghost use Rattle.rv_decode.specs.Ranges.{Fits};
ghost use Rattle.rv_execute.specs.Words.{plus, pattern};
ghost use Rattle.rv_execute.specs.Harts.{state_of, reg, written};
ghost use Rattle.rv_execute.specs.Results.{is_taken};
ghost use Rattle.rv_execute.specs.Instructions.{asked, resumed, IsFinishedBy, number_of, found_by, asked_number, pc_after};

use crate::alu::{branches, compute, form_of};
use crate::hart::Hart;
use crate::lanes::load;
use crate::op::{MOST_NUMBERS, Taken};
use crate::start::number_asked;
use rv_decode::{BranchKind, Insn};

/// Finishes an instruction that asked for nothing (`None`), or one whose access found this.
#[tactic(auto, unfolding(crate::specs::Instructions::asked, crate::specs::Instructions::resumed))]
pub fn resume(hart: &mut Hart, insn: Insn, taken: Option<Taken>)
    requires fits { Fits insn }
    requires finished { IsFinishedBy (asked (state_of hart.old) insn) taken }
    requires numbered { ForSome taken (λ t. t.number < MOST_NUMBERS) }
    ensures { state_of hart.new ≡ resumed (state_of hart.old) insn taken }
{
    let found = found(taken);
    match insn {
        Insn::Lui { rd, imm } => hart.retire(rd, imm),
        Insn::Auipc { rd, imm } => hart.retire(rd, hart.pc.wrapping_add(imm)),
        Insn::Jal { rd, imm } => hart.link(rd, hart.jump_target(imm)),
        Insn::Jalr { rd, rs1, imm } => hart.link(rd, hart.register_target(rs1, imm)),
        Insn::Branch {
            kind,
            rs1,
            rs2,
            imm,
        } => branch(hart, kind, rs1, rs2, imm),
        Insn::Load { kind, rd, rs1, imm } => {
            hart.retire(rd, load(kind, hart.address(rs1, imm) % 4, found.old))
        }
        Insn::Imm { kind, rd, rs1, imm } => {
            hart.retire(
                rd,
                compute(form_of(kind), hart.register(rs1), imm.cast_unsigned()),
            )
        }
        Insn::Reg { kind, rd, rs1, rs2 } => {
            hart.retire(rd, compute(kind, hart.register(rs1), hart.register(rs2)))
        }
        Insn::Lr { rd, rs1 } => load_reserved(hart, rd, rs1, found),
        Insn::Sc { rd, rs1, .. } => store_conditional(hart, rd, rs1, found.number),
        Insn::Amo { rd, .. } => hart.retire(rd, found.old),
        Insn::Store { .. } | Insn::Fence | Insn::Ecall | Insn::Ebreak => hart.advance(),
    }
}

/// What the access found. An instruction that asked for none reads neither number nor word.
fn found(taken: Option<Taken>) -> Taken
    requires { ForSome taken (λ t. t.number < MOST_NUMBERS) }
    ensures number { result.number ≡ number_of taken }
    ensures word { result.old ≡ found_by taken }
    ensures numbered { result.number < MOST_NUMBERS }
{
    match taken {
        Some(found) => found,
        None => Taken {
            number: 0,
            old: 0,
            spent: false,
        },
    }
}

fn branch(hart: &mut Hart, kind: BranchKind, rs1: u8, rs2: u8, imm: i32)
    requires first { rs1 < 32 }
    requires second { rs2 < 32 }
    requires aligned { IsTrue (is_taken kind (reg (state_of hart.old) rs1) (reg (state_of hart.old) rs2)) → plus hart.old.pc (pattern imm) % 4 ≡ 0 }
    ensures { state_of hart.new ≡ record (state_of hart.old) { pc = pc_after (state_of hart.old) (Insn.Branch kind rs1 rs2 imm) } }
{
    if branches(kind, hart.register(rs1), hart.register(rs2)) {
        hart.jump(hart.jump_target(imm));
    } else {
        hart.advance();
    }
}

fn load_reserved(hart: &mut Hart, rd: u8, rs1: u8, found: Taken)
    requires destination { rd < 32 }
    requires source { rs1 < 32 }
    requires numbered { found.number < MOST_NUMBERS }
    ensures { let before = state_of hart.old in state_of hart.new ≡ record { regs = written rd found.old before.regs; pc = plus before.pc 4; kept = Some (reg before rs1, found.number) } }
{
    hart.reserve(hart.register(rs1), found.number);
    hart.retire(rd, found.old);
}

fn store_conditional(hart: &mut Hart, rd: u8, rs1: u8, number: u32)
    requires destination { rd < 32 }
    requires source { rs1 < 32 }
    ensures { let before = state_of hart.old in state_of hart.new ≡ record { regs = written rd (if number == asked_number before.kept (reg before rs1) then 0 else 1) before.regs; pc = plus before.pc 4; kept = None } }
{
    let asked = number_asked(hart.kept, hart.register(rs1));
    hart.release();
    hart.retire(rd, u32::from(number != asked));
}
