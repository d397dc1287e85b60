//! Results of each operation, by the RISC-V Unprivileged ISA.

ghost use Rattle.std.specs.Prelude.{◌≡◌, ◌<◌};

use rv_decode::{AmoKind, BranchKind, ImmKind, Insn, LoadKind, RegKind, StoreKind, fits};
use rv_execute::{Ask, Fault, Hart, NO_NUMBER, Op, Taken, apply, begin, resume};
use std::test::Fail;

/// A hart at 0x00010000 with these words in x1 and x2.
fn hart_with(first: u32, second: u32) -> Hart {
    let mut regs = [0; 32];
    regs[1] = first;
    regs[2] = second;
    Hart {
        regs,
        pc: 0x0001_0000,
        kept: None,
    }
}

/// A branch by x1 and x2.
fn branch(kind: BranchKind, imm: i32) -> Insn
    ensures { result ≡ Insn.Branch kind 1 2 imm }
{
    let (rs1, rs2) = (1, 2);
    Insn::Branch {
        kind,
        rs1,
        rs2,
        imm,
    }
}

/// The hart after the instruction, whose access finds this, or nothing where the instruction does not fit or asks for more.
fn executed(mut hart: Hart, insn: Insn, number: u32, old: u32) -> Option<Hart>
    requires { number < 4294967294 }
{
    if !fits(insn) {
        return None;
    }
    match begin(&hart, insn) {
        Ask::Quiet => {
            resume(&mut hart, insn, None);
            Some(hart)
        }
        Ask::Touch { .. } => {
            let spent = false;
            resume(&mut hart, insn, Some(Taken { number, old, spent }));
            Some(hart)
        }
        _ => None,
    }
}

/// The word after the instruction's access with this number to it.
fn stored(hart: &Hart, insn: Insn, number: u32, old: u32) -> Option<u32> {
    if !fits(insn) {
        return None;
    }
    match begin(hart, insn) {
        Ask::Touch { op, .. } => Some(apply(op, number, old)),
        _ => None,
    }
}

#[test]
fn computes(rt: HostRuntime) {
    let (rd, rs1, rs2) = (3, 1, 2);
    let cases = [
        (RegKind::Add, 0xffff_ffff, 2, 1),
        (RegKind::Sub, 1, 2, 0xffff_ffff),
        (RegKind::Sll, 3, 33, 6),
        (RegKind::Slt, 0xffff_ffff, 0, 1),
        (RegKind::Sltu, 0xffff_ffff, 0, 0),
        (RegKind::Xor, 12, 10, 6),
        (RegKind::Srl, 0x8000_0000, 63, 1),
        (RegKind::Sra, 0x8000_0000, 31, 0xffff_ffff),
        (RegKind::Or, 12, 10, 14),
        (RegKind::And, 12, 10, 8),
        (RegKind::Mul, 0x0001_0000, 0x0001_0001, 0x0001_0000),
        (RegKind::Mulh, 0x8000_0000, 0x8000_0000, 0x4000_0000),
        (RegKind::Mulhsu, 0x8000_0000, 0xffff_ffff, 0x8000_0000),
        (RegKind::Mulhsu, 0xffff_ffff, 0xffff_ffff, 0xffff_ffff),
        (RegKind::Mulhu, 0xffff_ffff, 0xffff_ffff, 0xffff_fffe),
        (RegKind::Div, 0x8000_0000, 0xffff_ffff, 0x8000_0000),
        (RegKind::Div, 0xffff_fff9, 2, 0xffff_fffd),
        (RegKind::Div, 7, 0, 0xffff_ffff),
        (RegKind::Divu, 7, 0, 0xffff_ffff),
        (RegKind::Divu, 0xffff_fff9, 2, 0x7fff_fffc),
        (RegKind::Rem, 0x8000_0000, 0xffff_ffff, 0),
        (RegKind::Rem, 0xffff_fff9, 2, 0xffff_ffff),
        (RegKind::Rem, 7, 0, 7),
        (RegKind::Remu, 0xffff_fff9, 2, 1),
        (RegKind::Remu, 7, 0, 7),
    ];
    for (kind, a, b, want) in cases {
        let insn = Insn::Reg { kind, rd, rs1, rs2 };
        let after = executed(hart_with(a, b), insn, 0, 0);
        assert!(rt;
            after.map(|hart| hart.regs[3]) == Some(want),
            "{kind:?} of {a} and {b}"
        );
    }
}

#[test]
fn has_register_forms(rt: HostRuntime) {
    let forms = [
        (ImmKind::Addi, RegKind::Add),
        (ImmKind::Slti, RegKind::Slt),
        (ImmKind::Sltiu, RegKind::Sltu),
        (ImmKind::Xori, RegKind::Xor),
        (ImmKind::Ori, RegKind::Or),
        (ImmKind::Andi, RegKind::And),
        (ImmKind::Slli, RegKind::Sll),
        (ImmKind::Srli, RegKind::Srl),
        (ImmKind::Srai, RegKind::Sra),
    ];
    for (kind, form) in forms {
        let (rd, rs1, rs2, imm) = (3, 1, 2, 5);
        let hart = hart_with(0x8000_0010, 5);
        let by_immediate = executed(hart, Insn::Imm { kind, rd, rs1, imm }, 0, 0);
        let hart = hart_with(0x8000_0010, 5);
        let kind = form;
        let by_register = executed(hart, Insn::Reg { kind, rd, rs1, rs2 }, 0, 0);
        assert!(rt; by_immediate == by_register, "{kind:?}");
    }
    // The immediate is sign-extended, also where it is compared unsigned.
    let (kind, rd, rs1, imm) = (ImmKind::Sltiu, 3, 1, -1);
    let sltiu = Insn::Imm { kind, rd, rs1, imm };
    assert!(rt;
        executed(hart_with(0xffff_fffe, 0), sltiu, 0, 0).map(|hart| hart.regs[3]) == Some(1)
    );
}

#[test]
fn branches(rt: HostRuntime) {
    let cases = [
        (BranchKind::Beq, 1, 1, true),
        (BranchKind::Beq, 1, 2, false),
        (BranchKind::Bne, 1, 1, false),
        (BranchKind::Bne, 1, 2, true),
        (BranchKind::Blt, 0xffff_ffff, 0, true),
        (BranchKind::Blt, 0, 0, false),
        (BranchKind::Bge, 0xffff_ffff, 0, false),
        (BranchKind::Bge, 0, 0, true),
        (BranchKind::Bltu, 0xffff_ffff, 0, false),
        (BranchKind::Bltu, 0, 1, true),
        (BranchKind::Bgeu, 0xffff_ffff, 0, true),
        (BranchKind::Bgeu, 0, 1, false),
    ];
    for (kind, a, b, is_taken) in cases {
        let hart = hart_with(a, b);
        let after = executed(hart, branch(kind, -8), 0, 0);
        let want = if is_taken { 0x0000_fff8 } else { 0x0001_0004 };
        assert!(rt;
            after.map(|hart| hart.pc) == Some(want),
            "{kind:?} of {a} and {b}"
        );
        // Only a taken branch needs an aligned target.
        let ask = begin(&hart, branch(kind, 2));
        assert!(rt; (ask == Ask::Fault(Fault::FetchMisaligned)) == is_taken);
    }
}

#[test]
fn jumps_and_calls(rt: HostRuntime) {
    let (rd, rs1, imm) = (0, 1, 0);
    let to_x1 = Insn::Jalr { rd, rs1, imm };
    let ask = begin(&hart_with(0x0001_000a, 0), to_x1);
    assert!(rt; ask == Ask::Fault(Fault::FetchMisaligned));
    let (rd, imm) = (1, 0xffff_f000);
    // An instruction with a word in x1, and x1 and the pc after it.
    for (insn, first, want) in [
        (to_x1, 0x0001_0009, (0x0001_0009, 0x0001_0008)),
        (Insn::Jal { rd, imm: 2048 }, 0, (0x0001_0004, 0x0001_0800)),
        (Insn::Auipc { rd, imm }, 0, (0x0000_f000, 0x0001_0004)),
        (Insn::Lui { rd, imm }, 0, (0xffff_f000, 0x0001_0004)),
        (Insn::Fence, 0, (0, 0x0001_0004)),
    ] {
        let after = executed(hart_with(first, 0), insn, 0, 0);
        let left = after.map(|hart| (hart.regs[1], hart.pc));
        assert!(rt; left == Some(want), "{insn:?}");
    }
    assert!(rt; begin(&hart_with(0, 0), Insn::Ecall) == Ask::Ecall);
    assert!(rt; begin(&hart_with(0, 0), Insn::Ebreak) == Ask::Fault(Fault::Break));
}

#[test]
fn loads_and_stores(rt: HostRuntime) {
    let (rd, rs1, imm) = (3, 1, -4);
    let loads = [
        (LoadKind::Lb, 0, Some(0x02)),
        (LoadKind::Lb, 1, Some(0x7f)),
        (LoadKind::Lb, 2, Some(0xffff_ff81)),
        (LoadKind::Lb, 3, Some(0xffff_ff80)),
        (LoadKind::Lbu, 0, Some(0x02)),
        (LoadKind::Lbu, 3, Some(0x80)),
        (LoadKind::Lh, 0, Some(0x7f02)),
        (LoadKind::Lh, 1, None),
        (LoadKind::Lh, 2, Some(0xffff_8081)),
        (LoadKind::Lhu, 2, Some(0x8081)),
        (LoadKind::Lhu, 3, None),
        (LoadKind::Lw, 0, Some(0x8081_7f02)),
        (LoadKind::Lw, 2, None),
    ];
    for (kind, offset, want) in loads {
        let insn = Insn::Load { kind, rd, rs1, imm };
        let hart = hart_with(0x0004_0004_u32.wrapping_add(offset), 0);
        let after = executed(hart, insn, 0, 0x8081_7f02);
        assert!(rt;
            after.map(|hart| hart.regs[3]) == want,
            "{kind:?} at {offset}"
        );
    }

    let stores = [
        (StoreKind::Sb, 0, Some(0x1122_33dd)),
        (StoreKind::Sb, 1, Some(0x1122_dd44)),
        (StoreKind::Sb, 2, Some(0x11dd_3344)),
        (StoreKind::Sb, 3, Some(0xdd22_3344)),
        (StoreKind::Sh, 0, Some(0x1122_ccdd)),
        (StoreKind::Sh, 1, None),
        (StoreKind::Sh, 2, Some(0xccdd_3344)),
        (StoreKind::Sw, 0, Some(0xaabb_ccdd)),
        (StoreKind::Sw, 2, None),
    ];
    for (kind, offset, want) in stores {
        let hart = hart_with(0x0004_0004_u32.wrapping_add(offset), 0xaabb_ccdd);
        let insn = Insn::Store {
            kind,
            rs1: 1,
            rs2: 2,
            imm: -4,
        };
        assert!(rt;
            stored(&hart, insn, 0, 0x1122_3344) == want,
            "{kind:?} at {offset}"
        );
    }
}

#[test]
fn updates_atomically(rt: HostRuntime) {
    let (rd, rs1, rs2) = (3, 1, 2);
    let cases = [
        (AmoKind::Add, 0xffff_ffff, 2, 1),
        (AmoKind::Swap, 1, 2, 2),
        (AmoKind::Xor, 12, 10, 6),
        (AmoKind::Or, 12, 10, 14),
        (AmoKind::And, 12, 10, 8),
        (AmoKind::Min, 1, 0xffff_ffff, 0xffff_ffff),
        (AmoKind::Max, 1, 0xffff_ffff, 1),
        (AmoKind::Minu, 1, 0xffff_ffff, 1),
        (AmoKind::Maxu, 1, 0xffff_ffff, 0xffff_ffff),
    ];
    for (kind, old, value, want) in cases {
        let hart = hart_with(0x0004_0000, value);
        let insn = Insn::Amo { kind, rd, rs1, rs2 };
        assert!(rt;
            stored(&hart, insn, 0, old) == Some(want),
            "{kind:?} of {old} and {value}"
        );
        assert!(rt; executed(hart, insn, 0, old).map(|hart| hart.regs[3]) == Some(old));
    }
}

#[test]
fn keeps_and_ends_reservations(rt: HostRuntime) -> Result<(), Fail> {
    let (rd, rs1, rs2) = (3, 1, 2);
    let (lr, sc) = (Insn::Lr { rd, rs1 }, Insn::Sc { rd, rs1, rs2 });
    let reserved = executed(hart_with(0x0004_0000, 5), lr, 7, 9).ok_or("not finished")?;
    assert!(rt; (reserved.regs[3], reserved.kept) == (9, Some((0x0004_0000, 7))));
    // The next access stores, a later one does not, and each ends the reservation.
    for (number, word, failed) in [(8, 5, 0), (9, 9, 1)] {
        assert!(rt; stored(&reserved, sc, number, 9) == Some(word));
        let after = executed(reserved, sc, number, 9).ok_or("not finished")?;
        assert!(rt; (after.regs[3], after.kept) == (failed, None));
    }
    let unreserved = hart_with(0x0004_0000, 5);
    let ask = Ask::Touch {
        addr: 0x0004_0000,
        op: Op::Sc {
            number: NO_NUMBER,
            value: 5,
        },
    };
    assert!(rt; begin(&unreserved, sc) == ask);
    Ok(())
}

#[test]
fn claims_and_numbers(rt: HostRuntime) {
    let cases = [
        (Op::Read, 5, 5),
        (Op::TakeInput { want: 4, total: 10 }, 3, 7),
        (Op::TakeInput { want: 4, total: 10 }, 8, 10),
        (Op::TakeInput { want: 4, total: 10 }, 12, 12),
        (Op::Place { len: 3 }, 0xffff_fffe, 1),
    ];
    for (op, payload, want) in cases {
        assert!(rt; apply(op, 0, payload) == want, "{op:?} on {payload}");
    }
    let (low, high) = (6, 8);
    for (want, left) in [(6, 6), (9, 7), (5, 7)] {
        let op = Op::Break { want, low, high };
        assert!(rt; apply(op, 0, 7) == left, "{op:?} on 7");
    }
    let faults = [
        Fault::Illegal,
        Fault::FetchMisaligned,
        Fault::FetchOutside,
        Fault::LoadMisaligned,
        Fault::LoadOutside,
        Fault::StoreMisaligned,
        Fault::StoreOutside,
        Fault::StoreReadOnly,
        Fault::Break,
    ];
    for (fault, number) in faults.iter().zip(1..10) {
        assert!(rt; fault.number() == number);
    }
}
