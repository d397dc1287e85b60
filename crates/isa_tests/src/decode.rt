//! Words of the manual's listing and the instructions that they mean.

use rv_decode::{
    AmoKind, BranchKind, ImmKind, Insn, LoadKind, RegKind, StoreKind, decode, encode, fits,
};
use std::process::Abort;

/// Asserts that the word means the instruction, and that it is the instruction's plain word.
fn assert_pair(rt: &impl Abort, word: u32, insn: Insn) {
    assert!(rt; decode(word) == Some(insn));
    assert!(rt; fits(insn));
    assert!(rt; encode(insn) == word);
}

#[test]
fn upper_immediates_and_jumps(rt: HostRuntime) {
    for (word, rd, imm) in [
        (0x1234_5537, 10, 0x1234_5000), // lui a0, 0x12345
        (0xffff_f0b7, 1, 0xffff_f000), // lui ra, 0xfffff
    ] {
        assert_pair(&rt, word, Insn::Lui { rd, imm });
    }
    for (word, rd, imm) in [
        (0x0080_00ef, 1, 8), // jal ra, 8
        (0xffdf_f06f, 0, -4), // j -4
        (0x8000_006f, 0, -1_048_576), // j -1048576
        (0x7fff_f06f, 0, 1_048_574), // j 1048574
    ] {
        assert_pair(&rt, word, Insn::Jal { rd, imm });
    }
    let (rd, rs1, imm) = (0, 1, 0);
    for (word, insn) in [
        (0x0000_1297, Insn::Auipc { rd: 5, imm: 0x1000 }), // auipc t0, 0x1
        (0x0000_8067, Insn::Jalr { rd, rs1, imm }), // ret
        (0x0ff0_000f, Insn::Fence), // fence iorw, iorw
        (0x0000_0073, Insn::Ecall), // ecall
        (0x0010_0073, Insn::Ebreak), // ebreak
    ] {
        assert_pair(&rt, word, insn);
    }
}

#[test]
fn branches_and_stores(rt: HostRuntime) {
    for (word, kind, rs1, rs2, imm) in [
        (0x00b5_0863, BranchKind::Beq, 10, 11, 16), // beq a0, a1, 16
        (0xfe62_9ce3, BranchKind::Bne, 5, 6, -8), // bne t0, t1, -8
        (0x7e20_cfe3, BranchKind::Blt, 1, 2, 4094), // blt ra, sp, 4094
        (0x8041_d063, BranchKind::Bge, 3, 4, -4096), // bge gp, tp, -4096
        (0x0094_60e3, BranchKind::Bltu, 8, 9, 2048), // bltu s0, s1, 2048
        (0x02b5_7063, BranchKind::Bgeu, 10, 11, 32), // bgeu a0, a1, 32
    ] {
        let insn = Insn::Branch {
            kind,
            rs1,
            rs2,
            imm,
        };
        assert_pair(&rt, word, insn);
    }
    for (word, kind, rs1, rs2, imm) in [
        (0x00a5_8223, StoreKind::Sb, 11, 10, 4), // sb a0, 4(a1)
        (0xfe63_9f23, StoreKind::Sh, 7, 6, -2), // sh t1, -2(t2)
        (0x0011_2623, StoreKind::Sw, 2, 1, 12), // sw ra, 12(sp)
    ] {
        let insn = Insn::Store {
            kind,
            rs1,
            rs2,
            imm,
        };
        assert_pair(&rt, word, insn);
    }
}

#[test]
fn loads_and_immediates(rt: HostRuntime) {
    for (word, kind, rd, rs1, imm) in [
        (0xfff5_8503, LoadKind::Lb, 10, 11, -1), // lb a0, -1(a1)
        (0x0023_1283, LoadKind::Lh, 5, 6, 2), // lh t0, 2(t1)
        (0x0081_2503, LoadKind::Lw, 10, 2, 8), // lw a0, 8(sp)
        (0x0007_c703, LoadKind::Lbu, 14, 15, 0), // lbu a4, 0(a5)
        (0x7ff4_5383, LoadKind::Lhu, 7, 8, 2047), // lhu t2, 2047(s0)
    ] {
        assert_pair(&rt, word, Insn::Load { kind, rd, rs1, imm });
    }
    for (word, kind, rd, rs1, imm) in [
        (0xff01_0113, ImmKind::Addi, 2, 2, -16), // addi sp, sp, -16
        (0x8003_2293, ImmKind::Slti, 5, 6, -2048), // slti t0, t1, -2048
        (0x0015_3513, ImmKind::Sltiu, 10, 10, 1), // seqz a0, a0
        (0xfff5_4513, ImmKind::Xori, 10, 10, -1), // not a0, a0
        (0x0013_6293, ImmKind::Ori, 5, 6, 1), // ori t0, t1, 1
        (0x0ff5_7513, ImmKind::Andi, 10, 10, 255), // zext.b a0, a0
        (0x01f5_1513, ImmKind::Slli, 10, 10, 31), // slli a0, a0, 31
        (0x0105_5513, ImmKind::Srli, 10, 10, 16), // srli a0, a0, 16
        (0x41f5_5513, ImmKind::Srai, 10, 10, 31), // srai a0, a0, 31
    ] {
        assert_pair(&rt, word, Insn::Imm { kind, rd, rs1, imm });
    }
}

#[test]
fn operations_on_registers(rt: HostRuntime) {
    let (rd, rs1, rs2) = (10, 10, 11);
    for (word, kind) in [
        (0x00b5_0533, RegKind::Add), // add a0, a0, a1
        (0x40b5_0533, RegKind::Sub), // sub a0, a0, a1
        (0x00b5_1533, RegKind::Sll), // sll a0, a0, a1
        (0x00b5_2533, RegKind::Slt), // slt a0, a0, a1
        (0x00b5_3533, RegKind::Sltu), // sltu a0, a0, a1
        (0x00b5_4533, RegKind::Xor), // xor a0, a0, a1
        (0x00b5_5533, RegKind::Srl), // srl a0, a0, a1
        (0x40b5_5533, RegKind::Sra), // sra a0, a0, a1
        (0x00b5_6533, RegKind::Or), // or a0, a0, a1
        (0x00b5_7533, RegKind::And), // and a0, a0, a1
        (0x02b5_0533, RegKind::Mul), // mul a0, a0, a1
        (0x02b5_1533, RegKind::Mulh), // mulh a0, a0, a1
        (0x02b5_2533, RegKind::Mulhsu), // mulhsu a0, a0, a1
        (0x02b5_3533, RegKind::Mulhu), // mulhu a0, a0, a1
        (0x02b5_4533, RegKind::Div), // div a0, a0, a1
        (0x02b5_5533, RegKind::Divu), // divu a0, a0, a1
        (0x02b5_6533, RegKind::Rem), // rem a0, a0, a1
        (0x02b5_7533, RegKind::Remu), // remu a0, a0, a1
    ] {
        assert_pair(&rt, word, Insn::Reg { kind, rd, rs1, rs2 });
    }
}

#[test]
fn atomic_instructions(rt: HostRuntime) {
    let (rd, rs1, rs2) = (11, 10, 12);
    for (word, kind) in [
        (0x00c5_25af, AmoKind::Add), // amoadd.w a1, a2, (a0)
        (0x08c5_25af, AmoKind::Swap), // amoswap.w a1, a2, (a0)
        (0x20c5_25af, AmoKind::Xor), // amoxor.w a1, a2, (a0)
        (0x40c5_25af, AmoKind::Or), // amoor.w a1, a2, (a0)
        (0x60c5_25af, AmoKind::And), // amoand.w a1, a2, (a0)
        (0x80c5_25af, AmoKind::Min), // amomin.w a1, a2, (a0)
        (0xa0c5_25af, AmoKind::Max), // amomax.w a1, a2, (a0)
        (0xc0c5_25af, AmoKind::Minu), // amominu.w a1, a2, (a0)
        (0xe0c5_25af, AmoKind::Maxu), // amomaxu.w a1, a2, (a0)
    ] {
        assert_pair(&rt, word, Insn::Amo { kind, rd, rs1, rs2 });
    }
    assert_pair(&rt, 0x1005_22af, Insn::Lr { rd: 5, rs1: 10 }); // lr.w t0, (a0)
    let (rd, rs1, rs2) = (6, 10, 7);
    assert_pair(&rt, 0x1875_232f, Insn::Sc { rd, rs1, rs2 }); // sc.w t1, t2, (a0)
}

/// Words that mean nothing here.
const NOTHING: [u32; 43] = [
    0x0000_0000, // all zeros
    0xffff_ffff, // all ones
    0x0000_0001, // c.nop
    0x0000_8082, // c.ret
    0x0000_4501, // c.li a0, 0
    0x3000_1073, // csrw mstatus, zero
    0xf140_2573, // csrr a0, mhartid
    0xc000_2573, // rdcycle a0
    0x3020_0073, // mret
    0x1050_0073, // wfi
    0x0020_0073, // uret
    0x0000_00f3, // ecall with rd
    0x0000_8073, // ecall with rs1
    0x0000_100f, // fence.i
    0x0000_200f, // a fence of funct3 010
    0x0000_9067, // a jump of funct3 001
    0x00b5_2863, // a branch of funct3 010
    0x00b5_3863, // a branch of funct3 011
    0x0081_3503, // ld
    0x0001_6503, // lwu
    0x0001_7503, // a load of funct3 111
    0x0011_3423, // sd
    0x0011_4423, // a store of funct3 100
    0x4005_1513, // slli with the funct7 of srai
    0x0205_1513, // slli by 32
    0x0205_5513, // srli by 32
    0x4205_5513, // srai by 32
    0x8005_5513, // srli with funct7 1000000
    0x40b5_1533, // sll with funct7 0100000
    0x40b5_7533, // and with funct7 0100000
    0x04b5_0533, // add with funct7 0000010
    0x42b5_0533, // mul with funct7 0100001
    0x0005_051b, // addiw
    0x00b5_053b, // addw
    0x0005_2507, // flw
    0x00a5_2027, // fsw
    0x00b5_7553, // fadd.s
    0x1005_32af, // lr.d
    0x1015_22af, // lr.w with rs2
    0x00c5_35af, // amoadd.d
    0x00c5_15af, // an atomic of funct3 001
    0x28c5_25af, // an atomic of funct5 00101
    0xf8c5_25af, // an atomic of funct5 11111
];

#[test]
fn free_bits_and_other_words(rt: HostRuntime) {
    let (rd, rs1, rs2) = (6, 10, 7);
    for (word, insn) in [
        (0x8330_000f, Insn::Fence), // fence.tso
        (0x0100_000f, Insn::Fence), // pause
        (0x0ff5_058f, Insn::Fence), // fence with rd and rs1
        (0x1405_22af, Insn::Lr { rd: 5, rs1 }), // lr.w.aq t0, (a0)
        (0x1605_22af, Insn::Lr { rd: 5, rs1 }), // lr.w.aqrl t0, (a0)
        (0x1a75_232f, Insn::Sc { rd, rs1, rs2 }), // sc.w.rl t1, t2, (a0)
    ] {
        assert!(rt; decode(word) == Some(insn));
    }
    for (word, kind, rd, rs1, rs2) in [
        (0x0c63_a2af, AmoKind::Swap, 5, 7, 6), // amoswap.w.aq t0, t1, (t2)
        (0x06c5_25af, AmoKind::Add, 11, 10, 12), // amoadd.w.aqrl a1, a2, (a0)
    ] {
        let insn = Insn::Amo { kind, rd, rs1, rs2 };
        assert!(rt; decode(word) == Some(insn));
    }
    for word in NOTHING {
        assert!(rt; decode(word) == None);
    }
}

#[test]
fn what_does_not_fit(rt: HostRuntime) {
    let (rd, rs1, rs2) = (1, 1, 1);
    let (kind, imm) = (BranchKind::Beq, -4098);
    let branch = Insn::Branch {
        kind,
        rs1,
        rs2,
        imm,
    };
    let (kind, imm) = (LoadKind::Lw, -2049);
    let load = Insn::Load { kind, rd, rs1, imm };
    let (kind, rs2) = (AmoKind::Add, 32);
    let add = Insn::Amo { kind, rd, rs1, rs2 };
    let (kind, imm) = (ImmKind::Srai, 32);
    let right = Insn::Imm { kind, rd, rs1, imm };
    let (kind, imm) = (ImmKind::Slli, -1);
    let left = Insn::Imm { kind, rd, rs1, imm };
    for insn in [
        Insn::Lui { rd: 32, imm: 0 },
        Insn::Lui { rd, imm: 0x1800 },
        Insn::Jal { rd, imm: 3 },
        Insn::Jal { rd, imm: 1_048_576 },
        Insn::Jalr { rd, rs1, imm: 2048 },
        branch,
        load,
        add,
        right,
        left,
    ] {
        assert!(rt; !fits(insn), "fitting {insn:?}");
    }
}
