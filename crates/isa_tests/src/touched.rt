//! The bytes of a word that an instruction touches.

use rv_decode::{AmoKind, Insn, LoadKind, StoreKind, fits};
use rv_execute::{Hart, bytes_touched};

#[test]
fn the_bytes_of_each_width(rt: HostRuntime) {
    let mut regs = [0; 32];
    regs[1] = 0x0001_0000;
    let hart = Hart {
        regs,
        pc: 0x0001_0000,
        kept: None,
    };
    for (kind, imm, bytes) in [
        (LoadKind::Lb, 0, 0b0001),
        (LoadKind::Lbu, 7, 0b1000),
        (LoadKind::Lh, 2, 0b1100),
        (LoadKind::Lhu, 4, 0b0011),
        (LoadKind::Lw, -4, 0b1111),
    ] {
        let load = Insn::Load {
            kind,
            rd: 5,
            rs1: 1,
            imm,
        };
        assert!(rt; fits(load));
        assert!(rt; bytes_touched(&hart, load) == bytes);
    }
    let store = Insn::Store {
        kind: StoreKind::Sb,
        rs1: 1,
        rs2: 5,
        imm: 2,
    };
    let swap = Insn::Amo {
        kind: AmoKind::Swap,
        rd: 5,
        rs1: 1,
        rs2: 5,
    };
    assert!(rt; (bytes_touched(&hart, store), bytes_touched(&hart, swap)) == (0b0100, 0b1111));
}
