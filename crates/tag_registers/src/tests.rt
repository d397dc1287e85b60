//! What each unit does to tags: the rows of the table of rules, worked by hand for one policy of three bits.

ghost use Rattle.std.specs.Prelude.{◌≡◌, ◌↔◌, IsTrue, IfSome};
ghost use Rattle.rv_decode.specs.Ranges.{Fits};
ghost use Rattle.rv_decode.specs.Rows.{IsSystem, IsTouching};
ghost use Rattle.record_lane.specs.Sound.{IsSoundRecord, IsSoundWhy};

use super::*;
use record_lane::{MeetKind, Record, Trap, Why};
use rv_decode::{AmoKind, Insn, decode};
use rv_execute::Op;
use std::process::Abort;
use tag_policy::{Mode, Policy, Rules, Version};

/// What is asked for.
#[derive(Clone, Copy, Debug, PartialEq, Eq)]
enum Asks {
    Nothing,
    Reads,
    Writes(u32, u32),
    Joins(u32),
    Replies,
    Ends,
    Other,
}

use Asks::{Joins, Reads, Writes};

/// Bit 0 has no rule but a mode of none, bit 1 joins data and has every check, bit 2 meets data and follows
/// addresses, bit 3 has no policy.
fn three_bits(version: Version) -> Policy {
    let none = Rules::NONE;
    let data = Rules {
        source: true,
        check_jump: true,
        check_load_address: true,
        check_store_address: true,
        check_branch: true,
        check_call_number: true,
        check_call_argument: true,
        check_sink: true,
        ..Rules::DEFAULT
    };
    let address = Rules {
        arith: Mode::And,
        logic: Mode::And,
        shift: Mode::And,
        compare: Mode::And,
        muldiv: Mode::And,
        load_address: true,
        store_address: true,
        ..Rules::NONE
    };
    Policy::empty(version).with(none).with(data).with(address)
}

/// A core whose x5, x6, x8 and x11 have every tag, and whose buffer has bits 0 and 1.
fn tainted() -> TagFile {
    let mut file = TagFile::create();
    file.set(5, 15);
    file.set(6, 15);
    file.set(8, 15);
    file.set(11, 15);
    file.join_buffer(3);
    file
}

fn is_system(insn: Insn) -> bool
    ensures { IsTrue result ↔ IsSystem insn }
{
    matches!(insn, Insn::Ecall | Insn::Ebreak)
}

fn is_touching(insn: Insn) -> bool
    ensures { IsTrue result ↔ IsTouching insn }
{
    matches!(
        insn,
        Insn::Load { .. }
            | Insn::Store { .. }
            | Insn::Lr { .. }
            | Insn::Sc { .. }
            | Insn::Amo { .. }
    )
}

fn quiet(word: u32, faulted: bool) -> Option<Record>
    ensures { IfSome result (IsSoundRecord 4294967295 4294967295) }
{
    let insn = decode(word)?;
    if is_system(insn) || (is_touching(insn) && !faulted) {
        return None;
    }
    Some(Record::Quiet {
        step: 3,
        pc: 0x0001_0000,
        insn,
        faulted,
    })
}

fn access(word: u32, hit: bool, bytes: u8) -> Option<Record>
    ensures { IfSome result (IsSoundRecord 4294967295 4294967295) }
{
    let insn = decode(word)?;
    if is_system(insn) || !is_touching(insn) || bytes > 15 {
        return None;
    }
    Some(touch(Why::Insn { insn, hit, bytes }))
}

fn is_sound(why: Why) -> bool
    ensures { IsTrue result → IsSoundWhy why }
{
    match why {
        Why::Insn { .. } => false,
        Why::Fill { bytes } => bytes < 16,
        Why::Gather { bytes } => bytes < 16,
        Why::Claim => true,
        Why::Spent => true,
    }
}

fn touch(why: Why) -> Record
    ensures { result ≡ Record.Touch 3 65536 1024 7 why }
{
    Record::Touch {
        step: 3,
        pc: 0x0001_0000,
        word: 1024,
        number: 7,
        why,
    }
}

fn meeting(call: u32, kind: MeetKind) -> Record
    ensures { result ≡ Record.Meet 3 65536 call kind }
{
    Record::Meet {
        step: 3,
        pc: 0x0001_0000,
        call,
        kind,
    }
}

fn asks_of(ask: TagAsk) -> Asks {
    match ask {
        TagAsk::Done => Asks::Nothing,
        TagAsk::Serve {
            word: 1024,
            number: 7,
            op,
        } => match op {
            Op::Read => Asks::Reads,
            Op::Write { mask, value } => Asks::Writes(mask, value),
            Op::Amo {
                kind: AmoKind::Or,
                value,
            } => Asks::Joins(value),
            _ => Asks::Other,
        },
        TagAsk::Serve { .. } => Asks::Other,
        TagAsk::Answer(_) => Asks::Replies,
        TagAsk::Ended => Asks::Ends,
    }
}

/// Gives the record and what it finds to a file, and compares what is asked for, the tag of x8, that no
/// other register changed, and the kind of the trap, which is of bit 1 alone; 0 for no trap.
fn check(
    rt: &impl Abort,
    version: Version,
    item: Record,
    found: u32,
    asks: Asks,
    tag: u8,
    kind: u8,
) -> TagFile
    requires { IsSoundRecord 4294967295 4294967295 item }
{
    let policy = three_bits(version);
    let mut file = tainted();
    let ask = file.consume(&policy, &item);
    if let Record::Touch { .. } = item {
        file.consume_answer(&policy, &item, found);
    }
    let mut expected = tainted();
    assert!(rt; tag < 16);
    expected.set(8, tag);
    assert!(rt; asks_of(ask) == asks, "{item:?}");
    assert!(rt; file.tags() == expected.tags(), "{item:?}");
    match file.trap() {
        None => assert!(rt; 0 == kind, "{item:?}"),
        Some(trap) => assert!(rt;
            trap == Trap {
                step: 3,
                pc: 0x0001_0000,
                kind,
                bits: 2
            },
            "{item:?}"
        ),
    }
    file
}

#[test]
fn instructions_without_an_access(rt: HostRuntime) {
    let cases = [
        (0x0000_0437, 0, 0), // lui x8, 0
        (0x0000_0417, 0, 0), // auipc x8, 0
        (0x0000_046f, 0, 0), // jal x8, 0
        (0x0002_8467, 0, 1), // jalr x8, (x5)
        (0x0003_8467, 0, 0), // jalr x8, (x7)
        (0x0072_8063, 15, 4), // beq x5, x7
        (0x0063_9063, 15, 4), // bne x7, x6
        (0x0073_c063, 15, 0), // blt x7, x7
        (0x0002_8413, 2, 0), // addi x8, x5, 0
        (0x0002_c413, 2, 0), // xori x8, x5, 0
        (0x0002_9413, 2, 0), // slli x8, x5, 0
        (0x0002_a413, 2, 0), // slti x8, x5, 0
        (0x0003_8413, 0, 0), // addi x8, x7, 0
        (0x0002_8013, 15, 0), // addi x0, x5, 0
        (0x0062_8433, 6, 0), // add x8, x5, x6
        (0x0062_f433, 6, 0), // and x8, x5, x6
        (0x0062_9433, 6, 0), // sll x8, x5, x6
        (0x0062_a433, 6, 0), // slt x8, x5, x6
        (0x0262_8433, 6, 0), // mul x8, x5, x6
        (0x0072_8433, 2, 0), // add x8, x5, x7
        (0x0053_f433, 2, 0), // and x8, x7, x5
        (0x0072_d433, 2, 0), // srl x8, x5, x7
        (0x0053_b433, 2, 0), // sltu x8, x7, x5
        (0x0272_f433, 2, 0), // remu x8, x5, x7
        (0x0073_e433, 0, 0), // or x8, x7, x7
        (0x0052_c433, 0, 0), // xor x8, x5, x5
        (0x4052_8433, 0, 0), // sub x8, x5, x5
        (0x0062_c433, 6, 0), // xor x8, x5, x6
        (0x0052_8433, 6, 0), // add x8, x5, x5
        (0x0ff0_000f, 15, 0), // fence
    ];
    for (word, tag, kind) in cases {
        let item = quiet(word, false).expect(&rt, "an instruction without an access");
        let file = check(&rt, Version::WordTags, item, 0, Asks::Nothing, tag, kind);
        assert!(rt; file.buffer() == 3);
    }
}

#[test]
fn instructions_that_faulted(rt: HostRuntime) {
    let cases = [
        (0x0002_a403, 2), // lw x8, (x5)
        (0x0053_a023, 0), // sw x5, (x7)
        (0x0002_8467, 1), // jalr x8, (x5)
        (0x0072_a42f, 2), // amoadd x8, x7, (x5)
    ];
    for (word, kind) in cases {
        let item = quiet(word, true).expect(&rt, "an instruction");
        check(&rt, Version::WordTags, item, 0, Asks::Nothing, 15, kind);
    }
}

#[test]
fn accesses_under_tags_of_words(rt: HostRuntime) {
    let cases = [
        (0x0003_a403, 15, 15, Reads, 2, 0), // lw x8, (x7)
        (0x0002_a403, 15, 0, Reads, 4, 2), // lw x8, (x5)
        (0x0002_a403, 15, 15, Reads, 6, 2), // lw x8, (x5)
        (0x0003_c403, 2, 15, Reads, 2, 0), // lbu x8, (x7)
        (0x0003_9403, 3, 15, Reads, 2, 0), // lh x8, (x7)
        (0x1002_a42f, 15, 15, Reads, 6, 2), // lr x8, (x5)
        (0x0053_a023, 15, 15, Writes(15, 2), 15, 0), // sw x5, (x7)
        (0x0072_a023, 15, 15, Writes(15, 4), 15, 3), // sw x7, (x5)
        (0x0073_a023, 15, 15, Writes(15, 0), 15, 0), // sw x7, (x7)
        (0x0053_8023, 2, 15, Joins(2), 15, 0), // sb x5, (x7)
        (0x0053_9023, 12, 15, Joins(2), 15, 0), // sh x5, (x7)
        (0x0073_8023, 1, 15, Joins(0), 15, 0), // sb x7, (x7)
        (0x1853_a42f, 15, 15, Writes(15, 2), 0, 0), // sc x8, x5, (x7)
        (0x1872_a42f, 15, 15, Writes(15, 4), 0, 3), // sc x8, x7, (x5)
        (0x0853_a42f, 15, 15, Writes(15, 2), 2, 0), // amoswap x8, x5, (x7)
        (0x0053_a42f, 15, 15, Joins(2), 2, 0), // amoadd x8, x5, (x7)
        (0x4072_a42f, 15, 15, Joins(4), 6, 2), // amoor x8, x7, (x5)
        (0x6083_a42f, 15, 0, Joins(2), 0, 0), // amoand x8, x8, (x7)
        (0xe074_242f, 15, 0, Joins(4), 4, 2), // amomaxu x8, x7, (x8)
    ];
    for (word, bytes, found, asks, tag, kind) in cases {
        let item = access(word, true, bytes).expect(&rt, "an instruction with an access");
        check(&rt, Version::WordTags, item, found, asks, tag, kind);
    }
}

#[test]
fn accesses_under_tags_of_bytes(rt: HostRuntime) {
    let cases = [
        (0x0003_c403, 1, 0xfff0, Reads, 0, 0), // lbu x8, (x7)
        (0x0013_c403, 2, 0x00f0, Reads, 2, 0), // lbu x8, 1(x7)
        (0x0003_9403, 3, 0xff00, Reads, 0, 0), // lh x8, (x7)
        (0x0023_9403, 12, 0x2400, Reads, 2, 0), // lh x8, 2(x7)
        (0x0002_a403, 15, 0x0200, Reads, 6, 2), // lw x8, (x5)
        (0x0053_8123, 4, 0xffff, Writes(0x0f00, 0x0200), 15, 0), // sb x5, 2(x7)
        (0x0073_8023, 1, 0xffff, Writes(15, 0), 15, 0), // sb x7, (x7)
        (0x0053_9123, 12, 0xffff, Writes(0xff00, 0x2200), 15, 0), // sh x5, 2(x7)
        (0x0053_a023, 15, 0xffff, Writes(0xffff, 0x2222), 15, 0), // sw x5, (x7)
        (0x1853_a42f, 15, 0xffff, Writes(0xffff, 0x2222), 0, 0), // sc x8, x5, (x7)
        (0x0853_a42f, 15, 0x2000, Writes(0xffff, 0x2222), 2, 0), // amoswap x8, x5, (x7)
        (0x0053_a42f, 15, 0x2000, Joins(0x2222), 2, 0), // amoadd x8, x5, (x7)
    ];
    for (word, bytes, found, asks, tag, kind) in cases {
        let item = access(word, true, bytes).expect(&rt, "an instruction with an access");
        check(&rt, Version::ByteTags, item, found, asks, tag, kind);
    }
}

#[test]
fn a_store_conditional_that_did_not_store(rt: HostRuntime) {
    let item = access(0x1872_a42f, false, 15).expect(&rt, "sc x8, x7, (x5)");
    check(&rt, Version::WordTags, item, 15, Reads, 0, 3);
    check(&rt, Version::ByteTags, item, 0xffff, Reads, 0, 3);
}

#[test]
fn calls(rt: HostRuntime) {
    for (call, kind) in [(63, 6), (64, 6), (93, 0), (94, 0), (214, 0), (5, 0)] {
        let item = meeting(call, MeetKind::Call);
        let file = check(&rt, Version::WordTags, item, 0, Asks::Replies, 15, kind);
        assert!(rt; file.buffer() == 0);
    }
    let verdict = meeting(64, MeetKind::Verdict);
    let file = check(&rt, Version::WordTags, verdict, 0, Asks::Replies, 15, 7);
    assert!(rt; file.buffer() == 3);
}

#[test]
fn accesses_of_calls(rt: HostRuntime) {
    let words = Version::WordTags;
    let bytes = Version::ByteTags;
    let cases = [
        (words, Why::Fill { bytes: 15 }, 15, Writes(15, 2), 3),
        (words, Why::Fill { bytes: 3 }, 15, Joins(2), 3),
        (words, Why::Gather { bytes: 2 }, 12, Reads, 15),
        (words, Why::Claim, 0, Reads, 3),
        (words, Why::Spent, 15, Reads, 3),
        (
            bytes,
            Why::Fill { bytes: 6 },
            0xffff,
            Writes(0x0ff0, 0x0220),
            3,
        ),
        (
            bytes,
            Why::Fill { bytes: 15 },
            0xffff,
            Writes(0xffff, 0x2222),
            3,
        ),
        (bytes, Why::Gather { bytes: 7 }, 0xf000, Reads, 3),
        (bytes, Why::Gather { bytes: 8 }, 0xc000, Reads, 15),
    ];
    for (version, why, found, asks, buffer) in cases {
        assert!(rt; is_sound(why));
        let file = check(&rt, version, touch(why), found, asks, 15, 0);
        assert!(rt; file.buffer() == buffer, "{why:?}");
    }
}

#[test]
fn the_first_trap_stays(rt: HostRuntime) {
    let policy = three_bits(Version::WordTags);
    let mut file = tainted();
    file.set(10, 15);
    let verdict = meeting(64, MeetKind::Verdict);
    let first = Trap {
        step: 3,
        pc: 0x0001_0000,
        kind: 7,
        bits: 2,
    };
    file.consume(&policy, &verdict);
    file.consume(&policy, &meeting(64, MeetKind::Call));
    file.consume(&policy, &Record::Blank { step: 4, pc: 0 });
    file.consume(&policy, &Record::Back { step: 5, pc: 0 });
    assert!(rt; file.consume(&policy, &Record::End) == TagAsk::Ended);
    assert!(rt; file.trap() == Some(first));
    assert!(rt; file.tag(10) == 0);
}
