//! Guests that run to their ends.
use command_cases::{
    Case, Difference, FINE, HI_OUTPUT, HI_REPORT, Surroundings, answered, image_of, plain,
    try_case, try_cases,
};
use guest_images::{COUNT, HEADERS, HI, LRSC, push_words};
use std::alloc::{AllocError, Global};
use std::sync::Wait;
use std::test::Fail;
use std::thread::Threads;

/// `hi` with its buffer at address 0 and with no `li a0, 0`: exits with the low byte of -14.
const NO_BUFFER: [u32; 10] = [
    0x000105b7, 0x000005b7, 0x00100513, 0x00300613, 0x04000893, 0x00000073, 0x00000013, 0x05d00893,
    0x00000073, 0x000a6968,
];

/// `hi` with call 57 in place of 64, which is no call of this system, and with no `li a0, 0`: exits with the low byte
/// of -38.
const OTHER_CALL: [u32; 10] = [
    0x000105b7, 0x02458593, 0x00100513, 0x00300613, 0x03900893, 0x00000073, 0x00000013, 0x05d00893,
    0x00000073, 0x000a6968,
];

/// `li a0, 3; li a7, 93; ecall`
const EXIT_THREE: [u32; 3] = [0x00300513, 0x05d00893, 0x00000073];

/// `li t0, 7; sw t0, 0(zero)`
const BAD_STORE: [u32; 2] = [0x00700293, 0x00502023];

/// `addi t0, sp, -16; lr.w t1, (t0); addi t1, t1, 1; sc.w a0, t1, (t0); li a7, 93; ecall`
const RESERVE: [u32; 6] = [
    0xff010293, 0x1002a32f, 0x00130313, 0x1862a52f, 0x05d00893, 0x00000073,
];

/// The same with `lw t2, 0(t0)` in place of the addition.
const READ_BETWEEN: [u32; 6] = [
    0xff010293, 0x1002a32f, 0x0002a383, 0x1862a52f, 0x05d00893, 0x00000073,
];

/// Asks for the break with a wish of 0, and exits with what it was told, divided by 4,096.
const BREAK: [u32; 6] = [
    0x00000513, 0x0d600893, 0x00000073, 0x00c55513, 0x05d00893, 0x00000073,
];

/// `lui t0, 1; sub t0, sp, t0; sw a0, 0(t0); lw a0, 0(t0); li a7, 93; ecall`: uses the second page of the stack.
const OWN_STACK: [u32; 6] = [
    0x000012b7, 0x405102b3, 0x00a2a023, 0x0002a503, 0x05d00893, 0x00000073,
];

/// Stores to the page of its own code, which the second segment makes writable, and writes 4,096 bytes from 0x10802 on;
/// exits with the count of bytes divided by 4,096.
const WIDE_WRITE: [u32; 13] = [
    0x000102b7, 0x0002a023, 0x000115b7, 0x80258593, 0x04100313, 0x00658023, 0x00100513, 0x00001637,
    0x04000893, 0x00000073, 0x00c55513, 0x05d00893, 0x00000073,
];

/// What every report of these guests tells of its setup, with the usual options.
const USUAL: &[u8] = b"cores 1\nbudget 1048576\nlimit 4294967280\nstack 16\nheap 256\n";

/// An image of two segments on one page: code, which may be executed, and 4,096 bytes from 0x10800 on, which may be
/// written.
fn two_segments(alloc: Global, program: &[u32]) -> Result<Vec<u8>, AllocError> {
    let size = u32::try_from(program.len()).unwrap_or(0).wrapping_mul(4);
    let mut bytes = Vec::new(alloc);
    push_words(&mut bytes, &HEADERS[..6])?;
    push_words(&mut bytes, &[0x0001_0000, 52, 0, 0, 0x0020_0034, 2, 0])?;
    push_words(
        &mut bytes,
        &[1, 116, 0x0001_0000, 0x0001_0000, size, size, 5, 4],
    )?;
    push_words(&mut bytes, &[1, 0, 0x0001_0800, 0x0001_0800, 0, 4096, 6, 4])?;
    push_words(&mut bytes, program)?;
    Ok(bytes)
}

#[test]
fn hi_has_its_whole_report(rt: HostRuntime) -> Result<(), Fail> {
    let alloc = rt.alloc();
    let bytes = image_of(alloc, &HI)?;
    let mut around = Surroundings::ample(alloc, &bytes)?;
    let words = ["run", "--image=guest.elf", "--cores=1"];
    around.try_command(&rt, alloc, &words, &answered(HI_OUTPUT, HI_REPORT))?;
    assert!(rt; around.report.bytes().len() == 349);
    Ok(())
}

/// A program that runs on one core without options, its status, and how its report goes on after the numbers and ends.
#[derive(Clone, Copy)]
struct Guest {
    name: &'static str,
    program: &'static [u32],
    status: u8,
    head: &'static [u8],
    tail: &'static [u8],
}

fn running(
    name: &'static str,
    program: &'static [u32],
    status: u8,
    head: &'static [u8],
    tail: &'static [u8],
) -> Guest {
    Guest {
        name,
        program,
        status,
        head,
        tail,
    }
}

/// Programs that exit with what a call told them, or with a number of their own.
fn exits() -> [Guest; 4] {
    let no_buffer = b"traps 0\nends 1\n0 exit 242\nend\n";
    let no_call = b"traps 0\nends 1\n0 exit 218\nend\n";
    let three = b"traps 0\nends 1\n0 exit 3\nend\n";
    let seventeen = b"traps 0\nends 1\n0 exit 17\nend\n";
    let broken = b"units 8\n0\n0\n0\n0 2 0 00011000\n0\n0\n0\n0\ncalls 2\n";
    [
        running("no buffer", &NO_BUFFER, 1, b"units 10\n", no_buffer),
        running("other call", &OTHER_CALL, 1, b"units 10\n", no_call),
        running("exit with 3", &EXIT_THREE, 1, b"units 3\n", three),
        running("break", &BREAK, 1, broken, seventeen),
    ]
}

/// Programs that reserve a word.
fn reservations() -> [Guest; 3] {
    let one = b"traps 0\nends 1\n0 exit 1\nend\n";
    let loaded = b"units 8\n0\n0\n0 1027 0 00000000\n0 1027 1 00000000\n";
    [
        running("reserve", &RESERVE, 0, b"units 6\n", FINE),
        running("read between", &READ_BETWEEN, 1, b"units 6\n", one),
        running("reserve for core 1", &LRSC, 0, loaded, FINE),
    ]
}

/// Programs that end in a fault.
fn faults() -> [Guest; 3] {
    let store = b"traps 0\nends 1\n0 fault 7\nend\n";
    let illegal = b"traps 0\nends 1\n0 fault 1\nend\n";
    let ebreak = b"traps 0\nends 1\n0 fault 9\nend\n";
    let first = b"units 1\n0\ncalls 0\n";
    [
        running("bad store", &BAD_STORE, 3, b"units 2\n", store),
        running("zeros", &[0], 3, first, illegal),
        running("ebreak", &[0x0010_0073], 3, first, ebreak),
    ]
}

fn try_guests<X: Threads + Wait + Sync>(
    rt: &X,
    alloc: Global,
    guests: &[Guest],
) -> Result<(), Difference> {
    for guest in guests {
        let bytes = image_of(alloc, guest.program)?;
        let mut head = Vec::from_slice(alloc, USUAL)?;
        head.extend_from_slice(guest.head)?;
        let case = Case {
            head: &head,
            ..plain(guest.name, &bytes, guest.status, b"", guest.tail)
        };
        try_case(rt, alloc, &case)?;
    }
    Ok(())
}

#[test]
fn guests_on_one_core_run_to_their_ends(rt: HostRuntime) -> Result<(), Fail> {
    try_guests(&rt, rt.alloc(), &exits())?;
    try_guests(&rt, rt.alloc(), &reservations())?;
    try_guests(&rt, rt.alloc(), &faults())?;
    Ok(())
}

/// A guest that counts without a heap, and one that uses its second page of stack.
fn pages<'a>(count: &'a [u8], stack: &'a [u8]) -> [Case<'a>; 3] {
    let store = b"traps 0\nends 1\n0 fault 7\nend\n";
    let two_pages = b"ends 2\n0 exit 0\n1 exit 1\nend\n";
    let one_page = b"ends 2\n0 fault 7\n1 fault 7\nend\n";
    [
        Case {
            options: &["--heap", "0"],
            ..plain("a word past the heap", count, 3, b"", store)
        },
        Case {
            options: &["--stack", "2", "--cores", "2"],
            ..plain("two pages of stack", stack, 1, b"", two_pages)
        },
        Case {
            options: &["--stack", "1", "--cores", "2"],
            ..plain("one page of stack", stack, 3, b"", one_page)
        },
    ]
}

#[test]
fn pages_end_where_they_were_asked_to(rt: HostRuntime) -> Result<(), Fail> {
    let alloc = rt.alloc();
    let count = image_of(alloc, &COUNT)?;
    let stack = image_of(alloc, &OWN_STACK)?;
    try_cases(&rt, alloc, &pages(&count, &stack))?;
    Ok(())
}

#[test]
fn a_write_crosses_pages_and_pages_join_permissions(rt: HostRuntime) -> Result<(), Fail> {
    let alloc = rt.alloc();
    let bytes = two_segments(alloc, &WIDE_WRITE)?;
    let mut out = Vec::from_slice(alloc, b"A")?;
    out.resize(4096, 0)?;
    let ends = b"traps 0\nends 1\n0 exit 1\nend\n";
    try_case(&rt, alloc, &plain("wide write", &bytes, 1, &out, ends))?;
    Ok(())
}
