//! What is known of commands: their words, and what they write of the program that prints `hi`.

/// What `hi` writes.
pub const HI_OUTPUT: &[u8] = b"hi\n";

/// The report of its run: thirteen units, one of which reads the word with `hi`, and one claims its output.
pub const HI_REPORT: &[u8] = b"taint-report 1\n\
    cores 1\n\
    budget 1048576\n\
    limit 4294967280\n\
    stack 16\n\
    heap 256\n\
    units 13\n\
    0\n\
    0\n\
    0\n\
    0\n\
    0\n\
    0\n\
    0 12 0 000a6968\n\
    0\n\
    0 1 0 00000000\n\
    0\n\
    0\n\
    0\n\
    0\n\
    calls 3\n\
    0 5 00010014 call 64 00000000000000000000000000000000 0 go\n\
    0 7 00010014 sink 64 00000000000000000000000000000000 0 go\n\
    0 12 00010020 call 93 00000000000000000000000000000000 0 go\n\
    traps 0\n\
    ends 1\n\
    0 exit 0\n\
    end\n";

/// The map of its image.
pub const HI_MAP: &[u8] = b"entry 00010000\n\
    segment 00010000 00010028 rwx\n\
    break 00011000 00111000\n\
    stack 0 efff0000 f0000000\n\
    words 279555\n";

/// How a report ends where one core exits with 0 and none has a trap.
pub const FINE: &[u8] = b"traps 0\nends 1\n0 exit 0\nend\n";

/// The words that run the guest.
pub const RUN: [&str; 3] = ["run", "--image", "guest.elf"];

/// The words that compare a report with the guest's run.
pub const REPLAY: [&str; 5] = ["replay", "--image", "guest.elf", "--report", "report.txt"];

/// What is written where they agree.
pub const SAME: &[u8] = b"same\n";

/// The words that ask for the map of the guest's image.
pub const INSPECT: [&str; 3] = ["inspect", "--image", "guest.elf"];
