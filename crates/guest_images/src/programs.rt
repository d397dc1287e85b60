//! The words of the programs. Each begins at 0x10000, and the memory after its page begins at 0x11000.

/// The headers of a small image, up to the two sizes of its one segment.
pub const HEADERS: [u32; 17] = [
    0x464c457f, 0x00010101, 0, 0, 0x00f30002, 1, 0x00010000, 52, 0, 0, 0x00200034, 1, 0, 1, 84,
    0x00010000, 0x00010000,
];

/// A program header of a kind of the processor's own.
pub const PROCESSOR_HEADER: [u32; 8] = [0x70000003, 0, 0, 0, 0, 0, 0, 0];

/// The program header of the code of `ECHO`, which is loaded with the headers before it.
pub const CODE_HEADER: [u32; 8] = [1, 0, 0x00010000, 0x00010000, 0xf0, 0xf0, 5, 0x1000];

/// The program header of the word at 0x11000, and of three more.
pub const COUNT_HEADER: [u32; 8] = [1, 0x1000, 0x00011000, 0x00011000, 4, 16, 6, 0x1000];

/// The program header that tells of the stack.
pub const STACK_HEADER: [u32; 8] = [0x6474e551, 0, 0, 0, 0, 0, 6, 16];

/// Writes `hi` and a line feed, and exits with 0.
pub const HI: [u32; 10] = [
    0x000105b7, 0x02458593, 0x00100513, 0x00300613, 0x04000893, 0x00000073, 0x00000513, 0x05d00893,
    0x00000073, 0x000a6968,
];

/// Reads up to 64 bytes into its stack, writes them, stores their count at 0x11000 and exits with 0.
pub const ECHO: [u32; 15] = [
    0xfc010113, 0x00000513, 0x00010593, 0x04000613, 0x03f00893, 0x00000073, 0x00050613, 0x00100513,
    0x04000893, 0x00000073, 0x000112b7, 0x00c2a023, 0x00000513, 0x05d00893, 0x00000073,
];

/// Core 0 adds 1 to a word by load-reserved and store-conditional, and exits with what the latter gave; core 1 stores.
pub const LRSC: [u32; 9] = [
    0x000112b7, 0x00051863, 0x1002a32f, 0x1862a3af, 0x0080006f, 0x0002a023, 0x05d00893, 0x00038513,
    0x00000073,
];

/// Each core stores 1 to a word of its own, and exits with what it then loads from the word of the other core.
pub const STORE_BUFFERING: [u32; 11] = [
    0x000112b7, 0x00251313, 0x00628333, 0x00154393, 0x00239393, 0x007283b3, 0x00100413, 0x00832023,
    0x0003a503, 0x05d00893, 0x00000073,
];

/// Adds 1 to a word a thousand times.
pub const COUNT: [u32; 9] = [
    0x000112b7, 0x00100313, 0x3e800393, 0x0062a02f, 0xfff38393, 0xfe039ce3, 0x00000513, 0x05d00893,
    0x00000073,
];

/// Reads four bytes and jumps to the address that they are, at which it stores twice and then asks for a write.
pub const JUMP: [u32; 13] = [
    0x00000513, 0x000115b7, 0x00400613, 0x03f00893, 0x00000073, 0x0005a283, 0x00028067, 0x00000013,
    0x00c5a223, 0x00c5a423, 0x00100513, 0x04000893, 0x00000073,
];

/// Reads four bytes and writes them.
pub const PASS: [u32; 11] = [
    0x00000513, 0x000115b7, 0x00400613, 0x03f00893, 0x00000073, 0x00100513, 0x04000893, 0x00000073,
    0x00000513, 0x05d00893, 0x00000073,
];

/// Reads five bytes to the last two of a word and the first three of the next, and writes them.
pub const ODD: [u32; 12] = [
    0x00000513, 0x000115b7, 0x00258593, 0x00500613, 0x03f00893, 0x00000073, 0x00100513, 0x04000893,
    0x00000073, 0x00000513, 0x05d00893, 0x00000073,
];

/// Reads one byte, loads the byte after it, and jumps by that.
pub const BYTE_JUMP: [u32; 13] = [
    0x00000513, 0x000115b7, 0x00100613, 0x03f00893, 0x00000073, 0x0015c283, 0x00010337, 0x006282b3,
    0x02828067, 0x00000013, 0x00000513, 0x05d00893, 0x00000073,
];
