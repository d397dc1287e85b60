//! The memory map of an image as a text.
ghost use Rattle.std.specs.Prelude.{◌≡◌, ◌+◌, ◌*◌, ◌≤◌, ◌<◌, ◌++◌, ◌∷◌, [], ℕ, List, codes, length, take};
ghost use Rattle.elf_image.specs.Elf.{segments};
ghost use Rattle.elf_image.specs.ImageFault.{IsAccepted};
ghost use Rattle.trap_report.specs.Digits.{hex};
ghost use Rattle.trap_report.specs.Fields.{spelled};
ghost use Rattle.elf_image.specs.declared.limits.TheConstants.{MOST_STACK};
ghost use Rattle.run_cli.specs.MapText.{entry_line, segment_lines, break_line, stack_lines, words_line, permission_letters, stack_fields, map_text};

use elf_image::Image;
use elf_image::limits::PAGE_BYTES;
use trap_report::Block;

/// The letters of what may be done with a segment of these flags.
fn permission_letters(flags: u32) -> [u8; 3]
    ensures { result ≡ permission_letters flags }
{
    [
        if flags & 4 != 0 { b'r' } else { b'-' },
        if flags & 2 != 0 { b'w' } else { b'-' },
        if flags & 1 != 0 { b'x' } else { b'-' },
    ]
}

/// Puts the line of a segment at the end.
fn push_segment(block: &mut Block, start: u32, end: u32, flags: u32)
    requires { length block.old ≤ 4000 }
    ensures text { block.new ≡ block.old ++ spelled (codes "segment" ∷ hex 8 start ∷ hex 8 end ∷ permission_letters flags ∷ []) }
    ensures len { length block.new ≡ length block.old + 30 }
{
    block.push_text(b"segment");
    block.hex_field(u128::from(start), 8);
    block.hex_field(u128::from(end), 8);
    block.text_field(&permission_letters(flags));
    block.end_line();
}

/// Puts the line of a core's stack, from its lowest address to above its highest, at the end.
fn push_stack(block: &mut Block, core: u8, pages: u32)
    requires room { length block.old ≤ 4000 }
    requires cores { core < 32 }
    requires pages { pages ≤ MOST_STACK }
    ensures text { block.new ≡ block.old ++ spelled (stack_fields pages core) }
    ensures len { length block.new ≤ length block.old + 28 }
{
    let top = 0xF000_0000 - u32::from(core) * 0x0200_0000;
    block.push_text(b"stack");
    block.number_field(core);
    block.hex_field(u128::from(top - PAGE_BYTES * pages), 8);
    block.hex_field(u128::from(top), 8);
    block.end_line();
}

/// Puts the line of the segment at a place, after those of the segments before it.
fn push_segment_at(block: &mut Block, image: &Image, place: u32)
    requires room { length block.old ≤ 4000 }
    requires place { place < length (segments image.now.bytes) }
    ensures text { (front : List ℕ) → block.old ≡ front ++ segment_lines (take place (segments image.now.bytes))
        → block.new ≡ front ++ segment_lines (take (place + 1) (segments image.now.bytes)) }
    ensures len { length block.new ≡ length block.old + 30 }
{
    let Some((start, end, flags)) = image.segment(place) else {
        unreachable!()
    };
    push_segment(block, start, end, flags);
}

/// Puts the lines of the segments at the end.
#[tactic(auto, using(crate::proofs::MapLemmas::few_segments))]
fn push_segments(block: &mut Block, image: &Image)
    requires room { length block.old ≤ 16 }
    requires accepted { IsAccepted image.now }
    ensures text { block.new ≡ block.old ++ segment_lines (segments image.now.bytes) }
    ensures len { length block.new ≤ 1936 }
{
    for place in 0..image.segments() {
        push_segment_at(block, image, place);
    }
}

/// Puts the lines of the stacks at the end.
fn push_stacks(block: &mut Block, cores: u8, pages: u32)
    requires room { length block.old ≤ 2048 }
    requires cores { cores ≤ 32 }
    requires pages { pages ≤ MOST_STACK }
    ensures text { block.new ≡ block.old ++ stack_lines pages cores }
    ensures len { length block.new ≤ 2944 }
{
    for core in 0..cores {
        push_stack(block, core, pages);
    }
}

fn push_entry(block: &mut Block, image: &Image)
    requires { length block.old ≤ 4000 }
    ensures text { block.new ≡ block.old ++ entry_line image.now }
    ensures len { length block.new ≡ length block.old + 15 }
{
    block.push_text(b"entry");
    block.hex_field(u128::from(image.entry()), 8);
    block.end_line();
}

fn push_break(block: &mut Block, image: &Image)
    requires { length block.old ≤ 4000 }
    ensures text { block.new ≡ block.old ++ break_line image.now }
    ensures len { length block.new ≡ length block.old + 24 }
{
    block.push_text(b"break");
    block.hex_field(u128::from(image.break_base()), 8);
    block.hex_field(u128::from(image.heap_end()), 8);
    block.end_line();
}

fn push_words(block: &mut Block, image: &Image)
    requires { length block.old ≤ 4000 }
    ensures { block.new ≡ block.old ++ words_line image.now }
{
    block.push_text(b"words");
    block.number_field(image.words());
    block.end_line();
}

/// The memory map of an image as a text: the entry, the segments, the break, the stack of each core, and the count of
/// words, one line each.
pub fn map_text(image: &Image) -> Block
    ensures { result ≡ map_text image.now }
{
    let cores = image.cores();
    let mut block = Block::new();
    push_entry(&mut block, image);
    push_segments(&mut block, image);
    push_break(&mut block, image);
    push_stacks(&mut block, cores, image.stack());
    push_words(&mut block, image);
    block
}
