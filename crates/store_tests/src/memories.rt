use elf_image::{Image, ImageFault};
use guest_images::{HI, loaded, small_image};
use rv_execute::Op;
use std::alloc::Global;
use std::test::Fail;
use ticket_table::{number, payload};
use word_stores::{Served, SharedMemory, TagMemory};

/// The image of a program, for one core, one page of stack and one of heap.
fn image_of(alloc: Global, program: &[u32]) -> Result<Image, ImageFault> {
    let bytes = small_image(alloc, program)?;
    loaded(alloc, &bytes, 1, 1, 1)
}

#[test]
fn shared_memory_begins_with_the_words_of_its_image(rt: HostRuntime) -> Result<(), Fail> {
    let image = image_of(rt.alloc(), &HI)?;
    assert!(rt; image.words() == 3075);
    let (memory, mut passes) = SharedMemory::create(rt.alloc(), &image, 1, 10)?;
    let mut pass = passes.pop().ok_or("a pass")?;
    let call = memory.access(&mut pass, 5, Op::Read);
    assert!(rt; (call.number, call.old, call.spent) == (0, 0x0010_0513, false));
    let lengthen = Op::Break {
        want: 0x0001_1010,
        low: 0x0001_1000,
        high: 0x0001_2000,
    };
    let end = memory.access(&mut pass, 2, lengthen);
    assert!(rt; (end.number, end.old, end.spent) == (0, 0x0001_1000, false));
    passes.push(pass)?;
    let closed = memory.close(passes);
    let left = closed.word(2);
    assert!(rt; (payload(left), number(left)) == (0x0001_1010, 1));
    Ok(())
}

#[test]
fn tags_are_served_in_order(rt: HostRuntime) -> Result<(), Fail> {
    let (memory, mut passes) = TagMemory::create(rt.alloc(), 4, 1, 10)?;
    let mut pass = passes.pop().ok_or("a pass")?;
    let write = Op::Write { mask: 15, value: 9 };
    assert!(rt; memory.serve(&mut pass, 3, 1, Op::Read) == Served::NotYet { seen: 0 });
    assert!(rt; memory.serve(&mut pass, 3, 0, write) == Served::Done { old: 0 });
    assert!(rt; memory.serve(&mut pass, 3, 1, Op::Read) == Served::Done { old: 9 });
    passes.push(pass)?;
    let closed = memory.close(passes);
    assert!(rt; (payload(closed.word(3)), number(closed.word(3))) == (9, 2));
    assert!(rt; (payload(closed.word(0)), number(closed.word(0))) == (0, 0));
    Ok(())
}
