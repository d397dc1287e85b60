//! The worked images: what is read off them, and the fault of each kind of damage.
use elf_image::ImageFault;
use guest_images::{HI, echo_image, loaded, small_image};
use std::alloc::{AllocError, Global};
use std::test::Fail;

/// The image of the program that prints `hi`.
fn hi_image(alloc: Global) -> Result<Vec<u8>, AllocError> {
    small_image(alloc, &HI)
}

/// The image of two segments.
fn plain_echo(alloc: Global) -> Result<Vec<u8>, AllocError> {
    echo_image(alloc, 0)
}

/// What is wrong with an image for one core.
fn fault_of(alloc: Global, bytes: &[u8]) -> Option<ImageFault> {
    loaded(alloc, bytes, 1, 16, 256).err()
}

/// The bytes with another one at a place.
fn with_byte(mut bytes: Vec<u8>, place: usize, value: u8) -> Vec<u8> {
    if let Some(byte) = bytes.get_mut(place) {
        *byte = value;
    }
    bytes
}

#[test]
fn hello_is_laid_out(rt: HostRuntime) -> Result<(), Fail> {
    let bytes = hi_image(rt.alloc())?;
    let image = loaded(rt.alloc(), &bytes, 1, 16, 256)?;
    assert!(rt; (image.cores(), image.stack(), image.heap()) == (1, 16, 256));
    assert!(rt;
        (image.entry(), image.break_base(), image.heap_end()) == (0x1_0000, 0x1_1000, 0x11_1000)
    );
    assert!(rt; image.words() == 279_555);
    for (address, word) in [
        (0x1_0000, Some(3)),
        (0x1_0027, Some(12)),
        (0x1_1000, Some(1027)),
        (0xefff_0000, Some(263_171)),
        (0xefff_ffff, Some(279_554)),
        (0xf000_0000, None),
        (0x11_1000, None),
        (0xffff, None),
    ] {
        assert!(rt; image.word_of(address) == word);
        assert!(rt; image.writable(address) == word.is_some());
    }
    for (pc, word) in [
        (0x1_0000, Some(0x0001_05b7)),
        (0x1_0024, Some(0x000a_6968)),
        (0x1_0028, Some(0)),
        (0x1_0002, None),
        (0x1_1000, None),
        (0, None),
    ] {
        assert!(rt; image.fetch(pc) == word);
    }
    for (word, value) in [
        (0, 0),
        (1, 0),
        (2, 0x1_1000),
        (3, 0x0001_05b7),
        (12, 0x000a_6968),
        (279_554, 0),
    ] {
        assert!(rt; word < image.words());
        assert!(rt; image.first_word(word) == value);
    }
    assert!(rt; image.segments() == 1);
    assert!(rt; image.segment(0) == Some((0x1_0000, 0x1_0028, 7)));
    assert!(rt; image.segment(1) == None);
    Ok(())
}

#[test]
fn echo_has_two_segments(rt: HostRuntime) -> Result<(), Fail> {
    let bytes = plain_echo(rt.alloc())?;
    assert!(rt; bytes.len() == 0x1004);
    let image = loaded(rt.alloc(), &bytes, 1, 16, 256)?;
    assert!(rt; image.entry() == 0x1_00b4);
    assert!(rt; image.segments() == 2);
    assert!(rt; image.segment(0) == Some((0x1_0000, 0x1_00f0, 5)));
    assert!(rt; image.segment(1) == Some((0x1_1000, 0x1_1010, 6)));
    assert!(rt; (image.break_base(), image.heap_end()) == (0x1_2000, 0x11_2000));
    assert!(rt; image.words() == 280_579);
    assert!(rt; (image.writable(0x1_0000), image.writable(0x1_1000)) == (false, true));
    assert!(rt; (image.fetch(0x1_00b4), image.fetch(0x1_1000)) == (Some(0xfc01_0113), None));
    assert!(rt; 1027 < image.words());
    assert!(rt; image.first_word(1027) == 1);
    Ok(())
}

#[test]
fn damage_has_its_fault(rt: HostRuntime) -> Result<(), Fail> {
    assert!(rt; fault_of(rt.alloc(), &[]) == Some(ImageFault::Short));
    for (place, value, fault) in [
        (0, 0x7e, Some(ImageFault::Magic)),
        (4, 2, Some(ImageFault::Class)),
        (5, 2, Some(ImageFault::ByteOrder)),
        (6, 0, Some(ImageFault::Version)),
        (20, 2, Some(ImageFault::Version)),
        (16, 3, Some(ImageFault::Kind)),
        (18, 3, Some(ImageFault::Machine)),
        (36, 1, Some(ImageFault::Flags)),
        (36, 8, Some(ImageFault::Flags)),
        (36, 16, None),
        (44, 65, Some(ImageFault::HeaderSize)),
        (42, 33, Some(ImageFault::HeaderSize)),
        (28, 93, Some(ImageFault::HeaderSize)),
        (52, 2, Some(ImageFault::Dynamic)),
        (52, 3, Some(ImageFault::Dynamic)),
        (44, 0, Some(ImageFault::NoLoad)),
        (72, 0, Some(ImageFault::NoLoad)),
        (72, 39, Some(ImageFault::FileRange)),
        (56, 85, Some(ImageFault::FileRange)),
        (63, 0xb0, Some(ImageFault::AddressRange)),
        (24, 2, Some(ImageFault::Entry)),
        (76, 6, Some(ImageFault::Entry)),
        (26, 2, Some(ImageFault::Entry)),
        (80, 5, None),
    ] {
        let bytes = with_byte(hi_image(rt.alloc())?, place, value);
        assert!(rt; fault_of(rt.alloc(), &bytes) == fault, "{value} at {place}");
    }
    let overlapping = with_byte(plain_echo(rt.alloc())?, 52 + 64 + 9, 0);
    assert!(rt; fault_of(rt.alloc(), &overlapping) == Some(ImageFault::Overlap));
    let bytes = hi_image(rt.alloc())?;
    assert!(rt; loaded(rt.alloc(), &bytes, 8, 480, 255).err() == None);
    assert!(rt; loaded(rt.alloc(), &bytes, 8, 480, 256).err() == Some(ImageFault::TooLarge));
    Ok(())
}
