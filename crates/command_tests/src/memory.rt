//! Want of memory: with each allocation failing in turn (`rt try --test --fail-alloc N`), a command answers as it does with
//! ample memory, or is refused for want of it.
use command_cases::{
    Answer, HI_MAP, HI_OUTPUT, HI_REPORT, INSPECT, REPLAY, RUN, SAME, Surroundings, answered, echo,
    image_of, refused,
};
use guest_images::HI;
use std::alloc::{AllocError, Global};
use std::sync::Wait;
use std::test::Fail;
use std::thread::Threads;

/// A run, a replay, a map, and a refusal of each kind, with what they answer where there is ample memory.
fn answers<'a>(hi: &'a [u8], flags: &'a [u8]) -> [Answer<'a>; 7] {
    [
        Answer {
            words: &RUN,
            image: hi,
            want: answered(HI_OUTPUT, HI_REPORT),
        },
        Answer {
            words: &REPLAY,
            image: hi,
            want: answered(SAME, b""),
        },
        Answer {
            words: &INSPECT,
            image: hi,
            want: answered(HI_MAP, b""),
        },
        Answer {
            words: &["run"],
            image: hi,
            want: refused(64, b"refused 64 words\n"),
        },
        Answer {
            words: &RUN,
            image: b"",
            want: refused(65, b"refused 65 image 1 Short\n"),
        },
        Answer {
            words: &RUN,
            image: flags,
            want: refused(65, b"refused 65 image 8 Flags\n"),
        },
        Answer {
            words: &["run", "--image", "none"],
            image: hi,
            want: refused(74, b"refused 74 read image\n"),
        },
    ]
}

/// The image of `hi`, and one with other flags.
fn images(alloc: Global) -> Result<(Vec<u8>, Vec<u8>), AllocError> {
    Ok((image_of(alloc, &HI)?, echo(alloc, 1)?))
}

/// The status of a command, and what it left.
fn left_by<X: Threads + Wait + Sync>(
    rt: &X,
    alloc: Global,
    answer: &Answer<'_>,
) -> Result<(u8, Surroundings), AllocError> {
    let mut around = Surroundings::ample(alloc, answer.image)?;
    around.add(alloc, "report.txt", HI_REPORT)?;
    let status = around.command(rt, alloc, answer.words)?;
    Ok((status, around))
}

#[test]
fn want_of_memory_is_the_only_other_answer(rt: HostRuntime) -> Result<(), Fail> {
    let alloc = rt.alloc();
    // Where the test itself finds no memory, it shows nothing.
    let Ok((hi, flags)) = images(alloc) else {
        return Ok(());
    };
    for answer in answers(&hi, &flags) {
        let Ok((status, around)) = left_by(&rt, alloc, &answer) else {
            return Ok(());
        };
        let want = if status == 71 {
            refused(71, b"refused 71 memory\n")
        } else {
            answer.want
        };
        assert!(rt; status == want.status);
        assert!(rt; around.out.bytes() == want.out);
        assert!(rt; around.report.bytes() == want.report);
    }
    Ok(())
}
