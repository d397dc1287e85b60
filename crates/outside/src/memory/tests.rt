use super::*;
use crate::sink::write_whole;
use std::test::Fail;

const TEXT: &[u8] = b"abcdef";

#[test]
fn a_text_in_a_sink_in_memory(rt: HostRuntime) -> Result<(), Fail> {
    // The room, the call that fails, whether the text is written whole, the bytes kept, the faults.
    let rows = [
        (6, None, true, 6, 0),
        (9, None, true, 6, 0),
        (4, None, false, 4, 1),
        (0, None, false, 0, 1),
        (6, Some(0), false, 0, 1),
        (6, Some(1), true, 6, 0),
        (4, Some(1), false, 4, 1),
    ];
    for (room, failing, is_whole, kept, faults) in rows {
        let mut sink = MemSink::new(rt.alloc(), room, failing.as_slice())?;
        let result = write_whole(&mut sink, TEXT);
        assert!(rt;
            result.is_ok() == is_whole,
            "room {room} failing {failing:?}"
        );
        assert!(rt;
            sink.bytes().len() == kept,
            "room {room} failing {failing:?}"
        );
        assert!(rt;
            TEXT.starts_with(sink.bytes()),
            "room {room} failing {failing:?}"
        );
        assert!(rt; sink.faults() == faults, "room {room} failing {failing:?}");
    }
    Ok(())
}

#[test]
fn an_empty_piece_has_no_number(rt: HostRuntime) -> Result<(), Fail> {
    let mut sink = MemSink::new(rt.alloc(), 5, &[1])?;
    let pieces: [(&[u8], Result<usize, SinkFault>); 6] = [
        (b"ab", Ok(2)),
        (b"", Ok(0)),
        (b"cd", Err(SinkFault::Failed)),
        (b"cd", Ok(2)),
        (b"ef", Ok(1)),
        (b"f", Err(SinkFault::Failed)),
    ];
    for (piece, want) in pieces {
        assert!(rt; sink.write(piece) == want);
    }
    assert!(rt; sink.bytes() == b"abcde".as_slice());
    assert!(rt; sink.faults() == 2);
    assert!(rt; sink.calls() == 5);
    Ok(())
}

#[test]
fn files_in_memory(rt: HostRuntime) -> Result<(), Fail> {
    let mut files = MemFiles::new(rt.alloc(), &[1])?;
    files.add(rt.alloc(), "twice", b"first")?;
    files.add(rt.alloc(), "twice", b"second")?;
    files.add(rt.alloc(), "empty", b"")?;
    // The name, the most bytes, the answer, the faults after it.
    let rows: [(&str, usize, Result<&[u8], FileFault>, u64); 6] = [
        ("twice", 5, Ok(b"first"), 0),
        ("twice", 5, Err(FileFault::Failed), 1),
        ("twice", 4, Err(FileFault::TooLong), 1),
        ("empty", 0, Ok(b""), 1),
        ("missing", 5, Err(FileFault::Failed), 2),
        ("twice", 6, Ok(b"first"), 2),
    ];
    for (name, most, want, faults) in rows {
        let result = files.read_all(rt.alloc(), name, most);
        assert!(rt; answer(&result) == want, "{name} of at most {most}");
        assert!(rt; files.faults() == faults, "{name} of at most {most}");
    }
    assert!(rt; files.calls() == 6);
    Ok(())
}

#[test]
fn objects_that_never_fail(rt: HostRuntime) -> Result<(), Fail> {
    let mut files = SureFiles::new(rt.alloc());
    files.add(rt.alloc(), "twice", b"first")?;
    files.add(rt.alloc(), "twice", b"second")?;
    let rows: [(&str, usize, Result<&[u8], FileFault>); 3] = [
        ("twice", 5, Ok(b"first")),
        ("twice", 4, Err(FileFault::TooLong)),
        ("missing", 0, Ok(b"")),
    ];
    for (name, most, want) in rows {
        let result = files.read_all(rt.alloc(), name, most);
        assert!(rt; answer(&result) == want, "{name} of at most {most}");
    }
    let mut sink = SureSink;
    assert!(rt; sink.write(TEXT) == Ok(6));
    assert!(rt; write_whole(&mut sink, TEXT) == Ok(()));
    Ok(())
}

fn answer(read: &Result<Vec<u8>, FileFault>) -> Result<&[u8], FileFault> {
    match read {
        Ok(bytes) => Ok(bytes.as_slice()),
        Err(fault) => Err(*fault),
    }
}
