use super::*;
use crate::sink::write_whole;
use std::io;
use std::test::Fail;

/// A reader that gives one byte at a time, and first an interruption. Its read with the number
/// `failing` fails.
#[derive(Drop)]
struct Drip {
    left: usize,
    calls: u64,
    failing: u64,
}

impl Read for Drip {
    fn read(&mut self, buffer: &mut [u8]) -> io::Result<usize> {
        let call = self.calls;
        self.calls = call.saturating_add(1);
        if call == 0 {
            return Err(io::Error::from(ErrorKind::Interrupted));
        }
        if call == self.failing {
            return Err(io::Error::from(ErrorKind::Other));
        }
        if self.left == 0 || buffer.is_empty() {
            return Ok(0);
        }
        self.left -= 1;
        buffer[0] = b'x';
        Ok(1)
    }
}

#[test]
fn a_reader_is_read_to_its_end(rt: HostRuntime) -> Result<(), Fail> {
    // The bytes that are left, the most, the read that fails, the answer.
    let rows = [
        (3, 3, 99, Ok(3)),
        (3, 2, 99, Err(FileFault::TooLong)),
        (0, 0, 99, Ok(0)),
        (1, 0, 99, Err(FileFault::TooLong)),
        (3, 3, 2, Err(FileFault::Failed)),
        (3, 3, 4, Err(FileFault::Failed)),
    ];
    for (left, most, failing, want) in rows {
        let mut reader = Drip {
            left,
            calls: 0,
            failing,
        };
        let result = read_to_end(rt.alloc(), &mut reader, most);
        let got = result.map(|bytes| bytes.len());
        assert!(rt; got == want, "{left} of at most {most} failing {failing}");
    }
    Ok(())
}

#[test]
fn files_of_the_host(rt: HostRuntime) -> Result<(), Fail> {
    let name = "outside-host-files-test";
    fs::write(&rt, name, b"held")?;
    let mut files = HostFiles::new(&rt);
    let whole = files.read_all(rt.alloc(), name, 4);
    let long = files.read_all(rt.alloc(), name, 3);
    assert!(rt; files.faults() == 0);
    fs::remove_file(&rt, name)?;
    let missing = files.read_all(rt.alloc(), name, 4);
    assert!(rt; files.faults() == 1);
    assert!(rt; whole.map(|bytes| bytes.as_slice() == b"held".as_slice()) == Ok(true));
    assert!(rt; long.map(|bytes| bytes.len()) == Err(FileFault::TooLong));
    assert!(rt; missing.map(|bytes| bytes.len()) == Err(FileFault::Failed));
    Ok(())
}

/// A writer that takes at most `most` bytes at a time, and whose flush with the number `failing` fails.
#[derive(Drop)]
struct Narrow {
    most: usize,
    flushes: u64,
    failing: u64,
}

impl Write for Narrow {
    fn write(&mut self, bytes: &[u8]) -> io::Result<usize> {
        Ok(bytes.len().min(self.most))
    }

    fn flush(&mut self) -> io::Result<()> {
        let flush = self.flushes;
        self.flushes = flush.saturating_add(1);
        if flush == self.failing {
            return Err(io::Error::from(ErrorKind::Other));
        }
        Ok(())
    }
}

#[test]
fn sinks_of_the_host(rt: HostRuntime) -> Result<(), Fail> {
    // The most bytes that a write takes, the flush that fails, the first answer, the faults.
    let rows = [
        (9, 9, Ok(4), 0),
        (3, 9, Ok(3), 0),
        (0, 9, Err(SinkFault::Failed), 1),
        (9, 0, Err(SinkFault::Failed), 1),
    ];
    for (most, failing, want, faults) in rows {
        let mut sink = HostSink::new(Narrow {
            most,
            flushes: 0,
            failing,
        });
        assert!(rt; sink.write(b"") == Ok(0));
        assert!(rt; sink.write(b"text") == want, "at most {most}");
        assert!(rt; sink.faults() == faults, "at most {most}");
    }
    let mut sink = HostSink::new(Narrow {
        most: 1,
        flushes: 0,
        failing: 2,
    });
    assert!(rt; write_whole(&mut sink, b"text") == Err(SinkFault::Failed));
    assert!(rt; sink.faults() == 1);
    Ok(())
}
