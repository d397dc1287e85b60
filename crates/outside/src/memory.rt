//! Files and sinks in memory.
ghost use Rattle.std.specs.Prelude.{◌≡◌, ◌≢◌, ℕ, ◌<◌, ◌≤◌, ◌↔◌, ◌⊎◌, List, [], ◌∷◌, ◌++◌, length, min, Contains, IfSome, IsNone, option_copied, unwrap_or, IfOk, IsOk, OnOk, IsErr, OnErr};
ghost use Rattle.std.specs.Str.{bytes_eq};
ghost use Rattle.std.specs.Io.KnownBytes.{WriteAppends};
ghost use Rattle.outside.specs.Faults.{HasCause};
ghost use Rattle.outside.specs.Files.{HasFileCause, ReadsHeld};
ghost use Rattle.outside.specs.Sinks.{TakesSome};
ghost use Rattle.outside.specs.Memory.{held_by, RefusesReading, RefusesWrite, room_left, risen};

use crate::files::{FileFault, Files};
use crate::sink::{Sink, SinkFault};
use std::alloc::{AllocError, Global};
use std::marker::Model;

/// One file in memory.
#[derive(Debug, Drop)]
struct MemFile {
    name: String,
    bytes: Vec<u8>,
}

impl Model for MemFile {
    ghost use Rattle.std.specs.Prelude.{string_bytes};
    ghost use Rattle.outside.specs.Memory.{NamedFile};

    ghost Value = { NamedFile };

    ghost view = { λ file. record { name = string_bytes file.name; bytes = file.bytes.items } };
}

impl MemFile {
    fn new(alloc: Global, name: &str, bytes: &[u8]) -> Result<MemFile, AllocError>
        ensures { IfOk result (λ file. file ≡ record { name = name.now; bytes = bytes.now }) }
    {
        Ok(MemFile {
            name: String::from_str(alloc, name)?,
            bytes: Vec::from_slice(alloc, bytes)?,
        })
    }

    fn is_named(&self, name: &str) -> bool
        ensures { result ≡ bytes_eq self.now.name name.now }
    {
        self.name.as_str() == name
    }

    fn bytes(&self) -> &[u8]
        ensures { result.now ≡ self.now.bytes }
    {
        &self.bytes
    }
}

// The bytes of the first file with this name.
fn held_in<'a>(files: &'a [MemFile], name: &str) -> Option<&'a [u8]>
    ensures { option_copied result ≡ held_by files.now name.now }
{
    for file in files {
        if file.is_named(name) {
            return Some(file.bytes());
        }
    }
    None
}

// A copy of a file that has at most `most` bytes.
fn copy_at_most(alloc: Global, bytes: &[u8], most: usize) -> Result<Vec<u8>, FileFault>
    ensures copied { IfOk result (λ copy. copy.items ≡ bytes.now) }
    ensures too_long { result ≡ Err FileFault.TooLong ↔ most < length bytes.now }
    ensures readable { result ≢ Err FileFault.Failed }
{
    if bytes.len() > most {
        return Err(FileFault::TooLong);
    }
    Vec::from_slice(alloc, bytes).map_err(|_| FileFault::NoMemory)
}

/// Files in memory, in which chosen calls fail. A name that is not held gives a fault too.
///
/// Its calls are numbered from 0, and one count of faults serves every name. Where a name is added
/// twice, the first file is held.
#[derive(Debug, Drop)]
pub struct MemFiles {
    files: Vec<MemFile>,
    failing: Vec<u64>,
    calls: u64,
    faults: u64,
}

impl Model for MemFiles {
    ghost use Rattle.outside.specs.Memory.{MemoryFiles};

    ghost Value = { MemoryFiles };

    ghost view = { λ held. record { files = held.files.items; failing = held.failing.items; calls = held.calls; faults = held.faults } };
}

impl MemFiles {
    /// No files, and the calls with the numbers in `failing` fail.
    pub fn new(alloc: Global, failing: &[u64]) -> Result<MemFiles, AllocError>
        ensures { IfOk result (λ files. files
            ≡ record { files = []; failing = failing.now; calls = 0; faults = 0 }) }
    {
        Ok(MemFiles {
            files: Vec::new(alloc),
            failing: Vec::from_slice(alloc, failing)?,
            calls: 0,
            faults: 0,
        })
    }

    /// Adds a file after those that are there.
    pub fn add(&mut self, alloc: Global, name: &str, bytes: &[u8]) -> Result<(), AllocError>
        ensures ok { OnOk result (self.new ≡ record self.old {
          files = self.old.files ++ record { name = name.now; bytes = bytes.now } ∷ [];
        }) }
        ensures err { OnErr result (self.new ≡ self.old) }
    {
        self.files.push(MemFile::new(alloc, name, bytes)?)?;
        Ok(())
    }

    /// How many calls there were.
    pub fn calls(&self) -> u64
        ensures { result ≡ self.now.calls }
    {
        self.calls
    }

    /// The count of faults, the same for every name.
    pub fn faults(&self) -> u64
        ensures { result ≡ self.now.faults }
    {
        self.faults
    }

    // The bytes that the call with this number finds under a name.
    fn found(&self, call: u64, name: &str) -> Option<&[u8]>
        ensures held { IfSome result (λ bytes. held_by self.now.files name.now ≡ Some bytes.now) }
        ensures missing { IsNone result
            ↔ (Contains self.now.failing call ⊎ IsNone (held_by self.now.files name.now)) }
    {
        if self.failing.contains(&call) {
            None
        } else {
            held_in(&self.files, name)
        }
    }
}

impl Files for MemFiles {
    ghost held = { λ files. held_by files.files };

    ghost faults = { λ files _. files.faults };

    fn read_all(&mut self, alloc: Global, name: &str, most: usize) -> Result<Vec<u8>, FileFault>
        ensures at_most { IfOk result (λ bytes. length bytes.items ≤ most) }
        ensures bytes { ReadsHeld (λ bytes. bytes.items) (held_by self.old.files name.now) most result }
        ensures same { (other : List ℕ)
            → held_by self.new.files other ≡ held_by self.old.files other }
        ensures cause { HasFileCause (λ _. self.old.faults) (λ _. self.new.faults) name.now result }

        // Files in memory fail at the calls that are to fail, and at names that are not held.
        ensures refused { result ≡ Err FileFault.Failed ↔ RefusesReading self.old name.now }
        ensures risen { result ≡ Err FileFault.Failed
            → self.new.faults ≡ risen self.old.faults }
        ensures numbered { self.new.calls ≡ risen self.old.calls }
        ensures same_files { self.new.files ≡ self.old.files }
        ensures same_failing { self.new.failing ≡ self.old.failing }
    {
        let call = self.calls;
        self.calls = call.saturating_add(1);
        match self.found(call, name) {
            Some(bytes) => copy_at_most(alloc, bytes, most),
            None => {
                self.faults = self.faults.saturating_add(1);
                Err(FileFault::Failed)
            }
        }
    }
}

/// Files in memory that never fail. A name that is not held gives an empty file.
#[derive(Debug, Drop)]
pub struct SureFiles {
    files: Vec<MemFile>,
}

impl Model for SureFiles {
    ghost use Rattle.std.specs.Prelude.{List};
    ghost use Rattle.outside.specs.Memory.{NamedFile};

    ghost Value = { List NamedFile };

    ghost view = { λ held. held.files.items };
}

impl SureFiles {
    /// No files.
    pub fn new(alloc: Global) -> SureFiles
        ensures { result ≡ [] }
    {
        SureFiles {
            files: Vec::new(alloc),
        }
    }

    /// Adds a file after those that are there.
    pub fn add(&mut self, alloc: Global, name: &str, bytes: &[u8]) -> Result<(), AllocError>
        ensures ok { OnOk result (self.new
            ≡ self.old ++ record { name = name.now; bytes = bytes.now } ∷ []) }
        ensures err { OnErr result (self.new ≡ self.old) }
    {
        self.files.push(MemFile::new(alloc, name, bytes)?)?;
        Ok(())
    }
}

impl Files for SureFiles {
    ghost use Rattle.std.specs.Prelude.{[], Some, unwrap_or};

    ghost held = { λ files name. Some (unwrap_or (held_by files name) []) };

    ghost faults = { λ _ _. 0 };

    fn read_all(&mut self, alloc: Global, name: &str, most: usize) -> Result<Vec<u8>, FileFault> {
        copy_at_most(alloc, held_in(&self.files, name).unwrap_or(&[]), most)
    }
}

/// A sink that keeps its bytes in a room of fixed size, and in which chosen calls fail.
///
/// Its calls are numbered from 0. A write of an empty piece has no number.
#[derive(Debug, Drop)]
pub struct MemSink {
    bytes: Vec<u8>,
    room: usize,
    failing: Vec<u64>,
    calls: u64,
    faults: u64,
}

impl Model for MemSink {
    ghost use Rattle.std.specs.Prelude.{◌≤◌, vec_len, vec_capacity};
    ghost use Rattle.outside.specs.Memory.{MemorySink};

    ghost Value = { MemorySink };

    ghost view = { λ sink. record { bytes = sink.bytes.items; room = sink.room; failing = sink.failing.items; calls = sink.calls; faults = sink.faults } };

    ghost invariant = { λ sink. (sink.room ≤ vec_capacity sink.bytes) × (vec_len sink.bytes ≤ sink.room) };
}

impl MemSink {
    /// An empty sink with room for `room` bytes, in which the calls with the numbers in `failing` fail.
    pub fn new(alloc: Global, room: usize, failing: &[u64]) -> Result<MemSink, AllocError>
        ensures { IfOk result (λ sink. sink
            ≡ record { bytes = []; room = room; failing = failing.now; calls = 0; faults = 0 }) }
    {
        Ok(MemSink {
            bytes: Vec::with_capacity(alloc, room)?,
            room,
            failing: Vec::from_slice(alloc, failing)?,
            calls: 0,
            faults: 0,
        })
    }

    /// The bytes that were written.
    pub fn bytes(&self) -> &[u8]
        ensures { result.now ≡ self.now.bytes }
    {
        &self.bytes
    }

    /// How many calls had a number.
    pub fn calls(&self) -> u64
        ensures { result ≡ self.now.calls }
    {
        self.calls
    }

    /// The count of faults.
    pub fn faults(&self) -> u64
        ensures { result ≡ self.now.faults }
    {
        self.faults
    }
}

impl Sink for MemSink {
    ghost use Rattle.std.specs.Prelude.{Some};

    ghost written = { λ sink. Some sink.bytes };

    ghost faults = { λ sink. sink.faults };

    fn write(&mut self, bytes: &[u8]) -> Result<usize, SinkFault>
        ensures taken { IfOk result (TakesSome bytes.now) }
        ensures empty { length bytes.now ≡ 0 → IsOk result }
        ensures bytes { WriteAppends (Some self.old.bytes) (Some self.new.bytes) result bytes.now }
        ensures cause { HasCause self.old.faults self.new.faults result }

        // A sink in memory takes as much as it has room for.
        ensures as_much { IfOk result (λ count. count ≡ min (length bytes.now) (room_left self.old)) }
        ensures refused { 0 < length bytes.now → (IsErr result ↔ RefusesWrite self.old) }
        ensures risen { OnErr result (self.new.faults ≡ risen self.old.faults) }
        ensures unnumbered { length bytes.now ≡ 0 → self.new.calls ≡ self.old.calls }
        ensures numbered { 0 < length bytes.now → self.new.calls ≡ risen self.old.calls }
        ensures same_room { self.new.room ≡ self.old.room }
        ensures same_failing { self.new.failing ≡ self.old.failing }
    {
        if bytes.is_empty() {
            return Ok(0);
        }
        let call = self.calls;
        self.calls = call.saturating_add(1);
        let room = self.room - self.bytes.len();
        if room == 0 || self.failing.contains(&call) {
            self.faults = self.faults.saturating_add(1);
            return Err(SinkFault::Failed);
        }
        let count = bytes.len().min(room);
        match self.bytes.extend_from_slice(&bytes[..count]) {
            Ok(()) => Ok(count),
            Err(_) => unreachable!(),
        }
    }
}

/// A sink that takes each piece whole and keeps nothing.
#[derive(Clone, Copy, Debug, Default)]
pub struct SureSink;

impl Sink for SureSink {
    ghost use Rattle.std.specs.Prelude.{None, Ok};

    ghost written = { λ _. None };

    ghost faults = { λ _. 0 };

    fn write(&mut self, bytes: &[u8]) -> Result<usize, SinkFault>
        ensures taken { IfOk result (TakesSome bytes.now) }
        ensures empty { length bytes.now ≡ 0 → IsOk result }
        ensures bytes { WriteAppends None None result bytes.now }
        ensures cause { HasCause 0 0 result }
        ensures whole { result ≡ Ok (length bytes.now) }
    {
        Ok(bytes.len())
    }
}

#[cfg(test)]
mod tests;
