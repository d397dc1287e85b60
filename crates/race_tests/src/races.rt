//! Guests whose cores race, and what their reports tell in every order.
use command_cases::{Case, echo, image_of, plain, try_case_at};
use guest_images::{COUNT, STORE_BUFFERING};
use outside::OpenGate;
use std::alloc::{AllocError, Global};
use std::str::from_utf8;
use std::test::Fail;

/// What a report tells of its units, its calls and its ends: its lines from each of these counts on.
#[derive(Clone, Copy)]
struct Sections<'a> {
    units: &'a str,
    calls: &'a str,
    ends: &'a str,
}

fn sections_of(report: &[u8]) -> Result<Sections<'_>, Fail> {
    let text = from_utf8(report)?;
    let (_, rest) = text.split_once("\nunits ").ok_or("no units")?;
    let (units, rest) = rest.split_once("\ncalls ").ok_or("no calls")?;
    let (calls, rest) = rest.split_once("\ntraps ").ok_or("no traps")?;
    let (_, ends) = rest.split_once("\nends ").ok_or("no ends")?;
    Ok(Sections { units, calls, ends })
}

/// An access to a word: its core, and its number with what it found.
#[derive(Clone, Copy)]
struct Access<'a> {
    core: &'a str,
    found: &'a str,
}

impl<'a> Sections<'a> {
    /// The accesses to a word, in their order.
    fn accesses(&self, alloc: Global, word: &str) -> Result<Vec<Access<'a>>, AllocError> {
        let mut accesses = Vec::new(alloc);
        for line in self.units.lines().skip(1) {
            if let Some((core, access)) = line.split_once(' ')
                && let Some((number, found)) = access.split_once(' ')
                && number == word
            {
                accesses.push(Access { core, found })?;
            }
        }
        Ok(accesses)
    }

    /// How many units a core has.
    fn units_of(&self, core: &str) -> usize {
        let mut units: usize = 0;
        for line in self.units.lines().skip(1) {
            let own = match line.split_once(' ') {
                Some((own, _)) => own,
                None => line,
            };
            if own == core {
                units = units.saturating_add(1);
            }
        }
        units
    }

    /// Whether a core has one note of bytes that go out, and it ends so.
    fn has_sink(&self, core: &str, ending: &str) -> bool {
        let mut sinks: usize = 0;
        let mut ends = false;
        for line in self.calls.lines().skip(1) {
            if let Some((own, note)) = line.split_once(' ')
                && own == core
                && note.contains(" sink ")
            {
                sinks = sinks.saturating_add(1);
                ends = note.ends_with(ending);
            }
        }
        sinks == 1 && ends
    }
}

/// Whether a core exits with 1, the other with 0 or 1.
pub(super) fn a_store_was_found(report: &[u8]) -> Result<bool, Fail> {
    let ends = sections_of(report)?.ends;
    Ok(
        ends == "2\n0 exit 0\n1 exit 1\nend\n"
            || ends == "2\n0 exit 1\n1 exit 0\nend\n"
            || ends == "2\n0 exit 1\n1 exit 1\nend\n",
    )
}

/// How a report ends where both cores exit with 0.
const BOTH_FINE: &[u8] = b"traps 0\nends 2\n0 exit 0\n1 exit 0\nend\n";

#[test]
fn one_of_two_cores_echoes_the_whole_input(rt: HostRuntime) -> Result<(), Fail> {
    let alloc = rt.alloc();
    let echo = echo(alloc, 0)?;
    for (lane, quantum) in [("64", "64"), ("1", "1"), ("2", "3")] {
        let options = [
            "--cores",
            "2",
            "--input",
            "input",
            "--lane",
            lane,
            "--quantum",
            quantum,
        ];
        let case = Case {
            options: &options,
            input: b"hello\n",
            head: b"cores 2\nbudget 1048576\nlimit 4294967280\nstack 16\nheap 256\nunits 42\n",
            ..plain("echo", &echo, 0, b"hello\n", BOTH_FINE)
        };
        let around = try_case_at(&rt, alloc, &case, &OpenGate)?;
        let sections = sections_of(around.report.bytes())?;
        let claims = sections.accesses(alloc, "0")?;
        let claim = claims.first().ok_or("no claim")?;
        let other = if claim.core == "0" { "1" } else { "0" };
        assert!(rt; claim.found == "0 00000000");
        assert!(rt; sections.units_of(claim.core) == 24);
        assert!(rt; sections.units_of(other) == 18);
        assert!(rt; sections.has_sink(claim.core, " 1 go"));
    }
    Ok(())
}

#[test]
fn cores_without_input_claim_nothing(rt: HostRuntime) -> Result<(), Fail> {
    let alloc = rt.alloc();
    let echo = echo(alloc, 0)?;
    let case = Case {
        options: &["--cores", "2"],
        head: b"cores 2\nbudget 1048576\nlimit 4294967280\nstack 16\nheap 256\nunits 36\n",
        ..plain("echo of nothing", &echo, 0, b"", BOTH_FINE)
    };
    let around = try_case_at(&rt, alloc, &case, &OpenGate)?;
    let claims = sections_of(around.report.bytes())?.accesses(alloc, "0")?;
    assert!(rt; claims.len() == 2);
    assert!(rt; claims[0].found == "0 00000000");
    assert!(rt; claims[1].found == "1 00000000");
    Ok(())
}

#[test]
fn two_stores_are_not_both_too_late(rt: HostRuntime) -> Result<(), Fail> {
    let alloc = rt.alloc();
    let image = image_of(alloc, &STORE_BUFFERING)?;
    for lane in ["1", "2", "64", "4096"] {
        let options = ["--cores", "2", "--lane", lane];
        let case = Case {
            options: &options,
            ..plain("store buffering", &image, 1, b"", b"end\n")
        };
        let around = try_case_at(&rt, alloc, &case, &OpenGate)?;
        assert!(rt; a_store_was_found(around.report.bytes())?);
    }
    Ok(())
}

/// Whether an access has this number, and found the same.
fn is_numbered(alloc: Global, found: &str, number: u32) -> Result<bool, Fail> {
    let numbered = format!(in alloc; "{number} {number:08x}")?;
    Ok(found == numbered.as_str())
}

#[test]
fn each_access_to_a_shared_word_has_the_next_number(rt: HostRuntime) -> Result<(), Fail> {
    let alloc = rt.alloc();
    let count = image_of(alloc, &COUNT)?;
    let case = Case {
        options: &["--cores", "8"],
        head: b"cores 8\nbudget 1048576\nlimit 4294967280\nstack 16\nheap 256\nunits 24048\n",
        ..plain("count", &count, 0, b"", b"6 exit 0\n7 exit 0\nend\n")
    };
    let around = try_case_at(&rt, alloc, &case, &OpenGate)?;
    let mut next: u32 = 0;
    for access in sections_of(around.report.bytes())?.accesses(alloc, "1027")? {
        assert!(rt; is_numbered(alloc, access.found, next)?);
        next = next.wrapping_add(1);
    }
    assert!(rt; next == 8000);
    Ok(())
}

#[test]
fn both_cores_find_a_spent_word(rt: HostRuntime) -> Result<(), Fail> {
    let alloc = rt.alloc();
    let count = image_of(alloc, &COUNT)?;
    let case = Case {
        options: &["--cores", "2", "--limit", "1"],
        head: b"cores 2\nbudget 1048576\nlimit 1\nstack 16\nheap 256\nunits 11\n",
        ..plain(
            "spent",
            &count,
            5,
            b"",
            b"calls 0\ntraps 0\nends 2\n0 spent\n1 spent\nend\n",
        )
    };
    let around = try_case_at(&rt, alloc, &case, &OpenGate)?;
    let accesses = sections_of(around.report.bytes())?.accesses(alloc, "1027")?;
    assert!(rt; accesses.len() == 3);
    assert!(rt; accesses[0].found == "0 00000000");
    assert!(rt; accesses[1].found == "1 00000001");
    assert!(rt; accesses[2].found == "2 00000001");
    assert!(rt; accesses[1].core != accesses[2].core);
    Ok(())
}
