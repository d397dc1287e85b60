//! Policy texts: what is read, and each fault.

use std::alloc::Global;
use tag_policy::{Kinds, Mode, Policy, PolicyFault, PolicyKind, Rules, Version, read_policy};

/// Texts with the name of their fault, and the table and the key that it is about.
static DAMAGED: [(&str, &str, u32, u8); 19] = [
    ("", "MissingKey", 0, 1),
    ("version", "Text", 0, 0),
    ("version = 1\npolicy = []\nextra = 1", "UnknownKey", 0, 0),
    ("version = \"1\"", "WrongKind", 0, 1),
    ("version = 3", "BadValue", 0, 1),
    ("version = 1", "MissingKey", 0, 2),
    ("version = 1\npolicy = 3", "WrongKind", 0, 2),
    ("version = 1\npolicy = [1]", "WrongKind", 1, 0),
    ("version = 1\npolicy = [{sourc = true}]", "UnknownKey", 1, 0),
    ("version = 1\npolicy = [{}]", "MissingKey", 1, 1),
    ("version = 1\npolicy = [{source = 1}]", "WrongKind", 1, 1),
    (SINK_WORD, "WrongKind", 1, 17),
    (XOR, "BadValue", 1, 2),
    (FIVE_TABLES, "TooMany", 0, 2),
    (SECOND_TABLE, "WrongKind", 2, 2),
    ("policy = [1]", "MissingKey", 0, 1),
    ("version = 2\npolicy = [1, 1, 1, 1, 1]", "TooMany", 0, 2),
    ("version = true\npolicy = 3", "WrongKind", 0, 1),
    ("version = 4294967297\npolicy = []", "BadValue", 0, 1),
];

const SINK_WORD: &str = "version = 1\npolicy = [{source = true, check_sink = \"x\"}]";

const XOR: &str = "version = 1\n[[policy]]\nsource = true\narith = \"xor\"\n";

const FIVE_TABLES: &str = "version = 1\npolicy = [{}, {}, {}, {}, {}]";

const SECOND_TABLE: &str =
    "version = 1\npolicy = [{source = true}, {source = true, arith = 1, logic = \"xor\"}]";

const STANDARD: &str =
    "version = 1\n[[policy]]\nsource = true\ncheck_jump = true\ncheck_call_number = true\n";

const BYTES: &str =
    "version = 2\n[[policy]]\nsource = true\narith = \"none\"\n[[policy]]\nsource = false\nlogic = \"and\"\ncheck_sink = true\n";

/// The name of the fault of a text, and the table and the key that it is about.
fn fault_of(alloc: Global, text: &[u8]) -> Option<(&'static str, u32, u8)> {
    match read_policy(alloc, text) {
        Err(PolicyFault::Bad { kind, table, key }) => Some((kind.name(), table, key)),
        _ => None,
    }
}

#[test]
fn each_damaged_text_has_its_fault(rt: HostRuntime) {
    for &(text, name, table, key) in &DAMAGED {
        assert!(rt; fault_of(rt.alloc(), text.as_bytes()) == Some((name, table, key)));
    }
    assert!(rt; fault_of(rt.alloc(), &[255]) == Some(("Text", 0, 0)));
    assert!(rt; PolicyKind::TooMany.number() == 5);
}

#[test]
fn texts_are_read(rt: HostRuntime) {
    let standard = read_policy(rt.alloc(), STANDARD.as_bytes());
    assert!(rt; standard == Ok(Policy::standard()));
    let none = read_policy(rt.alloc(), b"version = 1\npolicy = []");
    assert!(rt; none == Ok(Policy::empty(Version::WordTags)));
    let bytes = read_policy(rt.alloc(), BYTES.as_bytes());
    let clear = Rules {
        source: true,
        arith: Mode::Clear,
        ..Rules::DEFAULT
    };
    let sink = Rules {
        logic: Mode::And,
        check_sink: true,
        ..Rules::DEFAULT
    };
    let expected = Policy::empty(Version::ByteTags).with(clear).with(sink);
    assert!(rt; bytes == Ok(expected));
}

#[test]
fn what_a_policy_answers(rt: HostRuntime) {
    let policy = Policy::standard();
    assert!(rt; (policy.version(), policy.count(), policy.source()) == (1, 1, 1));
    assert!(rt; policy.result(rv_decode::Class::Arith, 1, 0) == 1);
    assert!(rt; (policy.loaded(1, 0), policy.loaded(0, 1)) == (1, 0));
    assert!(rt; (policy.stored(3, 0), policy.stored(0, 1)) == (1, 0));
    assert!(rt; (policy.check(1, 15), policy.check(2, 15)) == (1, 0));
    assert!(rt; policy.tag_of(5, 15) == 5);
    assert!(rt; policy.spread(5, 2) == (15, 5));
    assert!(rt; policy.checks(0) == Kinds::JUMP | Kinds::CALL_NUMBER);
    let bytes = Policy::empty(Version::ByteTags);
    assert!(rt; (bytes.version(), bytes.tag_of(0x4321, 6)) == (2, 3));
    assert!(rt; bytes.spread(5, 6) == (0x0ff0, 0x0550));
}
