ghost use Rattle.std.specs.Prelude.{◌≡◌, ◌∷◌, [], List, Some, Err, IfOk, codes, map, string_bytes};
ghost use Rattle.command_options.specs.Given.{GivenOption, IsRead, other_option, required_option, value_given};

use super::*;
use std::alloc::{AllocError, Global};
use std::test::Fail;

const RUN: [OptionRow<'static>; 10] = [
    OptionRow {
        name: "image",
        required: true,
    },
    OptionRow {
        name: "input",
        required: false,
    },
    OptionRow {
        name: "policy",
        required: false,
    },
    OptionRow {
        name: "cores",
        required: false,
    },
    OptionRow {
        name: "lane",
        required: false,
    },
    OptionRow {
        name: "quantum",
        required: false,
    },
    OptionRow {
        name: "budget",
        required: false,
    },
    OptionRow {
        name: "limit",
        required: false,
    },
    OptionRow {
        name: "stack",
        required: false,
    },
    OptionRow {
        name: "heap",
        required: false,
    },
];

// The image that words name, which they must.
fn image_of<'a>(alloc: Global, words: &'a [String]) -> Result<&'a str, WordsFault>
    ensures { let table = required_option (codes "image") ∷ other_option (codes "input")
        ∷ other_option (codes "policy") ∷ other_option (codes "cores") ∷ other_option (codes "lane")
        ∷ other_option (codes "quantum") ∷ other_option (codes "budget") ∷ other_option (codes "limit")
        ∷ other_option (codes "stack") ∷ other_option (codes "heap") ∷ [] in
        IfOk result (λ image. (given : List GivenOption) × IsRead table (map string_bytes words.entry.now) given
        × (value_given given (codes "image") ≡ Some image.now))
        × (result ≡ Err WordsFault.Other
        → (given : List GivenOption) → IsRead table (map string_bytes words.entry.now) given → ⊥) }
{
    let options = read_options(alloc, &RUN, words)?;
    match options.value("image") {
        Some(image) => Ok(image),
        None => unreachable!(),
    }
}

fn strings(alloc: Global, words: &[&str]) -> Result<Vec<String>, AllocError> {
    let mut strings = Vec::new(alloc);
    for word in words {
        strings.push(String::from_str(alloc, word)?)?;
    }
    Ok(strings)
}

#[test]
fn options_in_both_spellings(rt: HostRuntime) -> Result<(), Fail> {
    // The words, and the image, the policy and the heap that they give.
    let rows: [(&[&str], &str, Option<&str>, Option<&str>); 6] = [
        (&["--image", "a"], "a", None, None),
        (&["--image=a"], "a", None, None),
        (&["--heap", "4", "--image=a"], "a", None, Some("4")),
        (
            &["--policy=p", "--image", "a", "--heap=9"],
            "a",
            Some("p"),
            Some("9"),
        ),
        (&["--image=a=b"], "a=b", None, None),
        (
            &["--image", "a=b", "--policy", "p-"],
            "a=b",
            Some("p-"),
            None,
        ),
    ];
    for (words, image, policy, heap) in rows {
        let words = strings(rt.alloc(), words)?;
        let options = read_options(rt.alloc(), &RUN, words.as_slice())?;
        assert!(rt; options.value("image") == Some(image), "{words:?}");
        assert!(rt; options.value("policy") == policy, "{words:?}");
        assert!(rt; options.value("heap") == heap, "{words:?}");
        assert!(rt; options.value("other") == None, "{words:?}");
        assert!(rt;
            image_of(rt.alloc(), words.as_slice()) == Ok(image),
            "{words:?}"
        );
    }
    Ok(())
}

#[test]
fn words_that_are_refused(rt: HostRuntime) -> Result<(), Fail> {
    let rows: [&[&str]; 24] = [
        &[],
        &["--policy", "p"],
        &["--image", "a", "--other", "b"],
        &["--image", "a", "--imag=b"],
        &["--image", "a", "--image", "b"],
        &["--image=a", "--image", "a"],
        &["--image", "a", "--"],
        &["--", "--image", "a"],
        &["--image", "a", "b"],
        &["b", "--image", "a"],
        &["--image", ""],
        &["--image="],
        &["--image", "a", ""],
        &["--image", "-a"],
        &["--image=-a"],
        &["--image", "-"],
        &["--image", "--heap"],
        &["--heap", "4", "--image"],
        &["--image", "a", "--=b"],
        &["--image", "a", "-n"],
        &["-image", "a"],
        &["--image", "a", "--help"],
        &["--image", "a", "-h"],
        &["--image", "a", "--version"],
    ];
    for words in rows {
        let words = strings(rt.alloc(), words)?;
        let fault = read_options(rt.alloc(), &RUN, words.as_slice()).err();
        assert!(rt; fault == Some(WordsFault::Other), "{words:?}");
    }
    Ok(())
}

#[test]
fn numbers_in_a_range(rt: HostRuntime) -> Result<(), Fail> {
    // The text, the range, and the number.
    let rows: [(&str, u32, u32, Option<u32>); 17] = [
        ("0", 0, 9, Some(0)),
        ("0", 1, 9, None),
        ("1", 1, 9, Some(1)),
        ("9", 1, 9, Some(9)),
        ("10", 1, 9, None),
        ("10", 1, 4096, Some(10)),
        ("4294967295", 0, u32::MAX, Some(u32::MAX)),
        ("4294967296", 0, u32::MAX, None),
        ("", 0, 9, None),
        ("00", 0, 9, None),
        ("01", 0, 9, None),
        ("+5", 0, 9, None),
        ("-5", 0, 9, None),
        ("9 ", 0, 9, None),
        (" 9", 0, 9, None),
        ("0x9", 0, 9, None),
        ("x", 0, 9, None),
    ];
    for (text, low, high, want) in rows {
        assert!(rt; number_in(text, low, high) == want, "{text}");
    }
    Ok(())
}
