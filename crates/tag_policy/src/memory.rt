//! The tags of a memory word in the two versions of policies.

ghost use Rattle.std.specs.Prelude.{◌≡◌, ◌<◌, ◌&&◌, if◌then◌else◌};
ghost use Rattle.rv_decode.specs.Four.{bit_of};
ghost use Rattle.tag_policy.specs.declared.rules.Version.TheVariants.{ByteTags};
ghost use Rattle.tag_policy.specs.Memory.{byte_tag, found_tag, joins, spread, spread_mask};
ghost use Rattle.tag_policy.specs.Policies.{policy_in};

use crate::policy::Policy;
use crate::rules::{Change, Version};

impl Policy {
    /// The tag that an access to these bytes finds in this tag word.
    pub fn tag_of(&self, word: u32, bytes: u8) -> u8
        requires { bytes < 16 }
        ensures value { result ≡ found_tag (policy_in self.now).version word bytes }
        ensures small { result < 16 }
    {
        match self.kept_version() {
            Version::WordTags => (word % 16) as u8,
            Version::ByteTags => any_tag(word, bytes),
        }
    }

    /// The touched bits of a tag word, as a mask, and this tag laid at each of the touched bytes.
    pub fn spread(&self, tag: u8, bytes: u8) -> (u32, u32)
        requires tag { tag < 16 }
        requires bytes { bytes < 16 }
        ensures mask { result.0 ≡ spread_mask (policy_in self.now).version bytes }
        ensures value { result.1 ≡ spread (policy_in self.now).version tag bytes }
    {
        match self.kept_version() {
            Version::WordTags => (15, u32::from(tag)),
            Version::ByteTags => (laid(15, bytes), laid(tag, bytes)),
        }
    }

    /// Whether a change of these bytes leaves the old tag beside the new.
    pub fn joins(&self, change: Change, bytes: u8) -> bool
        requires { bytes < 16 }
        ensures { result ≡ joins (policy_in self.now).version change bytes }
    {
        match (change, self.kept_version()) {
            (Change::Join, _) => true,
            (Change::Replace, Version::WordTags) => bytes != 15,
            (Change::Replace, Version::ByteTags) => false,
        }
    }
}

fn any_tag(word: u32, bytes: u8) -> u8
    ensures value { result ≡ found_tag ByteTags word bytes }
    ensures small { result < 16 }
{
    byte_found(word, bytes, 0)
        | byte_found(word, bytes, 1)
        | byte_found(word, bytes, 2)
        | byte_found(word, bytes, 3)
}

fn byte_found(word: u32, bytes: u8, place: u32) -> u8
    requires { place < 4 }
    ensures value { result ≡ (if bit_of bytes place then byte_tag word place else 0) }
    ensures small { result < 16 }
{
    if touches(bytes, place) {
        tag_at(word, place)
    } else {
        0
    }
}

/// This tag at each of the bytes.
fn laid(tag: u8, bytes: u8) -> u32
    requires { tag < 16 }
    ensures { result ≡ spread ByteTags tag bytes }
{
    tag_if(tag, touches(bytes, 0))
        + 16 * tag_if(tag, touches(bytes, 1))
        + 256 * tag_if(tag, touches(bytes, 2))
        + 4096 * tag_if(tag, touches(bytes, 3))
}

fn tag_if(tag: u8, touched: bool) -> u32
    requires { tag < 16 }
    ensures value { result ≡ (if touched then tag else 0) }
    ensures small { result < 16 }
{
    if touched { u32::from(tag) } else { 0 }
}

fn tag_at(word: u32, place: u32) -> u8
    requires { place < 4 }
    ensures value { result ≡ byte_tag word place }
    ensures small { result < 16 }
{
    let shifted = match place {
        0 => word,
        1 => word >> 4,
        2 => word >> 8,
        _ => word >> 12,
    };
    (shifted % 16) as u8
}

/// Whether the set of bytes has this one.
fn touches(bytes: u8, place: u32) -> bool
    requires { place < 4 }
    ensures { result ≡ bit_of bytes place }
{
    (bytes >> place) % 2 == 1
}
