//! The tags of one core.

ghost use Rattle.std.specs.Prelude.{◌<◌, All};

use record_lane::Trap;

/// The tags of one core's registers and of its call buffer, and its first trap.
#[derive(Clone, Copy, Debug, PartialEq, Eq)]
pub struct TagFile {
    tags: [u8; 32],
    buffer: u8,
    trap: Option<Trap>,
    ghost small: { All (λ tag. tag < 16) tags },
    ghost low: { buffer < 16 },
}

impl TagFile {
    ghost use Rattle.std.specs.Prelude.{◌≡◌, ◌<◌, Some, slice_index};
    ghost use Rattle.tag_policy.specs.Memory.{joined};
    ghost use Rattle.tag_registers.specs.Tags.{no_tags, tagged, kept_trap};
    ghost use Rattle.tag_registers.specs.Files.{tags_in};

    /// The tags of a core at its start: none, and no trap.
    pub fn create() -> TagFile
        ensures { tags_in result ≡ no_tags }
    {
        TagFile {
            tags: [0; 32],
            buffer: 0,
            trap: None,
        }
    }

    /// The tag of the call buffer.
    pub fn buffer(&self) -> u8
        ensures value { result ≡ (tags_in self.now).buffer }
        ensures small { result < 16 }
    {
        self.buffer
    }

    /// The first check that fired.
    pub fn trap(&self) -> Option<Trap>
        ensures { result ≡ (tags_in self.now).trap }
    {
        self.trap
    }

    /// The tag of a register.
    pub(crate) fn tag(&self, register: u8) -> u8
        requires { register < 32 }
        ensures value { result ≡ slice_index (tags_in self.now).registers register }
        ensures small { result < 16 }
    {
        self.tags[register as usize]
    }

    /// Tags a register, but for x0.
    pub(crate) fn set(&mut self, register: u8, tag: u8)
        requires register { register < 32 }
        requires tag { tag < 16 }
        ensures { tags_in self.new ≡ record (tags_in self.old) { registers = tagged register tag (tags_in self.old).registers } }
    {
        if register != 0 {
            self.tags[register as usize] = tag;
        }
    }

    /// Keeps a trap where it is the first.
    pub(crate) fn keep_trap(&mut self, trap: Trap)
        ensures { tags_in self.new ≡ record (tags_in self.old) { trap = kept_trap (tags_in self.old).trap (Some trap) } }
    {
        if self.trap.is_none() {
            self.trap = Some(trap);
        }
    }

    /// Takes the tags of this file again, and keeps the trap.
    pub(crate) fn restore_tags(&mut self, before: TagFile)
        ensures { tags_in self.new ≡ record (tags_in before) { trap = (tags_in self.old).trap } }
    {
        let trap = self.trap;
        *self = before;
        self.trap = trap;
    }

    /// Clears the tag of the call buffer.
    pub(crate) fn clear_buffer(&mut self)
        ensures { tags_in self.new ≡ record (tags_in self.old) { buffer = 0 } }
    {
        self.buffer = 0;
    }

    /// Joins this tag to that of the call buffer.
    #[tactic(auto, using(tag_policy::proofs::Words::joined_is_or, tag_policy::proofs::Words::or_below))]
    pub(crate) fn join_buffer(&mut self, found: u8)
        requires { found < 16 }
        ensures { tags_in self.new ≡ record (tags_in self.old) { buffer = joined (tags_in self.old).buffer found } }
    {
        self.buffer |= found;
    }
}
