//! What a core is told at a meeting.

ghost use Rattle.std.specs.Prelude.{◌≡◌};
ghost use Rattle.tag_registers.specs.Tags.{packed, reply_of};
ghost use Rattle.tag_registers.specs.Files.{tags_in};

use crate::file::TagFile;
use record_lane::Reply;

impl TagFile {
    /// The tags of all registers: register r has the bits 4r to 4r + 3.
    pub fn tags(&self) -> u128
        ensures { result ≡ packed (tags_in self.now).registers }
    {
        let mut all = 0;
        for register in (0..32).rev() {
            all = all * 16 + u128::from(self.tag(register));
        }
        all
    }

    /// The reply at a meeting: the core stops where it has a trap.
    #[tactic(auto, unfolding(crate::specs::Tags::reply_of))]
    pub(crate) fn reply(&self) -> Reply
        ensures { result ≡ reply_of (tags_in self.now) }
    {
        Reply {
            stop: self.trap().is_some(),
            trap: self.trap(),
            tags: self.tags(),
            buffer: self.buffer(),
        }
    }
}
