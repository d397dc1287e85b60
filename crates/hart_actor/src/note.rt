//! The note of a meeting.
ghost use Rattle.std.specs.Prelude.{◌≡◌, ◌<◌, ◌++◌, length};
ghost use Rattle.actor_lists.specs.Walked.{note_of};

use record_lane::{CallNote, Notes, Record, Reply};

/// Keeps the note of a meeting with this record, which had this reply.
pub(crate) fn push_note(notes: &mut Notes, item: Record, reply: Reply)
    requires { length notes.old.items < notes.old.room }
    ensures { notes.new ≡ record notes.old { items = notes.old.items ++ note_of item reply } }
{
    if let Record::Meet {
        step,
        pc,
        call,
        kind,
    } = item
    {
        notes.push(CallNote {
            step,
            pc,
            call,
            kind,
            tags: reply.tags,
            buffer: reply.buffer,
            stop: reply.stop,
        });
    }
}
