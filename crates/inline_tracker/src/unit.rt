//! One unit of one core.
ghost use Rattle.std.specs.Prelude.{◌≡◌, ℕ, ◌<◌, ◌≤◌, [], ◌∷◌, ◌++◌, length, Some, None, true, IfSome, OnSome, option_to_list};
ghost use Rattle.elf_image.specs.Layout.{words_of};
ghost use Rattle.record_lane.specs.Sound.{IsSoundRecord};
ghost use Rattle.tag_policy.specs.Memory.{tags_below};
ghost use Rattle.tag_policy.specs.Policies.{policy_in};
ghost use Rattle.tag_registers.specs.Tags.{tags_after, word_tag};
ghost use Rattle.tag_registers.specs.Files.{tags_in, is_touch};
ghost use Rattle.syscall_drain.specs.declared.ask.CoreAsk.TheVariants.{Quiet as AsksNothing, Touch as Touches, Meet as Meets};
ghost use Rattle.syscall_drain.specs.declared.ask.Answer.TheVariants.{Taken as Took};
ghost use Rattle.syscall_drain.specs.Units.{FitsAsk, placed, taken_of};
ghost use Rattle.syscall_drain.specs.Records.{unit_record, IsStill};
ghost use Rattle.syscall_drain.specs.Sound.{IsSound};
ghost use Rattle.syscall_drain.specs.Pieces.{PlacesBytes};
ghost use Rattle.syscall_drain.specs.Seen.{IsNextUnit, HasSpent, item_made, budget_of};
ghost use Rattle.machine.specs.Setups.{IsSetup};
ghost use Rattle.machine.specs.States.{Word};
ghost use Rattle.machine.specs.Steps.{quiet, took, left, found_in};
ghost use Rattle.inline_tracker.specs.Cells.{cell_at};
ghost use Rattle.inline_tracker.specs.Seats.{local_in, core_in, IsSeated, Holds, IsOpen, SameButSpent, SameButClosed, note_by, noted};

use crate::finished::CoreOutcome;
use crate::memory::Cell;
use crate::seat::Seat;
use crate::setup::Setup;
use machine::limits::MOST_UNITS;
use order_core::{Access, Entry};
use record_lane::{CallNote, Notes, Record, Reply};
use rv_execute::{MOST_NUMBERS, Op};
use syscall_drain::{Answer, Guest, Made, NextUnit};
use tag_policy::Policy;
use tag_registers::{TagAsk, TagFile};

/// The entry of a unit without an access.
const NO_ACCESS: Entry = Entry { touch: None };

/// Spends a unit that was given this answer.
fn take_answer(seat: &mut Seat, guest: &Guest, unit: NextUnit, given: Answer, entry: Entry) -> Made
    requires unit { IsNextUnit guest.now (local_in seat.old) unit }
    requires asked { FitsAsk unit.ask given }
    requires numbered { (taken_of given).number < MOST_NUMBERS }
    requires room { length seat.old.log.items < seat.old.log.room }
    ensures spent { HasSpent guest.now seat.old.state seat.new.state given }
    ensures same { SameButSpent seat.old seat.new entry }
    ensures item { result.item ≡ item_made unit.ask (unit_record guest.now (local_in seat.old) given) }
    ensures sound { (top : ℕ) → (taken_of given).number < top → IfSome result.item (IsSoundRecord (words_of guest.now.layout) top) }
    ensures placed { result.placed ≡ placed guest.now (local_in seat.old) given }
    ensures output { PlacesBytes guest.now (local_in seat.old) (local_in seat.new) result.placed }
{
    seat.log.push(entry);
    seat.state.answer(guest, unit, given)
}

/// Puts the notes of a core that has ended into its outcome.
fn close(seat: &mut Seat)
    requires { IsOpen (budget_of seat.old.state) seat.old.notes seat.old.outcome }
    ensures same { SameButClosed seat.old seat.new }
    ensures holds { Holds (budget_of seat.new.state) (local_in seat.new).units (tags_in seat.new.tags).trap (local_in seat.new).ending seat.new.notes seat.new.outcome }
{
    if let Some(end) = seat.state.end() {
        if let Some(notes) = seat.notes.take() {
            seat.outcome = Some(CoreOutcome {
                end,
                units: seat.state.units(),
                trap: seat.tags.trap(),
                notes,
            });
        }
    }
}

/// Gives the record of a unit without an access to the tags.
fn keep_tags(tags: &mut TagFile, policy: &Policy, item: Option<Record>)
    requires still { IfSome item IsStill }
    requires sound { IfSome item (IsSoundRecord 4294967295 4294967295) }
    ensures { IfSome item (λ told. tags_in tags.new ≡ tags_after (policy_in policy.now) (tags_in tags.old) told 0) }
{
    if let Some(item) = item {
        tags.consume(policy, &item);
    }
}

/// A unit that asks for nothing.
pub(crate) fn quiet(seat: &mut Seat, setup: &Setup, unit: NextUnit)
    requires seated { IsSeated setup.now.budget seat.old }
    requires room { (local_in seat.old).units < setup.now.budget }
    requires ranges { IsSetup setup.now }
    requires unit { IsNextUnit setup.now.program (local_in seat.old) unit }
    requires asked { unit.ask ≡ AsksNothing }
    requires sound { IsSound (local_in seat.old) }
    ensures core { core_in seat.new ≡ quiet setup.now (core_in seat.old) }
    ensures log { seat.new.log.items ≡ seat.old.log.items ++ record { touch = None } ∷ [] }
    ensures seated { IsSeated setup.now.budget seat.new }
{
    let made = take_answer(seat, setup.guest(), unit, Answer::Nothing, NO_ACCESS);
    keep_tags(&mut seat.tags, setup.policy(), made.item);
    close(seat);
}

/// The note of a meeting with this reply.
fn note_of(item: Record, reply: Reply) -> Option<CallNote>
    ensures { option_to_list result ≡ note_by item reply }
{
    match item {
        Record::Meet {
            step,
            pc,
            call,
            kind,
        } => Some(CallNote {
            step,
            pc,
            call,
            kind,
            tags: reply.tags,
            buffer: reply.buffer,
            stop: reply.stop,
        }),
        _ => None,
    }
}

/// Keeps the note of a meeting.
fn keep_note(notes: &mut Option<Notes>, note: Option<CallNote>)
    requires { IfSome notes.old (λ kept. length kept.items < kept.room) }
    ensures { notes.new ≡ noted notes.old note }
{
    if let Some(notes) = notes {
        if let Some(note) = note {
            notes.push(note);
        }
    }
}

/// A meeting: its core is told the tags after it, and stops where it has a trap.
pub(crate) fn meet(seat: &mut Seat, setup: &Setup, unit: NextUnit, item: Record)
    requires seated { IsSeated setup.now.budget seat.old }
    requires room { (local_in seat.old).units < setup.now.budget }
    requires unit { IsNextUnit setup.now.program (local_in seat.old) unit }
    requires asked { unit.ask ≡ Meets item }
    requires sound { IsSound (local_in seat.old) }
    requires notes { IfSome seat.old.notes (λ kept. length kept.items < kept.room) }
    ensures core { core_in seat.new ≡ quiet setup.now (core_in seat.old) }
    ensures log { seat.new.log.items ≡ seat.old.log.items ++ record { touch = None } ∷ [] }
    ensures seated { IsSeated setup.now.budget seat.new }
{
    let TagAsk::Answer(reply) = seat.tags.consume(setup.policy(), &item) else {
        unreachable!()
    };
    let note = note_of(item, reply);
    keep_note(&mut seat.notes, note);
    take_answer(seat, setup.guest(), unit, Answer::Reply(reply), NO_ACCESS);
    close(seat);
}

/// Does on the tag word of a word what its unit asks, and gives the tags what it found.
fn follow_record(tags: &mut TagFile, cell: &mut Cell, policy: &Policy, item: &Record)
    requires sound { IsSoundRecord 4294967295 4294967295 item.now }
    requires touch { is_touch item.now ≡ true }
    requires range { cell.old.tag < tags_below (policy_in policy.now).version }
    ensures tags { tags_in tags.new ≡ tags_after (policy_in policy.now) (tags_in tags.old) item.now cell.old.tag }
    ensures cell { cell.new ≡ record cell.old { tag = word_tag (policy_in policy.now) (tags_in tags.old) item.now cell.old.tag } }
{
    if let TagAsk::Serve { number, op, .. } = tags.consume(policy, item) {
        let old = cell.serve(op, number);
        tags.consume_answer(policy, item, old);
    }
}

/// Does so with what the unit handed over.
fn follow(tags: &mut TagFile, cell: &mut Cell, policy: &Policy, item: Option<Record>)
    requires sound { IfSome item (IsSoundRecord 4294967295 4294967295) }
    requires touch { IfSome item (λ told. is_touch told ≡ true) }
    requires range { cell.old.tag < tags_below (policy_in policy.now).version }
    ensures tags { IfSome item (λ told. tags_in tags.new ≡ tags_after (policy_in policy.now) (tags_in tags.old) told cell.old.tag) }
    ensures cell { IfSome item (λ told. cell.new ≡ record cell.old { tag = word_tag (policy_in policy.now) (tags_in tags.old) told cell.old.tag }) }
{
    if let Some(item) = item {
        follow_record(tags, cell, policy, &item);
    }
}

/// A unit with an access to this word, which has this cell. Gives the place in the output that it claimed.
pub(crate) fn take(
    seat: &mut Seat,
    cell: &mut Cell,
    setup: &Setup,
    unit: NextUnit,
    word: u32,
    op: Op,
) -> Option<u32>
    requires seated { IsSeated setup.now.budget seat.old }
    requires room { (local_in seat.old).units < setup.now.budget }
    requires unit { IsNextUnit setup.now.program (local_in seat.old) unit }
    requires asked { unit.ask ≡ Touches word op }
    requires sound { IsSound (local_in seat.old) }
    requires few { cell.old.count ≤ MOST_UNITS }
    requires range { cell.old.tag < tags_below setup.now.policy.version }
    ensures core { (w : Word) → cell_at w ≡ cell.old → core_in seat.new ≡ took setup.now (core_in seat.old) w }
    ensures cell { (w : Word) → cell_at w ≡ cell.old → cell.new ≡ cell_at (left setup.now (core_in seat.old) w) }
    ensures log { seat.new.log.items ≡ seat.old.log.items
        ++ record { touch = Some (record { word = word; number = cell.old.count; found = cell.old.payload }) } ∷ [] }
    ensures seated { IsSeated setup.now.budget seat.new }
    ensures placed { (w : Word) → cell_at w ≡ cell.old → result ≡ placed setup.now.program (local_in seat.old) (Took (found_in setup.now w)) }
    ensures kept { OnSome result ((local_in seat.new).gathered ≡ (local_in seat.old).gathered) }
{
    let taken = cell.access(op, setup.limit());
    let entry = Entry {
        touch: Some(Access {
            word,
            number: taken.number,
            found: taken.old,
        }),
    };
    let made = take_answer(seat, setup.guest(), unit, Answer::Taken(taken), entry);
    follow(&mut seat.tags, cell, setup.policy(), made.item);
    close(seat);
    made.placed
}
