//! One change of a word: drawn, or served at its number.

ghost use Rattle.std.specs.Prelude.{◌≡◌, ◌≢◌, ℕ, ◌+◌, ◌<◌, ◌≤◌, false, length};
ghost use Rattle.atomic_table.specs.Table.{Me};
ghost use Rattle.rv_execute.specs.declared.op.Op.TheVariants.{Read};
ghost use Rattle.ticket_table.specs.declared.change.Role.TheVariants.{Draw, Serve};
ghost use Rattle.ticket_table.specs.History.{left_by, has_spent, made, Follows};
ghost use Rattle.ticket_table.specs.Words.{number_of};
ghost use Rattle.ticket_table.specs.Views.{IsAlone, grown, grown_at, looked_at, first_caller};
ghost use Rattle.ticket_table.specs.Passes.{IfDone, IfNotYet};

use crate::change::{Note, Setting, View};
use crate::rule::{Counts, Exchanges, Looks, Tickets};
use crate::served::Served;
use crate::word::{HALF, number, packed, payload};
use atomic_table::{Seat, Shared};
use rv_execute::{MOST_NUMBERS, Op, apply};

type Words = Shared<Note, View, Setting, Tickets>;

type Place = Seat<Note, View>;

/// What a drawn change leaves.
fn left(op: Op, number: u32, old: u32, limit: u32) -> u32
    ensures { result ≡ left_by Draw limit op number old }
{
    if number < limit {
        apply(op, number, old)
    } else {
        old
    }
}

/// Draws the word's next number for a look at it, by one step, and gives the number with the payload found.
fn look(shared: &Words, seat: &mut Place, word: u32) -> (u32, u32)
    requires place { (seat.old.table_id ≡ shared.now.table_id) × (word < shared.now.table_id.words) × (word < length shared.now.key.first.items) }
    requires alone { IsAlone seat.old.me.0 (first_caller seat.old.me.0) }
    requires terms { (seat.old.me.0.terms.role ≡ Draw) × (seat.old.me.0.terms.limit + seat.old.me.0.terms.callers ≤ MOST_NUMBERS) }
    requires unspent { has_spent seat.old.me.0.terms.role seat.old.me.0.terms.limit seat.old.me.0.mine ≡ false }
    ensures seat { (seat.new.table_id ≡ seat.old.table_id) × (seat.new.me ≡ (grown seat.old.me.0 (made seat.old.me.0.terms (first_caller seat.old.me.0) word result.0 Read result.1), seat.old.me.1)) }
    ensures follows { Follows seat.old.me.0.mine (made seat.old.me.0.terms (first_caller seat.old.me.0) word result.0 Read result.1) }
    ensures below { result.0 < seat.old.me.0.terms.limit + seat.old.me.0.terms.callers }
{
    let found = shared.fetch_add::<Counts>(seat, word as usize, HALF);
    (number(found), payload(found))
}

/// Draws the word's next number and changes the word, and gives the number with the payload found.
fn exchange(shared: &Words, seat: &mut Place, word: u32, limit: u32, note: &Note) -> (u32, u32)
    requires place { (seat.old.table_id ≡ shared.now.table_id) × (word < shared.now.table_id.words) × (word < length shared.now.key.first.items) }
    requires alone { IsAlone seat.old.me.0 note.now.caller }
    requires terms { (seat.old.me.0.terms.role ≡ Draw) × (seat.old.me.0.terms.limit ≡ limit) × (limit + seat.old.me.0.terms.callers ≤ MOST_NUMBERS) }
    requires unspent { has_spent seat.old.me.0.terms.role seat.old.me.0.terms.limit seat.old.me.0.mine ≡ false }
    ensures seat { (seat.new.table_id ≡ seat.old.table_id) × (seat.new.me ≡ (grown_at seat.new.me.0.steps seat.old.me.0 (made seat.old.me.0.terms note.now.caller word result.0 note.now.op result.1), seat.old.me.1)) }
    ensures follows { Follows seat.old.me.0.mine (made seat.old.me.0.terms note.now.caller word result.0 note.now.op result.1) }
    ensures below { result.0 < limit + seat.old.me.0.terms.callers }
    ensures steps { seat.old.me.0.steps < seat.new.me.0.steps }
{
    let mut seen = shared.load::<Looks>(seat, word as usize);
    'tries: loop {
        let next = number(seen);
        let old = payload(seen);
        let new = left(note.op, next, old, limit);
        let found = shared.compare_exchange_with::<Exchanges>(
            seat,
            word as usize,
            seen,
            packed(next + 1, new),
            note,
        );
        if found == seen {
            return (next, old);
        }
        seen = found;
    }
}

/// Draws the word's next number for the operation, and gives it with the payload found. A read needs no exchange.
pub(crate) fn draw(
    shared: &Words,
    seat: &mut Place,
    word: u32,
    limit: u32,
    note: &Note,
) -> (u32, u32)
    requires place { (seat.old.table_id ≡ shared.now.table_id) × (word < shared.now.table_id.words) × (word < length shared.now.key.first.items) }
    requires alone { IsAlone seat.old.me.0 note.now.caller }
    requires terms { (seat.old.me.0.terms.role ≡ Draw) × (seat.old.me.0.terms.limit ≡ limit) × (limit + seat.old.me.0.terms.callers ≤ MOST_NUMBERS) }
    requires unspent { has_spent seat.old.me.0.terms.role seat.old.me.0.terms.limit seat.old.me.0.mine ≡ false }
    ensures seat { (seat.new.table_id ≡ seat.old.table_id) × (seat.new.me ≡ (grown_at seat.new.me.0.steps seat.old.me.0 (made seat.old.me.0.terms note.now.caller word result.0 note.now.op result.1), seat.old.me.1)) }
    ensures follows { Follows seat.old.me.0.mine (made seat.old.me.0.terms note.now.caller word result.0 note.now.op result.1) }
    ensures below { result.0 < limit + seat.old.me.0.terms.callers }
    ensures steps { seat.old.me.0.steps < seat.new.me.0.steps }
    ensures read { note.now.op ≡ Read → seat.new.me.0.steps ≡ seat.old.me.0.steps + 1 }
{
    match note.op {
        Op::Read => look(shared, seat, word),
        _ => exchange(shared, seat, word, limit, note),
    }
}

/// Changes the word if its number is the one asked for.
pub(crate) fn offer(shared: &Words, seat: &mut Place, word: u32, asked: u32, note: &Note) -> Served
    requires place { (seat.old.table_id ≡ shared.now.table_id) × (word < shared.now.table_id.words) × (word < length shared.now.key.first.items) }
    requires alone { IsAlone seat.old.me.0 note.now.caller }
    requires terms { (seat.old.me.0.terms.role ≡ Serve) × (asked < seat.old.me.0.terms.limit + seat.old.me.0.terms.callers) × (seat.old.me.0.terms.limit + seat.old.me.0.terms.callers ≤ MOST_NUMBERS) }
    ensures seat { seat.new.table_id ≡ seat.old.table_id }
    ensures done { IfDone result (λ old. (seat.new.me ≡ (grown_at seat.new.me.0.steps seat.old.me.0 (made seat.old.me.0.terms note.now.caller word asked note.now.op old), seat.old.me.1)) × Follows seat.old.me.0.mine (made seat.old.me.0.terms note.now.caller word asked note.now.op old) × (seat.old.me.0.steps < seat.new.me.0.steps)) }
    ensures not_yet { IfNotYet result (λ seen. (seen ≢ asked) × ((found : ℕ) × (seen ≡ number_of found) × (seat.old.me.0.steps < seat.new.me.0.steps) × (seat.new.me ≡ (looked_at seat.new.me.0.steps seat.old.me.0 word found, seat.old.me.1)))) }
{
    let seen = shared.load::<Looks>(seat, word as usize);
    if number(seen) != asked {
        return Served::NotYet { seen: number(seen) };
    }
    let old = payload(seen);
    let new = apply(note.op, asked, old);
    let found = shared.compare_exchange_with::<Exchanges>(
        seat,
        word as usize,
        seen,
        packed(asked + 1, new),
        note,
    );
    if found != seen {
        return Served::NotYet {
            seen: number(found),
        };
    }
    Served::Done { old }
}
