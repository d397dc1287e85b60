ghost use Rattle.std.specs.Prelude.{◌≡◌, length, IfOk};
ghost use Rattle.ticket_table.specs.declared.change.Role.TheVariants.{Draw};
ghost use Rattle.ticket_table.specs.Passes.{IsPassOf};

use rv_execute::Op;
use std::alloc::{AllocError, Global};
use std::test::Fail;
use std::thread;
use ticket_table::{Pass, Role, Served, TicketTable, number, payload};

#[test]
fn numbered_words_row(rt: HostRuntime) -> Result<(), Fail> {
    let (table, mut passes) = TicketTable::create(rt.alloc(), &[5], 1, 10, Role::Draw)?;
    let mut pass = passes.pop().ok_or("a pass")?;
    let write = Op::Write {
        mask: 0xffff_0000,
        value: 0x1234_5678,
    };
    let read = table.take(&mut pass, 0, Op::Read);
    assert!(rt; (read.number, read.old, read.spent) == (0, 5, false));
    let written = table.take(&mut pass, 0, write);
    assert!(rt; (written.number, written.old, written.spent) == (1, 5, false));
    passes.push(pass)?;
    let closed = table.close(passes);
    assert!(rt; (payload(closed.word(0)), number(closed.word(0))) == (0x1234_0005, 2));

    let (table, mut passes) = TicketTable::create(rt.alloc(), &[0], 1, 10, Role::Serve)?;
    let mut pass = passes.pop().ok_or("a pass")?;
    assert!(rt; table.serve(&mut pass, 0, 1, Op::Read) == Served::NotYet { seen: 0 });
    assert!(rt; table.serve(&mut pass, 0, 0, Op::Read) == Served::Done { old: 0 });
    Ok(())
}

// Draws a thousand numbers at the first word, or fewer where the pass is spent before.
fn draw_thousand(
    alloc: Global,
    table: &TicketTable,
    mut pass: Pass,
) -> Result<(Vec<u32>, Pass), AllocError>
    requires role { table.now.basis.terms.role ≡ Draw }
    requires word { length table.now.basis.first ≡ 1 }
    requires pass { IsPassOf table.now pass }
    ensures { IfOk result (λ drawn. IsPassOf table.now drawn.1 × (drawn.1.caller ≡ pass.caller)) }
{
    let mut numbers = Vec::with_capacity(alloc, 1000)?;
    'draws: for _ in 0..1000 {
        if pass.spent() {
            break;
        }
        let taken = table.take(&mut pass, 0, Op::Read);
        numbers.push(taken.number)?;
    }
    Ok((numbers, pass))
}

#[test]
fn two_threads_draw_each_number_once(rt: HostRuntime) -> Result<(), Fail> {
    let alloc = rt.alloc();
    let (table, mut passes) = TicketTable::create(alloc, &[7], 2, 4000, Role::Draw)?;
    let second = passes.pop().ok_or("two passes")?;
    let first = passes.pop().ok_or("two passes")?;
    let shared = &table;
    let (one, other) = thread::join(
        &rt,
        move || draw_thousand(alloc, shared, first),
        move || draw_thousand(alloc, shared, second),
    );
    let (numbers, first) = one?;
    let (others, second) = other?;
    passes.push(first)?;
    passes.push(second)?;
    let closed = table.close(passes);
    assert!(rt; (payload(closed.word(0)), number(closed.word(0))) == (7, 2000));
    let mut drawn = numbers;
    drawn.extend_from_slice(others.as_slice())?;
    drawn.sort()?;
    assert!(rt; drawn.len() == 2000);
    for (place, number) in drawn.iter().enumerate() {
        assert_eq!(rt; *number as usize, place);
    }
    Ok(())
}
