//! One core: its units, one after another.
ghost use Rattle.std.specs.Prelude.{◌≡◌, ℕ, ◌<◌, ◌≤◌, ◌+◌, ◌-◌, ◌%◌, ◌++◌, ◌∷◌, [], List, OnSome, IfSome, length};
ghost use Rattle.std.specs.Option.{ForNone};
ghost use Rattle.elf_image.specs.Layout.{stack_top};
ghost use Rattle.rv_execute.specs.Harts.{state_of};
ghost use Rattle.record_lane.specs.Sound.{IsSoundRecord};
ghost use Rattle.syscall_drain.specs.declared.limits.TheConstants.{MOST_BUDGET};
ghost use Rattle.syscall_drain.specs.Locals.{opening_hart};
ghost use Rattle.syscall_drain.specs.Sound.{IsSoundPhase};
ghost use Rattle.syscall_drain.specs.SoundProps.{phase_prop};

use crate::answer::{place_claimed, taken_of};
use crate::ask::{Answer, Made, NextUnit};
use crate::end::End;
use crate::gathered::Gathered;
use crate::guest::Guest;
use crate::limits::{MOST_BUDGET, MOST_BYTES};
use crate::local_core::LocalCore;
use crate::phase::Phase;
use elf_image::Image;
use rv_execute::{Hart, MOST_NUMBERS, Op};

/// One core of a guest, but for its tags. It asks for each unit, and goes on by the answer.
#[derive(Drop)]
pub struct CoreState {
    core: u8,
    budget: u32,
    local: LocalCore,
    ghost most: { budget ≤ MOST_BUDGET },
    ghost spent: { local.units ≤ budget },
    ghost going: { ForNone local.end (local.units < budget) },
    ghost sound: { IsSoundPhase (state_of local.hart) local.gathered local.phase } by { phase_prop (state_of local.hart) local.gathered local.phase },
}

/// The first stack pointer of a core, 32 bytes below the top of its stack.
fn stack_pointer(core: u8) -> u32
    ensures { result ≡ stack_top core - 32 }
{
    let below = u32::from(core).saturating_mul(0x0200_0000);
    0xf000_0000u32.saturating_sub(below).saturating_sub(32)
}

/// The hart that a core begins with.
fn opening_hart(image: &Image, core: u8) -> Hart
    ensures { state_of result ≡ opening_hart image.now core }
{
    let mut regs = [0; 32];
    regs[2] = stack_pointer(core);
    regs[10] = u32::from(core);
    regs[11] = u32::from(image.cores());
    Hart {
        regs,
        pc: image.entry(),
        kept: None,
    }
}

impl CoreState {
    ghost use Rattle.elf_image.specs.Layout.{words_of};
    ghost use Rattle.syscall_drain.specs.Locals.{opening_local};
    ghost use Rattle.syscall_drain.specs.Units.{FitsAsk, next_ask, answered, placed, taken_of};
    ghost use Rattle.syscall_drain.specs.Records.{unit_record};
    ghost use Rattle.syscall_drain.specs.Sound.{due, IsSound};
    ghost use Rattle.syscall_drain.specs.Pieces.{PlacesBytes};
    ghost use Rattle.syscall_drain.specs.Seen.{local_of, budget_of, core_of, item_made, IsNextUnit, StandsAt, HasSpent};

    /// A core before its first unit, with so many units to spend.
    #[tactic(auto, unfolding(crate::specs::Locals::opening_local, crate::specs::Runs::local_after, crate::specs::Runs::IsLocalRun))]
    pub fn create(core: u8, guest: &Guest, budget: u32) -> CoreState
        requires core { core < guest.now.layout.cores }
        requires some { 1 ≤ budget }
        requires most { budget ≤ MOST_BUDGET }
        ensures opening { local_of result ≡ opening_local guest.now core }
        ensures budget { budget_of result ≡ budget }
        ensures core { core_of result ≡ core }
        ensures stands { StandsAt guest.now result [] }
    {
        let local = LocalCore {
            hart: opening_hart(guest.image(), core),
            phase: Phase::Running,
            gathered: Gathered::new(),
            units: 0,
            end: None,
        };
        CoreState {
            core,
            budget,
            local,
        }
    }

    /// The next unit, with what it asks.
    pub fn next(&self, guest: &Guest) -> NextUnit
        ensures unit { IsNextUnit guest.now (local_of self.now) result }
        ensures sound { IsSound (local_of self.now) }
    {
        self.local.next(guest)
    }

    /// Spends the next unit, with the answer to what it asked.
    fn advance(&mut self, guest: &Guest, unit: NextUnit, given: Answer)
        requires unit { IsNextUnit guest.now (local_of self.old) unit }
        requires asked { FitsAsk unit.ask given }
        requires numbered { (taken_of given).number < MOST_NUMBERS }
        ensures step { local_of self.new ≡ answered guest.now (budget_of self.old) (local_of self.old) given }
        ensures budget { budget_of self.new ≡ budget_of self.old }
        ensures core { core_of self.new ≡ core_of self.old }
    {
        self.local.unit(guest, self.budget, unit.task, given);
    }

    /// Spends the next unit, with the answer to what it asked, and gives the place in the output that it claimed.
    pub fn spend(&mut self, guest: &Guest, unit: NextUnit, given: Answer) -> Option<u32>
        requires unit { IsNextUnit guest.now (local_of self.old) unit }
        requires asked { FitsAsk unit.ask given }
        requires numbered { (taken_of given).number < MOST_NUMBERS }
        ensures spent { HasSpent guest.now self.old self.new given }
        ensures placed { result ≡ placed guest.now (local_of self.old) given }
        ensures output { PlacesBytes guest.now (local_of self.old) (local_of self.new) result }
    {
        self.advance(guest, unit, given);
        place_claimed(unit.ask, given)
    }

    /// The same, and the record of the unit.
    pub fn answer(&mut self, guest: &Guest, unit: NextUnit, given: Answer) -> Made
        requires unit { IsNextUnit guest.now (local_of self.old) unit }
        requires asked { FitsAsk unit.ask given }
        requires numbered { (taken_of given).number < MOST_NUMBERS }
        ensures spent { HasSpent guest.now self.old self.new given }
        ensures item { result.item ≡ item_made unit.ask (unit_record guest.now (local_of self.old) given) }
        ensures sound { (top : ℕ) → (taken_of given).number < top → IfSome result.item (IsSoundRecord (words_of guest.now.layout) top) }
        ensures placed { result.placed ≡ placed guest.now (local_of self.old) given }
        ensures output { PlacesBytes guest.now (local_of self.old) (local_of self.new) result.placed }
    {
        let item = self.local.item(unit, taken_of(given));
        let placed = self.spend(guest, unit, given);
        Made { item, placed }
    }

    /// How the core ended, if it has.
    pub fn end(&self) -> Option<End>
        ensures { result ≡ (local_of self.now).ending }
    {
        self.local.end
    }

    /// How many units it has spent.
    pub fn units(&self) -> u32
        ensures units { result ≡ (local_of self.now).units }
        ensures within { result ≤ budget_of self.now }
        ensures most { result ≤ MOST_BUDGET }
    {
        self.local.units
    }

    /// The bytes that its last write call has gathered.
    pub fn gathered(&self) -> &[u8]
        ensures bytes { result.now ≡ (local_of self.now).gathered }
        ensures few { length result.now ≤ MOST_BYTES }
    {
        self.local.gathered.as_slice()
    }
}
