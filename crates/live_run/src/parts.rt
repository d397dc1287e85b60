//! The parts of a run: its tables, and the actors of its cores.
ghost use Rattle.std.specs.Prelude.{◌≡◌, ◌≤◌, ◌↔◌, IsTrue, IfOk};
ghost use Rattle.live_run.specs.Seats.{HaveEnded, HaveAllEnded, HaveAllFollowed};
ghost use Rattle.record_lane.specs.declared.limits.TheConstants.{MOST_LANE};
ghost use Rattle.live_run.specs.Beginnings.{AreNew, HaveBound};

use crate::actors::Actors;
use crate::objects::Objects;
use crate::opening::{Seats, first_seats};
use crate::room::RunRoom;
use crate::tables::Tables;
use hart_actor::HartActor;
use inline_tracker::Setup;
use std::alloc::Global;
use std::marker::Model;
use tag_actor::TagActor;
use word_stores::NoMemory;

/// How a run goes on: the most records that wait for a tag actor, and the most units or records of a turn.
#[derive(Clone, Copy, Debug, PartialEq, Eq)]
pub struct RunShape {
    pub bound: u32,
    pub quantum: u32,
}

/// The tables of a setup's run and the actors of its cores, between their turns.
#[derive(Drop)]
pub struct LiveParts<'a> {
    pub(crate) objects: Objects<'a>,
    pub(crate) actors: Actors,
    pub(crate) room: RunRoom,
}

impl<'a> Model for LiveParts<'a> {
    ghost use Rattle.live_run.specs.Parts.{LiveSeen, AreLive, live_seen};

    ghost Value = { LiveSeen };

    ghost view = { λ parts. live_seen parts.objects parts.actors parts.room };

    ghost invariant = { λ parts. AreLive (live_seen parts.objects parts.actors parts.room) };
}

impl<'a> LiveParts<'a> {
    /// The parts of a run before the first turn. All memory of the run is taken here.
    pub fn create(
        alloc: Global,
        setup: &'a Setup,
        shape: RunShape,
    ) -> Result<LiveParts<'a>, NoMemory>
        requires bound { (1 ≤ shape.bound) × (shape.bound ≤ MOST_LANE) }
        requires quantum { 1 ≤ shape.quantum }
        ensures setup { IfOk result (λ parts. parts.setup ≡ setup.entry.now) }
        ensures bound { IfOk result (λ parts. HaveBound shape.bound parts.items) }
        ensures quantum { IfOk result (λ parts. parts.quantum ≡ shape.quantum) }
        ensures new { IfOk result (λ parts. AreNew setup.entry.now parts.harts parts.followers) }
    {
        let mut tables = Tables::create(alloc, setup)?;
        let seats = first_seats(alloc, setup, &mut tables, shape.bound)?;
        let room = RunRoom::create(alloc, setup)?;
        let Tables { memory, tags, .. } = tables;
        let Seats {
            harts,
            followers,
            items,
            replies,
        } = seats;
        Ok(LiveParts {
            objects: Objects {
                setup,
                memory,
                tags,
                items,
                replies,
                quantum: shape.quantum,
            },
            actors: Actors { harts, followers },
            room,
        })
    }

    /// Whether each actor has ended.
    pub fn ended(&self) -> bool
        ensures { IsTrue result ↔ HaveEnded self.now.harts self.now.followers }
    {
        harts_have_ended(self.actors.harts.as_slice())
            && followers_have_ended(self.actors.followers.as_slice())
    }
}

/// Whether all these cores have ended.
fn harts_have_ended(harts: &[HartActor]) -> bool
    ensures { IsTrue result ↔ HaveAllEnded harts.now }
{
    for hart in harts {
        if !hart.ended() {
            return false;
        }
    }
    true
}

/// Whether all these tag actors have ended.
fn followers_have_ended(followers: &[TagActor]) -> bool
    ensures { IsTrue result ↔ HaveAllFollowed followers.now }
{
    for follower in followers {
        if !follower.ended() {
            return false;
        }
    }
    true
}
