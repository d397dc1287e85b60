ghost use Rattle.std.specs.Prelude.{◌≡◌, ◌+◌, ◌^◌, ◌<◌, ◌↔◌, ◌⊎◌, replicate, length, find, None, IfOk, IfNone, IsTrue, IsNone};
ghost use Rattle.order_core.specs.Protocol.{idle, number_of, counted, core_at, Protocol, begin, InRange, can_commit, commit, can_send, can_serve, can_reply, can_act, act, moves_of, some_move, IsAllAtRest, IsSettled};
ghost use Rattle.order_core.specs.Reachable.{IsProtocol};
ghost use Rattle.order_core.specs.declared.shape.Move.TheVariants.{Send, Serve, Reply, Resume};
ghost use Rattle.order_core.specs.WordBelow.{IsWordBelow};

use crate::numbers::zeros;
use crate::shape::{CoreQueue, Move, Shape};
use bounded_list::NoMemory;
use std::alloc::Global;
use std::marker::Model;

/// Several cores, each with a lane of records and a service that takes them: the protocol of cores and tag actors,
/// with all that it computes left out.
#[derive(Debug, Drop)]
pub struct System {
    cores: Vec<CoreQueue>,
    drawn: Vec<u32>,
    served: Vec<u32>,
}

impl Model for System {
    ghost Value = { Protocol };

    ghost view = { λ system. record { cores = system.cores.items; drawn = system.drawn.items; served = system.served.items } };

    ghost invariant = { λ system. IsProtocol (record { cores = system.cores.items; drawn = system.drawn.items; served = system.served.items }) };
}

impl System {
    /// Cores with nothing committed, and lanes for `bound` records each.
    pub fn create(alloc: Global, cores: u8, words: u32, bound: u32) -> Result<System, NoMemory>
        requires { 0 < bound }
        ensures { IfOk result (λ system. system ≡ begin cores words bound) }
    {
        let cores = idle_cores(alloc, cores, bound)?;
        let drawn = zeros(alloc, words as usize)?;
        let served = zeros(alloc, words as usize)?;
        Ok(System {
            cores,
            drawn,
            served,
        })
    }

    /// Whether the core has nothing unsent, is at no meeting and has not ended.
    pub fn can_commit(&self, core: u8) -> bool
        ensures commits { result ≡ can_commit self.now core }
        ensures reached { IsProtocol self.now }
    {
        match self.cores.get(core as usize) {
            None => false,
            Some(queue) => queue.is_free(),
        }
    }

    /// Commits a record of the core. An access draws the next number of its word.
    pub fn commit(&mut self, core: u8, shape: Shape)
        requires free { IsTrue (can_commit self.old core) }
        requires word { InRange self.old shape }
        requires numbers { number_of self.old.drawn shape + 1 < 2 ^ 32 }
        ensures commits { self.new ≡ commit self.old core shape }
        ensures reached { IsProtocol self.new }
    {
        let number = number_in(&self.drawn, shape);
        count(&mut self.drawn, shape);
        self.cores[core as usize].commit(shape, number);
    }

    /// Whether the move is enabled.
    pub fn can_act(&self, step: Move) -> bool
        ensures { result ≡ can_act self.now step }
    {
        match step {
            Move::Send(core) => self.can_send(core),
            Move::Serve(core) => self.can_serve(core),
            Move::Reply(core) => self.can_reply(core),
            Move::Resume(core) => self.can_resume(core),
        }
    }

    fn can_send(&self, core: u8) -> bool
        ensures { result ≡ can_act self.now (Send core) }
    {
        match self.cores.get(core as usize) {
            None => false,
            Some(queue) => queue.can_send(),
        }
    }

    fn can_serve(&self, core: u8) -> bool
        ensures { result ≡ can_act self.now (Serve core) }
    {
        (core as usize) < self.cores.len() && self.cores[core as usize].can_serve(&self.served)
    }

    fn can_reply(&self, core: u8) -> bool
        ensures { result ≡ can_act self.now (Reply core) }
    {
        match self.cores.get(core as usize) {
            None => false,
            Some(queue) => queue.can_reply(),
        }
    }

    fn can_resume(&self, core: u8) -> bool
        ensures { result ≡ can_act self.now (Resume core) }
    {
        match self.cores.get(core as usize) {
            None => false,
            Some(queue) => queue.reply,
        }
    }

    /// Makes the move.
    pub fn act(&mut self, step: Move)
        requires { IsTrue (can_act self.old step) }
        ensures acts { self.new ≡ act self.old step }
        ensures reached { IsProtocol self.new }
    {
        match step {
            Move::Send(core) => self.send(core),
            Move::Serve(core) => self.serve(core),
            Move::Reply(core) => self.reply(core),
            Move::Resume(core) => self.resume(core),
        }
    }

    fn send(&mut self, core: u8)
        requires { IsTrue (can_act self.old (Send core)) }
        ensures acts { self.new ≡ act self.old (Send core) }
        ensures reached { IsProtocol self.new }
    {
        self.cores[core as usize].send();
    }

    fn serve(&mut self, core: u8)
        requires { IsTrue (can_act self.old (Serve core)) }
        ensures acts { self.new ≡ act self.old (Serve core) }
        ensures reached { IsProtocol self.new }
    {
        let first = self.cores[core as usize].take_first();
        raise_served(&mut self.served, &self.drawn, first.shape);
    }

    fn reply(&mut self, core: u8)
        requires { IsTrue (can_act self.old (Reply core)) }
        ensures acts { self.new ≡ act self.old (Reply core) }
        ensures reached { IsProtocol self.new }
    {
        self.cores[core as usize].reply();
    }

    fn resume(&mut self, core: u8)
        requires { IsTrue (can_act self.old (Resume core)) }
        ensures acts { self.new ≡ act self.old (Resume core) }
        ensures reached { IsProtocol self.new }
    {
        self.cores[core as usize].resume();
    }

    /// The first enabled move of one core.
    fn move_of(&self, core: u8) -> Option<Move>
        ensures { result ≡ find (can_act self.now) (moves_of core) }
    {
        if self.can_resume(core) {
            Some(Move::Resume(core))
        } else if self.can_reply(core) {
            Some(Move::Reply(core))
        } else if self.can_serve(core) {
            Some(Move::Serve(core))
        } else if self.can_send(core) {
            Some(Move::Send(core))
        } else {
            None
        }
    }

    /// The first enabled move by core ascending, and within a core in the order Resume, Reply, Serve, Send.
    pub fn some_move(&self) -> Option<Move>
        ensures first { result ≡ some_move self.now }
        ensures none { result ≡ None ↔ IsAllAtRest self.now }
        ensures settled { result ≡ None → IsSettled self.now }
        ensures reached { IsProtocol self.now }
    {
        for core in 0..self.cores.len() {
            if let Some(step) = self.move_of(core as u8) {
                return Some(step);
            }
        }
        None
    }
}

fn idle_cores(alloc: Global, cores: u8, bound: u32) -> Result<Vec<CoreQueue>, NoMemory>
    ensures { IfOk result (λ queues. queues.items ≡ replicate cores (idle bound)) }
{
    let mut queues = Vec::new(alloc);
    for core in 0..cores {
        let queue = CoreQueue::create(alloc, bound)?;
        queues.push(queue).map_err(|_| NoMemory)?;
    }
    Ok(queues)
}

/// The number that an access would draw; 0 for other shapes.
fn number_in(counts: &[u32], shape: Shape) -> u32
    requires { IsWordBelow (length counts.now) shape }
    ensures { result ≡ number_of counts.now shape }
{
    match shape {
        Shape::Touch(word) => counts[word as usize],
        Shape::Quiet | Shape::Meet | Shape::End => 0,
    }
}

/// Raises the count of the word that is accessed, if one is.
fn count(counts: &mut Vec<u32>, shape: Shape)
    requires word { IsWordBelow (length counts.old.items) shape }
    requires room { number_of counts.old.items shape + 1 < 2 ^ 32 }
    ensures { counts.new.items ≡ counted counts.old.items shape }
{
    if let Shape::Touch(word) = shape {
        counts[word as usize] += 1;
    }
}

/// Raises the count of served accesses of the word, of which more were drawn.
fn raise_served(served: &mut Vec<u32>, drawn: &[u32], shape: Shape)
    requires word { IsWordBelow (length served.old.items) shape }
    requires fewer { number_of served.old.items shape < number_of drawn.now shape ⊎ (number_of served.old.items shape ≡ 0) }
    ensures { served.new.items ≡ counted served.old.items shape }
{
    if let Shape::Touch(word) = shape {
        served[word as usize] += 1;
    }
}
