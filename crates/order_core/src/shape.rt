ghost use Rattle.std.specs.Prelude.{◌≡◌, ◌<◌, length, IfOk, IfSome, IsTrue};
ghost use Rattle.order_core.specs.Protocol.{idle, can_send, can_serve, can_reply, first_of, committed, sent, without_first, replied, set_going, is_free};
ghost use Rattle.order_core.specs.WordBelow.{IsWordBelow};

use bounded_list::{BoundedList, NoMemory};
use std::alloc::Global;

/// What a core commits: a record without access, one with an access to a word, a meeting, or its end.
#[derive(Clone, Copy, Debug, PartialEq, Eq)]
pub enum Shape {
    Quiet,
    /// An access to the word of this number.
    Touch(u32),
    Meet,
    End,
}

/// One move of the protocol, of the core of this number.
#[derive(Clone, Copy, Debug, PartialEq, Eq)]
pub enum Move {
    /// The unsent record goes to the lane's end.
    Send(u8),
    /// The lane's first record is taken out and served.
    Serve(u8),
    /// The lane's first record, a meeting, is taken out, and its reply is given.
    Reply(u8),
    /// The reply is taken up, and the meeting ends.
    Resume(u8),
}

/// A committed record that is not yet served.
#[derive(Clone, Copy, Debug, PartialEq, Eq)]
pub struct Queued {
    pub shape: Shape,
    /// The number that an access drew from its word; 0 for the other shapes.
    pub number: u32,
}

/// One core and its lane.
#[derive(Debug, Drop)]
pub struct CoreQueue {
    pub unsent: Option<Queued>,
    pub meeting: bool,
    pub ended: bool,
    pub lane: BoundedList<Queued>,
    pub reply: bool,
}

impl CoreQueue {
    pub fn create(alloc: Global, bound: u32) -> Result<CoreQueue, NoMemory>
        ensures { IfOk result (λ core. core ≡ idle bound) }
    {
        let lane = BoundedList::create(alloc, bound)?;
        Ok(CoreQueue {
            unsent: None,
            meeting: false,
            ended: false,
            lane,
            reply: false,
        })
    }

    pub fn is_free(&self) -> bool
        ensures { result ≡ is_free self.now }
    {
        self.unsent.is_none() && !self.meeting && !self.ended
    }

    pub fn can_send(&self) -> bool
        ensures { result ≡ can_send self.now }
    {
        self.unsent.is_some() && self.lane.len() < self.lane.room() as usize
    }

    pub fn can_serve(&self, served: &[u32]) -> bool
        requires { IfSome (first_of self.now) (λ queued. IsWordBelow (length served.now) queued.shape) }
        ensures { result ≡ can_serve served.now self.now }
    {
        match self.lane.get(0) {
            None => false,
            Some(queued) => match queued.shape {
                Shape::Quiet | Shape::End => true,
                Shape::Touch(word) => queued.number == served[word as usize],
                Shape::Meet => false,
            },
        }
    }

    pub fn can_reply(&self) -> bool
        ensures { result ≡ can_reply self.now }
    {
        match self.lane.get(0) {
            None => false,
            Some(queued) => match queued.shape {
                Shape::Meet => !self.reply,
                Shape::Quiet | Shape::Touch(_) | Shape::End => false,
            },
        }
    }

    pub fn commit(&mut self, shape: Shape, number: u32)
        ensures { self.new ≡ committed self.old shape number }
    {
        self.unsent = Some(Queued { shape, number });
        match shape {
            Shape::Quiet | Shape::Touch(_) => {}
            Shape::Meet => self.meeting = true,
            Shape::End => self.ended = true,
        }
    }

    pub fn send(&mut self)
        requires { IsTrue (can_send self.old) }
        ensures { self.new ≡ sent self.old }
    {
        if let Some(queued) = self.unsent.take() {
            self.lane.push(queued);
        }
    }

    pub fn take_first(&mut self) -> Queued
        requires { 0 < length self.old.lane.items }
        ensures item { first_of self.old ≡ Some result }
        ensures rest { self.new ≡ without_first self.old }
    {
        self.lane.remove_first()
    }

    pub fn reply(&mut self)
        requires { 0 < length self.old.lane.items }
        ensures { self.new ≡ replied self.old }
    {
        self.lane.remove_first();
        self.reply = true;
    }

    pub fn resume(&mut self)
        ensures { self.new ≡ set_going self.old }
    {
        self.reply = false;
        self.meeting = false;
    }
}
