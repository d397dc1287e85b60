//! A bounded queue from one thread to another, in which the order of the items is proved.

ghost use Rattle.std.specs.Prelude.{◌≡◌, true, false, []};
ghost use Rattle.crossbeam_queue.specs.Passes.{view, IsPassOf, ruled_capacity};
ghost use Rattle.record_lane.specs.LaneRule.{side};

use crate::answer::{Got, Sent};
use crate::item::Item;
use crate::lane_left::Left;
use crate::lane_rule::{Cut, InLane, Numbers, Sends, Side, Takes, Whole};
use crate::lane_token::{Sender, Taker};
use bounded_list::NoMemory;
use crossbeam_queue::{Pass, RuledArrayQueue};
use std::alloc::Global;
use std::marker::Brand;
use std::sync::Wait;

type Line<T> = RuledArrayQueue<T, Side<T>, InLane>;

/// A queue of at most `bound` items, with one sender and one taker. All its items are sound for the numbers `words` and `top`
/// that it was made for. Threads use it through a `&`, each with its own token.
#[derive(Drop)]
pub struct Lane<T: Item> {
    queue: RuledArrayQueue<T, Side<T>, InLane>,
    bound: u32,
    words: u32,
    top: u32,
    ghost sized: { ruled_capacity queue ≡ bound },
}

/// Cuts the sender's pass from the taker's, and gives both the numbers of the lane.
fn cut<T: Item, N: Numbers>(
    queue: &Line<T>,
    pass: &mut Pass<T, Side<T>>,
    bound: u32,
    words: u32,
    top: u32,
) -> Pass<T, Side<T>>
    requires numbers { (N.bound ≡ bound) × (N.words ≡ words) × (N.top ≡ top) }
    requires queue { IsPassOf queue.now pass.old }
    requires first { view pass.old ≡ side true true [] [] [] 0 0 0 0 }
    ensures queue { IsPassOf queue.now pass.new × IsPassOf queue.now result }
    ensures sender { view pass.new ≡ side true false [] [] [] 0 words top bound }
    ensures taker { view result ≡ side false true [] [] [] 0 words top bound }
{
    queue.another::<Cut<N>>(pass)
}

impl<T: Item> Lane<T> {
    ghost use Rattle.std.specs.Prelude.{◌^◌, ◌<◌, ◌≤◌, ◌+◌, ◌∷◌, ◌++◌, length, IfOk};
    ghost use Rattle.record_lane.specs.declared.limits.TheConstants.{MOST_LANE};
    ghost use Rattle.record_lane.specs.Histories.{IsPrefix, OnSent, IfFull, IfItem, OnEmpty};
    ghost use Rattle.record_lane.specs.Lanes.{bound_of, word_count_of, top_of, sent_by, gone_by, taken_by, seen_by, left_in, IsSenderOf, IsTakerOf, WasFull, WasEmpty};

    /// An empty lane for items that are sound for `words` and `top`, with its two tokens. `NoMemory` where there is none to be had.
    pub fn create(
        alloc: Global,
        bound: u32,
        words: u32,
        top: u32,
    ) -> Result<(Lane<T>, Sender<T>, Taker<T>), NoMemory>
        requires { (0 < bound) × (bound ≤ MOST_LANE) }
        ensures numbers { IfOk result (λ made. (bound_of made.0 ≡ bound) × (word_count_of made.0 ≡ words) × (top_of made.0 ≡ top)) }
        ensures sender { IfOk result (λ made. IsSenderOf made.0 made.1 × (sent_by made.1 ≡ []) × (gone_by made.1 ≡ 0)) }
        ensures taker { IfOk result (λ made. IsTakerOf made.0 made.2 × (taken_by made.2 ≡ []) × (seen_by made.2 ≡ [])) }
    {
        let Ok((queue, mut pass)) = Line::<T>::ruled(alloc, bound as usize) else {
            return Err(NoMemory);
        };
        let taker = cut::<T, Brand>(&queue, &mut pass, bound, words, top);
        let lane = Lane {
            queue,
            bound,
            words,
            top,
        };
        Ok((lane, Sender { pass }, Taker { pass: taker }))
    }

    /// Puts the item behind all that the lane holds. `Full`, with the item, only where the lane held `bound` items at a moment.
    pub fn send<R: Wait>(&self, rt: &R, sender: &mut Sender<T>, item: T) -> Sent<T>
        requires sender { IsSenderOf self.now sender.old }
        requires item { T.sound (word_count_of self.now) (top_of self.now) item }
        requires count { length (sent_by sender.old) < 2 ^ 61 }
        ensures sender { IsSenderOf self.now sender.new }
        ensures sent { OnSent result (sent_by sender.new ≡ sent_by sender.old ++ item ∷ []) }
        ensures room { OnSent result (length (sent_by sender.new) ≤ gone_by sender.new + bound_of self.now) }
        ensures full { IfFull result (λ back. (back ≡ item) × (sent_by sender.new ≡ sent_by sender.old)) }
        ensures cause { IfFull result (λ _. WasFull self.now sender.old sender.new) }
    {
        match self.queue.push_as::<Sends, R>(rt, &mut sender.pass, item) {
            Ok(()) => Sent::Sent,
            Err(item) => Sent::Full(item),
        }
    }

    /// Takes the oldest item that the lane holds. `Empty` only where the lane held none at a moment.
    pub fn take<R: Wait>(&self, rt: &R, taker: &mut Taker<T>) -> Got<T>
        requires { IsTakerOf self.now taker.old }
        ensures taker { IsTakerOf self.now taker.new }
        ensures item { IfItem result (λ x. taken_by taker.new ≡ taken_by taker.old ++ x ∷ []) }
        ensures sound { IfItem result (T.sound (word_count_of self.now) (top_of self.now)) }
        ensures count { IfItem result (λ _. length (taken_by taker.new) ≤ 2 ^ 61) }
        ensures order { IfItem result (λ _. IsPrefix (taken_by taker.new) (seen_by taker.new)) }
        ensures empty { OnEmpty result (taken_by taker.new ≡ taken_by taker.old) }
        ensures cause { OnEmpty result (WasEmpty self.now taker.old taker.new) }
    {
        match self.queue.pop_as::<Takes, R>(rt, &mut taker.pass) {
            Some(item) => Got::Item(item),
            None => Got::Empty,
        }
    }

    /// What is left when both tokens are given back: all that was sent and not taken.
    pub fn close(self, sender: Sender<T>, taker: Taker<T>) -> Left<T>
        requires sender { IsSenderOf self sender }
        requires taker { IsTakerOf self taker }
        ensures whole { sent_by sender ≡ taken_by taker ++ left_in result }
        ensures few { length (left_in result) ≤ bound_of self }
    {
        let Lane {
            queue,
            bound: _,
            words: _,
            top: _,
        } = self;
        let mut pass = sender.pass;
        queue.absorb::<Whole>(&mut pass, taker.pass);
        queue.learn_as::<Whole>(&mut pass);
        Left { queue, pass }
    }
}
