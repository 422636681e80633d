ghost use Rattle.std.specs.Prelude.{◌≡◌, ◌<◌, ◌≤◌, [], length, All, MatchOption, IfOk, OnOk, OnErr, Some, None};
ghost use Rattle.std.specs.Option.{ForSome};
ghost use Rattle.type_handlers.specs.Coverage.{CoversAt};

use crate::ranges::{begun_by, by_start, end_at};
use class_tree::Handler;
use std::alloc::{AllocError, Global};
use std::marker::Model;

/// The handlers of an exception table that cover the offset last advanced to.
///
/// It takes two numbers of memory for each handler. To make it takes the time to sort them. Each handler comes once and goes once, so
/// to advance takes time for those that come, and for those that cover the offset before or after.
#[derive(Drop)]
pub struct Covering<'a> {
    handlers: &'a [Handler],
    /// The places of all handlers, in the order of where they begin.
    order: Vec<usize>,
    /// How many of these begin no later than what is reached.
    begun: usize,
    /// The places of those that cover the offset.
    active: Vec<usize>,
    reached: Option<u16>,
}

impl<'a> Model for Covering<'a> {
    ghost use Rattle.type_handlers.specs.Coverage.{Coverage};
    ghost use Rattle.type_handlers.specs.Ranges.{IsHeld};

    ghost Value = { Coverage };

    ghost view = { λ c. record { handlers = c.handlers.now; reached = c.reached } };

    ghost invariant = { λ c. IsHeld c.handlers.now c.order.items c.begun c.active.items c.reached };
}

impl<'a> Covering<'a> {
    /// Before the first offset.
    pub fn new(alloc: Global, handlers: &'a [Handler]) -> Result<Covering<'a>, AllocError>
        ensures { IfOk result (λ covering. covering ≡ record { handlers = handlers.now; reached = None }) }
    {
        Ok(Covering {
            handlers,
            order: by_start(alloc, handlers)?,
            begun: 0,
            active: Vec::new(alloc),
            reached: None,
        })
    }

    /// Goes on to an offset, which is not before the one that was reached.
    pub fn advance(&mut self, at: u16) -> Result<(), AllocError>
        requires { ForSome self.old.reached (λ reached. reached ≤ at) }
        ensures ok { OnOk result (self.new ≡ record { handlers = self.old.handlers; reached = Some at }) }
        ensures err { OnErr result (self.new ≡ self.old) }
    {
        let begun = begun_by(self.handlers, &self.order, self.begun, at);
        self.active
            .extend_from_slice(&self.order[self.begun..begun])?;
        self.begun = begun;
        self.reached = Some(at);
        let handlers = self.handlers;
        self.active.retain(|place| at < end_at(handlers, *place));
        Ok(())
    }

    /// All handlers, whether they cover the offset or not.
    pub fn handlers(&self) -> &'a [Handler]
        ensures { result.now ≡ self.now.handlers }
    {
        self.handlers
    }

    /// The places of those that cover the offset, in no order that is stated. Before the first offset there are none.
    pub fn places(&self) -> &[usize]
        ensures covering { MatchOption self.now.reached (result.now ≡ []) (CoversAt self.now.handlers result.now) }
        ensures within { All (λ place. place < length self.now.handlers) result.now }
    {
        &self.active
    }
}
