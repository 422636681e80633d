//! The walk over a method's code, one instruction after the other (4.10.1.6).
ghost use Rattle.std.specs.Prelude.{◌≡◌, ◌+◌, ◌<◌, ◌≤◌, length, Some, OnOk, slice_get};
ghost use Rattle.std.specs.Option.{ForSome};
ghost use Rattle.type_frames.specs.TypeChecks.{initial};
ghost use Rattle.type_frames.specs.Walking.{stepped};
ghost use Rattle.type_states.specs.Answers.{Leaves};
ghost use Rattle.type_verify.specs.Checkers.{checked_of, IsReady};
ghost use Rattle.type_verify.specs.Outcomes.{IsDecided};

use crate::checker::Checker;
use class_code::Instr;
use std::alloc::{AllocError, Global};
use type_handlers::Covering;
use type_states::{State, Stop};

/// Why a method's code has no type states for all its instructions.
#[derive(Clone, Copy)]
pub(crate) enum Halt {
    /// The instruction at this offset is the first that offends.
    Offends(u16),
    /// Memory ran out.
    Memory,
}

impl From<AllocError> for Halt {
    ghost use Rattle.std.specs.Prelude.{◌≡◌};
    ghost use Rattle.type_verify.specs.declared.walk.Halt.TheVariants.{Memory};

    ghost from_gives = { λ _ e. e ≡ Memory };

    fn from(_: AllocError) -> Self {
        Halt::Memory
    }
}

impl<'a> Checker<'a> {
    /// What the instruction at a place leaves of the state that it is reached with.
    fn step(
        &self,
        alloc: Global,
        covering: &mut Covering<'_>,
        place: usize,
        entry: &(u16, Instr),
        state: &mut State<'a>,
    ) -> Result<(), Stop>
        requires ready { IsReady self.now }
        requires within { place < length self.now.method.instrs.now }
        requires handlers { covering.old.handlers ≡ self.now.handlers.now }
        requires reached { ForSome covering.old.reached (λ reached. reached ≤ entry.now.0) }
        requires room { length state.old.locals ≡ self.now.max_locals }
        ensures left { Leaves result state.new (stepped (checked_of self.now) place entry.now (slice_get self.now.method.instrs.now (place + 1)) state.old) }
        ensures covering { OnOk result (covering.new ≡ record { handlers = covering.old.handlers; reached = Some entry.now.0 }) }
    {
        covering.advance(entry.0)?;
        self.enter(alloc, place, entry.0, state)?;
        let next = self.method.instrs.get(place + 1);
        self.pass(alloc, covering, entry, next, state)
    }
}

/// Goes through the code from its first instruction on, from the state that the descriptor gives.
pub(crate) fn walk<'a>(
    alloc: Global,
    checker: &Checker<'a>,
    mut state: State<'a>,
) -> Result<(), Halt>
    requires ready { IsReady checker.now }
    requires begun { initial (checked_of checker.now) ≡ Some state }
    requires room { length state.locals ≡ checker.now.max_locals }
    ensures { IsDecided (checked_of checker.now) result }
{
    let mut covering = Covering::new(alloc, checker.handlers)?;
    for (place, entry) in checker.method.instrs.iter().enumerate() {
        match checker.step(alloc, &mut covering, place, entry, &mut state) {
            Ok(()) => {}
            Err(Stop::Refused) => return Err(Halt::Offends(entry.0)),
            Err(Stop::Memory) => return Err(Halt::Memory),
        }
    }
    Ok(())
}
