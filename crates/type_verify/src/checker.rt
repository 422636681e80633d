//! One instruction of a method, and where it leads.
ghost use Rattle.std.specs.Prelude.{◌≡◌, ℕ, ◌+ℤ◌, pos, true, false, map, length, Some, option_copied};
ghost use Rattle.std.specs.List.{list_all};
ghost use Rattle.std.specs.Option.{option_map_or};
ghost use Rattle.class_code.specs.declared.instr.Instr.TheVariants.{TableSwitch as a_table, LookupSwitch as a_lookup};
ghost use Rattle.type_frames.specs.TypeChecks.{mapped, is_state_assignable, is_accepted_at, may_follow as follows_on, caught as caught_by, throwable_name, thrown, is_handled};
ghost use Rattle.type_frames.specs.Walking.{are_handled as all_handle, are_accepted as all_accept, entered_first, entered_later, entered, passed};
ghost use Rattle.type_frames.specs.Assignable.{is_assignable};
ghost use Rattle.type_frames.specs.declared.vtype.VType.TheVariants.{Object};
ghost use Rattle.type_states.specs.Answers.{Leaves};
ghost use Rattle.type_verify.specs.Checkers.{checked_of, IsReady, offset_in_code as offset_of};

use crate::flow::falls_through;
use class_code::{Instr, LookupSwitch, TableSwitch};
use class_tree::Handler;
use jv_names::THROWABLE;
use std::alloc::Global;
use type_frames::{ClassName, VTypeRef, stands_for};
use type_handlers::Covering;
use type_rules::{Method, rule};
use type_states::{StackMap, State, Stop};

/// A place of code, where there can be one.
fn offset_in_code(target: i64) -> Option<u16>
    ensures { result ≡ offset_of target }
{
    if (0..=0xffff).contains(&target) {
        Some(target as u16)
    } else {
        None
    }
}

/// A method's code while it is checked.
#[derive(Drop)]
pub(crate) struct Checker<'a> {
    pub(crate) method: Method<'a>,
    /// The type of `this`, if the method has it; None for a static `<init>`.
    pub(crate) this: Option<Vec<VTypeRef<'a>>>,
    pub(crate) parameters: Vec<VTypeRef<'a>>,
    pub(crate) max_locals: u16,
    pub(crate) map: StackMap<'a>,
    pub(crate) handlers: &'a [Handler],
}

impl<'a> Checker<'a> {
    /// Whether the stack map has a state at an offset for which this one may be taken.
    #[tactic(auto, using(crate::proofs::Mapped::accepted_none, crate::proofs::Mapped::accepted_there))]
    fn accepts_at(&self, at: u16, state: &State<'_>) -> bool
        ensures { result ≡ option_map_or (is_state_assignable self.now.method.hierarchy.now state.now) (mapped (checked_of self.now) at) false }
    {
        match self.map.find(at) {
            Some(place) => self.map.accepts(self.method.hierarchy, place, state),
            None => false,
        }
    }

    /// The same at a target of a jump, which may lie outside of all code.
    #[tactic(auto, using(crate::proofs::Mapped::accepted_in_code, crate::proofs::Mapped::accepted_past))]
    fn accepts(&self, target: i64, state: &State<'_>) -> bool
        requires { IsReady self.now }
        ensures { result ≡ is_accepted_at (checked_of self.now) target state.now }
    {
        match offset_in_code(target) {
            Some(at) => self.accepts_at(at, state),
            None => false,
        }
    }

    /// Whether the next instruction's state may be what this one leaves.
    #[tactic(auto, using(crate::proofs::Mapped::follows_into, crate::proofs::Mapped::follows_freely))]
    fn may_fall(&self, left: &State<'_>, next: &(u16, Instr)) -> bool
        ensures { result ≡ follows_on (checked_of self.now) true left.now (Some next.now) }
    {
        match self.map.find(next.0) {
            Some(place) => self.map.accepts(self.method.hierarchy, place, left),
            None => true,
        }
    }

    /// Whether the next instruction has a state of the stack map.
    #[tactic(auto, using(crate::proofs::Mapped::given_there, crate::proofs::Mapped::given_nowhere))]
    fn is_given(&self, left: &State<'_>, next: &(u16, Instr)) -> bool
        ensures { result ≡ follows_on (checked_of self.now) false left.now (Some next.now) }
    {
        let _ = left;
        self.map.find(next.0).is_some()
    }

    /// Whether what an instruction leaves is accepted behind it.
    fn may_follow(&self, falls: bool, left: &State<'_>, next: Option<&(u16, Instr)>) -> bool
        ensures { result ≡ follows_on (checked_of self.now) falls left.now (option_copied next.entry) }
    {
        match next {
            None => !falls,
            Some(entry) if falls => self.may_fall(left, entry),
            Some(entry) => self.is_given(left, entry),
        }
    }

    /// Whether a state is accepted at each of these offsets from an instruction's own.
    fn accepts_all(&self, at: u16, offsets: &[i32], state: &State<'_>) -> bool
        requires { IsReady self.now }
        ensures { result ≡ list_all (λ by. is_accepted_at (checked_of self.now) (pos at +ℤ by) state.now) offsets.now }
    {
        offsets
            .iter()
            .all(|by| self.accepts(i64::from(at) + i64::from(*by), state))
    }

    fn accepts_table(&self, at: u16, table: &TableSwitch, state: &State<'_>) -> bool
        requires { IsReady self.now }
        ensures { result ≡ all_accept (checked_of self.now) at (a_table table.now) state.now }
    {
        self.accepts(i64::from(at) + i64::from(table.default), state)
            && self.accepts_all(at, table.offsets.as_slice(), state)
    }

    fn accepts_each(&self, at: u16, pairs: &[(i32, i32)], state: &State<'_>) -> bool
        requires { IsReady self.now }
        ensures { result ≡ list_all (λ p. is_accepted_at (checked_of self.now) (pos at +ℤ p.1) state.now) pairs.now }
    {
        pairs.iter().all(|pair| self.accepts(i64::from(at) + i64::from(pair.1), state))
    }

    fn accepts_pairs(&self, at: u16, pairs: &[(i32, i32)], state: &State<'_>) -> bool
        requires { IsReady self.now }
        ensures { result ≡ list_all (λ by. is_accepted_at (checked_of self.now) (pos at +ℤ by) state.now) (map (λ p. p.1) pairs.now) }
    {
        self.accepts_each(at, pairs, state)
    }

    fn accepts_lookup(&self, at: u16, lookup: &LookupSwitch, state: &State<'_>) -> bool
        requires { IsReady self.now }
        ensures { result ≡ all_accept (checked_of self.now) at (a_lookup lookup.now) state.now }
    {
        self.accepts(i64::from(at) + i64::from(lookup.default), state)
            && self.accepts_pairs(at, lookup.pairs.as_slice(), state)
    }

    /// Whether what an instruction leaves is accepted wherever it may jump.
    fn are_accepted(&self, at: u16, instr: &Instr, state: &State<'_>) -> bool
        requires { IsReady self.now }
        ensures { result ≡ all_accept (checked_of self.now) at instr.now state.now }
    {
        match instr {
            Instr::Branch(_, by) => self.accepts(i64::from(at) + i64::from(*by), state),
            Instr::GotoWide(by) => self.accepts(i64::from(at) + i64::from(*by), state),
            Instr::TableSwitch(table) => self.accepts_table(at, table, state),
            Instr::LookupSwitch(lookup) => self.accepts_lookup(at, lookup, state),
            _ => true,
        }
    }

    /// The class that a handler catches (4.10.1.6): `Throwable` where it catches all.
    fn caught(&self, handler: &Handler) -> &'a [u16]
        ensures { result.now ≡ caught_by (checked_of self.now) handler.now }
    {
        match self.method.tree.class_at(handler.catch_type) {
            Some(class) => class.as_slice(),
            None => &THROWABLE,
        }
    }

    /// Whether the stack map has a state at a handler's offset for which what it begins with may be taken.
    #[tactic(auto, using(crate::proofs::Mapped::accepted_none, crate::proofs::Mapped::accepted_there))]
    fn accepts_thrown(&self, at: u16, class: &[u16], state: &State<'_>) -> bool
        ensures { result ≡ is_accepted_at (checked_of self.now) (pos at) (thrown class.now state.now) }
    {
        match self.map.find(at) {
            Some(place) => {
                self.map
                    .accepts_thrown(self.method.hierarchy, place, state, class)
            }
            None => false,
        }
    }

    /// Whether a class is one of what can be thrown.
    fn is_throwable(&self, class: &[u16]) -> bool
        ensures { result ≡ is_assignable self.now.method.hierarchy.now (Object class.now) (Object throwable_name) }
    {
        let throwable = VTypeRef::Object(ClassName::Named(&THROWABLE));
        let thrown = VTypeRef::Object(ClassName::Named(class));
        stands_for(self.method.hierarchy, thrown, throwable)
    }

    /// Whether a handler accepts what may be thrown in this state.
    fn handles(&self, handler: &Handler, state: &State<'_>) -> bool
        ensures { result ≡ is_handled (checked_of self.now) state.now handler.now }
    {
        let class = self.caught(handler);
        self.is_throwable(class) && self.accepts_thrown(handler.target, class, state)
    }

    /// Whether each handler that covers an offset accepts what may be thrown there.
    fn are_handled(&self, covering: &Covering<'_>, state: &State<'_>) -> bool
        requires { covering.now.handlers ≡ self.now.handlers.now }
        ensures { (at : ℕ) → covering.now.reached ≡ Some at → result ≡ all_handle (checked_of self.now) at state.now }
    {
        let handlers = covering.handlers();
        for place in covering.places() {
            if !self.handles(&handlers[*place], state) {
                return false;
            }
        }
        true
    }

    /// The state with which the first instruction begins, from that of the descriptor.
    #[tactic(auto, using(crate::proofs::Entering::first_none, crate::proofs::Entering::first_there, crate::proofs::Entering::first_not))]
    fn enter_first(&self, alloc: Global, at: u16, state: &mut State<'a>) -> Result<(), Stop>
        requires ready { IsReady self.now }
        requires room { length state.old.locals ≡ self.now.max_locals }
        ensures { Leaves result state.new (entered_first (checked_of self.now) at state.old) }
    {
        let Some(place) = self.map.find(at) else {
            return Ok(());
        };
        if !self.map.accepts(self.method.hierarchy, place, state) {
            return Err(Stop::Refused);
        }
        self.map.load(alloc, place, state)?;
        Ok(())
    }

    /// The state with which a later instruction begins, from what the one before it left.
    #[tactic(auto, using(crate::proofs::Entering::later_none, crate::proofs::Entering::later_there))]
    fn enter_later(&self, alloc: Global, at: u16, state: &mut State<'a>) -> Result<(), Stop>
        requires ready { IsReady self.now }
        requires room { length state.old.locals ≡ self.now.max_locals }
        ensures { Leaves result state.new (entered_later (checked_of self.now) at state.old) }
    {
        let Some(place) = self.map.find(at) else {
            return Ok(());
        };
        self.map.load(alloc, place, state)?;
        Ok(())
    }

    /// The state with which the instruction at a place begins, from the one that it is reached with.
    pub(crate) fn enter(
        &self,
        alloc: Global,
        place: usize,
        at: u16,
        state: &mut State<'a>,
    ) -> Result<(), Stop>
        requires ready { IsReady self.now }
        requires room { length state.old.locals ≡ self.now.max_locals }
        ensures { Leaves result state.new (entered (checked_of self.now) place at state.old) }
    {
        if place == 0 {
            self.enter_first(alloc, at, state)
        } else {
            self.enter_later(alloc, at, state)
        }
    }

    /// What an instruction leaves of the state that it begins with, where its handlers, its rule and all to which it leads accept it.
    pub(crate) fn pass(
        &self,
        alloc: Global,
        covering: &Covering<'_>,
        entry: &(u16, Instr),
        next: Option<&(u16, Instr)>,
        state: &mut State<'a>,
    ) -> Result<(), Stop>
        requires ready { IsReady self.now }
        requires handlers { covering.now.handlers ≡ self.now.handlers.now }
        requires reached { covering.now.reached ≡ Some entry.now.0 }
        ensures { Leaves result state.new (passed (checked_of self.now) entry.now (option_copied next.entry) state.old) }
    {
        if !self.are_handled(covering, state) {
            return Err(Stop::Refused);
        }
        rule(alloc, &self.method, entry.0, &entry.1, state)?;
        if self.may_follow(falls_through(&entry.1), state, next)
            && self.are_accepted(entry.0, &entry.1, state)
        {
            Ok(())
        } else {
            Err(Stop::Refused)
        }
    }
}
