//! A code that passes its type check, gone through again for its type states.
ghost use Rattle.std.specs.Prelude.{◌≡◌, ◌==◌, ◌<◌, ◌^◌, [], true, None, Some, All, length, unwrap_or, IfOk, OnOk, find};
ghost use Rattle.class_tree.specs.CodeRules.{is_code};
ghost use Rattle.class_code.specs.Listing.{IsRising};
ghost use Rattle.std.specs.List.Sorted.{IsNonDecreasingBy};
ghost use Rattle.type_frames.specs.Rules.{rule as rule_of};
ghost use Rattle.type_frames.specs.TypeChecks.{checked, instrs_in};
ghost use Rattle.type_frames.specs.Walking.{entered};
ghost use Rattle.type_frames.specs.TypeStates.{typed_from, typed};
ghost use Rattle.type_rules.specs.Methods.{env_of};
ghost use Rattle.type_verify.specs.Checkers.{checked_of, IsReady};
ghost use Rattle.type_verify.specs.Outcomes.{IsBegun};
ghost use Rattle.type_verify.specs.Recomputing.{AllPass, CodePasses};

use crate::checker::Checker;
use crate::code::{checker_of, instrs_of};
use class_code::Instr;
use class_tree::{ClassFile, Code, Member};
use std::alloc::{AllocError, Global};
use type_frames::{Hierarchy, MapFault, MapFrame};
use type_rules::rule;
use type_states::{State, Stop};

impl<'a> Checker<'a> {
    /// The state with which the instruction at a place begins, where it is known to begin.
    #[tactic(auto, using(type_frames::proofs::Reached::entered_room))]
    fn enter_again(
        &self,
        alloc: Global,
        place: usize,
        at: u16,
        state: &mut State<'a>,
    ) -> Result<(), AllocError>
        requires ready { IsReady self.now }
        requires room { length state.old.locals ≡ self.now.max_locals }
        requires begins { entered (checked_of self.now) place at state.old ≡ None → ⊥ }
        ensures state { OnOk result (entered (checked_of self.now) place at state.old ≡ Some state.new) }
        ensures room { OnOk result (length state.new.locals ≡ self.now.max_locals) }
    {
        match self.enter(alloc, place, at, state) {
            Ok(()) => Ok(()),
            Err(Stop::Memory) => Err(AllocError),
            Err(Stop::Refused) => unreachable!(),
        }
    }

    /// What an instruction leaves, where its rule is known to accept the state.
    #[tactic(auto, using(type_frames::proofs::Sizes::rule_keeps_locals))]
    fn leave_again(
        &self,
        alloc: Global,
        entry: &(u16, Instr),
        state: &mut State<'a>,
    ) -> Result<(), AllocError>
        requires ready { IsReady self.now }
        requires accepts { rule_of (env_of self.now.method) entry.now.0 entry.now.1 state.old ≡ None → ⊥ }
        ensures state { OnOk result (rule_of (env_of self.now.method) entry.now.0 entry.now.1 state.old ≡ Some state.new) }
        ensures room { OnOk result (length state.new.locals ≡ length state.old.locals) }
    {
        match rule(alloc, &self.method, entry.0, &entry.1, state) {
            Ok(()) => Ok(()),
            Err(Stop::Memory) => Err(AllocError),
            Err(Stop::Refused) => unreachable!(),
        }
    }
}

/// The type state before each instruction.
#[tactic(auto, using(crate::proofs::Gathering::gathered_none))]
fn all_frames<'a>(
    alloc: Global,
    checker: &Checker<'a>,
    mut state: State<'a>,
) -> Result<Vec<MapFrame>, AllocError>
    requires ready { IsReady checker.now }
    requires room { length state.locals ≡ checker.now.max_locals }
    requires passes { AllPass (checked_of checker.now) state }
    ensures { IfOk result (λ v. typed_from (checked_of checker.now) 0 checker.now.method.instrs.now state.entry ≡ Some v.items) }
{
    let mut frames = Vec::new(alloc);
    for (place, entry) in checker.method.instrs.iter().enumerate() {
        checker.enter_again(alloc, place, entry.0, &mut state)?;
        frames.push(state.held_in(alloc, entry.0)?)?;
        checker.leave_again(alloc, entry, &mut state)?;
    }
    Ok(frames)
}

/// The type state before the instruction at an offset, if there is one.
#[tactic(auto, using(crate::proofs::Gathering::sought_none))]
fn one_frame<'a>(
    alloc: Global,
    checker: &Checker<'a>,
    mut state: State<'a>,
    at: u16,
) -> Result<Option<MapFrame>, AllocError>
    requires ready { IsReady checker.now }
    requires room { length state.locals ≡ checker.now.max_locals }
    requires passes { AllPass (checked_of checker.now) state }
    ensures { IfOk result (λ f. f ≡ find (λ x. x.at == at) (unwrap_or (typed_from (checked_of checker.now) 0 checker.now.method.instrs.now state.entry) [])) }
{
    for (place, entry) in checker.method.instrs.iter().enumerate() {
        checker.enter_again(alloc, place, entry.0, &mut state)?;
        if entry.0 == at {
            return Ok(Some(state.held_in(alloc, at)?));
        }
        checker.leave_again(alloc, entry, &mut state)?;
    }
    Ok(None)
}

/// A code with these instructions, and the state with which it begins.
fn begin_again<'a>(
    alloc: Global,
    hierarchy: &'a Hierarchy,
    tree: &'a ClassFile,
    member: &'a Member,
    code: &'a Code,
    instrs: &'a [(u16, Instr)],
) -> Result<(Checker<'a>, State<'a>), AllocError>
    requires listed { instrs_in code.now ≡ instrs.now }
    requires some { 0 < length instrs.now }
    requires rising { IsRising instrs.now }
    requires ordered { IsNonDecreasingBy (λ p. p.0) instrs.now }
    requires offsets { All (λ p. p.0 < 2 ^ 16) instrs.now }
    requires passes { CodePasses hierarchy.now tree.now member.now code.now }
    ensures { IfOk result (λ x. IsBegun (checked hierarchy.now tree.now member.now code.now) x.0 x.1) }
{
    let checker = match checker_of(alloc, hierarchy, tree, member, code, instrs) {
        Ok(checker) => checker,
        Err(MapFault::Memory) => return Err(AllocError),
        Err(MapFault::Bad(_)) => unreachable!(),
    };
    let Some(state) = checker.begin(alloc)? else {
        unreachable!();
    };
    Ok((checker, state))
}

/// The type states of a code that passes.
pub(crate) fn code_frames(
    alloc: Global,
    hierarchy: &Hierarchy,
    tree: &ClassFile,
    member: &Member,
    code: &Code,
) -> Result<Vec<MapFrame>, AllocError>
    requires formed { is_code tree.now.major tree.now.pool code.now ≡ true }
    requires passes { CodePasses hierarchy.now tree.now member.now code.now }
    ensures { IfOk result (λ v. v.items ≡ unwrap_or (typed (checked hierarchy.now tree.now member.now code.now)) []) }
{
    let instrs = instrs_of(alloc, tree, code)?;
    let (checker, state) = begin_again(alloc, hierarchy, tree, member, code, instrs.as_slice())?;
    all_frames(alloc, &checker, state)
}

/// The one before the instruction at an offset, if there is one.
pub(crate) fn code_frame(
    alloc: Global,
    hierarchy: &Hierarchy,
    tree: &ClassFile,
    member: &Member,
    code: &Code,
    at: u16,
) -> Result<Option<MapFrame>, AllocError>
    requires formed { is_code tree.now.major tree.now.pool code.now ≡ true }
    requires passes { CodePasses hierarchy.now tree.now member.now code.now }
    ensures { IfOk result (λ f. f ≡ find (λ x. x.at == at) (unwrap_or (typed (checked hierarchy.now tree.now member.now code.now)) [])) }
{
    let instrs = instrs_of(alloc, tree, code)?;
    let (checker, state) = begin_again(alloc, hierarchy, tree, member, code, instrs.as_slice())?;
    one_frame(alloc, &checker, state, at)
}
