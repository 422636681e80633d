//! The state with which a method begins, as its descriptor lists it (4.10.1.6).
ghost use Rattle.std.specs.Prelude.{◌≡◌, ◌-◌, ◌≤◌, ◌++◌, map, length, replicate, IfOk, OnOk, IfSome};
ghost use Rattle.type_frames.specs.declared.vtype.VType.TheVariants as vtype;
ghost use Rattle.type_frames.specs.Types.{type_words, expanded};
ghost use Rattle.type_frames.specs.TypeChecks.{initial, is_uninit_list as is_uninit};
ghost use Rattle.type_frames.specs.Seen.{type_seen};
ghost use Rattle.type_verify.specs.Checkers.{checked_of};

use crate::checker::Checker;
use std::alloc::{AllocError, Global};
use type_frames::VTypeRef;
use type_states::{State, is_long};

/// Puts the words of a type behind others, a long's two.
#[tactic(auto, using(crate::proofs::Beginning::long_put, crate::proofs::Beginning::word_put))]
fn push_words<'a>(words: &mut Vec<VTypeRef<'a>>, t: VTypeRef<'a>) -> Result<(), AllocError>
    ensures { OnOk result (map type_seen words.new.items ≡ map type_seen words.old.items ++ type_words (type_seen t.entry)) }
{
    words.push(t)?;
    if is_long(t) {
        words.push(VTypeRef::Top)?;
    }
    Ok(())
}

/// Puts the words of these types behind others.
#[tactic(auto, using(crate::proofs::Beginning::put_none, crate::proofs::Beginning::put_more, crate::proofs::Beginning::put_over))]
fn push_all<'a>(words: &mut Vec<VTypeRef<'a>>, types: &[VTypeRef<'a>]) -> Result<(), AllocError>
    ensures { OnOk result (map type_seen words.new.items ≡ map type_seen words.old.items ++ expanded (map type_seen types.now)) }
{
    for t in types {
        push_words(words, *t)?;
    }
    Ok(())
}

/// Puts `Top` for each local variable behind those that are listed.
#[tactic(auto, using(crate::proofs::Beginning::pad_none, crate::proofs::Beginning::pad_more, crate::proofs::Beginning::pad_over))]
fn pad(words: &mut Vec<VTypeRef<'_>>, max_locals: u16) -> Result<(), AllocError>
    requires { length words.old.items ≤ max_locals }
    ensures { OnOk result (map type_seen words.new.items ≡ map type_seen words.old.items ++ replicate (max_locals - length words.old.items) vtype.Top) }
{
    for _ in words.len()..usize::from(max_locals) {
        words.push(VTypeRef::Top)?;
    }
    Ok(())
}

/// The words of `this` and of the parameters behind it.
#[tactic(auto, using(crate::proofs::Beginning::listed_both))]
fn words_of<'a>(
    alloc: Global,
    this: &[VTypeRef<'a>],
    parameters: &[VTypeRef<'a>],
) -> Result<Vec<VTypeRef<'a>>, AllocError>
    ensures { IfOk result (λ words. map type_seen words.items ≡ expanded (map type_seen this.now ++ map type_seen parameters.now)) }
{
    let mut words = Vec::new(alloc);
    push_all(&mut words, this)?;
    push_all(&mut words, parameters)?;
    Ok(words)
}

/// Whether `this` is to be initialized by the method.
fn is_uninit_list(this: &[VTypeRef<'_>]) -> bool
    ensures { result ≡ is_uninit (map type_seen this.now) }
{
    matches!(this, [VTypeRef::UninitThis])
}

impl<'a> Checker<'a> {
    /// The state that the descriptor gives; None for a static `<init>`, and where the locals have no room for `this` and the parameters.
    #[tactic(auto, using(crate::proofs::Beginning::begun_too_long, crate::proofs::Beginning::begun_here, crate::proofs::Beginning::begun_room))]
    pub(crate) fn begin(&self, alloc: Global) -> Result<Option<State<'a>>, AllocError>
        ensures state { IfOk result (λ s. s ≡ initial (checked_of self.now)) }
        ensures room { IfOk result (λ s. IfSome s (λ x. length x.locals ≡ self.now.max_locals)) }
    {
        let Some(this) = &self.this else {
            return Ok(None);
        };
        let mut locals = words_of(alloc, this.as_slice(), self.parameters.as_slice())?;
        if locals.len() > usize::from(self.max_locals) {
            return Ok(None);
        }
        pad(&mut locals, self.max_locals)?;
        let this_uninit = is_uninit_list(this.as_slice());
        Ok(Some(State::new(alloc, locals, this_uninit)))
    }
}
