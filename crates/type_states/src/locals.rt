//! How instructions read and set local variables, and what becomes of objects that are not initialized.
ghost use Rattle.std.specs.Prelude.{◌≡◌, map, option_map, slice_get};
ghost use Rattle.std.specs.List.{list_any};
ghost use Rattle.type_frames.specs.declared.vtype.VType.TheVariants as vtype;
ghost use Rattle.type_frames.specs.RulesOfLocals.{without_long_before};
ghost use Rattle.type_frames.specs.RulesOfFields.{is_uninit_at as uninit_at, topped};
ghost use Rattle.type_frames.specs.RulesOfCalls.{with_initialized, replaced};
ghost use Rattle.type_frames.specs.Seen.{name_seen, type_seen};
ghost use Rattle.type_states.specs.Answers.{Leaves, NeverOfMemory, stored_in};

use crate::kinds::{is_long, is_same_uninit, is_uninit_at, is_uninit_this};
use crate::{State, Stop};
use type_frames::{ClassName, VTypeRef};

/// Ends a long whose second word is at this place.
#[tactic(auto, using(crate::proofs::Stores::long_ended, crate::proofs::Stores::no_long, crate::proofs::Stores::long_past, crate::proofs::Stores::long_before_none))]
fn end_long_before(locals: &mut [VTypeRef<'_>], place: usize)
    ensures { map type_seen locals.new ≡ without_long_before place (map type_seen locals.old) }
{
    if place > 0 && place <= locals.len() && is_long(locals[place - 1]) {
        locals[place - 1] = VTypeRef::Top;
    }
}

/// Gives each of the types that is this uninitialized object the type that it has now.
#[tactic(auto, using(crate::proofs::Changes::replaced_by_write, crate::proofs::Changes::replaced_as_is, crate::proofs::Changes::changed_all))]
fn replace<'a>(types: &mut [VTypeRef<'a>], uninit: VTypeRef<'a>, made: VTypeRef<'a>)
    ensures { map type_seen types.new ≡ map (replaced (type_seen uninit.entry) (type_seen made.entry)) (map type_seen types.old) }
{
    for i in 0..types.len() {
        if is_same_uninit(uninit, types[i]) {
            types[i] = made;
        }
    }
}

/// Gives `Top` to each of the types that the `new` at this offset made.
#[tactic(auto, using(crate::proofs::Changes::topped_by_write, crate::proofs::Changes::topped_as_is, crate::proofs::Changes::changed_all))]
fn end_made(types: &mut [VTypeRef<'_>], at: u16)
    ensures { map type_seen types.new ≡ map (topped at) (map type_seen types.old) }
{
    for i in 0..types.len() {
        if is_uninit_at(at, types[i]) {
            types[i] = VTypeRef::Top;
        }
    }
}

impl<'a> State<'a> {
    /// The type at a place of the local variables.
    pub fn local(&self, place: u16) -> Option<VTypeRef<'a>>
        ensures { option_map type_seen result ≡ slice_get self.now.locals place }
    {
        self.locals.get(usize::from(place)).copied()
    }

    /// Sets the local variable at a place: a long takes the next one too, and a long that this cuts through ends.
    pub fn store(&mut self, place: u16, t: VTypeRef<'a>) -> Result<(), Stop>
        ensures leaves { Leaves result self.new (stored_in place (type_seen t.entry) self.old) }
        ensures never { NeverOfMemory result }
    {
        let place = usize::from(place);
        let last = if is_long(t) { place + 1 } else { place };
        if last >= self.locals.len() {
            return Err(Stop::Refused);
        }
        end_long_before(self.locals.as_mut_slice(), place);
        self.locals[place] = t;
        if is_long(t) {
            self.locals[last] = VTypeRef::Top;
        }
        Ok(())
    }

    /// An object is of the class that it was made for, wherever it is: its `<init>` has been called.
    pub fn initialize(&mut self, uninit: VTypeRef<'a>, class: ClassName<'a>)
        ensures { self.new ≡ with_initialized (type_seen uninit.entry) (vtype.Object (name_seen class.entry)) self.old }
    {
        let made = VTypeRef::Object(class);
        replace(self.locals.as_mut_slice(), uninit, made);
        replace(self.stack.as_mut_slice(), uninit, made);
        self.this_uninit = self.this_uninit && !is_uninit_this(uninit);
    }

    /// Whether the stack has an object that the `new` at this offset made.
    pub fn has_uninit(&self, at: u16) -> bool
        ensures { result ≡ list_any (uninit_at at) self.now.stack }
    {
        self.stack.iter().any(|t| is_uninit_at(at, *t))
    }

    /// What an earlier `new` at this offset made can't be used any more in local variables.
    pub fn forget(&mut self, at: u16)
        ensures { self.new ≡ record self.old { locals = map (topped at) self.old.locals } }
    {
        end_made(self.locals.as_mut_slice(), at);
    }
}
