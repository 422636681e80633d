ghost use Rattle.std.specs.Prelude.{◌≡◌, ◌==◌, ◌<◌, false, find, length, slice_get, IfSome};
ghost use Rattle.std.specs.Option.{option_map_or, option_and_then};
ghost use Rattle.type_frames.specs.TypeChecks.{is_state_assignable, thrown};
ghost use Rattle.type_states.specs.Given.{given_at};

use crate::State;
use crate::accepting::{locals_accept, stack_accepts};
use crate::entry::Entry;
use crate::nodes::TypeLists;
use class_tree::Const;
use std::marker::Model;
use type_frames::{ClassName, Hierarchy, VTypeRef};

/// The states of a stack map (4.7.4 and 4.10.1.4), in the order of their offsets, held as the map lists them: it takes memory for
/// each entry, and for each type of a local variable that an entry lists itself.
#[derive(Drop)]
pub struct StackMap<'a> {
    pub(crate) pool: &'a [Const],
    pub(crate) max_locals: u16,
    pub(crate) max_stack: u16,
    pub(crate) lists: TypeLists<'a>,
    pub(crate) entries: Vec<Entry<'a>>,
}

impl<'a> Model for StackMap<'a> {
    ghost use Rattle.std.specs.Prelude.{List};
    ghost use Rattle.type_frames.specs.declared.frame.MapFrame.{MapFrame};

    ghost Value = { List MapFrame };

    ghost use Rattle.type_states.specs.Maps.{frames_held, IsMap};

    ghost view = { λ m. frames_held m.pool.now m.max_locals m.lists m.entries.items };

    ghost invariant = { λ m. IsMap m.pool.now m.max_locals m.max_stack m.lists m.entries.items };
}

impl<'a> StackMap<'a> {
    /// The place of the state that is given at an offset, by halving.
    pub fn find(&self, at: u16) -> Option<usize>
        ensures found { option_and_then (λ place. slice_get self.now place) result ≡ find (λ f. f.at == at) self.now }
        ensures within { IfSome result (λ place. place < length self.now) }
    {
        self.entries
            .binary_search_by_key(&at, |entry| entry.at)
            .ok()
    }

    /// Whether this state may be taken for the one at a place (4.10.1.4), which is none past the last one.
    pub fn accepts(&self, hierarchy: &Hierarchy, place: usize, state: &State<'_>) -> bool
        ensures { result ≡ option_map_or (is_state_assignable hierarchy.now state.now) (given_at self.now place) false }
    {
        let Some(entry) = self.entries.get(place) else {
            return false;
        };
        let locals = state.locals.as_slice();
        locals_accept(
            hierarchy,
            &self.lists,
            entry.locals,
            self.max_locals,
            locals,
        ) && stack_accepts(hierarchy, self.pool, entry.frame, state.stack.as_slice())
            && (!state.this_uninit || self.lists.has_uninit_this(entry.locals))
    }

    /// Whether what a handler begins with that catches an object of this class after this state may be taken for the one at a place
    /// (4.10.1.6).
    pub fn accepts_thrown(
        &self,
        hierarchy: &Hierarchy,
        place: usize,
        state: &State<'_>,
        class: &[u16],
    ) -> bool
        ensures { result ≡ option_map_or (is_state_assignable hierarchy.now (thrown class.now state.now)) (given_at self.now place) false }
    {
        let Some(entry) = self.entries.get(place) else {
            return false;
        };
        let locals = state.locals.as_slice();
        let stack = [VTypeRef::Object(ClassName::Named(class))];
        locals_accept(
            hierarchy,
            &self.lists,
            entry.locals,
            self.max_locals,
            locals,
        ) && stack_accepts(hierarchy, self.pool, entry.frame, &stack)
            && (!state.this_uninit || self.lists.has_uninit_this(entry.locals))
    }
}
