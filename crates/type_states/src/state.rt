ghost use Rattle.std.specs.Prelude.{◌≡◌, [], map};
ghost use Rattle.type_frames.specs.Seen.{type_seen};

use std::alloc::Global;
use std::marker::Model;
use type_frames::VTypeRef;

/// The type state before an instruction (4.10.1.4), while the code is gone through: the types of the local variables, by words, those
/// of the operand stack, and whether `this` is not initialized yet. Contracts see the top of the stack first.
#[derive(Drop)]
pub struct State<'a> {
    pub(crate) locals: Vec<VTypeRef<'a>>,
    pub(crate) stack: Vec<VTypeRef<'a>>,
    pub(crate) words: u32,
    pub(crate) this_uninit: bool,
}

impl<'a> Model for State<'a> {
    ghost use Rattle.type_frames.specs.States.{State as TypeState};
    ghost use Rattle.type_states.specs.Holding.{state_held, counts_words};

    ghost Value = { TypeState };

    ghost view = { λ s. state_held s.locals.items s.stack.items s.this_uninit };

    ghost invariant = { λ s. counts_words s.stack.items s.words };
}

impl<'a> State<'a> {
    /// A state with an empty operand stack.
    pub fn new(alloc: Global, locals: Vec<VTypeRef<'a>>, this_uninit: bool) -> State<'a>
        ensures { result ≡ record { locals = map type_seen locals.entry.items; stack = []; this_uninit = this_uninit } }
    {
        State {
            locals,
            stack: Vec::new(alloc),
            words: 0,
            this_uninit,
        }
    }

    /// Whether the method is an `<init>` that has not called another one yet, on some way to here.
    pub fn is_this_uninit(&self) -> bool
        ensures { result ≡ self.now.this_uninit }
    {
        self.this_uninit
    }
}
