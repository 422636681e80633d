//! States and the entries of a stack map as they are given out, with names of their own.
ghost use Rattle.std.specs.Prelude.{◌≡◌, ◌<◌, Some, map, length, slice_get, IfOk};
ghost use Rattle.type_frames.specs.Seen.{type_seen};
ghost use Rattle.type_frames.specs.States.{held};

use crate::State;
use crate::maps::StackMap;
use sqlite_items::Items;
use std::alloc::{AllocError, Global};
use type_frames::{MapFrame, VType, VTypeRef};

fn types_held(alloc: Global, types: &[VTypeRef<'_>]) -> Result<Items<VType>, AllocError>
    ensures { IfOk result (λ held. held ≡ map type_seen types.now) }
{
    let mut held = Vec::new(alloc);
    for t in types {
        held.push(t.held_in(alloc)?)?;
    }
    Ok(Items::from_vec(held))
}

/// So many words of local variables, none of which can be used.
fn tops<'a>(alloc: Global, max_locals: u16) -> Result<Vec<VTypeRef<'a>>, AllocError>
    ensures { IfOk result (λ words. length words.items ≡ max_locals) }
{
    let mut words = Vec::new(alloc);
    for _ in 0..usize::from(max_locals) {
        words.push(VTypeRef::Top)?;
    }
    Ok(words)
}

impl State<'_> {
    /// The state as the one before the instruction at an offset, in bytes.
    #[tactic(auto, using(crate::proofs::Given::stack_given))]
    pub fn held_in(&self, alloc: Global, at: u16) -> Result<MapFrame, AllocError>
        ensures { IfOk result (λ f. f ≡ held at self.now) }
    {
        let locals = types_held(alloc, self.locals.as_slice())?;
        let stack = types_held(alloc, self.stack.as_slice())?;
        Ok(MapFrame {
            at,
            locals,
            stack,
            this_uninit: self.this_uninit,
        })
    }
}

impl<'a> StackMap<'a> {
    /// How many states it gives.
    pub fn len(&self) -> usize
        ensures { result ≡ length self.now }
    {
        self.entries.len()
    }

    /// The state that is given at a place, counted from 0. It takes the memory of that one and of a working state.
    pub fn frame(&self, alloc: Global, place: usize) -> Result<MapFrame, AllocError>
        requires { place < length self.now }
        ensures { IfOk result (λ f. slice_get self.now place ≡ Some f) }
    {
        let entry = self.entries[place];
        let mut state = State::new(alloc, tops(alloc, self.max_locals)?, false);
        self.load(alloc, place, &mut state)?;
        state.held_in(alloc, entry.at)
    }
}
