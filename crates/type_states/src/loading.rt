//! How a state becomes one that a stack map gives.
ghost use Rattle.std.specs.Prelude.{◌≡◌, ◌+◌, ◌<◌, ◌≤◌, ◌^◌, ◌++◌, Some, All, map, reverse, replicate, drop, length, IfOk, OnOk, OnErr};
ghost use Rattle.type_frames.specs.Types.{type_words, expanded};
ghost use Rattle.type_frames.specs.StackMaps.{types_listed, stack_after, filled};
ghost use Rattle.type_frames.specs.Seen.{type_seen};
ghost use Rattle.type_states.specs.Lists.{list_at};
ghost use Rattle.type_states.specs.Given.{given_at};
ghost use Rattle.type_frames.specs.declared.vtype.VType.TheVariants as vtype;
ghost use Rattle.type_states.specs.Loading.{IsStack};

use crate::State;
use crate::accepting::type_ref;
use crate::kinds::is_long;
use crate::maps::StackMap;
use crate::node::width;
use crate::nodes::TypeLists;
use class_tree::{Const, StackMapFrame, VerificationType};
use std::alloc::{AllocError, Global};
use type_frames::VTypeRef;

fn clear(locals: &mut [VTypeRef<'_>])
    ensures { map type_seen locals.new ≡ replicate (length locals.old) vtype.Top }
{
    for t in locals.iter_mut() {
        *t = VTypeRef::Top;
    }
}

/// Sets one or two words.
fn set_words<'a>(locals: &mut [VTypeRef<'a>], at: usize, t: VTypeRef<'a>)
    requires { at + length (type_words (type_seen t)) ≤ length locals.old }
    ensures { drop at (map type_seen locals.new) ≡ type_words (type_seen t.entry) ++ drop (at + length (type_words (type_seen t.entry))) (map type_seen locals.old) }
{
    locals[at] = t;
    if is_long(t) {
        locals[at + 1] = VTypeRef::Top;
    }
}

/// Sets local variables to a list of types and `Top` behind them.
fn set_locals<'a>(locals: &mut [VTypeRef<'a>], max_locals: u16, lists: &TypeLists<'a>, place: usize)
    requires count { length locals.old ≡ max_locals }
    requires listed { place < length lists.now }
    requires room { length (expanded (list_at lists.now place)) ≤ max_locals }
    ensures { map type_seen locals.new ≡ filled max_locals (list_at lists.now place) }
{
    clear(locals);
    let mut at = place;
    let mut words = lists.words(place) as usize;
    while let Some((t, below)) = lists.last(at) {
        words -= width(t);
        set_words(locals, words, t);
        at = below;
    }
}

/// Types that a stack map lists, and how many words they take.
fn listed_stack<'a>(
    alloc: Global,
    pool: &'a [Const],
    listed: &[VerificationType],
    room: u16,
) -> Result<(Vec<VTypeRef<'a>>, u32), AllocError>
    requires { length (expanded (types_listed pool.now listed.now)) ≤ room }
    ensures { IfOk result (λ s. IsStack (types_listed pool.now listed.now) s.0.items s.1) }
{
    let mut stack = Vec::new(alloc);
    let mut words = 0;
    for one in listed {
        let t = type_ref(pool, *one);
        words += width(t) as u32;
        stack.push(t)?;
    }
    Ok((stack, words))
}

/// The operand stack that an entry lists.
fn stack_of<'a>(
    alloc: Global,
    pool: &'a [Const],
    frame: &StackMapFrame,
    room: u16,
) -> Result<(Vec<VTypeRef<'a>>, u32), AllocError>
    requires { length (expanded (stack_after pool.now frame.now)) ≤ room }
    ensures { IfOk result (λ s. IsStack (stack_after pool.now frame.now) s.0.items s.1) }
{
    match frame {
        StackMapFrame::SameLocals1StackItem { stack, .. } => listed_stack(
            alloc,
            pool,
            &[*stack],
            room,
        ),
        StackMapFrame::SameLocals1StackItemExtended { stack, .. } => listed_stack(
            alloc,
            pool,
            &[*stack],
            room,
        ),
        StackMapFrame::Full { stack, .. } => listed_stack(alloc, pool, stack.as_slice(), room),
        _ => listed_stack(alloc, pool, &[], room),
    }
}

impl<'a> StackMap<'a> {
    /// Makes a state the one that is given at a place. It allocates the operand stack anew.
    pub fn load(&self, alloc: Global, place: usize, state: &mut State<'a>) -> Result<(), AllocError>
        requires place { place < length self.now }
        requires rooms { All (λ f. length f.locals ≡ length state.old.locals) self.now }
        ensures loaded { OnOk result (given_at self.now place ≡ Some state.new) }
        ensures kept { OnErr result (state.new ≡ state.old) }
    {
        let entry = self.entries[place];
        let (stack, words) = stack_of(alloc, self.pool, entry.frame, self.max_stack)?;
        set_locals(
            state.locals.as_mut_slice(),
            self.max_locals,
            &self.lists,
            entry.locals,
        );
        state.stack = stack;
        state.words = words;
        state.this_uninit = self.lists.has_uninit_this(entry.locals);
        Ok(())
    }
}
