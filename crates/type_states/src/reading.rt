//! How a stack map is read (4.7.4).
ghost use Rattle.std.specs.Prelude.{◌≡◌, ◌<◌, ◌≤◌, ◌^◌, ◌++◌, ◌∷◌, [], pos, All, IsTrue, IfOk, OnOk, IfSome, MatchOption, None, false, map, min, length, nat_le, option_map};
ghost use Rattle.std.specs.List.Sorted.{IsNonDecreasingBy};
ghost use Rattle.class_code.specs.Listing.{begins};
ghost use Rattle.type_frames.specs.Types.{expanded};
ghost use Rattle.type_frames.specs.StackMaps.{type_listed, types_listed, delta, offset_after, chop_count, added, locals_after, stack_after, frames_from};
ghost use Rattle.type_frames.specs.Seen.{type_seen};
ghost use Rattle.type_states.specs.Lists.{list_at, without_last, IsPut, IsGrown};
ghost use Rattle.type_states.specs.Reading.{bounds_of, Reads, IsListed, IsFound};

use crate::accepting::type_ref;
use crate::entry::Entry;
use crate::maps::StackMap;
use crate::node::width;
use crate::nodes::TypeLists;
use class_code::{Instr, begins_at};
use class_tree::{Appended, Chopped, Const, StackMapFrame, VerificationType};
use std::alloc::{AllocError, Global};
use type_frames::{MapFault, VTypeRef};

/// What the stack map of a method is read against: the constant pool, the words of its locals and of its stack, and its
/// instructions.
#[derive(Clone, Copy)]
pub struct MapBounds<'a, 'i> {
    pub pool: &'a [Const],
    pub max_locals: u16,
    pub max_stack: u16,
    pub instrs: &'i [(u16, Instr)],
}

/// Puts types behind those of a list, and answers the place of the list with them.
fn put_seen<'a>(
    lists: &mut TypeLists<'a>,
    place: usize,
    types: &[VTypeRef<'a>],
) -> Result<usize, AllocError>
    requires { place < length lists.old }
    ensures { IfOk result (λ at. IsPut lists.old lists.new place (map type_seen types.now) at) }
{
    let mut at = place;
    for t in types {
        at = lists.put(at, *t)?;
    }
    Ok(at)
}

/// The same of types that a stack map lists.
fn put_listed<'a>(
    lists: &mut TypeLists<'a>,
    place: usize,
    pool: &'a [Const],
    types: &[VerificationType],
) -> Result<usize, AllocError>
    requires { place < length lists.old }
    ensures { IfOk result (λ at. IsPut lists.old lists.new place (types_listed pool.now types.now) at) }
{
    let mut at = place;
    for listed in types {
        at = lists.put(at, type_ref(pool, *listed))?;
    }
    Ok(at)
}

fn put_added<'a>(
    lists: &mut TypeLists<'a>,
    place: usize,
    pool: &'a [Const],
    more: Appended,
) -> Result<usize, AllocError>
    requires { place < length lists.old }
    ensures { IfOk result (λ at. IsPut lists.old lists.new place (types_listed pool.now (added more)) at) }
{
    match more {
        Appended::One(first) => put_listed(lists, place, pool, &[first]),
        Appended::Two(first, second) => put_listed(lists, place, pool, &[first, second]),
        Appended::Three(first, second, third) => put_listed(
            lists,
            place,
            pool,
            &[first, second, third],
        ),
    }
}

fn chop_count(count: Chopped) -> usize
    ensures { result ≡ chop_count count }
{
    match count {
        Chopped::One => 1,
        Chopped::Two => 2,
        Chopped::Three => 3,
    }
}

/// The place of a list without its last types, if it has so many.
fn chopped(lists: &TypeLists<'_>, place: usize, count: usize) -> Option<usize>
    requires { place < length lists.now }
    ensures value { option_map (list_at lists.now) result ≡ without_last count (list_at lists.now place) }
    ensures within { IfSome result (λ at. at < length lists.now) }
{
    let mut at = place;
    for _ in 0..count {
        let (_, below) = lists.last(at)?;
        at = below;
    }
    Some(at)
}

/// The place of the list of local variables that an entry lists, from that of those listed before (4.7.4). There is none where it
/// drops more than there are.
fn locals_after<'a>(
    lists: &mut TypeLists<'a>,
    before: usize,
    pool: &'a [Const],
    entry: &StackMapFrame,
) -> Result<Option<usize>, AllocError>
    requires { before < length lists.old }
    ensures { IfOk result (IsListed (locals_after pool.now entry.now (list_at lists.old before)) lists.old lists.new) }
{
    match entry {
        StackMapFrame::Chop { count, .. } => Ok(chopped(lists, before, chop_count(*count))),
        StackMapFrame::Append { locals, .. } => Ok(Some(put_added(lists, before, pool, *locals)?)),
        StackMapFrame::Full { locals, .. } => {
            let empty = lists.empty();
            Ok(Some(put_listed(lists, empty, pool, locals.as_slice())?))
        }
        _ => Ok(Some(before)),
    }
}

/// Whether types take at most so many words.
fn fits(pool: &[Const], types: &[VerificationType], room: u16) -> bool
    ensures { result ≡ nat_le (length (expanded (types_listed pool.now types.now))) room }
{
    let mut left = usize::from(room);
    for listed in types {
        let need = width(type_ref(pool, *listed));
        if left < need {
            return false;
        }
        left -= need;
    }
    true
}

/// Whether the operand stack that an entry lists takes at most so many words.
fn stack_fits(pool: &[Const], entry: &StackMapFrame, room: u16) -> bool
    ensures { result ≡ nat_le (length (expanded (stack_after pool.now entry.now))) room }
{
    match entry {
        StackMapFrame::SameLocals1StackItem { stack, .. } => fits(pool, &[*stack], room),
        StackMapFrame::SameLocals1StackItemExtended { stack, .. } => fits(pool, &[*stack], room),
        StackMapFrame::Full { stack, .. } => fits(pool, stack.as_slice(), room),
        _ => fits(pool, &[], room),
    }
}

fn delta(entry: &StackMapFrame) -> u16
    ensures { result ≡ delta entry.now }
{
    match entry {
        StackMapFrame::Same { delta } => u16::from(delta.value()),
        StackMapFrame::SameLocals1StackItem { delta, .. } => u16::from(delta.value()),
        StackMapFrame::SameLocals1StackItemExtended { delta, .. } => *delta,
        StackMapFrame::Chop { delta, .. } => *delta,
        StackMapFrame::SameExtended { delta } => *delta,
        StackMapFrame::Append { delta, .. } => *delta,
        StackMapFrame::Full { delta, .. } => *delta,
    }
}

fn offset_after(last: Option<u16>, entry: &StackMapFrame) -> u32
    ensures { result ≡ offset_after last entry.now }
{
    match last {
        None => u32::from(delta(entry)),
        Some(before) => u32::from(before) + u32::from(delta(entry)) + 1,
    }
}

/// The offset, if an instruction begins there, so that it is a `u16`.
#[tactic(auto, using(crate::proofs::Begun::none_begun))]
fn begun_at(instrs: &[(u16, Instr)], at: u32) -> Option<u16>
    requires rising { IsNonDecreasingBy (λ p. p.0) instrs.now }
    requires offsets { All (λ p. p.0 < 2 ^ 16) instrs.now }
    ensures { MatchOption result (begins instrs.now (pos at) ≡ false) (λ o. (o ≡ at) × IsTrue (begins instrs.now (pos at))) }
{
    match u16::try_from(at) {
        Ok(at) if begins_at(instrs, at) => Some(at),
        _ => None,
    }
}

/// What is held of the next entry, if it is a good one.
fn entry_after<'a>(
    lists: &mut TypeLists<'a>,
    bounds: MapBounds<'a, '_>,
    last: Option<u16>,
    before: usize,
    entry: &'a StackMapFrame,
) -> Result<Option<Entry<'a>>, AllocError>
    requires rising { IsNonDecreasingBy (λ p. p.0) bounds.instrs.now }
    requires offsets { All (λ p. p.0 < 2 ^ 16) bounds.instrs.now }
    requires listed { before < length lists.old }
    ensures { IfOk result (IsFound (bounds_of bounds.entry) last (list_at lists.old before) entry.now lists.old lists.new) }
{
    let Some(locals) = locals_after(lists, before, bounds.pool, entry)? else {
        return Ok(None);
    };
    let Some(at) = begun_at(bounds.instrs, offset_after(last, entry)) else {
        return Ok(None);
    };
    if lists.words(locals) > u32::from(bounds.max_locals) {
        return Ok(None);
    }
    if !stack_fits(bounds.pool, entry, bounds.max_stack) {
        return Ok(None);
    }
    Ok(Some(Entry {
        at,
        locals,
        frame: entry,
    }))
}

fn keep<'a>(entries: &mut Vec<Entry<'a>>, entry: Entry<'a>) -> Result<(), AllocError>
    ensures { OnOk result (entries.new.items ≡ entries.old.items ++ entry.entry ∷ []) }
{
    entries.push(entry)?;
    Ok(())
}

impl<'a> StackMap<'a> {
    /// The states that entries stand for (4.7.4 and 4.10.1.4), from the local variables that are listed before the first one: `this`
    /// and the parameters.
    ///
    /// `Bad` comes exactly where an entry is bad, with the place of the first one. It takes time for each entry and each type that
    /// is listed, and to find an instruction by halving.
    pub fn read(
        alloc: Global,
        bounds: MapBounds<'a, '_>,
        first: &[VTypeRef<'a>],
        entries: &'a [StackMapFrame],
    ) -> Result<StackMap<'a>, MapFault>
        requires rising { IsNonDecreasingBy (λ p. p.0) bounds.instrs.now }
        requires offsets { All (λ p. p.0 < 2 ^ 16) bounds.instrs.now }
        ensures value { Reads result (frames_from (bounds_of bounds.entry) 0 None (map type_seen first.now) entries.now) }
        ensures rooms { IfOk result (All (λ f. length f.locals ≡ bounds.entry.max_locals)) }
    {
        let mut lists = TypeLists::new(alloc);
        let mut found = Vec::new(alloc);
        let mut before = put_seen(&mut lists, 0, first)?;
        let mut last = None;
        for (place, entry) in entries.iter().enumerate() {
            let Some(next) = entry_after(&mut lists, bounds, last, before, entry)? else {
                return Err(MapFault::Bad(place));
            };
            last = Some(next.at);
            before = next.locals;
            keep(&mut found, next)?;
        }
        Ok(StackMap {
            pool: bounds.pool,
            max_locals: bounds.max_locals,
            max_stack: bounds.max_stack,
            lists,
            entries: found,
        })
    }
}
