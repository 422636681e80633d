//! Whether types that are held one by one may be taken for those that a stack map lists.
ghost use Rattle.std.specs.Prelude.{◌≡◌, ◌<◌, ◌≤◌, ◌^◌, [], ◌&&◌, not, map, reverse, length, unwrap_or};
ghost use Rattle.class_tree.specs.Tree.{class_at};
ghost use Rattle.type_frames.specs.Types.{expanded, is_long as long};
ghost use Rattle.type_frames.specs.Assignable.{are_assignable, are_words_assignable};
ghost use Rattle.type_frames.specs.StackMaps.{type_listed, types_listed, stack_after, filled};
ghost use Rattle.type_frames.specs.Seen.{type_seen};
ghost use Rattle.type_states.specs.Lists.{list_at};

use crate::kinds::is_long;
use crate::node::width;
use crate::nodes::TypeLists;
use class_tree::{Const, StackMapFrame, VerificationType, class_at};
use type_frames::{ClassName, Hierarchy, VTypeRef, stands_for};

/// The name of the class at an index of a pool, and no units where none is there.
fn class_text(pool: &[Const], index: u16) -> &[u16]
    ensures { result.now ≡ unwrap_or (class_at pool.now index) [] }
{
    match class_at(pool, index) {
        Some(name) => name.as_slice(),
        None => &[],
    }
}

/// A type that a stack map lists. A class that the pool doesn't have has no name.
pub(crate) fn type_ref<'a>(pool: &'a [Const], listed: VerificationType) -> VTypeRef<'a>
    ensures { type_seen result ≡ type_listed pool.now listed }
{
    match listed {
        VerificationType::Top => VTypeRef::Top,
        VerificationType::Integer => VTypeRef::Integer,
        VerificationType::Long => VTypeRef::Long,
        VerificationType::Null => VTypeRef::Null,
        VerificationType::UninitializedThis => VTypeRef::UninitThis,
        VerificationType::Object(class) => VTypeRef::Object(ClassName::Named(class_text(
            pool, class,
        ))),
        VerificationType::Uninitialized(at) => VTypeRef::Uninit(at),
    }
}

/// Whether these types may be taken, word by word, for those of a list and `Top` behind them.
fn words_accept(
    hierarchy: &Hierarchy,
    lists: &TypeLists<'_>,
    place: usize,
    types: &[VTypeRef<'_>],
) -> bool
    requires listed { place < length lists.now }
    requires room { length (expanded (list_at lists.now place)) ≤ length types.now }
    requires short { length types.now < 2 ^ 16 }
    ensures { result ≡ are_assignable hierarchy.now (map type_seen types.now) (filled (length types.now) (list_at lists.now place)) }
{
    let mut at = place;
    let mut words = lists.words(place) as usize;
    while let Some((t, below)) = lists.last(at) {
        words -= width(t);
        if !stands_for(hierarchy, types[words], t) {
            return false;
        }
        at = below;
    }
    true
}

/// The same, where there may not be so many.
pub(crate) fn locals_accept(
    hierarchy: &Hierarchy,
    lists: &TypeLists<'_>,
    place: usize,
    max_locals: u16,
    types: &[VTypeRef<'_>],
) -> bool
    requires listed { place < length lists.now }
    requires room { length (expanded (list_at lists.now place)) ≤ max_locals }
    ensures { result ≡ are_assignable hierarchy.now (map type_seen types.now) (filled max_locals (list_at lists.now place)) }
{
    if types.len() != usize::from(max_locals) {
        return false;
    }
    words_accept(hierarchy, lists, place, types)
}

/// Whether a value has a second word that is not taken with the first one, for a value of the other type.
fn is_cut(from: VTypeRef<'_>, to: VTypeRef<'_>) -> bool
    ensures { result ≡ (long (type_seen from.entry) && not (long (type_seen to.entry))) }
{
    is_long(from) && !is_long(to)
}

/// Whether the types of an operand stack may be taken for these, word by word. A long may be taken for two words that can't be used.
fn listed_accept(
    hierarchy: &Hierarchy,
    pool: &[Const],
    listed: &[VerificationType],
    types: &[VTypeRef<'_>],
) -> bool
    ensures { result ≡ are_words_assignable hierarchy.now (map type_seen (reverse types.now)) (reverse (types_listed pool.now listed.now)) }
{
    let mut left = types.len();
    let mut count = listed.len();
    // Whether the second word of a long is still to be compared.
    let mut second = false;
    while count > 0 {
        count -= 1;
        let to = type_ref(pool, listed[count]);
        if second {
            if !stands_for(hierarchy, VTypeRef::Top, to) {
                return false;
            }
            second = false;
        } else {
            if left == 0 {
                return false;
            }
            left -= 1;
            let from = types[left];
            if !stands_for(hierarchy, from, to) {
                return false;
            }
            second = is_cut(from, to);
        }
    }
    left == 0 && !second
}

/// Whether the types of an operand stack may be taken for those that an entry lists.
pub(crate) fn stack_accepts(
    hierarchy: &Hierarchy,
    pool: &[Const],
    frame: &StackMapFrame,
    types: &[VTypeRef<'_>],
) -> bool
    ensures { result ≡ are_words_assignable hierarchy.now (map type_seen (reverse types.now)) (reverse (stack_after pool.now frame.now)) }
{
    match frame {
        StackMapFrame::SameLocals1StackItem { stack, .. } => listed_accept(
            hierarchy,
            pool,
            &[*stack],
            types,
        ),
        StackMapFrame::SameLocals1StackItemExtended { stack, .. } => listed_accept(
            hierarchy,
            pool,
            &[*stack],
            types,
        ),
        StackMapFrame::Full { stack, .. } => listed_accept(
            hierarchy,
            pool,
            stack.as_slice(),
            types,
        ),
        _ => listed_accept(hierarchy, pool, &[], types),
    }
}
