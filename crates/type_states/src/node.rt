ghost use Rattle.std.specs.Prelude.{◌≡◌, ◌<◌, [], MatchOption, length};
ghost use Rattle.type_frames.specs.Types.{type_words};
ghost use Rattle.type_frames.specs.Seen.{type_seen};
ghost use Rattle.type_states.specs.Lists.{list_at};
ghost use Rattle.type_states.specs.Nodes.{lists_of, IsNode, AreNodes};

use crate::kinds::is_long;
use type_frames::VTypeRef;

/// A list that is longer by one than another one.
#[derive(Clone, Copy)]
pub(crate) struct Node<'a> {
    /// Its last type.
    pub(crate) listed: VTypeRef<'a>,
    /// The place of the list without that, which is older.
    pub(crate) below: usize,
    /// How many words it takes, up to 65536.
    pub(crate) words: u32,
    /// Whether `this` is in it, not initialized.
    pub(crate) this_uninit: bool,
}

/// How many words a value of a type takes.
pub(crate) fn width(t: VTypeRef<'_>) -> usize
    ensures { result ≡ length (type_words (type_seen t.entry)) }
{
    if is_long(t) { 2 } else { 1 }
}

/// The node of a list, which the empty one, the first of all, doesn't have.
#[tactic(auto, using(crate::proofs::NodeLists::lists_count, crate::proofs::NodeLists::first_empty))]
pub(crate) fn node_of<'a>(nodes: &[Node<'a>], place: usize) -> Option<Node<'a>>
    requires within { place < length (lists_of nodes.now) }
    requires nodes { AreNodes nodes.now }
    ensures { MatchOption result (list_at (lists_of nodes.now) place ≡ []) (λ n. IsNode (lists_of nodes.now) place n) }
{
    if place == 0 {
        return None;
    }
    Some(nodes[place - 1])
}
