//! Lists of types that share what they begin with, as those of the local variables do that the entries of a stack map list.
ghost use Rattle.std.specs.Prelude.{◌≡◌, ◌<◌, [], ◌∷◌, MatchOption, IfOk, OnErr, length};
ghost use Rattle.std.specs.List.{list_any};
ghost use Rattle.type_frames.specs.Types.{is_uninit_this as uninit_this};
ghost use Rattle.type_frames.specs.Seen.{type_seen};
ghost use Rattle.type_states.specs.Lists.{list_at, words_counted, IsLast, IsPut};

use crate::kinds::is_uninit_this;
use crate::node::{Node, node_of, width};
use std::alloc::{AllocError, Global};
use std::marker::Model;
use type_frames::VTypeRef;

/// Lists of types by their places, of which the first one is empty. Each takes the memory of one type.
#[derive(Drop)]
pub(crate) struct TypeLists<'a> {
    nodes: Vec<Node<'a>>,
}

impl<'a> Model for TypeLists<'a> {
    ghost use Rattle.std.specs.Prelude.{List};
    ghost use Rattle.type_frames.specs.declared.vtype.VType.{VType};

    ghost Value = { List (List VType) };

    ghost use Rattle.type_states.specs.Nodes.{lists_of, AreNodes};

    ghost view = { λ l. lists_of l.nodes.items };

    ghost invariant = { λ l. AreNodes l.nodes.items };
}

impl<'a> TypeLists<'a> {
    ghost use Rattle.type_states.specs.Nodes.{IsOver};

    pub(crate) fn new(alloc: Global) -> TypeLists<'a>
        ensures { result ≡ [] ∷ [] }
    {
        TypeLists {
            nodes: Vec::new(alloc),
        }
    }

    /// The place of the empty list.
    #[tactic(auto, using(crate::proofs::NodeLists::lists_count, crate::proofs::NodeLists::first_empty))]
    pub(crate) fn empty(&self) -> usize
        ensures within { result < length self.now }
        ensures none { list_at self.now result ≡ [] }
    {
        let _nodes = &self.nodes;
        0
    }

    /// The last type of a list, and the place of the list without it.
    pub(crate) fn last(&self, place: usize) -> Option<(VTypeRef<'a>, usize)>
        requires { place < length self.now }
        ensures { MatchOption result (list_at self.now place ≡ []) (λ p. IsLast self.now place (type_seen p.0) p.1) }
    {
        let node = node_of(self.nodes.as_slice(), place)?;
        Some((node.listed, node.below))
    }

    /// How many words a list takes, up to 65536.
    pub(crate) fn words(&self, place: usize) -> u32
        requires { place < length self.now }
        ensures { result ≡ words_counted (list_at self.now place) }
    {
        match node_of(self.nodes.as_slice(), place) {
            Some(node) => node.words,
            None => 0,
        }
    }

    /// Whether a list has `this`, not initialized.
    pub(crate) fn has_uninit_this(&self, place: usize) -> bool
        requires { place < length self.now }
        ensures { result ≡ list_any uninit_this (list_at self.now place) }
    {
        match node_of(self.nodes.as_slice(), place) {
            Some(node) => node.this_uninit,
            None => false,
        }
    }

    #[tactic(auto, using(crate::proofs::Words::counted_push, crate::proofs::Words::uninit_push))]
    fn over(&self, place: usize, t: VTypeRef<'a>) -> Node<'a>
        requires { place < length self.now }
        ensures { IsOver self.now place (type_seen t.entry) result }
    {
        Node {
            listed: t,
            below: place,
            words: (self.words(place) + width(t) as u32).min(65536),
            this_uninit: self.has_uninit_this(place) || is_uninit_this(t),
        }
    }

    /// Makes a list of one and a type behind it, and answers its place.
    pub(crate) fn put(&mut self, place: usize, t: VTypeRef<'a>) -> Result<usize, AllocError>
        requires { place < length self.old }
        ensures made { IfOk result (λ at. IsPut self.old self.new place (type_seen t.entry ∷ []) at) }
        ensures kept { OnErr result (self.new ≡ self.old) }
    {
        let node = self.over(place, t);
        self.nodes.push(node)?;
        Ok(self.nodes.len())
    }
}
