//! The members of a class by their names and descriptors.
ghost use Rattle.std.specs.Prelude.{◌≡◌, ◌<◌, ◌^◌, ◌&&◌, false, length, position, OnOk, IfOk, bytes_eq};
ghost use Rattle.jv_names.specs.Names.{Name};
ghost use Rattle.class_tree.specs.Tree.{is_named as has_names};
ghost use Rattle.link_versions.specs.MemberIndexes.{place_by_desc, place_by_name, or_place, found_in};

use class_tree::{ClassFile, Member};
use jv_names::Units;
use std::alloc::{AllocError, Global};
use std::collections::HashMap;
use std::marker::Model;

/// The places of the members of one name, by their descriptors.
type ByDesc = HashMap<Vec<u16>, u32>;

/// The place of the first member of each name and descriptor.
#[derive(Drop)]
struct NameMap {
    names: HashMap<Vec<u16>, ByDesc>,
}

/// The places with one more, unless the descriptor has one.
fn with_place(
    alloc: Global,
    mut places: ByDesc,
    desc: &Units,
    place: u32,
) -> Result<ByDesc, AllocError>
    ensures { IfOk result (λ made. (d : Name) → place_by_desc made d ≡ or_place (place_by_desc places d) (bytes_eq desc.now d) place) }
{
    if places.contains_key(desc.as_slice()) {
        return Ok(places);
    }
    places.insert(desc.clone_in(alloc)?.into_vec(), place)?;
    Ok(places)
}

impl NameMap {
    /// The place of the first member of this name and this descriptor.
    fn find(&self, name: &Units, desc: &Units) -> Option<u32>
        ensures { result ≡ place_by_name self.now.names name.now desc.now }
    {
        self.names
            .get(name.as_slice())?
            .get(desc.as_slice())
            .copied()
    }

    /// Takes out the places of a name.
    fn taken(&mut self, alloc: Global, name: &Units) -> ByDesc
        ensures had { (d : Name) → place_by_desc result d ≡ place_by_name self.old.names name.now d }
        ensures others { (n d : Name) → bytes_eq name.now n ≡ false → place_by_name self.new.names n d ≡ place_by_name self.old.names n d }
    {
        match self.names.remove(name.as_slice()) {
            Some(places) => places,
            None => HashMap::new(alloc),
        }
    }

    /// Adds a place, unless its name and descriptor have one.
    fn put(
        &mut self,
        alloc: Global,
        name: &Units,
        desc: &Units,
        place: u32,
    ) -> Result<(), AllocError>
        ensures { OnOk result ((n d : Name) → place_by_name self.new.names n d ≡ or_place (place_by_name self.old.names n d) (bytes_eq name.now n && bytes_eq desc.now d) place) }
    {
        let places = self.taken(alloc, name);
        let places = with_place(alloc, places, desc, place)?;
        let key = name.clone_in(alloc)?.into_vec();
        self.names.insert(key, places)?;
        Ok(())
    }

    /// Adds the place of a member, unless its name and descriptor have one.
    fn put_member(
        &mut self,
        alloc: Global,
        tree: &ClassFile,
        member: &Member,
        place: u32,
    ) -> Result<(), AllocError>
        ensures { OnOk result ((n d : Name) → place_by_name self.new.names n d ≡ or_place (place_by_name self.old.names n d) (has_names tree.now.pool n d member.now) place) }
    {
        let Some(name) = tree.name_of(member) else {
            return Ok(());
        };
        let Some(desc) = tree.desc_of(member) else {
            return Ok(());
        };
        self.put(alloc, name, desc, place)
    }

    /// The map of members of a class.
    fn new(alloc: Global, tree: &ClassFile, members: &[Member]) -> Result<NameMap, AllocError>
        requires { length members.now < 2 ^ 16 }
        ensures { IfOk result (λ index. (n d : Name) → place_by_name index.names n d ≡ position (has_names tree.now.pool n d) members.now) }
    {
        let mut index = NameMap {
            names: HashMap::new(alloc),
        };
        for place in 0..members.len() {
            index.put_member(alloc, tree, &members[place], place as u32)?;
        }
        Ok(index)
    }
}

/// The place of the first member of each name and descriptor. A look-up takes the same time for every count of members.
/// Contracts see it as the list of names, and with each the list of its descriptors with their places.
#[derive(Drop)]
pub(crate) struct MemberIndex {
    map: NameMap,
}

impl Model for MemberIndex {
    ghost use Rattle.link_versions.specs.MemberIndexes.{Index, seen};

    ghost Value = { Index };

    ghost view = { λ i. seen i.map.names };
}

impl MemberIndex {
    /// The place of the first member of this name and this descriptor.
    #[tactic(auto, using(crate::proofs::Indexed::seen_finds))]
    pub(crate) fn find(&self, name: &Units, desc: &Units) -> Option<u32>
        ensures { result ≡ found_in self.now name.now desc.now }
    {
        self.map.find(name, desc)
    }

    /// The index of members of a class.
    pub(crate) fn new(
        alloc: Global,
        tree: &ClassFile,
        members: &[Member],
    ) -> Result<MemberIndex, AllocError>
        requires { length members.now < 2 ^ 16 }
        ensures { IfOk result (λ index. (n d : Name) → found_in index n d ≡ position (has_names tree.now.pool n d) members.now) }
    {
        let map = NameMap::new(alloc, tree, members)?;
        Ok(MemberIndex { map })
    }
}
