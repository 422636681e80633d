ghost use Rattle.std.specs.Prelude.{◌≡◌, ℕ, List, [], ◌∷◌, Some, IfOk, IsSome, OnOk, not, slice_set, unwrap_or};
ghost use Rattle.class_tree.specs.declared.pool.Const.{Const};
ghost use Rattle.class_tree.specs.Tree.{text_at};
ghost use Rattle.classfile_read.specs.ClassReading.{is_among};
ghost use Rattle.classfile_read.specs.Repeats.{index_of, with_index, KnowsTexts, Stands, Remembers, OfNames, names_at};

use classfile_pool::Pool;
use jv_names::Units;
use std::alloc::{AllocError, Global};
use std::collections::{BTreeMap, BTreeSet};

/// The names and the descriptors of members that were read. One index stands for each of their texts: the first that named
/// it. So a text is looked for by its units once for each index that names it, and not once for each member.
#[derive(Drop)]
pub struct SeenNames<'p> {
    /// At each index of the pool that named a text, the index that stands for it.
    known: Vec<Option<u16>>,
    /// The index that stands for each text.
    texts: BTreeMap<&'p [u16], u16>,
    /// The indices that stand for the names and the descriptors.
    pairs: BTreeSet<(u16, u16)>,
}

/// Notes which index stands for the text at an index, where the pool has one so great.
#[tactic(auto, using(crate::proofs::Repeats::set_past))]
fn note(known: &mut Vec<Option<u16>>, index: u16, standing: u16)
    ensures { known.new.items ≡ slice_set known.old.items index (Some standing) }
{
    let place = usize::from(index);
    if place < known.len() {
        known[place] = Some(standing);
    }
}

/// The index that stands for a text, which is this one where none does yet.
#[tactic(auto, using(crate::proofs::Repeats::index_kept, crate::proofs::Repeats::index_put))]
fn index_of_text<'p>(
    texts: &mut BTreeMap<&'p [u16], u16>,
    index: u16,
    text: &'p Units,
) -> Result<u16, AllocError>
    ensures found { IfOk result (λ standing. standing ≡ unwrap_or (index_of texts.old text.now) index) }
    ensures noted { OnOk result ((other : List ℕ) → index_of texts.new other ≡ with_index (index_of texts.old) text.now index other) }
{
    match texts.get(text.as_slice()).copied() {
        Some(standing) => Ok(standing),
        None => {
            texts.insert(text.as_slice(), index)?;
            Ok(index)
        }
    }
}

/// The index that stands for the text at this index.
fn standing_index<'p>(
    known: &mut Vec<Option<u16>>,
    texts: &mut BTreeMap<&'p [u16], u16>,
    index: u16,
    text: &'p Units,
) -> Result<u16, AllocError>
    ensures { (pool : List Const) → text_at pool index ≡ Some text.now → KnowsTexts pool known.old.items (index_of texts.old)
        → IfOk result (Stands pool text.now index known.new.items (index_of texts.old) (index_of texts.new)) }
{
    if let Some(Some(standing)) = known.get(usize::from(index)) {
        return Ok(*standing);
    }
    let standing = index_of_text(texts, index, text)?;
    note(known, index, standing);
    Ok(standing)
}

impl<'p> SeenNames<'p> {
    /// What is remembered of no members.
    pub fn new(alloc: Global, pool: &Pool) -> Result<SeenNames<'p>, AllocError>
        ensures { IfOk result (λ seen. Remembers pool.now seen []) }
    {
        let known = vec![in alloc; None; pool.entries().len() + 1]?;
        Ok(SeenNames {
            known,
            texts: BTreeMap::new(alloc),
            pairs: BTreeSet::new(alloc),
        })
    }

    /// Notes the name and the descriptor of a member, by their indices, and tells whether no member before had both.
    pub fn insert(&mut self, pool: &'p Pool, name: u16, desc: u16) -> Result<bool, AllocError>
        requires named { IsSome (text_at pool.now name) }
        requires described { IsSome (text_at pool.now desc) }

        ensures told { OfNames pool.now self.old (λ earlier. IfOk result (λ first. first ≡ not (is_among (names_at pool.now name desc) earlier))) }
        ensures remembered { OfNames pool.now self.old (λ earlier. IfOk result (λ _. Remembers pool.now self.new (names_at pool.now name desc ∷ earlier))) }
    {
        let name_text = pool.text_at(name).unwrap();
        let desc_text = pool.text_at(desc).unwrap();
        let first = standing_index(&mut self.known, &mut self.texts, name, name_text)?;
        let second = standing_index(&mut self.known, &mut self.texts, desc, desc_text)?;
        Ok(self.pairs.insert((first, second))?)
    }
}
