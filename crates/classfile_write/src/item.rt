ghost use Rattle.std.specs.Prelude.{◌≡◌, ◌++◌, ℕ, Bool, true, List, flat_map, OnOk};
ghost use Rattle.std.specs.List.{list_all};
ghost use Rattle.class_tree.specs.Ranges.{are_counted};
ghost use Rattle.class_tree.specs.Spelling.{u2, counted};
ghost use Rattle.classfile_write.specs.Fits.{always_fits};

use crate::number::put_u2;
use std::alloc::{AllocError, Global};

/// A part of a class file that stands in lists.
pub trait WriteItem {
    /// Its bytes.
    ghost spells: { Self → List ℕ };

    /// Whether each of its counts and lengths has room in the bytes that spell it.
    ghost fits: { Self → Bool };

    /// Appends its bytes.
    fn put(&self, alloc: Global, out: &mut Vec<u8>) -> Result<(), AllocError>
        requires { fits self.now ≡ true }
        ensures { OnOk result (out.new.items ≡ out.old.items ++ spells self.now) };
}

impl WriteItem for u16 {
    ghost spells = { u2 };

    ghost fits = { always_fits };

    fn put(&self, _alloc: Global, out: &mut Vec<u8>) -> Result<(), AllocError> {
        put_u2(out, *self)
    }
}

/// The items, one after the other.
pub fn put_all<T: WriteItem>(
    alloc: Global,
    out: &mut Vec<u8>,
    items: &[T],
) -> Result<(), AllocError>
    requires { list_all T.fits items.now ≡ true }
    ensures { OnOk result (out.new.items ≡ out.old.items ++ flat_map T.spells items.now) }
{
    for item in items {
        item.put(alloc, out)?;
    }
    Ok(())
}

/// Their number in two bytes, and the items.
#[tactic(auto, unfolding(class_tree::specs::Spelling::counted))]
pub fn put_counted<T: WriteItem>(
    alloc: Global,
    out: &mut Vec<u8>,
    items: &[T],
) -> Result<(), AllocError>
    requires { are_counted T.fits items.now ≡ true }
    ensures { OnOk result (out.new.items ≡ out.old.items ++ counted T.spells items.now) }
{
    put_u2(out, items.len() as u16)?;
    put_all(alloc, out, items)
}
