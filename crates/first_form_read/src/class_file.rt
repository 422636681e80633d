ghost use Rattle.std.specs.Prelude.{◌≡◌, ◌+◌, ◌≤◌, ◌<◌, ◌^◌, ◌↔◌, true, false, IsTrue, IfOk, IfSome, length};
ghost use Rattle.std.specs.List.{list_all};
ghost use Rattle.jv_names.specs.Names.{is_visible};
ghost use Rattle.first_form.specs.Instructions.{instr_at, size, NamesKnown};
ghost use Rattle.first_form.specs.ClassFiles.{is_own_name as names_own};
ghost use Rattle.first_form_read.specs.Kept.{AcceptsCode, accepted_class};

use crate::base_set::is_base;
use crate::listing::Listing;
use first_form::Instr;
use jv_names::{Units, is_class_name};
use std::alloc::{AllocError, Global};
use std::marker::Model;

/// A class of the accepted form: a `main` alone, which prints sums, differences and products of small ints. Contracts see
/// it as its name in internal form, and the bytes of its `main`'s code (JVM specification 4.1, 4.2.1 and 4.7.3).
#[derive(Drop)]
pub struct ClassFile {
    name: Units,
    code: Vec<u8>,
    listing: Listing,
}

impl Model for ClassFile {
    ghost use Rattle.first_form.specs.ClassFiles.{MainClass};
    ghost use Rattle.first_form_read.specs.Kept.{IsKept};

    ghost Value = { MainClass };

    ghost view = { λ c. record { name = c.name; code = c.code.items } };

    ghost invariant = { λ c. IsKept c.name c.code.items c.listing };
}

/// Whether a text is ASCII that shows.
fn is_visible_text(text: &[u8]) -> bool
    ensures { result ≡ list_all is_visible text.now }
{
    text.iter().all(|byte| *byte >= 0x21 && *byte <= 0x7e)
}

/// Whether a name is visible ASCII and a class's of its own.
fn is_own_name(name: &[u8]) -> bool
    ensures { result ≡ names_own name.now }
{
    name.len() < 65536 && is_visible_text(name) && is_class_name(name) && !is_base(name)
}

/// The instructions of a code that is accepted: of 1 to 65535 bytes, and running on three entries of the operand stack.
fn own_listing(alloc: Global, code: &[u8]) -> Result<Option<Listing>, AllocError>
    ensures { IfOk result (AcceptsCode code.now) }
{
    if code.is_empty() || code.len() >= 65536 {
        return Ok(None);
    }
    let Some(listing) = Listing::decode(alloc, code)? else {
        return Ok(None);
    };
    if listing.fits(alloc)? {
        Ok(Some(listing))
    } else {
        Ok(None)
    }
}

impl ClassFile {
    /// The class of this name and this code, where both are accepted. Only memory that runs out is an error.
    pub(crate) fn accept(
        alloc: Global,
        name: &[u8],
        code: &[u8],
    ) -> Result<Option<ClassFile>, AllocError>
        ensures { IfOk result (λ c. c ≡ accepted_class name.now code.now) }
    {
        if !is_own_name(name) {
            return Ok(None);
        }
        let Some(listing) = own_listing(alloc, code)? else {
            return Ok(None);
        };
        Ok(Some(ClassFile {
            name: Units::from_ascii(alloc, name)?,
            code: code.to_vec(alloc)?,
            listing,
        }))
    }

    /// The class's name in internal form, as `java/lang/Object` (JVM specification 4.2.1).
    pub fn name(&self) -> &Units
        ensures same { result.now ≡ self.now.name }
        ensures named { names_own self.now.name ≡ true }
    {
        &self.name
    }

    /// The bytes of the code of `main` (JVM specification 4.7.3).
    pub fn code(&self) -> &[u8]
        ensures { result.now ≡ self.now.code }
    {
        &self.code
    }

    /// The instruction that begins at an offset of the code in bytes (JVM specification 4.9.1). It is one look-up,
    /// whatever the code's length.
    pub fn instr_at(&self, pc: u16) -> Option<Instr>
        ensures same { result ≡ instr_at self.now.code pc }

        // It ends within the code, whose offsets fit 16 bits.
        ensures within { IfSome result (λ i. pc + size i ≤ length self.now.code) }
        ensures short { length self.now.code < 2 ^ 16 }

        // It names an entry of the pool that it may.
        ensures names { IfSome result NamesKnown }
    {
        self.listing.get(pc)
    }

    /// A copy.
    pub fn clone_in(&self, alloc: Global) -> Result<ClassFile, AllocError>
        ensures { IfOk result (λ c. c ≡ self.now) }
    {
        Ok(ClassFile {
            name: self.name.clone_in(alloc)?,
            code: self.code.as_slice().to_vec(alloc)?,
            listing: self.listing.clone_in(alloc)?,
        })
    }

    /// Whether both have one name and one code.
    pub fn same(&self, other: &ClassFile) -> bool
        ensures { IsTrue result ↔ (self.now ≡ other.now) }
    {
        self.name.same(&other.name) && self.code.as_slice() == other.code.as_slice()
    }
}
