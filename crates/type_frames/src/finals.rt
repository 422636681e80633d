//! What may not be overridden or extended (4.10.1.5).
ghost use Rattle.std.specs.Prelude.{◌≡◌};
ghost use Rattle.std.specs.List.{list_any};
ghost use Rattle.type_frames.specs.Hierarchies.{is_final as final_class, is_signature as has_signature, has_final as class_has_final, chain};

use crate::assigning::superclass_of;
use crate::{Hierarchy, Signature};
use jv_names::Units;

/// Whether a known final class has this name.
pub fn is_final(hierarchy: &Hierarchy, name: &Units) -> bool
    ensures { result ≡ final_class hierarchy.now name.now }
{
    match hierarchy.named(name.as_slice()) {
        Some(class) => class.is_final,
        None => false,
    }
}

/// Whether a method has this name and this descriptor.
fn is_signature(method: &Signature, name: &[u16], desc: &[u16]) -> bool
    ensures { result ≡ has_signature name.now desc.now method.now }
{
    method.name.as_slice() == name && method.desc.as_slice() == desc
}

/// Whether one of these methods has this name and this descriptor.
fn is_listed(methods: &[Signature], name: &[u16], desc: &[u16]) -> bool
    ensures { result ≡ list_any (has_signature name.now desc.now) methods.now }
{
    methods
        .iter()
        .any(|method| is_signature(method, name, desc))
}

/// Whether a known class has a final method of this name and this descriptor.
fn has_final(hierarchy: &Hierarchy, class: &[u16], name: &[u16], desc: &[u16]) -> bool
    ensures { result ≡ class_has_final hierarchy.now name.now desc.now class.now }
{
    match hierarchy.named(class) {
        Some(class) => is_listed(class.final_methods.as_slice(), name, desc),
        None => false,
    }
}

/// Whether a class or one above it has a final method of this name and this descriptor. The walk goes over at most as many
/// superclasses as there are classes.
#[tactic(auto, using(crate::proofs::Walks::chain_more, crate::proofs::Walks::chain_found, crate::proofs::Walks::chain_over, crate::proofs::Walks::chain_last))]
pub fn has_final_above(hierarchy: &Hierarchy, class: &Units, name: &[u16], desc: &[u16]) -> bool
    ensures { result ≡ list_any (class_has_final hierarchy.now name.now desc.now) (chain hierarchy.now class.now) }
{
    let mut above = class.as_slice();
    for _ in 0..hierarchy.len() {
        if has_final(hierarchy, above, name, desc) {
            return true;
        }
        match superclass_of(hierarchy, above) {
            Some(parent) => above = parent,
            None => return false,
        }
    }
    has_final(hierarchy, above, name, desc)
}
