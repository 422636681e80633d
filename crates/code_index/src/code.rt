ghost use Rattle.std.specs.Prelude.{◌≡◌, ◌<◌, ◌^◌, None, Some, IfOk, IfNone, IfSome, length, slice_get};
ghost use Rattle.std.specs.Option.{option_map};
ghost use Rattle.class_code.specs.Listing.{IsRising};
ghost use Rattle.class_code.specs.Lookups.{instr_at, following};
ghost use Rattle.code_index.specs.Indexes.{AreBelow, ArePlaced, IsPlaceOf};

use class_code::Instr;
use std::alloc::{AllocError, Global};
use std::marker::Model;

/// The instructions of a method with their offsets in bytes (JVM specification 4.7.3), which contracts see as their list.
#[derive(Drop)]
pub struct Code {
    instrs: Vec<(u16, Instr)>,
    /// At the offset of each instruction its place in the list. What stands at other offsets is not looked at.
    places: Vec<u16>,
}

impl Model for Code {
    ghost use Rattle.std.specs.Prelude.{ℕ, List};
    ghost use Rattle.class_code.specs.declared.instr.Instr.{Instr as OneInstr};
    ghost use Rattle.code_index.specs.Indexes.{IsIndexed};

    ghost Value = { List (ℕ × OneInstr) };

    ghost view = { λ c. c.instrs.items };

    ghost invariant = { λ c. IsIndexed c.instrs.items c.places.items };
}

/// One more than the offset of the last instruction, or 0.
#[tactic(auto, using(crate::proofs::Placing::last_above))]
fn offsets_of(instrs: &[(u16, Instr)]) -> usize
    requires { IsRising instrs.now }
    ensures { AreBelow instrs.now result }
{
    if instrs.is_empty() {
        return 0;
    }
    instrs[instrs.len() - 1].0 as usize + 1
}

/// The place of each instruction, at its offset, which is no less than that.
#[tactic(auto, using(crate::proofs::Placing::place_within))]
fn places_of(alloc: Global, instrs: &[(u16, Instr)]) -> Result<Vec<u16>, AllocError>
    requires { IsRising instrs.now }
    ensures { IfOk result (λ places. ArePlaced instrs.now (length instrs.now) places.items) }
{
    let mut places = vec![in alloc; 0u16; offsets_of(instrs)]?;
    for place in 0..instrs.len() {
        let at = instrs[place].0;
        places[at as usize] = place as u16;
    }
    Ok(places)
}

/// The offset of the instruction at this place of the list.
fn offset_of(instrs: &[(u16, Instr)], place: usize) -> Option<u16>
    ensures { result ≡ option_map (λ p. p.0) (slice_get instrs.now place) }
{
    Some(instrs.get(place)?.0)
}

impl Code {
    /// The code of these instructions. The time is linear in their bytes.
    pub fn new(alloc: Global, instrs: Vec<(u16, Instr)>) -> Result<Code, AllocError>
        requires { IsRising instrs.items }
        ensures { IfOk result (λ code. code ≡ instrs.items) }
    {
        let places = places_of(alloc, instrs.as_slice())?;
        Ok(Code { instrs, places })
    }

    /// All instructions with their offsets.
    pub fn as_slice(&self) -> &[(u16, Instr)]
        ensures value { result.now ≡ self.now }
        ensures rising { IsRising self.now }
    {
        self.instrs.as_slice()
    }

    /// The place in the list of the instruction that begins at this offset.
    #[tactic(auto, using(crate::proofs::Finding::absent_past, crate::proofs::Finding::absent_place, crate::proofs::Finding::absent_other))]
    fn place_at(&self, pc: u16) -> Option<usize>
        ensures found { IfSome result (IsPlaceOf self.now pc) }
        ensures none { IfNone result (instr_at self.now pc ≡ None) }
    {
        let place = *self.places.get(pc as usize)? as usize;
        let entry = self.instrs.get(place)?;
        if entry.0 == pc { Some(place) } else { None }
    }

    /// The instruction that begins at this offset.
    #[tactic(auto, using(crate::proofs::Finding::instr_placed))]
    pub fn at(&self, pc: u16) -> Option<&Instr>
        ensures none { IfNone result (instr_at self.now pc ≡ None) }
        ensures instr { IfSome result (λ i. instr_at self.now pc ≡ Some i.now) }
    {
        let place = self.place_at(pc)?;
        Some(&self.instrs[place].1)
    }

    /// The instruction that begins at this offset, and the offset of the one that follows.
    #[tactic(auto, using(crate::proofs::Finding::instr_placed, crate::proofs::Finding::following_placed))]
    pub fn entry_at(&self, pc: u16) -> Option<(&Instr, Option<u16>)>
        ensures none { IfNone result (instr_at self.now pc ≡ None) }
        ensures instr { IfSome result (λ e. instr_at self.now pc ≡ Some e.0.now) }
        ensures following { IfSome result (λ e. following self.now pc ≡ e.1) }
    {
        let place = self.place_at(pc)?;
        let next = offset_of(self.as_slice(), place + 1);
        Some((&self.instrs[place].1, next))
    }
}
