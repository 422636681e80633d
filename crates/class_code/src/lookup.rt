ghost use Rattle.std.specs.Prelude.{◌≡◌, None, Some, IfNone, IfSome, slice_get};
ghost use Rattle.std.specs.Option.{option_map};
ghost use Rattle.class_code.specs.Listing.{IsRising};
ghost use Rattle.class_code.specs.Lookups.{instr_at, following};

use crate::instr::Instr;

/// The offset of the instruction at this place of the list.
fn offset_of(code: &[(u16, Instr)], place: usize) -> Option<u16>
    ensures { result ≡ option_map (λ p. p.0) (slice_get code.now place) }
{
    Some(code.get(place)?.0)
}

/// The instruction at this offset, and the offset of the one that follows. By halving.
pub fn entry_at(code: &[(u16, Instr)], pc: u16) -> Option<(&Instr, Option<u16>)>
    requires { IsRising code.now }
    ensures none { IfNone result (instr_at code.now pc ≡ None) }
    ensures instr { IfSome result (λ e. instr_at code.now pc ≡ Some e.0.now) }
    ensures following { IfSome result (λ e. following code.now pc ≡ e.1) }
{
    match code.binary_search_by_key(&pc, |entry| entry.0) {
        Ok(place) => Some((&code[place].1, offset_of(code, place + 1))),
        Err(_) => None,
    }
}
