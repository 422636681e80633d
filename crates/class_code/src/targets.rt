ghost use Rattle.std.specs.Prelude.{◌≡◌, ◌+ℤ◌, pos, map};
ghost use Rattle.std.specs.List.{list_all};
ghost use Rattle.std.specs.List.Sorted.{IsNonDecreasingBy};
ghost use Rattle.std.specs.Option.{option_map};
ghost use Rattle.class_code.specs.Listing.{begins, lands, astray};

use crate::instr::Instr;

/// Whether an instruction of the list begins at this offset. The offsets rise, so that halving finds it.
fn is_begun(list: &[(u16, Instr)], target: i64) -> bool
    requires { IsNonDecreasingBy (λ p. p.0) list.now }
    ensures { result ≡ begins list.now target }
{
    list.binary_search_by_key(&target, |p| i64::from(p.0))
        .is_ok()
}

/// Whether an instruction of the list begins at this offset, by halving. The offsets rise in a list that `decode` made, or
/// `instr_at` one instruction after the other.
pub fn begins_at(list: &[(u16, Instr)], at: u16) -> bool
    requires { IsNonDecreasingBy (λ p. p.0) list.now }
    ensures { result ≡ begins list.now (pos at) }
{
    is_begun(list, i64::from(at))
}

/// Whether an instruction begins so far from this offset.
fn reaches(list: &[(u16, Instr)], at: u16, by: i32) -> bool
    requires { IsNonDecreasingBy (λ p. p.0) list.now }
    ensures { result ≡ begins list.now (pos at +ℤ by) }
{
    is_begun(list, i64::from(at) + i64::from(by))
}

fn all_reach(list: &[(u16, Instr)], at: u16, offsets: &[i32]) -> bool
    requires { IsNonDecreasingBy (λ p. p.0) list.now }
    ensures { result ≡ list_all (λ by. begins list.now (pos at +ℤ by)) offsets.now }
{
    offsets.iter().all(|by| reaches(list, at, *by))
}

fn pairs_reach(list: &[(u16, Instr)], at: u16, pairs: &[(i32, i32)]) -> bool
    requires { IsNonDecreasingBy (λ p. p.0) list.now }
    ensures { result ≡ list_all (λ by. begins list.now (pos at +ℤ by)) (map (λ p. p.1) pairs.now) }
{
    pairs.iter().map(|p| p.1).all(|by| reaches(list, at, by))
}

/// Whether an instruction begins wherever this one leads.
fn lands_well(list: &[(u16, Instr)], at: u16, instr: &Instr) -> bool
    requires { IsNonDecreasingBy (λ p. p.0) list.now }
    ensures { result ≡ lands list.now (at, instr.now) }
{
    match instr {
        Instr::Branch(_, by) => reaches(list, at, i32::from(*by)),
        Instr::GotoWide(by) => reaches(list, at, *by),
        Instr::TableSwitch(switch) => {
            reaches(list, at, switch.default) && all_reach(list, at, switch.offsets.as_slice())
        }
        Instr::LookupSwitch(switch) => {
            reaches(list, at, switch.default) && pairs_reach(list, at, switch.pairs.as_slice())
        }
        _ => true,
    }
}

/// The offset of the first instruction that leads to where none begins. The offsets rise in a list that `instr_at` made, one
/// instruction after the other. The time grows as that of sorting: each target is looked up by halving.
pub fn first_astray(list: &[(u16, Instr)]) -> Option<u16>
    requires { IsNonDecreasingBy (λ p. p.0) list.now }
    ensures { result ≡ option_map (λ p. p.0) (astray list.now) }
{
    list.iter()
        .find(|p| !lands_well(list, p.0, &p.1))
        .map(|p| p.0)
}
