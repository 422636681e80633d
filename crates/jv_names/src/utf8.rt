ghost use Rattle.std.specs.Prelude.{◌≡◌, ◌≢◌, ℕ, ◌+◌, ◌<◌, ◌≤◌, ◌^◌, ◌⊎◌, List, ◌∷◌, [], ◌++◌, IfSome, IsNone, MatchOption, IfOk, IfErr, OnOk};
ghost use Rattle.jv_names.specs.Utf8.{unit_bytes, utf8, SpellsText, BeginsNoUnit, StopsAt, IsFirstBad, GivesText, RefusesAt, IfBad};

use crate::Units;
use std::alloc::{AllocError, Global};
use thiserror::Error;

/// Why bytes spell no text.
#[derive(Debug, Drop, Error)]
pub enum TextFault {
    /// No unit begins at this offset in bytes, and none before it is bad.
    #[error("no character begins at byte {0}")]
    Bad(usize),
    /// Memory ran out, which says nothing of the bytes.
    #[error("out of memory")]
    Memory,
}

impl From<AllocError> for TextFault {
    ghost use Rattle.jv_names.specs.declared.utf8.TextFault.TheVariants.{Memory};

    ghost from_gives = { λ _ e. e ≡ Memory };

    fn from(_: AllocError) -> Self {
        TextFault::Memory
    }
}

/// The six bits of a byte `10xxxxxx`, which goes on with a unit.
fn bits_of(byte: u8) -> Option<u16>
    ensures { MatchOption result ((byte < 0x80) ⊎ (0xc0 ≤ byte)) (λ bits. (bits < 64) × (byte ≡ 0x80 + bits)) }
{
    match byte {
        0x80..=0xbf => Some(u16::from(byte - 0x80)),
        _ => None,
    }
}

/// The unit that two bytes spell, where one byte doesn't spell it.
#[tactic(auto, using(crate::proofs::UnitBytes::if_two, crate::proofs::UnitBytes::of_two))]
fn of_two(first: u8, second: u8) -> Option<u16>
    requires { (0xc0 ≤ first) × (first < 0xe0) }
    ensures found { IfSome result (λ unit. (unit < 2 ^ 16) × (unit_bytes unit ≡ first ∷ second ∷ [])) }
    ensures none { IsNone result → (unit : ℕ) → unit_bytes unit ≢ first ∷ second ∷ [] }
{
    let unit = u16::from(first - 0xc0) * 64 + bits_of(second)?;
    if unit == 0 || unit >= 0x80 {
        Some(unit)
    } else {
        None
    }
}

/// The unit that three bytes spell, where two don't spell it.
#[tactic(auto, using(crate::proofs::UnitBytes::if_three, crate::proofs::UnitBytes::of_three))]
fn of_three(first: u8, second: u8, third: u8) -> Option<u16>
    requires { (0xe0 ≤ first) × (first < 0xf0) }
    ensures found { IfSome result (λ unit. (unit < 2 ^ 16) × (unit_bytes unit ≡ first ∷ second ∷ third ∷ [])) }
    ensures none { IsNone result → (unit : ℕ) → unit < 2 ^ 16 → unit_bytes unit ≢ first ∷ second ∷ third ∷ [] }
{
    let unit = u16::from(first - 0xe0) * 4096 + bits_of(second)? * 64 + bits_of(third)?;
    if unit >= 0x800 { Some(unit) } else { None }
}

/// The unit whose bytes stand at the front, and what stands behind them.
#[tactic(auto, using(crate::proofs::UnitBytes::front, crate::proofs::UnitBytes::one_first))]
fn unit_at(bytes: &[u8]) -> Option<(u16, &[u8])>
    ensures found { IfSome result (λ u. (u.0 < 2 ^ 16) × (bytes.now ≡ unit_bytes u.0 ++ u.1.now)) }
    ensures none { IsNone result → BeginsNoUnit bytes.now }
{
    match bytes {
        [first @ 0x01..=0x7f, rest @ ..] => Some((u16::from(*first), rest)),
        [first @ 0xc0..=0xdf, second, rest @ ..] => Some((of_two(*first, *second)?, rest)),
        [first @ 0xe0..=0xef, second, third, rest @ ..] => Some((
            of_three(*first, *second, *third)?,
            rest,
        )),
        _ => None,
    }
}

/// The units that bytes begin with in modified UTF-8 (JVM specification 4.4.7), and the rest, at whose front none stands.
#[tactic(auto, using(crate::proofs::TextFronts::fewer))]
pub fn front_units(alloc: Global, bytes: &[u8]) -> Result<(Units, &[u8]), AllocError>
    ensures { IfOk result (λ f. StopsAt bytes.now f.0 f.1.now) }
{
    let mut units = Vec::with_capacity(alloc, bytes.len())?;
    let mut rest = bytes;
    while let Some((unit, after)) = unit_at(rest) {
        units.push(unit)?;
        rest = after;
    }
    Ok((Units::new(units), rest))
}

/// The text that bytes spell in modified UTF-8 (JVM specification 4.4.7), as its UTF-16 units. A supplementary character is
/// spelled as its two surrogates, of three bytes each, and a lone surrogate is a unit as any other. U+0000 is `c0 80`, and
/// any other unit that is spelled in more bytes than it needs is refused.
pub fn units_of(alloc: Global, bytes: &[u8]) -> Result<Units, TextFault>
    // What is read is spelled so.
    ensures found { IfOk result (λ units. SpellsText units bytes.now) }

    // What is spelled so is read, unless memory runs out.
    ensures only { (units : List ℕ) → SpellsText units bytes.now → GivesText result units }

    // A fault is at the first byte that begins no unit.
    ensures fault { IfErr result (λ e. IfBad e (IsFirstBad bytes.now)) }

    // Bytes with such a byte are refused for it, unless memory runs out.
    ensures exact { (offset : ℕ) → IsFirstBad bytes.now offset → RefusesAt result offset }
{
    let (units, rest) = front_units(alloc, bytes)?;
    if rest.is_empty() {
        Ok(units)
    } else {
        Err(TextFault::Bad(bytes.len() - rest.len()))
    }
}

/// Puts a unit's bytes behind those that are there.
#[tactic(auto, unfolding(crate::specs::Utf8::unit_bytes))]
fn put_unit(bytes: &mut Vec<u8>, unit: u16) -> Result<(), AllocError>
    ensures { OnOk result (bytes.new.items ≡ bytes.old.items ++ unit_bytes unit) }
{
    let last = 0x80 + (unit % 64) as u8;
    match unit {
        0x01..=0x7f => bytes.push(unit as u8)?,
        0 | 0x80..=0x7ff => bytes.extend_from_slice(&[0xc0 + (unit / 64) as u8, last])?,
        _ => bytes.extend_from_slice(&[
            0xe0 + (unit / 4096) as u8,
            0x80 + (unit / 64 % 64) as u8,
            last,
        ])?,
    }
    Ok(())
}

/// The bytes that spell a text in modified UTF-8 (JVM specification 4.4.7), which each text has. `units_of` reads them to
/// the same text.
pub fn utf8_of(alloc: Global, units: &Units) -> Result<Vec<u8>, AllocError>
    ensures { IfOk result (λ bytes. SpellsText units.now bytes.items) }
{
    let mut bytes = Vec::with_capacity(alloc, units.as_slice().len())?;
    for unit in units.as_slice() {
        put_unit(&mut bytes, *unit)?;
    }
    Ok(bytes)
}
