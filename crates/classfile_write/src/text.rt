ghost use Rattle.std.specs.Prelude.{◌≡◌, ◌+◌, ◌<◌, ◌∷◌, ◌++◌, ◌^◌, length, OnOk};
ghost use Rattle.jv_names.specs.Utf8.{unit_bytes, utf8};
ghost use Rattle.class_tree.specs.Spelling.{u2};

use crate::number::put_tagged;
use jv_names::Units;
use std::alloc::AllocError;

/// How many bytes spell a unit (4.4.7).
#[tactic(auto, unfolding(jv_names::specs::Utf8::unit_bytes))]
fn unit_len(unit: u16) -> usize
    ensures { result ≡ length (unit_bytes unit) }
{
    1 + usize::from((unit == 0) | (unit > 0x7f)) + usize::from(unit > 0x7ff)
}

/// How many bytes spell a text (4.4.7).
fn text_len(units: &[u16]) -> usize
    requires { length (utf8 units.now) < 2 ^ 64 }
    ensures { result ≡ length (utf8 units.now) }
{
    let mut len = 0;
    for unit in units {
        len += unit_len(*unit);
    }
    len
}

#[tactic(auto, unfolding(jv_names::specs::Utf8::unit_bytes))]
fn put_unit(out: &mut Vec<u8>, unit: u16) -> Result<(), AllocError>
    ensures { OnOk result (out.new.items ≡ out.old.items ++ unit_bytes unit) }
{
    let last = 0x80 + (unit % 64) as u8;
    match unit {
        0x01..=0x7f => out.push(unit as u8)?,
        0 | 0x80..=0x7ff => out.extend_from_slice(&[0xc0 + (unit / 64) as u8, last])?,
        _ => out.extend_from_slice(&[
            0xe0 + (unit / 4096) as u8,
            0x80 + (unit / 64 % 64) as u8,
            last,
        ])?,
    }
    Ok(())
}

/// The bytes that spell a text (4.4.7).
fn put_units(out: &mut Vec<u8>, units: &[u16]) -> Result<(), AllocError>
    ensures { OnOk result (out.new.items ≡ out.old.items ++ utf8 units.now) }
{
    for unit in units {
        put_unit(out, *unit)?;
    }
    Ok(())
}

/// A `CONSTANT_Utf8` (4.4.7), with no memory taken but in `out`.
pub fn put_text(out: &mut Vec<u8>, text: &Units) -> Result<(), AllocError>
    requires { length (utf8 text.now) < 2 ^ 16 }
    ensures { OnOk result (out.new.items ≡ out.old.items ++ 1 ∷ (u2 (length (utf8 text.now)) ++ utf8 text.now)) }
{
    let len = text_len(text.as_slice()) as u16;
    put_tagged(out, 1, len)?;
    put_units(out, text.as_slice())
}
