ghost use Rattle.std.specs.Prelude.{◌≡◌, ◌++◌, ◌∷◌, [], ◌/◌, ◌%◌, ◌<◌, IfOk, OnOk};
ghost use Rattle.jv_names.specs.Names.{hex_digit as digit_of, printed as text_of, printed_unit};

use crate::Units;
use std::alloc::{AllocError, Global};

/// A hexadecimal digit, in lower case.
fn hex_digit(digit: u8) -> u8
    requires { digit < 16 }
    ensures { result ≡ digit_of digit }
{
    if digit < 10 {
        b'0' + digit
    } else {
        b'a' - 10 + digit
    }
}

/// A unit that is printed by its number: a backslash, `u` and four hexadecimal digits.
fn escape(unit: u16) -> [u8; 6]
    ensures { result ≡ 92 ∷ 117 ∷ digit_of (unit / 4096 % 16) ∷ digit_of (unit / 256 % 16)
        ∷ digit_of (unit / 16 % 16) ∷ digit_of (unit % 16) ∷ [] }
{
    [
        b'\\',
        b'u',
        hex_digit((unit / 4096 % 16) as u8),
        hex_digit((unit / 256 % 16) as u8),
        hex_digit((unit / 16 % 16) as u8),
        hex_digit((unit % 16) as u8),
    ]
}

fn put_unit(text: &mut Vec<u8>, unit: u16) -> Result<(), AllocError>
    ensures { OnOk result (text.new.items ≡ text.old.items ++ printed_unit unit) }
{
    if unit >= 0x21 && unit <= 0x7e && unit != 92 {
        text.push(unit as u8)?;
    } else {
        text.extend_from_slice(&escape(unit))?;
    }
    Ok(())
}

/// A name as reports and logs print it, in visible ASCII: a backslash, and each unit outside 0x21 to 0x7e, as a
/// backslash, `u` and four hexadecimal digits in lower case, and every other unit as itself.
#[tactic(auto, unfolding(crate::specs::Names::printed))]
pub fn printed(alloc: Global, name: &Units) -> Result<Vec<u8>, AllocError>
    ensures { IfOk result (λ t. t.items ≡ text_of name.now) }
{
    let mut text = Vec::new(alloc);
    for unit in name.as_slice() {
        put_unit(&mut text, *unit)?;
    }
    Ok(text)
}
