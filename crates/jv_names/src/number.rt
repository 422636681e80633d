ghost use Rattle.std.specs.Prelude.{◌≡◌, IfOk};
ghost use Rattle.std.specs.Fmt.{signed_decimal};

use itoa::Buffer;
use std::alloc::{AllocError, Global};

/// The number in decimal, as ASCII: a minus sign where it is below 0, and its digits, with no 0 in front.
pub fn decimal(alloc: Global, value: i64) -> Result<Vec<u8>, AllocError>
    ensures { IfOk result (λ text. text.items ≡ signed_decimal value) }
{
    let mut buffer = Buffer::new();
    Vec::from_slice(alloc, buffer.format(value).as_bytes())
}
