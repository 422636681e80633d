ghost use Rattle.std.specs.Prelude.{◌≡◌, ◌∷◌, ◌++◌, OnOk};
ghost use Rattle.class_tree.specs.Spelling.{u2, u4, u8};

use std::alloc::AllocError;

/// A number of two bytes, highest byte first. The others are alike: the digit is the number of bytes.
#[tactic(auto, unfolding(class_tree::specs::Spelling::u2))]
pub fn put_u2(out: &mut Vec<u8>, number: u16) -> Result<(), AllocError>
    ensures { OnOk result (out.new.items ≡ out.old.items ++ u2 number) }
{
    out.extend_from_slice(&number.to_be_bytes())?;
    Ok(())
}

#[tactic(auto, unfolding(class_tree::specs::Spelling::u4))]
pub fn put_u4(out: &mut Vec<u8>, number: u32) -> Result<(), AllocError>
    ensures { OnOk result (out.new.items ≡ out.old.items ++ u4 number) }
{
    out.extend_from_slice(&number.to_be_bytes())?;
    Ok(())
}

#[tactic(auto, unfolding(class_tree::specs::Spelling::u8))]
pub fn put_u8(out: &mut Vec<u8>, number: u64) -> Result<(), AllocError>
    ensures { OnOk result (out.new.items ≡ out.old.items ++ u8 number) }
{
    out.extend_from_slice(&number.to_be_bytes())?;
    Ok(())
}

/// A tag, and a number of two bytes.
pub fn put_tagged(out: &mut Vec<u8>, tag: u8, number: u16) -> Result<(), AllocError>
    ensures { OnOk result (out.new.items ≡ out.old.items ++ tag ∷ u2 number) }
{
    out.push(tag)?;
    put_u2(out, number)
}
