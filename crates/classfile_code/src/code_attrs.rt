ghost use Rattle.std.specs.Prelude.{◌≡◌};
ghost use Rattle.class_tree.specs.CodeRules.{is_stack_map};
ghost use Rattle.classfile_items.specs.Reading.{Reads};
ghost use Rattle.classfile_code.specs.CodeReading.{raw_attr, frames_attr, code_attr_at};
ghost use Rattle.classfile_items.specs.Contents.{of_length};

use crate::frames::FrameReader;
use class_tree::{CodeAttr, Const};
use classfile_items::{ReadClassFault, ReadItem, counted, of_length, raw, text_index, u4};
use jv_names::Units;
use sqlite_items::Items;
use std::alloc::Global;

/// Reads the attributes of a code (4.7.3).
#[derive(Drop)]
pub struct CodeAttrReader<'p> {
    pub pool: &'p [Const],
}

impl ReadItem for CodeAttrReader<'_> {
    type Item = CodeAttr;

    ghost finds = { λ reader end. code_attr_at end reader.pool.now };

    fn read<'a>(
        &self,
        alloc: Global,
        end: usize,
        bytes: &'a [u8],
    ) -> Result<(CodeAttr, &'a [u8]), ReadClassFault> {
        let ((name, text), rest) = text_index(self.pool, end, bytes)?;
        if is_stack_map(text) {
            frames_attr(alloc, self.pool, name, end, rest)
        } else {
            raw_attr(alloc, name, end, rest)
        }
    }
}

fn is_stack_map(text: &Units) -> bool
    ensures { result ≡ is_stack_map text.now }
{
    text.is_text(b"StackMapTable")
}

/// An attribute that is kept as its bytes, from its length on.
fn raw_attr(
    alloc: Global,
    name: u16,
    end: usize,
    bytes: &[u8],
) -> Result<(CodeAttr, &[u8]), ReadClassFault>
    ensures { Reads result (raw_attr end name bytes.now) }
{
    let (len, rest) = u4(end, bytes)?;
    let (content, rest) = raw(end, len as usize, rest)?;
    let bytes = Items::from_slice(alloc, content)?;
    Ok((CodeAttr::Raw { name, bytes }, rest))
}

/// A stack map, from its length on (4.7.4).
fn frames_attr<'a>(
    alloc: Global,
    pool: &[Const],
    name: u16,
    end: usize,
    bytes: &'a [u8],
) -> Result<(CodeAttr, &'a [u8]), ReadClassFault>
    ensures { Reads result (frames_attr end pool.now name bytes.now) }
{
    let (len, content) = u4(end, bytes)?;
    let found = counted(alloc, &FrameReader { pool }, end, content)?;
    let (entries, rest) = of_length(end, len, content, found)?;
    Ok((CodeAttr::Frames { name, entries }, rest))
}
