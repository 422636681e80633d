ghost use Rattle.std.specs.Prelude.{◌≡◌};
ghost use Rattle.classfile_items.specs.Reading.{ReadsAlways, Reads};
ghost use Rattle.classfile_code.specs.FrameReading.{class_index, object_type, uninitialized_type, tagged_type, type_at, one_item, extended, chop, same_extended, append_one, append_two, append_three, full, tagged_frame, frame_at};

use class_tree::{
    Appended, Chopped, Const, ShortDelta, StackMapFrame, VerificationType, names_class,
};
use classfile_items::{ReadClassFault, ReadItem, counted, offset, u1, u2};
use std::alloc::Global;

/// Reads verification types, of which one that is an object names a class of the pool (4.7.4).
#[derive(Drop)]
struct TypeReader<'p> {
    pool: &'p [Const],
}

impl ReadItem for TypeReader<'_> {
    type Item = VerificationType;

    ghost finds = { λ reader. type_at reader.pool.now };

    fn read<'a>(
        &self,
        _alloc: Global,
        end: usize,
        bytes: &'a [u8],
    ) -> Result<(VerificationType, &'a [u8]), ReadClassFault> {
        type_at(self.pool, end, bytes)
    }
}

/// Reads the entries of a stack map (4.7.4).
#[derive(Drop)]
pub struct FrameReader<'p> {
    pub pool: &'p [Const],
}

impl ReadItem for FrameReader<'_> {
    type Item = StackMapFrame;

    ghost finds = { λ reader. frame_at reader.pool.now };

    fn read<'a>(
        &self,
        alloc: Global,
        end: usize,
        bytes: &'a [u8],
    ) -> Result<(StackMapFrame, &'a [u8]), ReadClassFault> {
        frame_at(alloc, self.pool, end, bytes)
    }
}

/// The index of a class of the pool at the front, and the bytes behind it.
fn class_index<'a>(
    pool: &[Const],
    end: usize,
    bytes: &'a [u8],
) -> Result<(u16, &'a [u8]), ReadClassFault>
    ensures { ReadsAlways result (class_index pool.now end bytes.now) }
{
    let (index, rest) = u2(end, bytes)?;
    if names_class(pool, index) {
        Ok((index, rest))
    } else {
        Err(ReadClassFault::BadIndex(offset(end, bytes)))
    }
}

fn object_type<'a>(
    pool: &[Const],
    end: usize,
    bytes: &'a [u8],
) -> Result<(VerificationType, &'a [u8]), ReadClassFault>
    ensures { ReadsAlways result (object_type pool.now end bytes.now) }
{
    let (class, rest) = class_index(pool, end, bytes)?;
    Ok((VerificationType::Object(class), rest))
}

fn uninitialized_type(end: usize, bytes: &[u8]) -> Result<(VerificationType, &[u8]), ReadClassFault>
    ensures { ReadsAlways result (uninitialized_type end bytes.now) }
{
    let (at, rest) = u2(end, bytes)?;
    Ok((VerificationType::Uninitialized(at), rest))
}

/// What a verification type's tag announces. The tag stands at the offset `at`, and the bytes behind it.
fn tagged_type<'a>(
    pool: &[Const],
    end: usize,
    at: usize,
    tag: u8,
    bytes: &'a [u8],
) -> Result<(VerificationType, &'a [u8]), ReadClassFault>
    ensures { ReadsAlways result (tagged_type pool.now end at tag bytes.now) }
{
    match tag {
        0 => Ok((VerificationType::Top, bytes)),
        1 => Ok((VerificationType::Integer, bytes)),
        2 | 3 => Err(ReadClassFault::Floating(at)),
        4 => Ok((VerificationType::Long, bytes)),
        5 => Ok((VerificationType::Null, bytes)),
        6 => Ok((VerificationType::UninitializedThis, bytes)),
        7 => object_type(pool, end, bytes),
        8 => uninitialized_type(end, bytes),
        _ => Err(ReadClassFault::BadTag(at)),
    }
}

#[tactic(auto, unfolding(crate::specs::FrameReading::type_at))]
fn type_at<'a>(
    pool: &[Const],
    end: usize,
    bytes: &'a [u8],
) -> Result<(VerificationType, &'a [u8]), ReadClassFault>
    ensures { ReadsAlways result (type_at pool.now end bytes.now) }
{
    let (tag, rest) = u1(end, bytes)?;
    tagged_type(pool, end, offset(end, bytes), tag, rest)
}

/// A frame with one entry on the stack, of a delta that its tag told.
fn one_item<'a>(
    pool: &[Const],
    end: usize,
    delta: ShortDelta,
    bytes: &'a [u8],
) -> Result<(StackMapFrame, &'a [u8]), ReadClassFault>
    ensures { ReadsAlways result (one_item pool.now end delta bytes.now) }
{
    let (stack, rest) = type_at(pool, end, bytes)?;
    Ok((StackMapFrame::SameLocals1StackItem { delta, stack }, rest))
}

fn extended<'a>(
    pool: &[Const],
    end: usize,
    bytes: &'a [u8],
) -> Result<(StackMapFrame, &'a [u8]), ReadClassFault>
    ensures { ReadsAlways result (extended pool.now end bytes.now) }
{
    let (delta, rest) = u2(end, bytes)?;
    let (stack, rest) = type_at(pool, end, rest)?;
    Ok((
        StackMapFrame::SameLocals1StackItemExtended { delta, stack },
        rest,
    ))
}

fn chop(end: usize, count: Chopped, bytes: &[u8]) -> Result<(StackMapFrame, &[u8]), ReadClassFault>
    ensures { ReadsAlways result (chop end count bytes.now) }
{
    let (delta, rest) = u2(end, bytes)?;
    Ok((StackMapFrame::Chop { delta, count }, rest))
}

fn same_extended(end: usize, bytes: &[u8]) -> Result<(StackMapFrame, &[u8]), ReadClassFault>
    ensures { ReadsAlways result (same_extended end bytes.now) }
{
    let (delta, rest) = u2(end, bytes)?;
    Ok((StackMapFrame::SameExtended { delta }, rest))
}

fn append_one<'a>(
    pool: &[Const],
    end: usize,
    bytes: &'a [u8],
) -> Result<(StackMapFrame, &'a [u8]), ReadClassFault>
    ensures { ReadsAlways result (append_one pool.now end bytes.now) }
{
    let (delta, rest) = u2(end, bytes)?;
    let (first, rest) = type_at(pool, end, rest)?;
    let locals = Appended::One(first);
    Ok((StackMapFrame::Append { delta, locals }, rest))
}

fn append_two<'a>(
    pool: &[Const],
    end: usize,
    bytes: &'a [u8],
) -> Result<(StackMapFrame, &'a [u8]), ReadClassFault>
    ensures { ReadsAlways result (append_two pool.now end bytes.now) }
{
    let (delta, rest) = u2(end, bytes)?;
    let (first, rest) = type_at(pool, end, rest)?;
    let (second, rest) = type_at(pool, end, rest)?;
    let locals = Appended::Two(first, second);
    Ok((StackMapFrame::Append { delta, locals }, rest))
}

fn append_three<'a>(
    pool: &[Const],
    end: usize,
    bytes: &'a [u8],
) -> Result<(StackMapFrame, &'a [u8]), ReadClassFault>
    ensures { ReadsAlways result (append_three pool.now end bytes.now) }
{
    let (delta, rest) = u2(end, bytes)?;
    let (first, rest) = type_at(pool, end, rest)?;
    let (second, rest) = type_at(pool, end, rest)?;
    let (third, rest) = type_at(pool, end, rest)?;
    let locals = Appended::Three(first, second, third);
    Ok((StackMapFrame::Append { delta, locals }, rest))
}

fn full<'a>(
    alloc: Global,
    pool: &[Const],
    end: usize,
    bytes: &'a [u8],
) -> Result<(StackMapFrame, &'a [u8]), ReadClassFault>
    ensures { Reads result (full pool.now end bytes.now) }
{
    let reader = TypeReader { pool };
    let (delta, rest) = u2(end, bytes)?;
    let (locals, rest) = counted(alloc, &reader, end, rest)?;
    let (stack, rest) = counted(alloc, &reader, end, rest)?;
    Ok((
        StackMapFrame::Full {
            delta,
            locals,
            stack,
        },
        rest,
    ))
}

/// What a frame's tag announces. The tag stands at the offset `at`, and the bytes behind it.
fn tagged_frame<'a>(
    alloc: Global,
    pool: &[Const],
    end: usize,
    at: usize,
    tag: u8,
    bytes: &'a [u8],
) -> Result<(StackMapFrame, &'a [u8]), ReadClassFault>
    ensures { Reads result (tagged_frame pool.now end at tag bytes.now) }
{
    match tag {
        0..=63 => {
            let delta = ShortDelta::new(tag);
            Ok((StackMapFrame::Same { delta }, bytes))
        }
        64..=127 => one_item(pool, end, ShortDelta::new(tag - 64), bytes),
        128..=246 => Err(ReadClassFault::BadTag(at)),
        247 => extended(pool, end, bytes),
        248 => chop(end, Chopped::Three, bytes),
        249 => chop(end, Chopped::Two, bytes),
        250 => chop(end, Chopped::One, bytes),
        251 => same_extended(end, bytes),
        252 => append_one(pool, end, bytes),
        253 => append_two(pool, end, bytes),
        254 => append_three(pool, end, bytes),
        255 => full(alloc, pool, end, bytes),
    }
}

#[tactic(auto, unfolding(crate::specs::FrameReading::frame_at))]
fn frame_at<'a>(
    alloc: Global,
    pool: &[Const],
    end: usize,
    bytes: &'a [u8],
) -> Result<(StackMapFrame, &'a [u8]), ReadClassFault>
    ensures { Reads result (frame_at pool.now end bytes.now) }
{
    let (tag, rest) = u1(end, bytes)?;
    tagged_frame(alloc, pool, end, offset(end, bytes), tag, rest)
}
