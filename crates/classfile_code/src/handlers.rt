ghost use Rattle.std.specs.Prelude.{◌≡◌};
ghost use Rattle.class_tree.specs.CodeRules.{is_place, is_range_end, is_catch_type};
ghost use Rattle.classfile_items.specs.Reading.{Reads};
ghost use Rattle.classfile_code.specs.CodeReading.{place, catch_type, handler};

use crate::instrs::Listing;
use class_tree::{Const, Handler, names_class};
use classfile_items::{ReadClassFault, ReadItem, offset, u2};
use std::alloc::Global;

/// Reads the handlers of a code, whose places are checked against its instructions (4.7.3).
#[derive(Drop)]
pub struct HandlerReader<'c> {
    pub pool: &'c [Const],
    pub listing: &'c Listing,
    /// The code's length in bytes.
    pub len: usize,
}

impl ReadItem for HandlerReader<'_> {
    type Item = Handler;

    ghost finds = { λ reader end. handler end reader.pool.now reader.len reader.listing.now };

    fn read<'a>(
        &self,
        _alloc: Global,
        end: usize,
        bytes: &'a [u8],
    ) -> Result<(Handler, &'a [u8]), ReadClassFault> {
        let (start, rest) = place(self.listing, end, bytes)?;
        let (last, rest) = range_end(self.listing, self.len, start, end, rest)?;
        let (target, rest) = place(self.listing, end, rest)?;
        let (catch_type, rest) = catch_type(self.pool, end, rest)?;
        let handler = Handler {
            start,
            end: last,
            target,
            catch_type,
        };
        Ok((handler, rest))
    }
}

/// A place of the code at which an instruction begins.
fn place<'a>(
    listing: &Listing,
    end: usize,
    bytes: &'a [u8],
) -> Result<(u16, &'a [u8]), ReadClassFault>
    ensures { Reads result (place end (is_place listing.now) bytes.now) }
{
    let (at, rest) = u2(end, bytes)?;
    if listing.begins_at(at) {
        Ok((at, rest))
    } else {
        Err(ReadClassFault::BadCode(offset(end, bytes)))
    }
}

/// Whether a range that begins at `start` may end here.
fn is_range_end(listing: &Listing, len: usize, start: u16, at: u16) -> bool
    ensures { result ≡ is_range_end listing.now len start at }
{
    (listing.begins_at(at) || usize::from(at) == len) && start < at
}

/// Where a range ends that begins at `start`.
fn range_end<'a>(
    listing: &Listing,
    len: usize,
    start: u16,
    end: usize,
    bytes: &'a [u8],
) -> Result<(u16, &'a [u8]), ReadClassFault>
    ensures { Reads result (place end (is_range_end listing.now len start) bytes.now) }
{
    let (at, rest) = u2(end, bytes)?;
    if is_range_end(listing, len, start, at) {
        Ok((at, rest))
    } else {
        Err(ReadClassFault::BadCode(offset(end, bytes)))
    }
}

/// The index of the class that a handler catches, or 0.
fn catch_type<'a>(
    pool: &[Const],
    end: usize,
    bytes: &'a [u8],
) -> Result<(u16, &'a [u8]), ReadClassFault>
    ensures { Reads result (catch_type end pool.now bytes.now) }
{
    let (index, rest) = u2(end, bytes)?;
    if index == 0 || names_class(pool, index) {
        Ok((index, rest))
    } else {
        Err(ReadClassFault::BadIndex(offset(end, bytes)))
    }
}
