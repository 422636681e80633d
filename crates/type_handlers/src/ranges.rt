//! The ranges of handlers, by the handlers' places in the exception table.
ghost use Rattle.std.specs.Prelude.{◌≡◌, ℕ, ◌<◌, ◌≤◌, length, slice_index, IfOk, IsPermutation};
ghost use Rattle.std.specs.List.{range_with_len};
ghost use Rattle.std.specs.List.Sorted.{IsNonDecreasingBy};
ghost use Rattle.type_handlers.specs.Ranges.{start_at, end_at};

use class_tree::Handler;
use std::alloc::{AllocError, Global};

/// Where the range of the handler at a place begins. Behind the last handler it is 0.
pub(crate) fn start_at(handlers: &[Handler], place: usize) -> u16
    ensures { result ≡ start_at handlers.now place }
{
    handlers.get(place).map_or(0, |handler| handler.start)
}

/// Where the range of the handler at a place ends. Behind the last handler it is 0.
pub(crate) fn end_at(handlers: &[Handler], place: usize) -> u16
    ensures { result ≡ end_at handlers.now place }
{
    handlers.get(place).map_or(0, |handler| handler.end)
}

/// The places of all handlers, in the order of where their ranges begin.
pub(crate) fn by_start(alloc: Global, handlers: &[Handler]) -> Result<Vec<usize>, AllocError>
    ensures complete { IfOk result (λ order. IsPermutation (range_with_len 0 (length handlers.now)) order.items) }
    ensures ascending { IfOk result (λ order. IsNonDecreasingBy (start_at handlers.now) order.items) }
{
    let mut order: Vec<usize> = (0..handlers.len()).collect(alloc)?;
    order.sort_unstable_by_key(|place| start_at(handlers, *place));
    Ok(order)
}

/// How many of the places stand before those whose ranges begin behind an offset. The first ones, which are counted, are not looked at.
pub(crate) fn begun_by(handlers: &[Handler], order: &[usize], counted: usize, at: u16) -> usize
    requires { counted ≤ length order.now }
    ensures counted { counted ≤ result }
    ensures within { result ≤ length order.now }
    ensures begun { (k : ℕ) → counted ≤ k → k < result → start_at handlers.now (slice_index order.now k) ≤ at }
    ensures next { result < length order.now → at < start_at handlers.now (slice_index order.now result) }
{
    for place in counted..order.len() {
        if at < start_at(handlers, order[place]) {
            return place;
        }
    }
    order.len()
}
