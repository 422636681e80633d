ghost use Rattle.std.specs.Prelude.{◌≡◌};
ghost use Rattle.bytecode_local.specs.Switching.{table_offset, lookup_offset, table_switched, lookup_switched};

use crate::change::Change;
use crate::kinds::int_at;
use class_code::{LookupSwitch, TableSwitch};
use thread_frames::Operands;

/// Where an index leads.
fn table_offset(table: &TableSwitch, index: i32) -> i32
    ensures { result ≡ table_offset table.now index }
{
    if index < table.low || table.high < index {
        return table.default;
    }
    let place = i64::from(index) - i64::from(table.low);
    match table.offsets.get(place as usize) {
        Some(by) => *by,
        None => table.default,
    }
}

/// Where a key leads.
fn lookup_offset(lookup: &LookupSwitch, key: i32) -> i32
    ensures { result ≡ lookup_offset lookup.now key }
{
    match lookup.pairs.as_slice().iter().find(|pair| pair.0 == key) {
        Some(pair) => pair.1,
        None => lookup.default,
    }
}

/// What `tableswitch` changes.
pub(crate) fn switch_by_table(table: &TableSwitch, stack: &Operands) -> Option<Change>
    ensures { result ≡ table_switched table.now stack.now }
{
    let index = int_at(stack, 0)?;
    Some(Change::jumping(1, true, table_offset(table, index)))
}

/// What `lookupswitch` changes.
pub(crate) fn switch_by_lookup(lookup: &LookupSwitch, stack: &Operands) -> Option<Change>
    ensures { result ≡ lookup_switched lookup.now stack.now }
{
    let key = int_at(stack, 0)?;
    Some(Change::jumping(1, true, lookup_offset(lookup, key)))
}
