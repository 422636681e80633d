ghost use Rattle.std.specs.Prelude.{◌≡◌, ◌+◌, ◌^◌, ◌<◌, length, flat_map, option_map, None};
ghost use Rattle.jv_names.specs.Utf8.{unit_bytes, utf8};
ghost use Rattle.class_tree.specs.Tree.{text_at};
ghost use Rattle.class_tree.specs.PoolRules.{is_name, desc_flaw, class_text_flaw, names_pair};
ghost use Rattle.class_tree.specs.Spelling.{const_bytes};
ghost use Rattle.classfile_items.specs.declared.fault.ReadClassFault.TheVariants.{BadText};
ghost use Rattle.classfile_pool.specs.PoolReading.{text_fault, named_text, member_fault, pair_fault, entry_fault, entries_fault};
ghost use Rattle.classfile_items.specs.Reading.{unless};

use crate::pool::Pool;
use class_tree::{Const, MemberKind};
use classfile_items::ReadClassFault;
use jv_names::DescFlaw;

// ---- sizes

/// How many bytes spell a unit (4.4.7).
#[tactic(auto, unfolding(jv_names::specs::Utf8::unit_bytes))]
fn unit_len(unit: u16) -> usize
    ensures { result ≡ length (unit_bytes unit) }
{
    1 + usize::from((unit == 0) | (unit > 0x7f)) + usize::from(unit > 0x7ff)
}

/// How many bytes spell a text (4.4.7).
fn text_len(units: &[u16]) -> usize
    requires { length (utf8 units.now) < 2 ^ 64 }
    ensures { result ≡ length (utf8 units.now) }
{
    let mut len = 0;
    for unit in units {
        len += unit_len(*unit);
    }
    len
}

/// How many bytes an entry takes with its tag (4.4).
#[tactic(auto, unfolding(class_tree::specs::Spelling::u2, class_tree::specs::Spelling::u4, class_tree::specs::Spelling::u8))]
fn entry_len(entry: &Const) -> usize
    requires { length (const_bytes entry.now) < 2 ^ 64 }
    ensures { result ≡ length (const_bytes entry.now) }
{
    match entry {
        Const::Utf8(text) => 3 + text_len(text.as_slice()),
        Const::Integer(_) => 5,
        Const::Long(_) => 9,
        Const::Class(_) | Const::Text(_) => 3,
        Const::Field(..) | Const::Method(..) | Const::InterfaceMethod(..) | Const::NameType(..) =>
            5,
        Const::Unused => 0,
    }
}

// ---- what entries name; each `at` is the offset in bytes of the first index

fn unless(holds: bool, fault: ReadClassFault) -> Option<ReadClassFault>
    ensures { result ≡ unless holds fault }
{
    if holds { None } else { Some(fault) }
}

fn text_fault(at: usize, flaw: DescFlaw) -> ReadClassFault
    ensures { result ≡ text_fault at flaw }
{
    match flaw {
        DescFlaw::Floating => ReadClassFault::Floating(at),
        DescFlaw::Bad => ReadClassFault::BadText(at),
    }
}

/// Why an index names no text of a class (4.4.1).
fn class_fault(pool: &Pool, at: usize, name: u16) -> Option<ReadClassFault>
    ensures { result ≡ named_text at (λ text. option_map (text_fault at) (class_text_flaw text)) (text_at pool.now name) }
{
    match pool.class_text_flaw(name) {
        None => Some(ReadClassFault::BadIndex(at)),
        Some(Some(flaw)) => Some(text_fault(at, flaw)),
        Some(None) => None,
    }
}

/// Why an index names no text (4.4.3).
fn string_fault(pool: &Pool, at: usize, text: u16) -> Option<ReadClassFault>
    ensures { result ≡ named_text at (λ _. None) (text_at pool.now text) }
{
    unless(pool.text_at(text).is_some(), ReadClassFault::BadIndex(at))
}

/// Why an index names no name of a member of a kind (4.2.2).
fn name_fault(pool: &Pool, kind: MemberKind, at: usize, name: u16) -> Option<ReadClassFault>
    ensures { result ≡ named_text at (λ text. unless (is_name kind text) (BadText at)) (text_at pool.now name) }
{
    match pool.is_name(kind, name) {
        None => Some(ReadClassFault::BadIndex(at)),
        Some(holds) => unless(holds, ReadClassFault::BadText(at)),
    }
}

/// Why an index names no descriptor of a kind (4.3).
fn desc_fault(pool: &Pool, kind: MemberKind, at: usize, desc: u16) -> Option<ReadClassFault>
    ensures { result ≡ named_text at (λ text. option_map (text_fault at) (desc_flaw kind text)) (text_at pool.now desc) }
{
    match pool.desc_flaw(kind, desc) {
        None => Some(ReadClassFault::BadIndex(at)),
        Some(Some(flaw)) => Some(text_fault(at, flaw)),
        Some(None) => None,
    }
}

/// Why two indices name no class, and no name and descriptor of a kind (4.4.2).
fn member_fault(
    pool: &Pool,
    kind: MemberKind,
    at: usize,
    class: u16,
    pair: u16,
) -> Option<ReadClassFault>
    requires { at + 2 < 2 ^ 64 }
    ensures { result ≡ member_fault pool.now kind at class pair }
{
    if pool.names_class(class) {
        unless(
            pool.names_pair(kind, pair),
            ReadClassFault::BadIndex(at + 2),
        )
    } else {
        Some(ReadClassFault::BadIndex(at))
    }
}

/// Why two indices name no name and no descriptor that fit (4.4.6).
fn pair_fault(pool: &Pool, at: usize, name: u16, desc: u16) -> Option<ReadClassFault>
    requires { at + 2 < 2 ^ 64 }
    ensures { result ≡ pair_fault pool.now at name desc }
{
    let kind = pool.desc_kind(desc);
    match name_fault(pool, kind, at, name) {
        None => desc_fault(pool, kind, at + 2, desc),
        fault => fault,
    }
}

/// The first fault of what an entry names. Its tag stands at the offset `at`.
#[tactic(auto, unfolding(class_tree::specs::Spelling::u2))]
fn entry_fault(pool: &Pool, at: usize, entry: &Const) -> Option<ReadClassFault>
    requires { at + length (const_bytes entry.now) < 2 ^ 64 }
    ensures { result ≡ entry_fault pool.now (at + 1) entry.now }
{
    match entry {
        Const::Class(name) => class_fault(pool, at + 1, *name),
        Const::Text(text) => string_fault(pool, at + 1, *text),
        Const::Field(class, pair) => member_fault(pool, MemberKind::Field, at + 1, *class, *pair),
        Const::Method(class, pair) | Const::InterfaceMethod(class, pair) => {
            member_fault(pool, MemberKind::Method, at + 1, *class, *pair)
        }
        Const::NameType(name, desc) => pair_fault(pool, at + 1, *name, *desc),
        Const::Utf8(_) | Const::Integer(_) | Const::Long(_) | Const::Unused => None,
    }
}

/// The first fault of what the entries of a pool name, in the order of their indices. The first entry stands at the offset
/// `start`.
pub fn entries_fault(pool: &Pool, start: usize) -> Option<ReadClassFault>
    requires { start + length (flat_map const_bytes pool.now) < 2 ^ 64 }
    ensures { result ≡ entries_fault pool.now start pool.now }
{
    let mut at = start;
    for entry in pool.entries() {
        if let Some(fault) = entry_fault(pool, at, entry) {
            return Some(fault);
        }
        at += entry_len(entry);
    }
    None
}
