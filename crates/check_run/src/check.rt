ghost use Rattle.std.specs.Prelude.{◌≡◌, ◌⊎◌, length, IfOk, IfErr};
ghost use Rattle.class_tree.specs.Trees.{Tree};
ghost use Rattle.classfile_items.specs.declared.fault.ReadClassFault.{ReadClassFault};
ghost use Rattle.classfile_read.specs.Lawful.{Spells, FirstFault, Refuses};
ghost use Rattle.check_run.specs.Checks.{IsClassFile, Tells};

use classfile_read::{ReadClassFault, read_class};
use classfile_write::write_class;
use std::alloc::{AllocError, Global};

/// What is said of the bytes of a file.
#[derive(Clone, Copy)]
pub enum Checked {
    /// They are a class file of so many bytes.
    Accepted(usize),
    /// They are none, for this fault. It is never want of memory.
    Refused(ReadClassFault),
}

/// Reads a class file and writes it again.
pub fn rewritten(alloc: Global, bytes: &[u8]) -> Result<Vec<u8>, ReadClassFault>
    // What is written is what was read, byte for byte.
    ensures same { IfOk result (λ written. written.items ≡ bytes.now) }

    // Only a class file is written.
    ensures found { IfOk result (λ _. IsClassFile bytes.now) }

    // A fault is the first one.
    ensures fault { IfErr result (λ fault. (fault ≡ ReadClassFault.Memory) ⊎ FirstFault bytes.now fault) }

    // Each class file is, unless memory runs out.
    ensures only { (t : Tree) → Spells t bytes.now → IfErr result (λ fault. fault ≡ ReadClassFault.Memory) }

    // Bytes that have a first fault are refused for it, unless memory runs out.
    ensures exact { (fault : ReadClassFault) → FirstFault bytes.now fault → Refuses result fault }
{
    let class = read_class(alloc, bytes)?;
    Ok(write_class(alloc, &class)?)
}

/// Whether the bytes are a class file, which is read and written again. An `Err` says that memory ran out.
pub fn check_class(alloc: Global, bytes: &[u8]) -> Result<Checked, AllocError>
    ensures told { IfOk result (Tells bytes.now) }

    // Each class file is accepted, unless memory runs out.
    ensures only { (t : Tree) → Spells t bytes.now → IfOk result (λ checked. checked ≡ Checked.Accepted (length bytes.now)) }

    // Bytes that have a first fault are refused for it, unless memory runs out.
    ensures exact { (fault : ReadClassFault) → FirstFault bytes.now fault → IfOk result (λ checked. checked ≡ Checked.Refused fault) }
{
    match rewritten(alloc, bytes) {
        Ok(written) => Ok(Checked::Accepted(written.len())),
        Err(ReadClassFault::Memory) => Err(AllocError),
        Err(fault) => Ok(Checked::Refused(fault)),
    }
}
