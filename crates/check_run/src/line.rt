ghost use Rattle.std.specs.Prelude.{◌≡◌, IfOk, string_bytes};
ghost use Rattle.classfile_items.specs.FaultTexts.{fault_text};
ghost use Rattle.check_run.specs.Lines.{answer_text, is_accepted, joined, line_of};

use crate::check::Checked;
use classfile_read::ReadClassFault;
use std::alloc::{AllocError, Global};

/// What is said of a file.
#[derive(Clone, Copy)]
pub enum Answer {
    /// It was read, and this is said of its bytes.
    Read(Checked),
    /// No file has the name.
    Absent,
    /// It has more bytes than the host reads.
    TooLarge,
    /// It could not be read.
    Unreadable,
}

impl Answer {
    /// Whether the file is one that the host accepts.
    pub fn is_accepted(self) -> bool
        ensures { result ≡ is_accepted self }
    {
        matches!(self, Answer::Read(Checked::Accepted(_)))
    }
}

/// A fault's name and its offset in bytes.
fn fault_text(alloc: Global, fault: ReadClassFault) -> Result<String, AllocError>
    ensures { IfOk result (λ text. string_bytes text ≡ fault_text fault) }
{
    match fault.name_and_offset() {
        (name, Some(offset)) => format!(in alloc; "{name} {offset}"),
        (name, None) => String::from_str(alloc, name),
    }
}

fn answer_text(alloc: Global, answer: Answer) -> Result<String, AllocError>
    ensures { IfOk result (λ text. string_bytes text ≡ answer_text answer) }
{
    match answer {
        Answer::Read(Checked::Accepted(count)) => format!(in alloc; "accepted {count}"),
        Answer::Read(Checked::Refused(fault)) => fault_text(alloc, fault),
        Answer::Absent => String::from_str(alloc, "absent"),
        Answer::TooLarge => String::from_str(alloc, "too-large"),
        Answer::Unreadable => String::from_str(alloc, "unreadable"),
    }
}

/// A name and what is told of it, as one line.
fn joined(alloc: Global, name: &str, text: &str) -> Result<String, AllocError>
    ensures { IfOk result (λ line. string_bytes line ≡ joined name.now text.now) }
{
    format!(in alloc; "{name} {text}\n")
}

/// The line that tells of the file of this name, with its line feed.
pub fn line(alloc: Global, name: &str, answer: Answer) -> Result<String, AllocError>
    ensures { IfOk result (λ line. string_bytes line ≡ line_of name.now answer) }
{
    let text = answer_text(alloc, answer)?;
    joined(alloc, name, text.as_str())
}
