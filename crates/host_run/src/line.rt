ghost use Rattle.std.specs.Prelude.{◌≡◌, ◌≤◌, length, codes, decimal, true, IfOk, OnErr};
ghost use Rattle.jv_names.specs.Names.{printed as text_of_name};
ghost use Rattle.report_text.specs.Texts.{line};
ghost use Rattle.job_words.specs.Refusals.{refusal_text, spaced, has_key, names_key};
ghost use Rattle.host_run.specs.Lines.{line_bytes};

use arrayvec::ArrayString;
use classfile_read::ReadClassFault;
use itoa::Buffer;
use job_words::{AgentFault, InputLimit, Refusal};
use jv_names::{Units, printed};
use std::alloc::{AllocError, Global};

/// A text of at most 128 bytes, for which no memory is taken.
type ShortText = ArrayString<128>;

/// The line of a refusal, with its line feed. A key of an agent file may have any length; a line without one is short.
#[derive(Drop)]
pub enum Line {
    Short(ArrayString<128>),
    Long(Vec<u8>),
}

impl Line {
    pub fn as_bytes(&self) -> &[u8]
        ensures { result.now ≡ line_bytes self.now }
    {
        match self {
            Line::Short(text) => text.as_bytes(),
            Line::Long(text) => text.as_slice(),
        }
    }
}

/// The text itself, which must have room.
fn short(text: &str) -> ShortText
    requires { length text.now ≤ 128 }
    ensures { result.bytes ≡ text.now }
{
    let mut bytes = ShortText::new();
    bytes.push_str(text);
    bytes
}

/// Words and a number.
#[tactic(auto, using(std::proofs::Common::append_assoc))]
fn numbered(words: &str, number: u32) -> ShortText
    requires { length words.now ≤ 80 }
    ensures { result.bytes ≡ line (spaced words.now (decimal number)) }
{
    let mut text = short(words);
    text.push_str(" ");
    text.push_str(Buffer::new().format(number));
    text.push_str("\n");
    text
}

#[tactic(auto, using(std::proofs::Common::append_assoc))]
fn limit_line(limit: InputLimit, number: u32) -> ShortText
    ensures { result.bytes ≡ refusal_text (Refusal.TooLarge limit number) }
{
    let mut text = short("refused too-large ");
    text.push_str(limit.name());
    text.push_str(" ");
    text.push_str(Buffer::new().format(number));
    text.push_str("\n");
    text
}

#[tactic(auto, using(std::proofs::Common::append_assoc))]
fn class_line(place: u32, fault: ReadClassFault) -> ShortText
    ensures { result.bytes ≡ refusal_text (Refusal.BadClass place fault) }
{
    let (name, offset) = fault.name_and_offset();
    let mut text = short("refused class ");
    text.push_str(Buffer::new().format(place));
    text.push_str(" ");
    text.push_str(name);
    if let Some(offset) = offset {
        text.push_str(" ");
        text.push_str(Buffer::new().format(offset));
    }
    text.push_str("\n");
    text
}

#[tactic(auto, using(std::proofs::Common::append_assoc))]
fn syntax_line(place: u32) -> ShortText
    ensures { result.bytes ≡ refusal_text (Refusal.BadAgent place AgentFault.Syntax) }
{
    let mut text = short("refused agent ");
    text.push_str(Buffer::new().format(place));
    text.push_str(" syntax\n");
    text
}

/// The line of an agent file, with the fault's name and the key at which it shows.
#[tactic(auto, using(std::proofs::Common::append_assoc))]
fn key_line(alloc: Global, place: u32, name: &str, key: &Units) -> Result<Line, AllocError>
    ensures { IfOk result (λ told. line_bytes told ≡ line (spaced (codes "refused") (spaced (codes "agent")
        (spaced (decimal place) (spaced name.now (text_of_name key.now)))))) }
{
    let mut text = Vec::from_slice(alloc, b"refused agent ")?;
    text.extend_from_slice(Buffer::new().format(place).as_bytes())?;
    text.push(b' ')?;
    text.extend_from_slice(name.as_bytes())?;
    text.push(b' ')?;
    text.extend_from_slice(&printed(alloc, key)?)?;
    text.push(b'\n')?;
    Ok(Line::Long(text))
}

fn agent_line(alloc: Global, place: u32, fault: &AgentFault) -> Result<Line, AllocError>
    ensures text { IfOk result (λ told. line_bytes told ≡ refusal_text (Refusal.BadAgent place fault.now)) }
    ensures memory { OnErr result (has_key fault.now ≡ true) }
{
    match fault {
        AgentFault::Syntax => Ok(Line::Short(syntax_line(place))),
        AgentFault::Missing(key) => key_line(alloc, place, "missing", key),
        AgentFault::Unknown(key) => key_line(alloc, place, "unknown", key),
        AgentFault::Kind(key) => key_line(alloc, place, "kind", key),
        AgentFault::TooMany(key) => key_line(alloc, place, "too-many", key),
    }
}

/// The line of a refusal. Memory is taken only for one that has the key of an agent file.
pub fn refusal_line(alloc: Global, refusal: &Refusal) -> Result<Line, AllocError>
    ensures text { IfOk result (λ told. line_bytes told ≡ refusal_text refusal.now) }
    ensures memory { OnErr result (names_key refusal.now ≡ true) }
{
    match refusal {
        Refusal::Usage => Ok(Line::Short(short("refused usage\n"))),
        Refusal::Absent(place) => Ok(Line::Short(numbered("refused absent", *place))),
        Refusal::ReadFault(place) => Ok(Line::Short(numbered("refused read", *place))),
        Refusal::TooLarge(limit, number) => Ok(Line::Short(limit_line(*limit, *number))),
        Refusal::BadClass(place, fault) => Ok(Line::Short(class_line(*place, *fault))),
        Refusal::BadAgent(place, fault) => agent_line(alloc, *place, fault),
        Refusal::BadText => Ok(Line::Short(short("refused schedule text\n"))),
        Refusal::BadEntry(before) => Ok(Line::Short(numbered("refused schedule", *before))),
    }
}
