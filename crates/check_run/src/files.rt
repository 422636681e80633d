ghost use Rattle.std.specs.Prelude.{◌≡◌, ◌↔◌, ◌≤◌, [], ◌∷◌, true, false, IsTrue, IfSome, IfOk, IfErr};
ghost use Rattle.ti_port.specs.Port.{Rose};
ghost use Rattle.check_run.specs.Checks.{Tells};
ghost use Rattle.check_run.specs.Lines.{Says, IsAccepted};
ghost use Rattle.check_run.specs.Files.{IsFault, AreAccepted, AcceptsAll, TellsFiles, TellsFirst, TellsAll, TellsSome};
ghost use Rattle.check_run.specs.Words.{texts, AsksNothing, AsksSome};

use crate::check::{Checked, check_class};
use crate::line::{Answer, line};
use crate::status::Status;
use crate::words::read_request;
use std::alloc::{AllocError, Global};
use std::io::Write;
use ti_port::{Fetched, Store};

/// The most bytes that a class file may have, as for the host.
const CLASS_BYTES: u64 = 1_048_576;

/// What is said of the bytes, which are checked so many times.
fn check_often(alloc: Global, bytes: &[u8], times: u32) -> Result<Checked, AllocError>
    ensures { IfOk result (Tells bytes.now) }
{
    for _turn in 1..times {
        let _ = check_class(alloc, bytes)?;
    }
    check_class(alloc, bytes)
}

/// What is said of the file of this name, whose bytes are checked so many times.
fn check_file<S: Store>(
    alloc: Global,
    store: &mut S,
    name: &str,
    times: u32,
) -> Result<Answer, AllocError>
    ensures files { S.files store.new ≡ S.files store.old }
    ensures told { IfSome (S.files store.old) (λ files. IfOk result (Says (files name.now))) }

    // Only after a failed fetch.
    ensures unreadable { IfOk result (λ answer. answer ≡ Answer.Unreadable → Rose (S.faults store.old) (S.faults store.new)) }
    ensures risen { S.faults store.old ≤ S.faults store.new }
{
    match store.fetch(alloc, name, CLASS_BYTES)? {
        Fetched::Found(bytes) => Ok(Answer::Read(check_often(alloc, &bytes, times)?)),
        Fetched::Absent => Ok(Answer::Absent),
        Fetched::TooLong => Ok(Answer::TooLarge),
        Fetched::Failed => Ok(Answer::Unreadable),
    }
}

/// Checks a file, writes its line, and says whether it was accepted.
#[tactic(auto, using(crate::proofs::FilesTold::tells_one))]
fn tell_file<S: Store, W: Write>(
    alloc: Global,
    store: &mut S,
    out: &mut W,
    name: &str,
    times: u32,
) -> Result<bool, Status>
    ensures files { S.files store.new ≡ S.files store.old }
    ensures told { IfOk result (λ accepted. IsTrue accepted → IfSome (S.files store.old) (λ files. IsAccepted (files name.now))) }
    ensures line { IfOk result (TellsFiles (S.files store.old) (name.now ∷ []) (W.contents out.old) (W.contents out.new) (S.faults store.old) (S.faults store.new)) }
    ensures risen { S.faults store.old ≤ S.faults store.new }
    ensures fault { IfErr result IsFault }

    // Nothing was written.
    ensures memory { IfErr result (λ status. status ≡ Status.OutOfMemory → out.new ≡ out.old) }
{
    let answer = check_file(alloc, store, name, times)?;
    let text = line(alloc, name, answer)?;
    out.write_all(text.as_bytes())?;
    Ok(answer.is_accepted())
}

/// Checks the files, and writes a line for each. It says whether all were accepted. The first line that cannot be written,
/// or made for want of memory, is the last one.
fn tell_files<S: Store, W: Write>(
    alloc: Global,
    store: &mut S,
    out: &mut W,
    names: &[String],
    times: u32,
) -> Result<bool, Status>
    ensures files { S.files store.new ≡ S.files store.old }
    ensures told { IfOk result (λ all. IsTrue all → AreAccepted (S.files store.old) (texts names.now)) }
    ensures lines { IfOk result (TellsFiles (S.files store.old) (texts names.now) (W.contents out.old) (W.contents out.new) (S.faults store.old) (S.faults store.new)) }
    ensures fault { IfErr result IsFault }

    // The first files have their lines, and nothing else was written.
    ensures memory { IfErr result (λ status. status ≡ Status.OutOfMemory → TellsFirst (S.files store.old) (texts names.now) (W.contents out.old) (W.contents out.new) (S.faults store.old) (S.faults store.new)) }
{
    let mut all = true;
    for name in names {
        let accepted = tell_file(alloc, store, out, name.as_str(), times)?;
        all = all && accepted;
    }
    Ok(all)
}

/// Does what the words ask for. A line that cannot be written is the last one, and may be there in part.
#[tactic(auto, using(crate::proofs::FilesTold::asked_told, crate::proofs::FilesTold::asked_first, crate::proofs::WordsAsked::asked_some))]
pub fn check_all<S: Store, W: Write>(
    alloc: Global,
    words: &[String],
    store: &mut S,
    out: &mut W,
) -> Status
    // Only where the words name files, and each is a class file.
    ensures accepted { result ≡ Status.Accepted → AcceptsAll (S.files store.old) (texts words.now) }

    // Each file has its line.
    ensures all_told { result ≡ Status.Accepted → TellsAll (S.files store.old) (texts words.now) (W.contents out.old) (W.contents out.new) (S.faults store.old) (S.faults store.new) true }
    ensures told { result ≡ Status.NotAccepted → TellsAll (S.files store.old) (texts words.now) (W.contents out.old) (W.contents out.new) (S.faults store.old) (S.faults store.new) false }

    // The first files have their lines, and nothing else was written.
    ensures memory { result ≡ Status.OutOfMemory → TellsSome (S.files store.old) (texts words.now) (W.contents out.old) (W.contents out.new) (S.faults store.old) (S.faults store.new) }

    // Only where the words ask for something.
    ensures write { result ≡ Status.WriteFault → AsksSome (texts words.now) }

    // Just where the words ask for nothing, and then nothing is done.
    ensures usage { (result ≡ Status.Usage) ↔ AsksNothing (texts words.now) }
    ensures idle { result ≡ Status.Usage → (store.new ≡ store.old) × (out.new ≡ out.old) }
    ensures files { S.files store.new ≡ S.files store.old }
{
    let Some(request) = read_request(words) else {
        return Status::Usage;
    };
    match tell_files(alloc, store, out, request.files, request.times) {
        Ok(true) => Status::Accepted,
        Ok(false) => Status::NotAccepted,
        Err(status) => status,
    }
}
