ghost use Rattle.std.specs.Prelude.{◌≡◌, ◌↔◌, IfSome};
ghost use Rattle.classfile_read.specs.ClassReading as grammar;
ghost use Rattle.first_form.specs.Reading as form;
ghost use Rattle.machine_model.specs.Results.{request_of, result_of, result_of_class, result_of_first};
ghost use Rattle.host_run.specs.Loads.{Checks, IsOfClass, Loads, LoadCounts};
ghost use Rattle.host_run.specs.Words.{texts};

use crate::words::read_request;
use classfile_read::{ReadClassFault, read_class};
use job_words::{InputLimit, Refusal};
use machine_core::Job;
use std::alloc::Global;
use ti_ids::Limits;
use ti_port::{Fetched, Store};

/// Why there is no job.
#[derive(Drop, Debug)]
pub enum JobFault {
    Refused(Refusal),
    Memory,
}

const LIMITS: Limits = Limits {
    steps: 1_000_000,
    lines: 10_000,
    output: 1_048_576,
    heap: 1_000_000,
    slice: 1_000,
};

/// What is told of a class that the grammar accepts, and that cannot be run yet.
const NOT_YET: ReadClassFault = ReadClassFault::Unsupported(0);

/// The only class file, whose place is 1, has this fault.
fn bad_class(fault: ReadClassFault) -> JobFault
    ensures { result ≡ JobFault.Refused (Refusal.BadClass 1 fault) }
{
    JobFault::Refused(Refusal::BadClass(1, fault))
}

/// Reads a class file by the whole grammar, and keeps nothing of it.
fn check_class(alloc: Global, bytes: &[u8]) -> Result<(), JobFault>
    ensures { Checks result (grammar.class_of bytes.now) }
{
    match read_class(alloc, bytes) {
        Ok(_) => Ok(()),
        Err(ReadClassFault::Memory) => Err(JobFault::Memory),
        Err(fault) => Err(bad_class(fault)),
    }
}

/// The job of a class file that the grammar accepts, if it is in the first form and of that name.
fn first_job(alloc: Global, main: &str, bytes: Vec<u8>) -> Result<Job, JobFault>
    ensures told { Loads result
        (result_of_first main.now bytes.items (form.class_of bytes.items)) }
    ensures kind { IsOfClass result }
{
    match first_form_read::read_class(alloc, &bytes) {
        Ok(class) => {
            if class.name().is_text(main.as_bytes()) {
                return Ok(Job::new(class, bytes, LIMITS));
            }
            Err(bad_class(NOT_YET))
        }
        Err(first_form_read::ReadClassFault::Unsupported(_)) => Err(bad_class(NOT_YET)),
        Err(first_form_read::ReadClassFault::Memory) => Err(JobFault::Memory),
    }
}

/// The job of the main class's name and its file's bytes.
#[tactic(auto, using(crate::proofs::Loading::accepted))]
fn job_of(alloc: Global, main: &str, bytes: Vec<u8>) -> Result<Job, JobFault>
    ensures told { Loads result
        (result_of_class main.now bytes.items (grammar.class_of bytes.items) (form.class_of bytes.items)) }
    ensures kind { IsOfClass result }
{
    check_class(alloc, &bytes)?;
    first_job(alloc, main, bytes)
}

/// The job that the words and the store's files ask for. The words are read before any file is.
pub fn load_job<S: Store>(alloc: Global, words: &[String], store: &mut S) -> Result<Job, JobFault>
    ensures told { IfSome (S.files store.old) (λ files. Loads result (result_of (texts words.now) files)) }
    ensures usage { (result ≡ Err (JobFault.Refused Refusal.Usage)) ↔ (request_of (texts words.now) ≡ None) }
    ensures count { LoadCounts (texts words.now) result (S.faults store.old) (S.faults store.new) (S.failed store.old) (S.failed store.new) }
{
    let Some(request) = read_request(words) else {
        return Err(JobFault::Refused(Refusal::Usage));
    };
    let most = u64::from(InputLimit::ClassBytes.most());
    match store.fetch(alloc, request.file, most) {
        Ok(Fetched::Found(bytes)) => job_of(alloc, request.main, bytes),
        Ok(Fetched::Absent) => Err(JobFault::Refused(Refusal::Absent(1))),
        Ok(Fetched::TooLong) => Err(JobFault::Refused(Refusal::TooLarge(
            InputLimit::ClassBytes,
            1,
        ))),
        Ok(Fetched::Failed) => Err(JobFault::Refused(Refusal::ReadFault(1))),
        Err(_) => Err(JobFault::Memory),
    }
}
