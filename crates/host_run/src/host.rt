ghost use Rattle.std.specs.Prelude.{◌≡◌, ◌<◌, ◌⊎◌, IfSome, None, Some};
ghost use Rattle.ti_port.specs.Port.{Told, Rose};
ghost use Rattle.machine_model.specs.Jobs.{Job as TheJob};
ghost use Rattle.machine_model.specs.Results.{request_of, result_of, Accepted};
ghost use Rattle.host_run.specs.Words.{texts};
ghost use Rattle.host_run.specs.Statuses.{Answers, status_of, status_of_end};
ghost use Rattle.host_run.specs.Headline.{Headline};
ghost use Rattle.host_run.specs.Written.{Writes};
ghost use Rattle.host_run.specs.Counts.{NoFetchFailed, StoreCounts, SinkCounts};
ghost use Rattle.host_run.specs.Halves.{RunAnswers, RunWrites, RefusalAnswers, RefusalWrites};

use crate::line::refusal_line;
use crate::load::{JobFault, load_job};
use crate::run::run;
use crate::write::write_all;
use job_words::{Refusal, Status};
use machine_core::Job;
use std::alloc::Global;
use ti_ids::End;
use ti_port::{Sink, Store};

/// The status of a run with this end. No thread ends by an exception yet.
fn end_status(end: End) -> Status
    ensures { result ≡ status_of_end end }
{
    match end {
        End::Dead => Status::Done,
        End::Stuck => Status::Stuck,
        End::StepLimit | End::LineLimit | End::OutputLimit => Status::Limit,
    }
}

/// Runs a job, and writes its report. The report is made before any of it is written.
fn run_and_write<K: Sink>(alloc: Global, job: Job, sink: &mut K) -> Status
    ensures headline { Told (Headline job result) (K.held sink.old) (K.held sink.new) }
    ensures answer { RunAnswers job result }
    ensures written { Told (RunWrites job result) (K.held sink.old) (K.held sink.new) }
    ensures count { SinkCounts result (K.faults sink.old) (K.faults sink.new) }
{
    match run(alloc, job) {
        Err(_) => Status::OutOfMemory,
        Ok((text, end)) => {
            if write_all(sink, &text) {
                return end_status(end);
            }
            Status::WriteFault
        }
    }
}

/// Writes the line of a refusal. Memory is taken only for one that has the key of an agent file.
fn refuse<K: Sink>(alloc: Global, refusal: &Refusal, sink: &mut K) -> Status
    ensures answer { RefusalAnswers refusal.now result }
    ensures written { Told (RefusalWrites refusal.now result) (K.held sink.old) (K.held sink.new) }
    ensures count { SinkCounts result (K.faults sink.old) (K.faults sink.new) }
{
    match refusal_line(alloc, refusal) {
        Err(_) => Status::OutOfMemory,
        Ok(line) => {
            if write_all(sink, line.as_bytes()) {
                return refusal.status();
            }
            Status::WriteFault
        }
    }
}

/// Does what the words ask for, with one worker. It always returns. It ends in `OutOfMemory` only
/// where an allocation was refused, which no clause can say.
pub fn host_one<S: Store, K: Sink>(
    alloc: Global,
    words: &[String],
    store: &mut S,
    sink: &mut K,
) -> Status
    // What is written of a job is the report of its run by the schedule that the text states.
    ensures headline { IfSome (S.files store.old) (λ files. (job : TheJob)
        → result_of (texts words.now) files ≡ Accepted job
        → Told (Headline job result) (K.held sink.old) (K.held sink.new)) }

    // Each status but a fault's is exactly that of the result.
    ensures answer { IfSome (S.files store.old) (λ files.
        Answers (result_of (texts words.now) files) result) }

    // Where no count rose, the status is that of the result, or memory ran out.
    ensures complete { IfSome (S.files store.old) (λ files.
        ¬ Rose (S.faults store.old) (S.faults store.new)
        → ¬ Rose (K.faults sink.old) (K.faults sink.new)
        → ((status_of (result_of (texts words.now) files) ≡ Some result) ⊎ (result ≡ Status.OutOfMemory))) }

    // The sink has got all of the text, after a failed put a front of it, and without memory nothing.
    ensures written { IfSome (S.files store.old) (λ files.
        Told (Writes (result_of (texts words.now) files) (S.faults store.old) (S.faults store.new) result)
        (K.held sink.old) (K.held sink.new)) }

    // Words that are not accepted are refused whatever the files and the memory, and no fetch fails.
    ensures usage { request_of (texts words.now) ≡ None
        → ((result ≡ Status.Usage) ⊎ (result ≡ Status.WriteFault)) }
    ensures only_usage { result ≡ Status.Usage → request_of (texts words.now) ≡ None }
    ensures no_fetch { request_of (texts words.now) ≡ None
        → NoFetchFailed (S.faults store.old) (S.faults store.new) (S.failed store.old) (S.failed store.new) }

    // A fault has its cause, and no other status comes behind a cause.
    ensures store_count { StoreCounts (texts words.now) result
        (S.faults store.old) (S.faults store.new) (S.failed store.old) (S.failed store.new) }
    ensures sink_count { SinkCounts result (K.faults sink.old) (K.faults sink.new) }
    ensures after_fetch { S.faults store.old < S.faults store.new
        → ((result ≡ Status.ReadFault) ⊎ (result ≡ Status.WriteFault)) }
    ensures after_put { K.faults sink.old < K.faults sink.new → result ≡ Status.WriteFault }
{
    match load_job(alloc, words, store) {
        Ok(job) => run_and_write(alloc, job, sink),
        Err(JobFault::Refused(refusal)) => refuse(alloc, &refusal, sink),
        Err(JobFault::Memory) => Status::OutOfMemory,
    }
}
