ghost use Rattle.std.specs.Prelude.{◌≡◌, ◌++◌, ◌<◌, ◌^◌, List, length, decimal, flat_map, IfOk, OnOk};
ghost use Rattle.ti_ids.specs.declared.actor.Actor.{Actor};
ghost use Rattle.report_text.specs.Runs.{runs_of as runs_in};
ghost use Rattle.report_text.specs.Named.{AllNamed};
ghost use Rattle.report_text.specs.Stated.{stated};
ghost use Rattle.report_text.specs.Texts.{line, run_text, schedule_text, end_text, end_texts, thread_text, thread_texts, output_texts, agent_texts, agents_texts, front_texts, back_texts, report_text as text_of};

use crate::{AgentLog, Bytes, ReportParts, Run, ThreadLine};
use jv_names::printed;
use std::alloc::{AllocError, Global};
use ti_ids::{Actor, End, EnvNo, ThreadNo};

fn end_name(end: Option<End>) -> &'static str
    ensures { result.now ≡ end_text end }
{
    match end {
        None => "cut",
        Some(End::Dead) => "dead",
        Some(End::StepLimit) => "step-limit",
        Some(End::LineLimit) => "line-limit",
        Some(End::OutputLimit) => "output-limit",
        Some(End::Stuck) => "stuck",
    }
}

/// A line of two pieces.
#[tactic(auto, using(std::proofs::Common::append_assoc))]
fn put_line(text: &mut Vec<u8>, label: &str, body: &[u8]) -> Result<(), AllocError>
    ensures { OnOk result (text.new.items ≡ text.old.items ++ line (label.now ++ body.now)) }
{
    text.extend_from_slice(label.as_bytes())?;
    text.extend_from_slice(body)?;
    text.push(b'\n')?;
    Ok(())
}

fn put_number(text: &mut Vec<u8>, alloc: Global, number: u64) -> Result<(), AllocError>
    ensures { OnOk result (text.new.items ≡ text.old.items ++ decimal number) }
{
    let digits = number.to_string(alloc)?;
    text.extend_from_slice(digits.as_bytes())?;
    Ok(())
}

/// A line of a label and a number.
#[tactic(auto, using(std::proofs::Common::append_assoc))]
fn put_count(text: &mut Vec<u8>, alloc: Global, label: &str, number: u64) -> Result<(), AllocError>
    ensures { OnOk result (text.new.items ≡ text.old.items ++ line (label.now ++ decimal number)) }
{
    text.extend_from_slice(label.as_bytes())?;
    put_number(text, alloc, number)?;
    text.push(b'\n')?;
    Ok(())
}

#[tactic(auto, using(std::proofs::Common::append_assoc))]
fn put_run(text: &mut Vec<u8>, alloc: Global, run: Run) -> Result<(), AllocError>
    ensures { OnOk result (text.new.items ≡ text.old.items ++ run_text run) }
{
    match run.actor {
        Actor::Vm => text.extend_from_slice(b" v")?,
        Actor::Thread(ThreadNo(number)) => {
            text.extend_from_slice(b" t")?;
            put_number(text, alloc, u64::from(number))?;
        }
        Actor::Agent(EnvNo(number)) => {
            text.extend_from_slice(b" a")?;
            put_number(text, alloc, u64::from(number))?;
        }
    }
    text.push(b':')?;
    put_number(text, alloc, u64::from(run.count))
}

fn put_runs(text: &mut Vec<u8>, alloc: Global, runs: &[Run]) -> Result<(), AllocError>
    ensures { OnOk result (text.new.items ≡ text.old.items ++ flat_map run_text runs.now) }
{
    for run in runs {
        put_run(text, alloc, *run)?;
    }
    Ok(())
}

#[tactic(auto, using(std::proofs::Common::append_assoc))]
fn put_schedule(text: &mut Vec<u8>, alloc: Global, runs: &[Run]) -> Result<(), AllocError>
    ensures { OnOk result (text.new.items ≡ text.old.items ++ line (schedule_text runs.now)) }
{
    text.extend_from_slice(b"schedule")?;
    put_runs(text, alloc, runs)?;
    text.push(b'\n')?;
    Ok(())
}

#[tactic(auto, using(std::proofs::Common::append_assoc))]
fn put_thread(
    text: &mut Vec<u8>,
    alloc: Global,
    number: usize,
    thread: &ThreadLine,
) -> Result<(), AllocError>
    ensures { OnOk result (text.new.items
        ≡ text.old.items ++ line (thread_text number thread.now)) }
{
    text.extend_from_slice(b"thread ")?;
    put_number(text, alloc, number as u64)?;
    match thread {
        ThreadLine::Ended => text.extend_from_slice(b" ended\n")?,
        ThreadLine::Uncaught(class) => put_line(text, " uncaught ", &printed(alloc, class)?)?,
        ThreadLine::Live => text.extend_from_slice(b" live\n")?,
    }
    Ok(())
}

fn put_threads(text: &mut Vec<u8>, alloc: Global, threads: &[ThreadLine]) -> Result<(), AllocError>
    ensures { OnOk result (text.new.items
        ≡ text.old.items ++ flat_map line (thread_texts 1 threads.now)) }
{
    for (i, thread) in threads.iter().enumerate() {
        put_thread(text, alloc, i + 1, thread)?;
    }
    Ok(())
}

#[tactic(auto, using(std::proofs::Common::append_assoc))]
fn put_output(text: &mut Vec<u8>, alloc: Global, output: &[u8]) -> Result<(), AllocError>
    ensures { OnOk result (text.new.items
        ≡ text.old.items ++ flat_map line (output_texts output.now)) }
{
    put_count(text, alloc, "output ", output.len() as u64)?;
    put_line(text, "", output)
}

fn put_lines(text: &mut Vec<u8>, lines: &[Bytes]) -> Result<(), AllocError>
    ensures { OnOk result (text.new.items ≡ text.old.items ++ flat_map line lines.now) }
{
    for bytes in lines {
        put_line(text, "", bytes.as_slice())?;
    }
    Ok(())
}

#[tactic(auto, using(std::proofs::Common::append_assoc))]
fn put_agent(text: &mut Vec<u8>, alloc: Global, agent: &AgentLog) -> Result<(), AllocError>
    ensures { OnOk result (text.new.items
        ≡ text.old.items ++ flat_map line (agent_texts agent.now)) }
{
    text.extend_from_slice(b"agent ")?;
    text.extend_from_slice(agent.name.as_slice())?;
    let lines = agent.lines.as_slice();
    put_count(text, alloc, " ", lines.len() as u64)?;
    put_lines(text, lines)
}

fn put_logs(text: &mut Vec<u8>, alloc: Global, agents: &[AgentLog]) -> Result<(), AllocError>
    ensures { OnOk result (text.new.items
        ≡ text.old.items ++ flat_map line (flat_map agent_texts agents.now)) }
{
    for agent in agents {
        put_agent(text, alloc, agent)?;
    }
    Ok(())
}

#[tactic(auto, using(std::proofs::Common::append_assoc))]
fn put_agents(text: &mut Vec<u8>, alloc: Global, agents: &[AgentLog]) -> Result<(), AllocError>
    ensures { OnOk result (text.new.items
        ≡ text.old.items ++ flat_map line (agents_texts agents.now)) }
{
    put_count(text, alloc, "agents ", agents.len() as u64)?;
    put_logs(text, alloc, agents)
}

/// How many steps were made, and why no more.
#[tactic(auto, using(std::proofs::Common::append_assoc))]
fn put_end(
    text: &mut Vec<u8>,
    alloc: Global,
    steps: u32,
    end: Option<End>,
) -> Result<(), AllocError>
    ensures { OnOk result (text.new.items ≡ text.old.items ++ flat_map line (end_texts steps end)) }
{
    put_count(text, alloc, "steps ", u64::from(steps))?;
    put_line(text, "end ", end_name(end).as_bytes())
}

/// What was run, by which schedule, and how it is over.
#[tactic(auto, using(std::proofs::Common::append_assoc))]
fn put_front(text: &mut Vec<u8>, alloc: Global, parts: &ReportParts) -> Result<(), AllocError>
    ensures { OnOk result (text.new.items
        ≡ text.old.items ++ flat_map line (front_texts parts.now)) }
{
    text.extend_from_slice(b"report 1\nprofile 1\n")?;
    put_line(text, "main ", &printed(alloc, &parts.main)?)?;
    put_schedule(text, alloc, parts.runs.as_slice())?;
    put_end(text, alloc, parts.steps, parts.end)
}

/// What came of it.
#[tactic(auto, using(std::proofs::Common::append_assoc))]
fn put_back(text: &mut Vec<u8>, alloc: Global, parts: &ReportParts) -> Result<(), AllocError>
    ensures { OnOk result (text.new.items
        ≡ text.old.items ++ flat_map line (back_texts parts.now)) }
{
    put_threads(text, alloc, parts.threads.as_slice())?;
    put_output(text, alloc, parts.output.as_slice())?;
    put_agents(text, alloc, parts.agents.as_slice())
}

/// The report's text, in bytes. Its schedule line states the schedule whose runs the parts have, where the numbers of
/// that schedule's threads and agents, and of its steps, have at most nine digits.
#[tactic(auto, unfolding(crate::specs::Texts::report_text))]
pub fn report(alloc: Global, parts: &ReportParts) -> Result<Vec<u8>, AllocError>
    ensures text { IfOk result (λ t. t.items ≡ text_of parts.now) }
    ensures states { IfOk result (λ t. (schedule : List Actor) → parts.now.runs ≡ runs_in schedule
        → AllNamed schedule → length schedule < 10 ^ 9 → stated t.items ≡ Some schedule) }
{
    let mut text = Vec::new(alloc);
    put_front(&mut text, alloc, parts)?;
    put_back(&mut text, alloc, parts)?;
    Ok(text)
}
