//! Actors (`ti_ids`), schedules and reports (`report_text`).

use crate::words::{text, word};
use anyhow::{Result, bail, ensure};
use jv_names::Units;
use report_text::{
    AgentLog, AgentLogs, Bytes, Lines, ReportParts, Run, Runs, ThreadLine, ThreadLines, report,
    runs_of,
};
use std::alloc::{AllocError, Global};
use ti_ids::{Actor, End, EnvNo, ThreadNo};

/// `v`, `tN` or `aN`: the machine, a thread or an agent.
fn actor(word: &str) -> Result<Actor> {
    if let Some(number) = word.strip_prefix('t') {
        return Ok(Actor::Thread(ThreadNo(number.parse()?)));
    }
    if let Some(number) = word.strip_prefix('a') {
        return Ok(Actor::Agent(EnvNo(number.parse()?)));
    }
    ensure!(word == "v", "not an actor");
    Ok(Actor::Vm)
}

/// `same_actor ACTOR ACTOR`
pub fn compare_actors(alloc: Global, arguments: &[&str]) -> Result<String> {
    let (left, right) = (actor(word(arguments, 0))?, actor(word(arguments, 1))?);
    Ok(left.same(right).to_string(alloc)?)
}

/// Who makes each step.
fn actors(alloc: Global, words: &[&str]) -> Result<Vec<Actor>> {
    let mut actors = Vec::new(alloc);
    for word in words {
        actors.push(actor(word)?)?;
    }
    Ok(actors)
}

fn end(word: &str) -> Result<Option<End>> {
    match word {
        "cut" => Ok(None),
        "dead" => Ok(Some(End::Dead)),
        "step-limit" => Ok(Some(End::StepLimit)),
        "line-limit" => Ok(Some(End::LineLimit)),
        "output-limit" => Ok(Some(End::OutputLimit)),
        "stuck" => Ok(Some(End::Stuck)),
        _ => bail!("not an end"),
    }
}

fn bytes(alloc: Global, text: &str) -> Result<Bytes, AllocError> {
    Ok(Bytes::new(text.as_bytes().to_vec(alloc)?))
}

fn log(alloc: Global, name: &str, line: &str) -> Result<AgentLog, AllocError> {
    let lines = vec![in alloc; bytes(alloc, line)?, bytes(alloc, "")?]?;
    Ok(AgentLog {
        name: bytes(alloc, name)?,
        lines: Lines::new(lines),
    })
}

/// The report that the arguments `MAIN END ACTOR ..` begin, where an actor stands for each step.
fn printed(
    alloc: Global,
    arguments: &[&str],
    threads: ThreadLines,
    output: &str,
    agents: AgentLogs,
) -> Result<String> {
    let actors = actors(alloc, arguments.get(2..).unwrap_or(&[]))?;
    ensure!(actors.len() < 0xffff_ffff, "too many steps");
    let parts = ReportParts {
        main: text(alloc, arguments)?,
        runs: runs_of(alloc, &actors)?,
        steps: actors.len() as u32,
        end: end(word(arguments, 1))?,
        threads,
        output: bytes(alloc, output)?,
        agents,
    };
    Ok(String::from_utf8(report(alloc, &parts)?)?)
}

/// `report MAIN END ACTOR ..`: of a thread that ended, a line of output and no agents.
pub fn print(alloc: Global, arguments: &[&str]) -> Result<String> {
    let threads = ThreadLines::new(vec![in alloc; ThreadLine::Ended]?);
    let agents = AgentLogs::new(Vec::new(alloc));
    printed(alloc, arguments, threads, "5\n", agents)
}

/// `report_with_agents MAIN END ACTOR ..`: of two threads that did not end well, no output and two agents.
pub fn print_with_agents(alloc: Global, arguments: &[&str]) -> Result<String> {
    let class = Units::from_ascii(alloc, b"a/B c")?;
    let threads = vec![in alloc; ThreadLine::Uncaught(class), ThreadLine::Live]?;
    let agents = vec![in alloc;
        log(alloc, "trace", "enter a")?,
        log(alloc, "count", "3 4")?,
    ]?;
    let threads = ThreadLines::new(threads);
    printed(alloc, arguments, threads, "", AgentLogs::new(agents))
}
