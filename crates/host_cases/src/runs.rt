//! The reading of a class, and the machine that runs it.

ghost use Rattle.std.specs.Prelude.{◌≡◌, true};
ghost use Rattle.machine_model.specs.Jobs.{AreInRange};

use crate::edits::edited;
use anyhow::{Result, bail};
use first_form_read::read_class;
use machine_core::{CoreFault, Job, Machine};
use report_text::report;
use std::alloc::Global;
use ti_ids::{Actor, EnvNo, Limits, ThreadNo};

const VM: Actor = Actor::Vm;

/// Actors by their names: the machine, a run's only thread, and some that it has not.
const ACTORS: [(&str, Actor); 5] = [
    ("v", VM),
    ("t1", Actor::Thread(ThreadNo(1))),
    ("t0", Actor::Thread(ThreadNo(0))),
    ("t2", Actor::Thread(ThreadNo(2))),
    ("a1", Actor::Agent(EnvNo(1))),
];

/// The limits of a run by default.
const USUAL: Limits = Limits {
    steps: 1_000_000,
    lines: 10_000,
    output: 1_048_576,
    heap: 1_000_000,
    slice: 1_000,
};

/// Whether a class is of the form that is read.
pub fn form(alloc: Global, add: &[u8], edit: &str) -> Result<String> {
    match read_class(alloc, &edited(alloc, add, edit)?) {
        Ok(_) => Ok(String::from_str(alloc, "accepted")?),
        Err(fault) => Ok(format!(in alloc; "{fault}")?),
    }
}

/// Limits that differ from the usual ones in one, as `steps=16`, or not.
fn limits_of(text: &str) -> Result<Limits> {
    let (name, value) = text.split_once('=').unwrap_or((text, "0"));
    let value = value.parse::<u32>()?;
    match name {
        "usual" => Ok(USUAL),
        "steps" => Ok(Limits {
            steps: value,
            ..USUAL
        }),
        "output" => Ok(Limits {
            output: value,
            ..USUAL
        }),
        "slice" => Ok(Limits {
            slice: value,
            ..USUAL
        }),
        _ => bail!("not a case"),
    }
}

/// Whether each limit is in the range that a job has for it.
fn are_in_range(limits: Limits) -> bool
    ensures { result ≡ true → AreInRange limits }
{
    (1 <= limits.steps && limits.steps <= 4_000_000)
        && (1 <= limits.lines && limits.lines <= 100_000)
        && (1 <= limits.output && limits.output <= 16_777_216)
        && (64 <= limits.heap && limits.heap <= 16_000_000)
        && (1 <= limits.slice && limits.slice <= 1_000_000)
}

/// The machine of a class with an edit.
fn machine_of(alloc: Global, add: &[u8], limits: Limits, edit: &str) -> Result<Machine> {
    if !are_in_range(limits) {
        bail!("not a case");
    }
    let bytes = edited(alloc, add, edit)?;
    let file = read_class(alloc, &bytes)?;
    Ok(Machine::new(alloc, Job::new(file, bytes, limits)))
}

/// The report of a run within these limits.
pub fn run(alloc: Global, add: &[u8], limits: &str, edit: &str) -> Result<String> {
    let mut machine = machine_of(alloc, add, limits_of(limits)?, edit)?;
    let (mut last, mut made) = (VM, 0u32);
    for _ in 0..100 {
        let Some((actor, row)) = machine.pick(last, made) else {
            break;
        };
        if machine.step(actor).is_err() {
            bail!("no step was made");
        }
        last = actor;
        made = row.saturating_add(1);
    }
    let text = report(alloc, &machine.parts()?)?;
    Ok(format!(in alloc; "{:?}", str::from_utf8(&text)?)?)
}

/// The names of those who may make the next step. A try of each other one must be refused.
fn put_enabled(machine: &mut Machine, names: &mut String) -> Result<()> {
    let steps = machine.steps();
    for (name, actor) in ACTORS {
        if machine.enabled(actor) {
            names.push_str(name)?;
        } else if machine.step(actor) != Err(CoreFault::NotEnabled) || machine.steps() != steps {
            bail!("a step of {name} was not refused");
        }
    }
    Ok(())
}

/// Who may make each step of a run, and that nobody may make one behind its end.
pub fn enabled(alloc: Global, add: &[u8], edit: &str) -> Result<String> {
    let mut machine = machine_of(alloc, add, USUAL, edit)?;
    let mut names = String::new(alloc);
    for _ in 0..100 {
        put_enabled(&mut machine, &mut names)?;
        let Some((actor, _)) = machine.pick(VM, 1000) else {
            names.push_str("nobody")?;
            break;
        };
        names.push(' ')?;
        if machine.step(actor).is_err() {
            bail!("no step was made");
        }
    }
    Ok(names)
}
