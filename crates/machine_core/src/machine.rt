ghost use Rattle.std.specs.Prelude.{◌≡◌, ◌≤◌, ◌<◌, ◌^◌, ◌-◌, ◌+◌, [], length, take, drop, true, false, not, ◌&&◌, None, IfOk, IfSome, is_some, find, vec_len};
ghost use Rattle.ti_ids.specs.Actors.{same_actor};
ghost use Rattle.report_text.specs.Named.{AllNamed};
ghost use Rattle.machine_model.specs.Jobs.{AreInRange};
ghost use Rattle.machine_model.specs.Rules.{State, actors, end as end_of, is_enabled};
ghost use Rattle.machine_model.specs.Replay.{state as state_of, Runs};
ghost use Rattle.machine_model.specs.Picks.{round, pick as picks, next_actor as next_of};
ghost use Rattle.machine_model.specs.Reports.{report_parts};
ghost use Rattle.machine_core.specs.Stands.{StandsFor};
ghost use Rattle.machine_core.specs.Machines.{state_in, may_step, StepTold};
ghost use Rattle.machine_core.specs.Places.{actor_at, start_of};

use crate::job::Job;
use crate::parts::{Parts, opening};
use report_text::{AgentLogs, Bytes, ReportParts, runs_of};
use std::alloc::{AllocError, Global};
use std::marker::Model;
use ti_codes::Phase;
use ti_ids::{Actor, End, Limits, ThreadNo};

/// Why a step was not made.
#[derive(Clone, Copy, Debug, PartialEq, Eq)]
pub enum CoreFault {
    /// The actor may not make the next step. Nothing was changed.
    NotEnabled,
    /// Memory ran out. The machine is spent.
    Memory,
}

/// A machine that runs a job, one step of one actor at a time. Contracts see it as its job, its schedule, which is the
/// list of the actors of all steps so far, and whether it is spent, which only want of memory does.
#[derive(Drop)]
pub struct Machine {
    alloc: Global,
    job: Job,
    actors: Vec<Actor>,
    parts: Parts,
    spent: bool,
}

impl Model for Machine {
    ghost use Rattle.machine_core.specs.MachineValue.{MachineValue};

    ghost Value = { MachineValue };

    ghost use Rattle.machine_core.specs.Keeps.{Keeps};

    ghost view = { λ m. record { job = m.job; schedule = m.actors.items; spent = m.spent } };

    ghost invariant = { λ m. Keeps m.job m.actors.items m.parts m.spent };
}

/// Why there is no next step.
fn end_in(parts: &Parts, limits: &Limits, steps: usize) -> Option<End>
    ensures { (job : _) (s : State) → StandsFor job parts.now s → limits.now ≡ job.limits → steps ≡ s.steps → result ≡ end_of job s }
{
    if parts.phase == Phase::Dead {
        return Some(End::Dead);
    }
    if steps as u64 >= u64::from(limits.steps) {
        return Some(End::StepLimit);
    }
    if parts.output.len() as u64 >= u64::from(limits.output) {
        return Some(End::OutputLimit);
    }
    if parts.any_ready() {
        None
    } else {
        Some(End::Stuck)
    }
}

/// The actor at a place of the order in which actors are picked: the machine, and then the threads.
fn actor_of(place: u32) -> Actor
    ensures { result ≡ actor_at place }
{
    if place == 0 {
        Actor::Vm
    } else {
        Actor::Thread(ThreadNo(place))
    }
}

/// The place behind an actor, where there are so many threads; behind all for an actor that is not there.
fn place_behind(actor: Actor, threads: u32) -> u32
    requires { threads < 2 ^ 32 - 1 }
    ensures same { result ≡ start_of actor threads }
    ensures within { result ≤ threads + 1 }
{
    match actor {
        Actor::Vm => 1,
        Actor::Thread(thread) => {
            if thread.0 > 0 && thread.0 <= threads {
                thread.0 + 1
            } else {
                threads + 1
            }
        }
        Actor::Agent(_) => threads + 1,
    }
}

impl Machine {
    /// A machine in the opening state of a job, before its first step.
    pub fn new(alloc: Global, job: Job) -> Machine
        ensures fresh { result ≡ record { job = job; schedule = []; spent = false } }
    {
        let _ = job.file();
        let _ = job.limits();
        Machine {
            alloc,
            job,
            actors: Vec::new(alloc),
            parts: opening(alloc),
            spent: false,
        }
    }

    /// What it runs.
    pub fn job(&self) -> &Job
        ensures same { result.now ≡ self.now.job }
    {
        &self.job
    }

    /// Whether memory ran out in a step.
    pub fn is_spent(&self) -> bool
        ensures same { result ≡ self.now.spent }
    {
        self.spent
    }

    /// How many steps were made.
    pub fn steps(&self) -> u64
        ensures same { result ≡ length self.now.schedule }
        ensures few { result ≤ self.now.job.limits.steps }
    {
        self.actors.len() as u64
    }

    /// The limits of its job.
    pub fn limits(&self) -> Limits
        ensures same { result ≡ self.now.job.limits }
        ensures in_range { AreInRange result }
    {
        self.job.limits()
    }

    /// Why there is no next step.
    pub fn end(&self) -> Option<End>
        ensures live { self.now.spent ≡ false → result ≡ end_of self.now.job (state_in self.now) }
        ensures spent { self.now.spent ≡ true → result ≡ None }
        // As many steps as the limit allows are an end.
        ensures full { self.now.spent ≡ false → length self.now.schedule ≡ self.now.job.limits.steps → is_some result ≡ true }
    {
        if self.spent {
            return None;
        }
        end_in(&self.parts, &self.job.limits(), self.actors.len())
    }

    /// Whether the actor may make the next step.
    pub fn enabled(&self, actor: Actor) -> bool
        ensures told { result ≡ (not self.now.spent && may_step self.now actor) }
    {
        if self.spent {
            return false;
        }
        if end_in(&self.parts, &self.job.limits(), self.actors.len()).is_some() {
            return false;
        }
        self.parts.ready(actor)
    }

    /// How many threads there are.
    fn threads(&self) -> u32
        ensures told { self.now.spent ≡ false → result ≡ length (state_in self.now).core.threads }
        ensures few { result ≤ 64 }
        ensures no_agents { self.now.job.agents ≡ [] }
    {
        if self.spent {
            return 0;
        }
        self.parts.threads.len() as u32
    }

    /// The first enabled actor from one place to another.
    fn first_enabled(&self, from: u32, to: u32) -> Option<Actor>
        requires order { from ≤ to }
        requires no_agents { self.now.job.agents ≡ [] }
        requires within { self.now.spent ≡ false → to ≤ length (state_in self.now).core.threads + 1 }
        ensures { self.now.spent ≡ false → result ≡ find (may_step self.now) (take (to - from) (drop from (actors self.now.job (state_in self.now).core))) }
    {
        for place in from..to {
            let actor = actor_of(place);
            if self.enabled(actor) {
                return Some(actor);
            }
        }
        None
    }

    /// The actor that has its turn after another one.
    fn next_actor(&self, current: Actor) -> Option<Actor>
        ensures { self.now.spent ≡ false → result ≡ next_of self.now.job (state_in self.now) current }
    {
        let threads = self.threads();
        let start = place_behind(current, threads);
        match self.first_enabled(start, threads + 1) {
            Some(actor) => Some(actor),
            None => self.first_enabled(0, start),
        }
    }

    fn pick_next(&self, current: Actor, made: u32) -> Option<(Actor, u32)>
        ensures { self.now.spent ≡ false → result ≡ picks self.now.job (state_in self.now) current made }
    {
        if made < self.job.limits().slice && self.enabled(current) {
            return Some((current, made));
        }
        self.next_actor(current).map(|actor| (actor, 0))
    }

    /// The actor that one worker picks for the next step, and how many steps in a row it has made before it. The current
    /// actor has made so many.
    pub fn pick(&self, current: Actor, made: u32) -> Option<(Actor, u32)>
        ensures told { self.now.spent ≡ false → result ≡ picks self.now.job (state_in self.now) current made }
        ensures enabled { self.now.spent ≡ false → IfSome result (λ p. may_step self.now p.0 ≡ true) }
        // Where there is no end, some actor is picked.
        ensures some { self.now.spent ≡ false → end_of self.now.job (state_in self.now) ≡ None → is_some result ≡ true }
        ensures row { self.now.spent ≡ false → IfSome result (λ p. p.1 ≤ made) }
        // A spent machine picks none.
        ensures spent { self.now.spent ≡ true → result ≡ None }
    {
        if self.spent {
            return None;
        }
        self.pick_next(current, made)
    }

    /// Makes the next step, of this actor.
    pub fn step(&mut self, actor: Actor) -> Result<(), CoreFault>
        ensures told { StepTold result actor self.old self.new }
        // A spent machine stays spent.
        ensures spent { self.old.spent ≡ true → result ≡ Err CoreFault.Memory }
    {
        if self.spent {
            return Err(CoreFault::Memory);
        }
        if !self.enabled(actor) {
            return Err(CoreFault::NotEnabled);
        }
        match self.parts.step(self.alloc, &self.job, actor) {
            Err(_) => {
                self.spent = true;
                Err(CoreFault::Memory)
            }
            Ok(()) => match self.actors.push(actor) {
                Err(_) => {
                    self.spent = true;
                    Err(CoreFault::Memory)
                }
                Ok(()) => Ok(()),
            },
        }
    }

    /// What a report of the run so far prints.
    pub fn parts(&self) -> Result<ReportParts, AllocError>
        ensures told { self.now.spent ≡ false → IfOk result (λ r. r ≡ report_parts self.now.job self.now.schedule (end_of self.now.job (state_in self.now))) }
        // The schedule can be run, and a report can state it.
        ensures legal { Runs self.now.job self.now.schedule }
        ensures named { AllNamed self.now.schedule }
        ensures few { length self.now.schedule ≤ 4000000 }
    {
        let end = self.end();
        let threads = self.parts.thread_lines(self.alloc)?;
        Ok(ReportParts {
            main: self.job.main().clone_in(self.alloc)?,
            runs: runs_of(self.alloc, &self.actors)?,
            steps: self.actors.len() as u32,
            end,
            threads,
            output: Bytes::new(self.parts.output.as_slice().to_vec(self.alloc)?),
            agents: AgentLogs::new(Vec::new(self.alloc)),
        })
    }
}
