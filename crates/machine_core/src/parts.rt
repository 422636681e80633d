ghost use Rattle.std.specs.Prelude.{◌≡◌, ◌+◌, ◌∷◌, ◌++◌, [], ◌<◌, ◌≤◌, ◌^◌, ◌-◌, ℕ, Some, reverse, map, length, vec_len, IfOk, OnOk, IsSome};
ghost use Rattle.std.specs.List.{list_all};
ghost use Rattle.machine_model.specs.Effects.{printed_int};
ghost use Rattle.machine_model.specs.Reports.{standing, thread_line};
ghost use Rattle.machine_model.specs.Rules.{State, machine_rule as rule_of_machine, live_rule as rule_of_live, is_live as lives, is_ready, is_over, ready_thread, any_ready};
ghost use Rattle.machine_model.specs.Replay.{step as state_after};
ghost use Rattle.machine_core.specs.Lists.{ChangedAt};
ghost use Rattle.machine_core.specs.Seen.{machine_rule_seen, thread_rule_seen, any_thread_seen, any_seen};
ghost use Rattle.machine_core.specs.ThreadChanges.{IsOpening, IsFirst, InState, Pushed, Popped, Entered, Ran, OutputAfter};
ghost use Rattle.machine_core.specs.Stands.{StandsFor, RuleIs};

use crate::frame::{Frame, main_frame};
use crate::job::Job;
use crate::operands::Done;
use crate::thread::{Thread, execute};
use first_form_read::ClassFile;
use machine_model::{MachineRule, ThreadRule};
use report_text::{ThreadLine, ThreadLines};
use std::alloc::{AllocError, Global};
use ti_codes::Phase;
use ti_ids::{Actor, InitState, ObjNo, ThreadNo, ThreadState};

/// What the machine keeps of its state. Of the heap it keeps how many objects there are, of the classes how far the main
/// class is, once it is loaded.
#[derive(Drop)]
pub struct Parts {
    pub phase: Phase,
    pub died: bool,
    pub threads: Vec<Thread>,
    pub class: Option<InitState>,
    pub objects: u32,
    pub output: Vec<u8>,
}

/// The parts before the first step.
pub fn opening(alloc: Global) -> Parts
    ensures { IsOpening result }
{
    Parts {
        phase: Phase::OnLoad,
        died: false,
        threads: Vec::new(alloc),
        class: None,
        objects: 0,
        output: Vec::new(alloc),
    }
}

/// Thread 1, which has not begun.
fn first_threads(alloc: Global) -> Result<Vec<Thread>, AllocError>
    ensures { IfOk result IsFirst }
{
    let mut threads = Vec::new(alloc);
    threads.push(Thread {
        state: ThreadState::Unbegun,
        frames: Vec::new(alloc),
    })?;
    Ok(threads)
}

/// Puts the thread at an index into another state.
fn set_state(threads: &mut Vec<Thread>, index: usize, state: ThreadState)
    requires { index < vec_len threads.old }
    ensures { ChangedAt index (InState state) threads.old.items threads.new.items }
{
    threads[index].state = state;
}

/// Pushes a frame onto those of the thread at an index.
fn push_frame(threads: &mut Vec<Thread>, index: usize, frame: Frame) -> Result<(), AllocError>
    requires { index < vec_len threads.old }
    ensures { OnOk result (ChangedAt index (Pushed frame) threads.old.items threads.new.items) }
{
    threads[index].frames.push(frame)?;
    Ok(())
}

/// Pops the top frame of the thread at an index.
fn pop_frame(threads: &mut Vec<Thread>, index: usize)
    requires { index < vec_len threads.old }
    ensures { ChangedAt index Popped threads.old.items threads.new.items }
{
    let _ = threads[index].frames.pop();
}

/// The thread at an index enters its method, whose frame this is.
fn enter_method(threads: &mut Vec<Thread>, index: usize, frame: Frame) -> Result<(), AllocError>
    requires { index < vec_len threads.old }
    ensures { OnOk result (ChangedAt index (Entered frame) threads.old.items threads.new.items) }
{
    let thread = &mut threads[index];
    thread.frames.push(frame)?;
    thread.state = ThreadState::Running;
    Ok(())
}

/// Performs the instruction of the top frame of the thread at an index.
fn run_thread(threads: &mut Vec<Thread>, index: usize, file: &ClassFile) -> Result<Done, AllocError>
    requires { index < vec_len threads.old }
    ensures { IfOk result (λ done. ChangedAt index (Ran file.now done) threads.old.items threads.new.items) }
{
    execute(&mut threads[index].frames, file)
}

/// Prints an int and a line feed.
fn print_line(alloc: Global, output: &mut Vec<u8>, value: i32) -> Result<(), AllocError>
    ensures { OnOk result (output.new.items ≡ output.old.items ++ printed_int value) }
{
    let text = value.to_string(alloc)?;
    output.extend_from_slice(text.as_bytes())?;
    output.push(b'\n')?;
    Ok(())
}

fn print_done(alloc: Global, output: &mut Vec<u8>, done: Done) -> Result<(), AllocError>
    ensures { OnOk result (OutputAfter done output.old.items output.new.items) }
{
    match done {
        Done::Prints(value) => print_line(alloc, output, value),
        Done::Goes => Ok(()),
        Done::Leaves => Ok(()),
        Done::Misfit => Ok(()),
    }
}

/// What a report says of a thread.
fn line_of(state: ThreadState) -> ThreadLine
    ensures { result ≡ standing state }
{
    match state {
        ThreadState::Unbegun => ThreadLine::Live,
        ThreadState::Entering => ThreadLine::Live,
        ThreadState::Running => ThreadLine::Live,
        ThreadState::Ended => ThreadLine::Ended,
    }
}

fn lines_of(alloc: Global, threads: &[Thread]) -> Result<Vec<ThreadLine>, AllocError>
    ensures { IfOk result (λ lines. lines.items ≡ map (λ t. standing t.state) threads.now) }
{
    let mut lines = Vec::new(alloc);
    for thread in threads {
        lines.push(line_of(thread.state))?;
    }
    Ok(lines)
}

/// The machine's rule in phase Live.
fn live_rule(died: bool, all_ended: bool) -> Option<MachineRule>
    ensures { result ≡ rule_of_live died all_ended }
{
    if died {
        return Some(MachineRule::Die);
    }
    if all_ended {
        return Some(MachineRule::RaiseDeath);
    }
    None
}

fn is_live(phase: Phase) -> bool
    ensures { result ≡ lives phase }
{
    match phase {
        Phase::OnLoad => false,
        Phase::Primordial => false,
        Phase::Start => false,
        Phase::Live => true,
        Phase::Dead => false,
    }
}

impl Parts {
    fn all_ended(&self) -> bool
        ensures { result ≡ list_all (λ t. is_over t.state) self.now.threads.items }
    {
        self.threads.iter().all(|thread| thread.has_ended())
    }

    fn own_rule(&self) -> Option<MachineRule>
        ensures { result ≡ machine_rule_seen self.now }
    {
        match self.phase {
            Phase::OnLoad => Some(MachineRule::Start),
            Phase::Primordial => None,
            Phase::Start => Some(MachineRule::Init),
            Phase::Live => live_rule(self.died, self.all_ended()),
            Phase::Dead => None,
        }
    }

    fn rule_at(&self, index: usize) -> Option<ThreadRule>
        ensures { result ≡ thread_rule_seen self.now index }
    {
        if !is_live(self.phase) {
            return None;
        }
        match self.threads.get(index) {
            None => None,
            Some(thread) => thread.rule(self.class),
        }
    }

    /// The rule by which the machine itself makes its next step.
    fn machine_rule(&self) -> Option<MachineRule>
        ensures { (job : _) (s : State) → StandsFor job self.now s → result ≡ rule_of_machine s.core }
    {
        self.own_rule()
    }

    /// The rule by which the thread of a number makes its next step.
    fn thread_rule(&self, number: u32) -> Option<ThreadRule>
        requires { 0 < number }
        ensures told { (job : _) (s : State) → StandsFor job self.now s → RuleIs result (ready_thread job s.core number) }
        ensures there { IsSome result → number ≤ vec_len self.now.threads }
    {
        self.rule_at(number as usize - 1)
    }

    /// Whether the actor has a rule.
    pub fn ready(&self, actor: Actor) -> bool
        ensures { (job : _) (s : State) → StandsFor job self.now s → result ≡ is_ready job s.core actor }
    {
        match actor {
            Actor::Vm => self.machine_rule().is_some(),
            Actor::Thread(ThreadNo(0)) => false,
            Actor::Thread(ThreadNo(number)) => self.thread_rule(number).is_some(),
            Actor::Agent(_) => false,
        }
    }

    fn any_thread_ready(&self) -> bool
        ensures { result ≡ any_thread_seen self.now }
    {
        let class = self.class;
        self.threads
            .iter()
            .any(|thread| thread.rule(class).is_some())
    }

    fn any_rule(&self) -> bool
        ensures { result ≡ any_seen self.now }
    {
        self.own_rule().is_some() || (is_live(self.phase) && self.any_thread_ready())
    }

    /// Whether some actor has a rule.
    pub fn any_ready(&self) -> bool
        ensures { (job : _) (s : State) → StandsFor job self.now s → result ≡ any_ready job s }
    {
        self.any_rule()
    }

    /// What a report says of the threads.
    pub fn thread_lines(&self, alloc: Global) -> Result<ThreadLines, AllocError>
        ensures { IfOk result (λ lines. (job : _) (s : State) → StandsFor job self.now s → lines ≡ map thread_line s.core.threads) }
    {
        Ok(ThreadLines::new(lines_of(alloc, &self.threads)?))
    }

    /// A step of the machine itself.
    fn step_machine(&mut self, alloc: Global, rule: MachineRule) -> Result<(), AllocError>
        ensures { OnOk result ((job : _) (s : State) → StandsFor job self.old s → rule_of_machine s.core ≡ Some rule → StandsFor job self.new (state_after job s Actor.Vm)) }
    {
        match rule {
            MachineRule::Start => {
                self.phase = Phase::Start;
                self.objects = 3;
                Ok(())
            }
            MachineRule::Init => {
                self.threads = first_threads(alloc)?;
                self.phase = Phase::Live;
                Ok(())
            }
            MachineRule::RaiseDeath => {
                self.died = true;
                Ok(())
            }
            MachineRule::Die => {
                self.phase = Phase::Dead;
                Ok(())
            }
        }
    }

    /// A step of the thread of a number.
    fn step_thread(
        &mut self,
        alloc: Global,
        job: &Job,
        number: u32,
        rule: ThreadRule,
    ) -> Result<(), AllocError>
        requires some { 0 < number }
        requires there { number ≤ vec_len self.old.threads }
        requires few { self.old.objects < 2 ^ 32 - 1 }
        ensures { OnOk result ((s : State) → StandsFor job.now self.old s → RuleIs (Some rule) (ready_thread job.now s.core number) → StandsFor job.now self.new (state_after job.now s (Actor.Thread (record { 0 = number })))) }
    {
        let index = number as usize - 1;
        match rule {
            ThreadRule::Begin => {
                set_state(&mut self.threads, index, ThreadState::Entering);
                Ok(())
            }
            ThreadRule::Load => {
                self.class = Some(InitState::Loaded);
                Ok(())
            }
            ThreadRule::Link => {
                self.class = Some(InitState::Linked);
                Ok(())
            }
            ThreadRule::BeginInit => self.begin_init(number),
            ThreadRule::EndInit => {
                pop_frame(&mut self.threads, index);
                self.class = Some(InitState::Initialized);
                Ok(())
            }
            ThreadRule::Enter => self.enter(alloc, number),
            ThreadRule::Execute => self.execute(alloc, job, number),
            ThreadRule::Finish => {
                set_state(&mut self.threads, index, ThreadState::Ended);
                Ok(())
            }
        }
    }

    fn begin_init(&mut self, number: u32) -> Result<(), AllocError>
        requires some { 0 < number }
        requires there { number ≤ vec_len self.old.threads }
        ensures { OnOk result ((job : _) (s : State) → StandsFor job self.old s → RuleIs (Some ThreadRule.BeginInit) (ready_thread job s.core number) → StandsFor job self.new (state_after job s (Actor.Thread (record { 0 = number })))) }
    {
        push_frame(&mut self.threads, number as usize - 1, Frame::Init)?;
        self.class = Some(InitState::InProgress(ThreadNo(number)));
        Ok(())
    }

    /// Makes the array of no Strings and the frame of main.
    fn enter(&mut self, alloc: Global, number: u32) -> Result<(), AllocError>
        requires some { 0 < number }
        requires there { number ≤ vec_len self.old.threads }
        requires few { self.old.objects < 2 ^ 32 - 1 }
        ensures { OnOk result ((job : _) (s : State) → StandsFor job self.old s → RuleIs (Some ThreadRule.Enter) (ready_thread job s.core number) → StandsFor job self.new (state_after job s (Actor.Thread (record { 0 = number })))) }
    {
        let frame = main_frame(alloc, ObjNo(self.objects + 1))?;
        enter_method(&mut self.threads, number as usize - 1, Frame::Java(frame))?;
        self.objects += 1;
        Ok(())
    }

    fn execute(&mut self, alloc: Global, job: &Job, number: u32) -> Result<(), AllocError>
        requires some { 0 < number }
        requires there { number ≤ vec_len self.old.threads }
        ensures { OnOk result ((s : State) → StandsFor job.now self.old s → RuleIs (Some ThreadRule.Execute) (ready_thread job.now s.core number) → StandsFor job.now self.new (state_after job.now s (Actor.Thread (record { 0 = number })))) }
    {
        let done = run_thread(&mut self.threads, number as usize - 1, job.file())?;
        print_done(alloc, &mut self.output, done)
    }

    /// A step of the thread of a number, if there is one and it has a rule.
    fn step_numbered(&mut self, alloc: Global, job: &Job, number: u32) -> Result<(), AllocError>
        requires { self.old.objects < 2 ^ 32 - 1 }
        ensures { OnOk result ((s : State) → StandsFor job.now self.old s → StandsFor job.now self.new (state_after job.now s (Actor.Thread (record { 0 = number })))) }
    {
        if number == 0 {
            return Ok(());
        }
        match self.thread_rule(number) {
            None => Ok(()),
            Some(rule) => self.step_thread(alloc, job, number, rule),
        }
    }

    /// A step of the actor, which does nothing without a rule.
    pub fn step(&mut self, alloc: Global, job: &Job, actor: Actor) -> Result<(), AllocError>
        requires { self.old.objects < 2 ^ 32 - 1 }
        ensures { OnOk result ((s : State) → StandsFor job.now self.old s → StandsFor job.now self.new (state_after job.now s actor)) }
    {
        match actor {
            Actor::Vm => match self.machine_rule() {
                None => Ok(()),
                Some(rule) => self.step_machine(alloc, rule),
            },
            Actor::Thread(thread) => self.step_numbered(alloc, job, thread.0),
            Actor::Agent(_) => Ok(()),
        }
    }
}
