ghost use Rattle.std.specs.Prelude.{◌≡◌, [], false, true, IfOk, OnOk};
ghost use Rattle.host_run.specs.Runs.{IsPickedReport, after_picked, is_ended};

use machine_core::{CoreFault, Job, Machine};
use report_text::report;
use std::alloc::{AllocError, Global};
use ti_ids::{Actor, End};

/// Makes the steps that one worker picks, up to the end of the run.
fn run_to_end(machine: &mut Machine) -> Result<(), AllocError>
    requires fresh { machine.old.schedule ≡ [] }
    requires live { machine.old.spent ≡ false }
    ensures picked { OnOk result (machine.new ≡ after_picked machine.old) }
    ensures ended { OnOk result (is_ended machine.new ≡ true) }
{
    let steps = machine.limits().steps;
    let mut current = Actor::Vm;
    let mut made = 0;
    for _ in 0..steps {
        let Some((actor, row)) = machine.pick(current, made) else {
            let ended = machine.end().is_some();
            prove!(ended, "nobody is picked only at an end");
            return Ok(());
        };
        match machine.step(actor) {
            Ok(()) => {
                current = actor;
                made = row + 1;
            }
            Err(CoreFault::Memory) => return Err(AllocError),
            Err(CoreFault::NotEnabled) => unreachable!("who is picked is enabled"),
        }
    }
    let _made = machine.steps();
    let ended = machine.end().is_some();
    prove!(ended, "the step limit is an end");
    Ok(())
}

/// The report of a job's run, and its end.
pub fn run(alloc: Global, job: Job) -> Result<(Vec<u8>, End), AllocError>
    ensures { IfOk result (λ r. IsPickedReport job r.0.items r.1) }
{
    let mut machine = Machine::new(alloc, job);
    run_to_end(&mut machine)?;
    let parts = machine.parts()?;
    let Some(end) = parts.end else {
        unreachable!("the run has an end");
    };
    let text = report(alloc, &parts)?;
    Ok((text, end))
}
