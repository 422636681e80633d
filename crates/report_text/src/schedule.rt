ghost use Rattle.std.specs.Prelude.{◌≡◌, ◌+◌, ◌-◌, ◌<◌, ◌^◌, length, reverse, sum_by, IfOk, OnOk};
ghost use Rattle.report_text.specs.Runs.{with_step, runs_of as runs_in};

use crate::{Run, Runs};
use std::alloc::{AllocError, Global};
use ti_ids::Actor;

/// A schedule's runs, where `actors` are the actors of all steps in order. The time grows with their number.
pub fn runs_of(alloc: Global, actors: &[Actor]) -> Result<Runs, AllocError>
    requires { length actors.now < 2 ^ 32 - 1 }
    ensures { IfOk result (λ runs. runs ≡ runs_in actors.now) }
{
    let mut runs = Vec::new(alloc);
    let mut i = actors.len();
    while i > 0 {
        i -= 1;
        join(&mut runs, actors[i])?;
    }
    runs.reverse();
    Ok(Runs::new(runs))
}

/// A step before the runs, of which the last is the first.
#[tactic(auto, using(crate::proofs::Stacks::sum_by_one, crate::proofs::Stacks::reverse_one))]
fn join(runs: &mut Vec<Run>, actor: Actor) -> Result<(), AllocError>
    requires { sum_by (λ r. r.count) runs.old.items < 2 ^ 32 - 1 }
    ensures joined { OnOk result (reverse runs.new.items ≡ with_step actor (reverse runs.old.items)) }
    ensures count { OnOk result (sum_by (λ r. r.count) runs.new.items
        ≡ sum_by (λ r. r.count) runs.old.items + 1) }
{
    match runs.pop() {
        None => {
            runs.push(Run { actor, count: 1 })?;
            Ok(())
        }
        Some(last) => {
            if actor.same(last.actor) {
                let count = last.count + 1;
                runs.push(Run { actor, count })?;
                return Ok(());
            }
            runs.push(last)?;
            runs.push(Run { actor, count: 1 })?;
            Ok(())
        }
    }
}
