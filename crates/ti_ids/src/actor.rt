ghost use Rattle.std.specs.Prelude.{◌≡◌};
ghost use Rattle.ti_ids.specs.Actors.{same_actor};

use crate::number::{EnvNo, ThreadNo};

/// Who makes a step: the machine itself, one Java thread, or one agent's script.
#[derive(Clone, Copy, Debug, PartialEq, Eq)]
pub enum Actor {
    Vm,
    Thread(ThreadNo),
    Agent(EnvNo),
}

impl Actor {
    /// Whether both are one actor.
    pub fn same(self, other: Actor) -> bool
        ensures { result ≡ same_actor self other }
    {
        match self {
            Actor::Vm => match other {
                Actor::Vm => true,
                Actor::Thread(_) => false,
                Actor::Agent(_) => false,
            },
            Actor::Thread(own) => match other {
                Actor::Vm => false,
                Actor::Thread(number) => own.0 == number.0,
                Actor::Agent(_) => false,
            },
            Actor::Agent(own) => match other {
                Actor::Vm => false,
                Actor::Thread(_) => false,
                Actor::Agent(number) => own.0 == number.0,
            },
        }
    }
}

/// Why a run is over.
#[derive(Clone, Copy, Debug, PartialEq, Eq)]
pub enum End {
    Dead,
    StepLimit,
    LineLimit,
    OutputLimit,
    Stuck,
}
