ghost use Rattle.std.specs.Prelude.{◌≡◌};
ghost use Rattle.ti_codes.specs.Phases.{phase_number};

/// The phases of the machine (`jvmtiPhase`), by their numbers. Primordial is never seen.
#[derive(Clone, Copy, Debug, PartialEq, Eq)]
pub enum Phase {
    OnLoad = 1,
    Primordial = 2,
    Live = 4,
    Start = 6,
    Dead = 8,
}

impl Phase {
    /// Its number.
    pub fn number(self) -> u32
        ensures { result ≡ phase_number self }
    {
        self as u32
    }
}
