ghost use Rattle.std.specs.Prelude.{◌≡◌};

use std::marker::Model;
use ti_ids::Actor;

/// Steps that one actor makes in a row.
#[derive(Clone, Copy, Debug, PartialEq, Eq)]
pub struct Run {
    pub actor: Actor,
    /// How many steps, from 1.
    pub count: u32,
}

/// The runs of a schedule, in order. Contracts see them as a list.
#[derive(Drop)]
pub struct Runs {
    runs: Vec<Run>,
}

impl Model for Runs {
    ghost use Rattle.std.specs.Prelude.{List};
    ghost use Rattle.report_text.specs.declared.run.Run.{Run};

    ghost Value = { List Run };

    ghost view = { λ whole. whole.runs.items };
}

impl Runs {
    /// From these runs, with no memory taken.
    pub fn new(runs: Vec<Run>) -> Runs
        ensures { result ≡ runs.items }
    {
        Runs { runs }
    }

    pub fn as_slice(&self) -> &[Run]
        ensures { result.now ≡ self.now }
    {
        &self.runs
    }

    /// The runs, with no memory taken.
    pub fn into_vec(self) -> Vec<Run>
        ensures { result.items ≡ self }
    {
        self.runs
    }
}
