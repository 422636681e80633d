ghost use Rattle.std.specs.Prelude.{◌≡◌};

use jv_names::Units;
use std::marker::Model;

/// How a thread stands at the end of a run: it has ended, on its own or by an exception of this class (the class's name
/// in internal form, JVM specification 4.2.1), or it has not.
#[derive(Drop)]
pub enum ThreadLine {
    Ended,
    Uncaught(Units),
    Live,
}

/// How the threads stand, by number from 1. Contracts see them as a list.
#[derive(Drop)]
pub struct ThreadLines {
    threads: Vec<ThreadLine>,
}

impl Model for ThreadLines {
    ghost use Rattle.std.specs.Prelude.{List};
    ghost use Rattle.report_text.specs.declared.thread_line.ThreadLine.{ThreadLine};

    ghost Value = { List ThreadLine };

    ghost view = { λ whole. whole.threads.items };
}

impl ThreadLines {
    /// From these lines, with no memory taken.
    pub fn new(threads: Vec<ThreadLine>) -> ThreadLines
        ensures { result ≡ threads.items }
    {
        ThreadLines { threads }
    }

    pub fn as_slice(&self) -> &[ThreadLine]
        ensures { result.now ≡ self.now }
    {
        &self.threads
    }

    /// The lines, with no memory taken.
    pub fn into_vec(self) -> Vec<ThreadLine>
        ensures { result.items ≡ self }
    {
        self.threads
    }
}
