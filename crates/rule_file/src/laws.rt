ghost use Rattle.rule_file.specs.FileRows.{SaysOne, FaultsTold};

/// Does nothing, and is there for its contract: agents' files, and what they say.
pub fn file_rows()
    // An agent that retransforms a class while it runs.
    ensures says { SaysOne }

    // Files with a fault, and that fault.
    ensures faults { FaultsTold }
{}
