ghost use Rattle.machine_rows.specs.RefusedWordRows.{ShapesRefused, ValuesRefused};
ghost use Rattle.machine_rows.specs.WordRows.{RequestsAsked};
ghost use Rattle.machine_rows.specs.WorkerRows.{WorkersWanted};

/// Does nothing, and is there for its contract: words of calls, what they ask for, and which of them are refused.
pub fn worked_words()
    // What is asked, with each number at its least and at its greatest.
    ensures requests { RequestsAsked }

    // Commands and options that are missing, unknown, stray, or given twice.
    ensures shapes { ShapesRefused }

    // Names that are no class's, and texts that are no number.
    ensures values { ValuesRefused }

    // Which calls ask for more than one worker.
    ensures workers { WorkersWanted }
{}
