ghost use Rattle.machine_rows.specs.RefusedAgentRows.{AgentsRefused};
ghost use Rattle.machine_rows.specs.RefusedRows.{WordsRefused, FetchesRefused, LengthsRefused, CountsRefused, ClassesRefused, SchedulesRefused};

/// Does nothing, and is there for its contract: calls that are refused before they run, and the line that is written of each, byte for
/// byte. What reads agent files is left open, and is asked for `agents` alone.
pub fn refused_rows()
    // The shape of the words.
    ensures words { WordsRefused }

    // Files that are absent or can't be read.
    ensures fetches { FetchesRefused }

    // Files that are too long, alone or together.
    ensures lengths { LengthsRefused }

    // Too many files.
    ensures counts { CountsRefused }

    // Class files, by their first fault.
    ensures classes { ClassesRefused }

    // Agent files, by their first fault.
    ensures agents { AgentsRefused }

    // Schedules that are none, and schedules that can't be performed.
    ensures schedules { SchedulesRefused }
{}
