//! Further programs with agents, computed.
ghost use Rattle.machine_rows.specs.BreakRows.{BreakpointTwice, InstallingClearsBreakpoints};
ghost use Rattle.machine_rows.specs.TagRows.{TagsOfEachEnvironment};
ghost use Rattle.machine_rows.specs.EventRows.{EveryEventHeard};
ghost use Rattle.machine_rows.specs.MonitorRows.{MonitorsHeard};
ghost use Rattle.machine_rows.specs.CallRows.{TransformerRemoved, BytesOfAMethod};
ghost use Rattle.machine_rows.specs.RefusedCallRows.{OrderOfRefusals, RefusedRedefinitionChangesNothing};
ghost use Rattle.machine_rows.specs.EntryRows.{EntryRuleIsNotStacked};

/// Does nothing, and is there for its contract: programs with an agent that hears of every event, once at least.
pub fn event_rows()
    // Every event of one thread; callbacks by class and by thread, both watches, a frame pop that is asked for twice and met once.
    ensures every { EveryEventHeard }

    // The events of a monitor, between two threads, of which one is suspended while it owns the monitor.
    ensures monitors { MonitorsHeard }
{}

/// The same of programs whose agents make calls that no other row makes.
pub fn call_rows()
    // A breakpoint is met at each call.
    ensures twice { BreakpointTwice }

    // A breakpoint is set twice, and is gone when the class is retransformed.
    ensures clearing { InstallingClearsBreakpoints }

    // Two environments tag one object.
    ensures tags { TagsOfEachEnvironment }

    // Of two transformers of one set the earlier one is taken out.
    ensures removed { TransformerRemoved }

    // The bytes of a method, and the status of a class when it is loaded, linked and initialized.
    ensures bytes { BytesOfAMethod }
{}

/// The same of programs with a call that is refused, and with a rule that puts a call in front of a method.
pub fn refusal_rows()
    // The environment's phase, a capability that isn't to be had, an event that there is none of, one that needs a capability; a thread that
    // isn't there, and an event that isn't set for one thread.
    ensures order { OrderOfRefusals }

    // Two classes are redefined, of which the second is refused: the first keeps its breakpoint and its code.
    ensures redefinition { RefusedRedefinitionChangesNothing }

    // The rule is applied to the bytes that were kept, and so once, however often the class is retransformed.
    ensures entry { EntryRuleIsNotStacked }
{}
