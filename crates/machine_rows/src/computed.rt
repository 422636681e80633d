ghost use Rattle.machine_rows.specs.JavaArrays.{ArraysPrint};
ghost use Rattle.machine_rows.specs.JavaNames.{NamesPrint};
ghost use Rattle.machine_rows.specs.JavaFaults.{FaultsPrint};
ghost use Rattle.machine_rows.specs.JavaTexts.{TextsPrint};
ghost use Rattle.machine_rows.specs.JavaAbove.{AbovePrint};
ghost use Rattle.machine_rows.specs.ChainRows.{HookChangesConstant, IncapableResultStays, ObsoleteThoughEqualBytes, OrderOfFourGroups};
ghost use Rattle.machine_rows.specs.HookRows.{HookBreaksTheClass, RestlessAgent};
ghost use Rattle.machine_rows.specs.AgentRows.{RetransformWhileRunning, EitherSettingEnables};
ghost use Rattle.machine_rows.specs.LimitRows.{AddIsubPrintsMinusOne, StepLimitMet, StepLimitNotMet, VerifyErrorThrown};
ghost use Rattle.machine_rows.specs.Rows.{AddPrintsFive, NumberEdges, SuperclassInitializer, UncaughtException, DeadlockIsStuck};

/// Does nothing, and is there for its contract: small programs, the schedule that one worker picks for each, how it ends, and the report of
/// it, byte for byte.
pub fn worked_rows()
    // `2 + 3` is printed.
    ensures add { AddPrintsFive }

    // The least int is divided by -1, and 1 is shifted left by 33.
    ensures edges { NumberEdges }

    // The superclass is initialized before the class.
    ensures superclass { SuperclassInitializer }

    // A division by zero ends the thread.
    ensures uncaught { UncaughtException }

    // Two threads wait for each other: no actor is ready.
    ensures deadlock { DeadlockIsStuck }
{}

/// The same of another sum, of step limits, and of a class that fails its type check.
pub fn limit_rows()
    // `2 - 3` is printed.
    ensures isub { AddIsubPrintsMinusOne }

    // The step limit is met one step before the end.
    ensures limit { StepLimitMet }

    // A step limit of just as many steps as there are isn't met.
    ensures exact { StepLimitNotMet }

    // The class fails its type check, and the thread ends by VerifyError.
    ensures verify { VerifyErrorThrown }
{}

/// The same of programs with an agent: what its calls and its rules do is given for these rows.
pub fn agent_rows()
    // An agent retransforms a method while it runs; the next call runs the new version.
    ensures running { RetransformWhileRunning }

    // An event is told where either the setting for all or that of the thread is on.
    ensures either { EitherSettingEnables }
{}

/// The same of programs whose classes agents transform.
pub fn chain_rows()
    // A hook changes a constant when the class is loaded.
    ensures hooked { HookChangesConstant }

    // What an incapable hook left stays when the class is retransformed.
    ensures incapable { IncapableResultStays }

    // A frame is obsolete by a version between, though the newest has its own bytes.
    ensures obsolete { ObsoleteThoughEqualBytes }

    // Incapable transformers have their turns before capable ones, and transformers before hooks.
    ensures groups { OrderOfFourGroups }

    // A hook makes a class file that is none, and the load fails.
    ensures broken { HookBreaksTheClass }

    // An agent retransforms a class whenever it is told of a hook.
    ensures restless { RestlessAgent }
{}

/// Does nothing, and is there for its contract: programs by `javac`, and that they print what `java` prints.
pub fn java_rows()
    // Arrays of numbers and of arrays, narrow elements, an index out of range.
    ensures arrays { ArraysPrint }

    // An interface with a default method, a call of it, `instanceof`.
    ensures names { NamesPrint }

    // Exceptions, `finally`, messages, null.
    ensures faults { FaultsPrint }

    // Strings that are joined, longs, a switch, casts.
    ensures texts { TextsPrint }

    // An abstract class, its static fields and initializer, fields of instances.
    ensures above { AbovePrint }
{}
