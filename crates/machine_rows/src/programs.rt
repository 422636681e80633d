//! Programs by `javac`, computed.
ghost use Rattle.machine_rows.specs.JavaStarting.{StartingPrint};
ghost use Rattle.machine_rows.specs.JavaSame.{SamePrint};
ghost use Rattle.machine_rows.specs.JavaStores.{StoresPrint};
ghost use Rattle.machine_rows.specs.JavaOwners.{OwnersPrint};
ghost use Rattle.machine_rows.specs.JavaNumbers.{NumbersPrint};
ghost use Rattle.machine_rows.specs.JavaSupers.{SupersPrint};
ghost use Rattle.machine_rows.specs.JavaSwitches.{SwitchesPrint};
ghost use Rattle.machine_rows.specs.JavaHands.{HandsPrint};
ghost use Rattle.machine_rows.specs.JavaShared.{SharedPrint};

/// Does nothing, and is there for its contract: further programs by `javac`, and that they print what `java` prints.
pub fn java_program_rows()
    // An initializer that throws: the first use fails so, and each later one finds no class.
    ensures starting { StartingPrint }

    // Literals and other texts, Class objects.
    ensures same { SamePrint }

    // Arrays as objects: what they take, what they are, a negative length.
    ensures stores { StoresPrint }

    // Monitors that are owned and not, threads that were not started.
    ensures owners { OwnersPrint }

    // Numbers at their edges, shifts, narrowing, remainders.
    ensures numbers { NumbersPrint }

    // Two default methods of one name, calls of what lies above.
    ensures supers { SupersPrint }

    // Both switches, loops.
    ensures switches { SwitchesPrint }
{}

/// Does nothing, and is there for its contract: two programs by `javac` with two threads, and what each prints along one
/// schedule.
pub fn java_thread_rows()
    // One thread waits for the other's notification, and for its end.
    ensures hands { HandsPrint }

    // Both threads add under one monitor; a thread is started once only.
    ensures shared { SharedPrint }
{}
