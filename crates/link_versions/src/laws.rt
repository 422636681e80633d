ghost use Rattle.link_versions.specs.Laws.{IsInstalled, IsNewest, KeepsVersions, KeepsNumbers, KeepsOrders, KeepsSuperclasses, KeepsStates, KeepsMethodNumbers, IsDeclaredAs, LetsGo, LetsIn, KeepsClasses, IsDefined, IsNumbered};
ghost use Rattle.link_versions.specs.Laws.{NumbersNew};

/// Does nothing, and is there for its contract: the laws of the lists of classes, of which the contracts of `Classes` speak.
pub fn class_laws()
    // An installed version is there, and it is the newest of its class.
    ensures installed { IsInstalled }
    ensures newest { IsNewest }

    // All that an install leaves as it was.
    ensures versions { KeepsVersions }
    ensures numbers { KeepsNumbers }
    ensures orders { KeepsOrders }
    ensures superclasses { KeepsSuperclasses }
    ensures states { KeepsStates }

    // A method's number stands for one name and descriptor, and the newest version tells which methods its class declares.
    ensures method_numbers { KeepsMethodNumbers }
    ensures declared { IsDeclaredAs }
    ensures lets_go { LetsGo }
    ensures lets_in { LetsIn }

    // A defined class comes after those that are there, with its tree as its first version, which numbers its methods.
    ensures classes { KeepsClasses }
    ensures defined { IsDefined }
    ensures numbered { IsNumbered }

    // By its name it has the next number, and every other name keeps its own.
    ensures new_numbers { NumbersNew }
{}
