ghost use Rattle.machine_steps.specs.Laws.{NoneAfterEnd, HasStepLeft, SomeoneIsEnabled, CountsOne, AddsRecords, PerformsNextCall, TakesNoOtherCall, OutputGrows, ObjectsStay, FewThreads, ClassesStay, LoadsOnce, StaysFailed, FailsLoads, NamesDiffer, FramesAreBorn, CodeStays, PickedCanRun, PickedEnds, FitsLimit, NoEndBefore, StatesNamed, StatesSchedule};
ghost use Rattle.machine_steps.specs.CheckLaws.{PassesOrFails};
ghost use Rattle.machine_steps.specs.Reachable.{PartsOfCoded, FramesHaveCode, StatesHaveParts};
ghost use Rattle.machine_steps.specs.LawfulClasses.{AreBaseNumbers, ClassesArePlaced, LoadsSupersFirst, AcceptsSameNames, VersionsAreWellFormed, ArraysAreOfTheirNames, ClassesAreLawful};
ghost use Rattle.machine_steps.specs.Bounds.{TasksAreBounded, TasksHaveOwnFiles};
ghost use Rattle.machine_steps.specs.SoundHeaps.{HeapsAreSound, ReferencesAreThere};
ghost use Rattle.machine_steps.specs.WithinLimits.{StacksAreWithin, MonitorsAreCounted, MonitorsHaveTables};
ghost use Rattle.machine_steps.specs.ReportLaws.{BarredExactly, PickedIsReported, WrittenIsWritten, ReplaysSame};

/// Does nothing, and is there for its contract: the laws of the steps, whatever the job and its agents do.
pub fn step_laws()
    // A step of an actor that is ready adds one to the number of steps.
    ensures counts { CountsOne }

    // A step adds its records to the end of the trace, each with the step's number and its actor.
    ensures records { AddsRecords }

    // The next call of an actor, if it has one, is what its next step performs.
    ensures calls { PerformsNextCall }

    // Where an actor has no next call, its next step takes none from a queue or a script.
    ensures no_calls { TakesNoOtherCall }

    // Output only grows.
    ensures output { OutputGrows }

    // Objects keep their numbers and their classes, and new ones come behind them.
    ensures objects { ObjectsStay }

    // There are never more threads than may be made.
    ensures threads { FewThreads }

    // Classes keep their numbers and their names.
    ensures classes { ClassesStay }

    // Only a class that isn't there is loaded, and none whose load has failed.
    ensures loads { LoadsOnce }

    // A class whose load has failed is never loaded, and its error stays.
    ensures failed { StaysFailed }

    // A load that is refused, and one whose class isn't accepted, has failed, with that class of error.
    ensures fails { FailsLoads }

    // After every schedule no two classes have the same name.
    ensures names { NamesDiffer }

    // A class passes its type check or fails at one place.
    ensures checks { PassesOrFails }

    // After every schedule every frame was born by now, of classes that are there.
    ensures born { FramesAreBorn }

    // After every schedule a step changes the code of no frame that a thread has.
    ensures code { CodeStays }
{}

/// Does nothing, and is there for its contract: the laws of ends, of schedules that can be run, and of the reports that state them.
pub fn schedule_laws()
    // After an end no actor is enabled.
    ensures ended { NoneAfterEnd }

    // Where there is no end, a step is left.
    ensures left { HasStepLeft }

    // Where there is no end, some actor is enabled.
    ensures enabled { SomeoneIsEnabled }

    // The picked schedule can be run.
    ensures runs { PickedCanRun }

    // It goes on to an end.
    ensures ends { PickedEnds }

    // A schedule that can be run is no longer than the limit of steps.
    ensures fits { FitsLimit }

    // No state before its last one has an end.
    ensures before { NoEndBefore }

    // The report of a schedule states it, where a line can name its actors and its number of steps.
    ensures named { StatesNamed }

    // The report of a schedule of an accepted job that can be run states it.
    ensures states { StatesSchedule }
{}

/// Does nothing, and is there for its contract: the laws of the parts that stand for states.
pub fn parts_laws()
    // A state each of whose frames has code has parts that stand for it, and no other state has.
    ensures coded { PartsOfCoded }

    // After every schedule each frame has code, where files are bytes, rules make bytes of bytes, and calls push no frame.
    ensures frames { FramesHaveCode }

    // So after every schedule there are parts that stand for the state.
    ensures parts { StatesHaveParts }

    // After every schedule of a job within its bounds the heap is sound, where calls do what they do by their records.
    ensures heaps { HeapsAreSound }

    // Then each reference that is held outside the heap is null or names an object that is there.
    ensures references { ReferencesAreThere }

    // After every schedule the stack of each thread is within its limits, and each operand stack within its room, where calls do what they
    // do by their records.
    ensures stacks { StacksAreWithin }

    // Then each monitor is counted, and no object has two.
    ensures monitors { MonitorsAreCounted }

    // So a table of monitors stands for them.
    ensures tables { MonitorsHaveTables }
{}

/// Does nothing, and is there for its contract: the laws of the classes, as they are linked.
pub fn class_laws()
    // The numbers by which the heap knows classes are those of the base set.
    ensures base_numbers { AreBaseNumbers }

    // After every schedule each class has a name of its own, and its superclass and its interfaces are classes before it.
    ensures placed { ClassesArePlaced }

    // A class is loaded only when its superclass and its superinterfaces are there, once the base classes are.
    ensures supers { LoadsSupersFirst }

    // What is accepted of it has its name, and the superclass and the superinterfaces that its file names.
    ensures accepted { AcceptsSameNames }

    // Each version of each class is well-formed then, where files are bytes and rules make bytes of bytes.
    ensures formed { VersionsAreWellFormed }

    // Each array class is what its name says.
    ensures arrays { ArraysAreOfTheirNames }

    // The classes are lawful as a whole then, as `link_versions` has it: where calls do what they do by records alone, each version that
    // they make may be installed, and no class has too many versions.
    ensures lawful { ClassesAreLawful }
{}

/// Does nothing, and is there for its contract: the laws of what is written.
pub fn report_laws()
    // What is accepted is within its bounds.
    ensures bounded { TasksAreBounded }

    // Its class files are of classes that differ, and none is of a base class.
    ensures files { TasksHaveOwnFiles }

    // A schedule is refused with the place of its first entry that can't be performed, and isn't refused exactly where it can be run.
    ensures barred { BarredExactly }

    // The report of the picked schedule states that schedule, which can be run, and is the report of it to its end.
    ensures picked { PickedIsReported }

    // With one worker, what is written is one of the reports that any number of workers may write.
    ensures written { WrittenIsWritten }

    // A replay of the schedule that a report states writes the report again.
    ensures replays { ReplaysSame }
{}
