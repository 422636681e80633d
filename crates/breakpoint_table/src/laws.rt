ghost use Rattle.breakpoint_table.specs.Laws.{BreakpointsAsSet, WatchesAsSet, NoneWatched};

/// Does nothing, and is there for its contract: the laws of breakpoints and watches, for places `P`, classes `C` and fields `F`.
pub fn place_laws<P, C, F>()
    // A breakpoint stands from when it was set until it is cleared, or all of a class that has the place; of what no change speaks there is none.
    ensures breakpoints { BreakpointsAsSet P C }

    // A field is watched for an event as it was set last.
    ensures watches { WatchesAsSet F }

    // A field of which no change speaks is not watched.
    ensures unwatched { NoneWatched F }
{}
