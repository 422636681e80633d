ghost use Rattle.type_handlers.specs.Coverage.{TestsAlike};

/// Does nothing, and is there for its contract: a test passes at all places of handlers that cover an offset exactly if each handler
/// passes it or does not cover the offset.
pub fn covering_laws()
    ensures { TestsAlike }
{}
