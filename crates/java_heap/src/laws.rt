ghost use Rattle.java_heap.specs.Laws.{AddingKeepsReferences, FieldsKeepReferences, ElementsKeepReferences, SidesKeepReferences, TextsKeepReferences};

/// Does nothing, and is there for its contract: where each reference of a heap is null or names an object that is there, it
/// is so after each change by what is there.
pub fn reference_laws()
    ensures added { AddingKeepsReferences }
    ensures fields { FieldsKeepReferences }
    ensures elements { ElementsKeepReferences }
    ensures sides { SidesKeepReferences }
    ensures texts { TextsKeepReferences }
{}
