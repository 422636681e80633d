ghost use Rattle.transform_chain.specs.Laws.{GroupsRise, GroupsKeep, KeptGoesOn};

/// Does nothing, and is there for its contract: the laws of groups and folds.
pub fn chain_laws()
    // By groups, no transformer stands before one of a lower group.
    ensures groups { GroupsRise }

    // All transformers of the groups from 1 to 4 are there, those of one group in the order that they had, and no others.
    ensures members { GroupsKeep }

    // What all turns make is what those that are capable of retransformation make of what the others left.
    ensures kept { KeptGoesOn }
{}
