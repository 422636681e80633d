ghost use Rattle.tag_map.specs.Laws.{SetsTag, LeavesTag, EndsTags, NoneTagged};

/// Does nothing, and is there for its contract: the laws of tags.
pub fn tag_laws()
    // A tag is the one that was set last.
    ensures set { SetsTag }

    // A change that doesn't speak of an object leaves its tag.
    ensures others { LeavesTag }

    // After the end no object has a tag, until one is set again.
    ensures ended { EndsTags }

    // An object of which no change speaks has no tag.
    ensures untagged { NoneTagged }
{}
