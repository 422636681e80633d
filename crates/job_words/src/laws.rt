ghost use Rattle.job_words.specs.WordLaws.{ManyAreMany};

/// Does nothing, and is there for its contract: the law of words.
pub fn word_laws()
    // Of accepted words, `wants_many` says whether they ask for a run with more than one worker.
    ensures many { ManyAreMany }
{}
