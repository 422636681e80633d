//! What the words ask for.

/// What the words up to `--next` ask for.
#[derive(Clone, Copy)]
pub struct Request<'a> {
    /// Whether type states are told.
    pub states: bool,
    /// The files whose classes are checked.
    pub files: &'a [String],
    /// The files whose classes are known beside them.
    pub known: &'a [String],
}

/// Reads the words `[--states] FILE.. [--known FILE..]`.
pub fn request_of(words: &[String]) -> Request<'_> {
    let (states, rest) = match words {
        [first, rest @ ..] if first.as_str() == "--states" => (true, rest),
        _ => (false, words),
    };
    let mut parts = rest.splitn(2, |word| word.as_str() == "--known");
    let files = parts.next().unwrap_or(&[]);
    let known = parts.next().unwrap_or(&[]);
    Request {
        states,
        files,
        known,
    }
}
