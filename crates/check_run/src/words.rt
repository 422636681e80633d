ghost use Rattle.std.specs.Prelude.{◌↔◌, SomeIff, IsTrue, IfSome, IfNone, All, string_bytes};
ghost use Rattle.check_run.specs.Words.{texts, IsFile, IsTimes, times_value, Names, Asks, AsksOnly, AsksNothing};

/// What the words ask for.
#[derive(Clone, Copy)]
pub struct Request<'a> {
    /// How often each file is read and written, from 1 on.
    pub times: u32,
    /// The names of the files, of which there is one at least.
    pub files: &'a [String],
}

/// Whether a word may be a file's name: it doesn't begin with a hyphen.
fn is_file(word: &[u8]) -> bool
    ensures { IsTrue result ↔ IsFile word.now }
{
    match word {
        [] => true,
        [first, ..] => *first != b'-',
    }
}

/// A whole number in decimal from 1 on, with or without a plus sign.
fn times_of(word: &str) -> Option<u32>
    ensures { SomeIff result (IsTimes word.now) (times_value word.now) }
{
    match word.parse::<u32>() {
        Ok(0) | Err(_) => None,
        Ok(times) => Some(times),
    }
}

/// The times and the names, before it is known that they are files' names.
fn split(words: &[String]) -> Option<(u32, &[String])>
    ensures named { IfSome result (λ both. Names (texts words.now) both.0 (texts both.1.now)) }

    // Nothing else is asked.
    ensures only { IfSome result (λ both. AsksOnly (texts words.now) both.0 (texts both.1.now)) }
    ensures nothing { IfNone result (AsksNothing (texts words.now)) }
{
    let Some((option, rest)) = words.split_first() else {
        return Some((1, words));
    };
    if option.as_str() != "--times" {
        return Some((1, words));
    }
    let (number, files) = rest.split_first()?;
    Some((times_of(number.as_str())?, files))
}

fn are_files(words: &[String]) -> bool
    ensures { IsTrue result ↔ All (λ word. IsFile (string_bytes word)) words.now }
{
    words.iter().all(|word| is_file(word.as_bytes()))
}

/// Reads the words `FILE..` or `--times N FILE..`. No others are accepted. It takes no memory.
pub fn read_request(words: &[String]) -> Option<Request<'_>>
    ensures asked { IfSome result (λ r. Asks (texts words.now) r.times (texts r.files.now)) }

    // Nothing else is asked.
    ensures only { IfSome result (λ r. AsksOnly (texts words.now) r.times (texts r.files.now)) }
    ensures nothing { IfNone result (AsksNothing (texts words.now)) }
{
    let (times, files) = split(words)?;
    if files.is_empty() || !are_files(files) {
        return None;
    }
    Some(Request { times, files })
}
