ghost use Rattle.std.specs.Prelude.{◌≡◌, ◌&&◌, option_map};
ghost use Rattle.machine_model.specs.Results.{Request as TheRequest, request_of, is_run as names_run, is_value as names_value};
ghost use Rattle.host_run.specs.Words.{texts, as_request};

use jv_names::is_class_name;

/// What the words ask for.
#[derive(Clone, Copy)]
pub struct Request<'a> {
    /// The main class's name, in internal form.
    pub main: &'a str,
    /// The name of its class file.
    pub file: &'a str,
}

fn is_value(word: &[u8]) -> bool
    ensures { result ≡ names_value word.now }
{
    match word {
        [] => true,
        [first, ..] => *first != b'-',
    }
}

fn is_run(run: &[u8], main: &[u8], name: &[u8], class: &[u8], file: &[u8]) -> bool
    ensures { result ≡ names_run run.now main.now name.now class.now file.now }
{
    run == b"run".as_slice()
        && main == b"--main".as_slice()
        && class == b"--class".as_slice()
        && is_value(name)
        && is_value(file)
        && is_class_name(name)
}

/// Reads the words `run --main NAME --class FILE`. No others are accepted. It takes no memory.
pub fn read_request(words: &[String]) -> Option<Request<'_>>
    ensures { option_map (λ r. as_request r.main.now r.file.now) result ≡ request_of (texts words.now) }
{
    let [run, main, name, class, file] = words else {
        return None;
    };
    if is_run(
        run.as_bytes(),
        main.as_bytes(),
        name.as_bytes(),
        class.as_bytes(),
        file.as_bytes(),
    ) {
        return Some(Request {
            main: name.as_str(),
            file: file.as_str(),
        });
    }
    None
}
