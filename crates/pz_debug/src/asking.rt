// What the words of a command line ask for.
ghost use Rattle.std.specs.Prelude.{◌≡◌, map, string_bytes};
ghost use Rattle.pz_words.specs.Jobs as jobs;
ghost use Rattle.pz_debug.specs.Asked.{usage_line as usage};
ghost use Rattle.pz_debug.specs.devices.Asking.{AreFound};

/// The names of a model and of a file of commands.
#[derive(Clone, Copy)]
pub(crate) struct Names<'a> {
    pub model: &'a str,
    pub commands: &'a str,
}

/// The two names that the words are, if they are that. Takes no memory.
pub(crate) fn names_in(words: &[String]) -> Option<Names<'_>>
    ensures { AreFound (map string_bytes words.now) result }
{
    match words {
        [model, commands] if is_name(model.as_str()) && is_name(commands.as_str()) => Some(Names {
            model: model.as_str(),
            commands: commands.as_str(),
        }),
        _ => None,
    }
}

/// Whether this may be a name: it has a byte, and does not begin with `-`.
fn is_name(word: &str) -> bool
    ensures { result ≡ jobs.is_name word.now }
{
    match word.as_bytes() {
        [] => false,
        [first, ..] => *first != b'-',
    }
}

/// How the program is called. Takes no memory.
pub(crate) fn usage_line() -> &'static [u8]
    ensures { result.now ≡ usage }
{
    b"usage: poosl_debug MODEL COMMANDS\n"
}
