ghost use Rattle.std.specs.Prelude.{◌≡◌, IsFalse, IsNone, IsSome, option_map};
ghost use Rattle.commands.specs.Notices.{notice_for, help_text, version_text};
ghost use Rattle.commands.specs.Pipes.{is_pipe, path_of};

use ident_rules::Text;

/// What `--help` prints.
fn help_text() -> &'static str
    ensures { result.now ≡ help_text }
{
    "usage: jsonapid pipe [PATH]\n       jsonapid serve PATH ADDRESS WORKERS QUOTA\n       jsonapid replay\n       jsonapid workload N SEED\n\npipe serves one connection of HTTP/1.1 from standard input to standard output, over a store that begins empty: of notes, or of the types of the schema file PATH.\nserve serves the types of the schema file PATH at a socket, on one store that begins empty: WORKERS connections at a time, 1 to 64, until each worker has served QUOTA of them, 1 to 1000000.\nreplay reads a script from standard input, takes its steps over connections that share one store, and reports the history that they made.\nworkload makes ten people and N requests that SEED draws, 1 to 100000, serves them over a blog that begins empty, and prints what was counted.\n"
}

/// What `--version` prints.
fn version_text() -> &'static str
    ensures { result.now ≡ version_text }
{
    "jsonapid 0.1.0\n"
}

/// What is printed for `--help` and for `--version`, where one of them is the only word.
pub fn notice_for(words: &[Text]) -> Option<&'static str>
    ensures text { option_map (λ t. t.now) result ≡ notice_for words.now }
    ensures others { IsSome result → IsFalse (is_pipe words.now) × IsNone (path_of words.now) }
{
    match words {
        [word] if word.as_str() == "--help" => Some(help_text()),
        [word] if word.as_str() == "--version" => Some(version_text()),
        _ => None,
    }
}
