ghost use Rattle.std.specs.Prelude.{◌≡◌, ◌≤◌, IfSome};
ghost use Rattle.std.specs.Option.{option_copied};
ghost use Rattle.connection_workers.specs.declared.workers.TheConstants.{QUOTA_LIMIT};
ghost use Rattle.serve_lines.specs.declared.words.TheConstants.{WORKER_LIMIT};
ghost use Rattle.serve_lines.specs.Words.{serve_address, serve_numbers, serve_path, serve_words};

use connection_workers::QUOTA_LIMIT;
use decimal_words::decimal_word;
use ident_rules::Text;

/// The most workers of a server.
pub const WORKER_LIMIT: u64 = 64;

/// What the words of `serve` ask for.
#[derive(Clone, Copy, Debug, PartialEq, Eq)]
pub struct ServeWords {
    /// How many workers, 1 to `WORKER_LIMIT`.
    pub workers: u32,
    /// How many connections each of them serves, 1 to `QUOTA_LIMIT`.
    pub quota: u64,
}

// The two numbers, where both are within their limits.
fn serve_numbers(workers: &str, quota: &str) -> Option<ServeWords>
    ensures numbers { result ≡ serve_numbers workers.now quota.now }
    ensures workers { IfSome result (λ s. (1 ≤ s.workers) × (s.workers ≤ WORKER_LIMIT)) }
    ensures quota { IfSome result (λ s. (1 ≤ s.quota) × (s.quota ≤ QUOTA_LIMIT)) }
{
    let workers = decimal_word(workers, 1, WORKER_LIMIT)?;
    let quota = decimal_word(quota, 1, QUOTA_LIMIT)?;
    Some(ServeWords {
        workers: workers as u32,
        quota,
    })
}

/// What the words behind the program's name ask for, where they are `serve PATH ADDRESS WORKERS QUOTA`: WORKERS from 1 to `WORKER_LIMIT`
/// and QUOTA from 1 to `QUOTA_LIMIT`, each of 1 to 20 digits, which zeros may lead. None where they are others. PATH and ADDRESS are not
/// judged. Takes no memory.
pub fn serve_words(words: &[Text]) -> Option<ServeWords>
    ensures words { result ≡ serve_words words.now }
    ensures workers { IfSome result (λ s. (1 ≤ s.workers) × (s.workers ≤ WORKER_LIMIT)) }
    ensures quota { IfSome result (λ s. (1 ≤ s.quota) × (s.quota ≤ QUOTA_LIMIT)) }
{
    match words {
        [word, _, _, workers, quota] if word.as_str() == "serve" => {
            serve_numbers(workers.as_str(), quota.as_str())
        }
        _ => None,
    }
}

/// The path of the schema file among the words of `serve`.
pub fn serve_path(words: &[Text]) -> Option<&Text>
    ensures { option_copied result ≡ serve_path words.now }
{
    match words {
        [_, path, _, _, _] => Some(path),
        _ => None,
    }
}

/// The address at which connections are accepted, among the words of `serve`.
pub fn serve_address(words: &[Text]) -> Option<&Text>
    ensures { option_copied result ≡ serve_address words.now }
{
    match words {
        [_, _, address, _, _] => Some(address),
        _ => None,
    }
}
