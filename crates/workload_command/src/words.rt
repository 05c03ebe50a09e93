//! The words of `workload`.
ghost use Rattle.std.specs.Prelude.{◌≡◌, ◌≤◌, IfSome};
ghost use Rattle.workload_command.specs.declared.words.TheConstants.{REQUEST_LIMIT};
ghost use Rattle.workload_command.specs.Words.{is_workload, workload_numbers, workload_words};

use decimal_words::decimal_word;
use ident_rules::Text;

/// Whether the first word is `workload`.
pub fn is_workload(words: &[Text]) -> bool
    ensures { result ≡ is_workload words.now }
{
    match words {
        [word, ..] => word.as_str() == "workload",
        [] => false,
    }
}

/// The most requests behind the people.
pub const REQUEST_LIMIT: u64 = 100_000;

/// What the words of `workload` ask for.
#[derive(Clone, Copy)]
pub struct WorkloadWords {
    /// How many requests behind the people, 1 to `REQUEST_LIMIT`.
    pub requests: u64,
    /// Where the draws begin.
    pub seed: u64,
}

// The two numbers, where both are within their limits.
fn workload_numbers(requests: &str, seed: &str) -> Option<WorkloadWords>
    ensures numbers { result ≡ workload_numbers requests.now seed.now }
    ensures few { IfSome result (λ w. w.requests ≤ REQUEST_LIMIT) }
{
    let requests = decimal_word(requests, 1, REQUEST_LIMIT)?;
    let seed = decimal_word(seed, 0, u64::MAX)?;
    Some(WorkloadWords { requests, seed })
}

/// What the words behind the program's name ask for, where they are `workload N SEED`: N from 1 to `REQUEST_LIMIT` and SEED a `u64`, each of
/// 1 to 20 digits, which zeros may lead. None where they are others. Takes no memory.
pub fn workload_words(words: &[Text]) -> Option<WorkloadWords>
    ensures words { result ≡ workload_words words.now }
    ensures few { IfSome result (λ w. w.requests ≤ REQUEST_LIMIT) }
{
    match words {
        [word, requests, seed] if word.as_str() == "workload" => {
            workload_numbers(requests.as_str(), seed.as_str())
        }
        _ => None,
    }
}
