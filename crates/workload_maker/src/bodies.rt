//! The documents that requests send (JSON:API 1.1, "Creating Resources" and "Updating Resources").
ghost use Rattle.std.specs.Prelude.{◌≡◌, IfOk};
ghost use Rattle.workload_maker.specs.Requests.{article_body, comment_body, person_body, views_body};

use ident_rules::{NoMemory, Text};
use std::alloc::Global;

/// The document of a new person.
pub fn person_body(alloc: Global, number: u64) -> Result<Text, NoMemory>
    ensures { IfOk result (λ t. t ≡ person_body number) }
{
    let text = format!(in alloc;
        "{{\"data\":{{\"attributes\":{{\"name\":\"p{number}\"}},\"type\":\"people\"}}}}"
    )?;
    Ok(Text::from_string(text))
}

/// The document of a new article by a person.
pub fn article_body(alloc: Global, title: u64, author: u64) -> Result<Text, NoMemory>
    ensures { IfOk result (λ t. t ≡ article_body title author) }
{
    let text = format!(in alloc;
        "{{\"data\":{{\"attributes\":{{\"title\":\"t{title}\"}},\"relationships\":{{\"author\":{{\"data\":{{\"id\":\"{author}\",\"type\":\"people\"}}}}}},\"type\":\"articles\"}}}}"
    )?;
    Ok(Text::from_string(text))
}

/// The document of other views of an article.
pub fn views_body(alloc: Global, article: u64, views: u64) -> Result<Text, NoMemory>
    ensures { IfOk result (λ t. t ≡ views_body article views) }
{
    let text = format!(in alloc;
        "{{\"data\":{{\"attributes\":{{\"views\":{views}}},\"id\":\"{article}\",\"type\":\"articles\"}}}}"
    )?;
    Ok(Text::from_string(text))
}

/// The document of a new comment.
pub fn comment_body(alloc: Global, number: u64) -> Result<Text, NoMemory>
    ensures { IfOk result (λ t. t ≡ comment_body number) }
{
    let text = format!(in alloc;
        "{{\"data\":{{\"attributes\":{{\"text\":\"c{number}\"}},\"type\":\"comments\"}}}}"
    )?;
    Ok(Text::from_string(text))
}
