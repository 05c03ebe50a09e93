//! The texts of requests.
ghost use Rattle.std.specs.Prelude.{◌≡◌, IfOk};
ghost use Rattle.workload_maker.specs.Requests.{article_target, bare_text, full_text, text_of};

use crate::bodies::{article_body, comment_body, person_body, views_body};
use crate::requests::Request;
use ident_rules::{Bytes, NoMemory, Text};
use std::alloc::Global;

/// The text of a request without a body.
fn bare(alloc: Global, method: &str, target: &str) -> Result<Bytes, NoMemory>
    ensures { IfOk result (λ b. b ≡ bare_text method.now target.now) }
{
    let text = format!(in alloc; "{method} {target} HTTP/1.1\r\nHost: h\r\n\r\n")?;
    Ok(Bytes::from_vec(text.into_bytes()))
}

/// The text of a request with a body.
fn full(alloc: Global, method: &str, target: &str, body: &str) -> Result<Bytes, NoMemory>
    ensures { IfOk result (λ b. b ≡ full_text method.now target.now body.now) }
{
    let size = body.len();
    let text = format!(in alloc;
        "{method} {target} HTTP/1.1\r\nHost: h\r\nContent-Type: application/vnd.api+json\r\nContent-Length: {size}\r\n\r\n{body}"
    )?;
    Ok(Bytes::from_vec(text.into_bytes()))
}

/// The path of an article.
fn article_target(alloc: Global, number: u64) -> Result<Text, NoMemory>
    ensures { IfOk result (λ t. t ≡ article_target number) }
{
    let text = format!(in alloc; "/articles/{number}")?;
    Ok(Text::from_string(text))
}

/// The text of a request for an article without a body.
fn at_article(alloc: Global, method: &str, number: u64) -> Result<Bytes, NoMemory>
    ensures { IfOk result (λ b. b ≡ bare_text method.now (article_target number)) }
{
    let target = article_target(alloc, number)?;
    bare(alloc, method, target.as_str())
}

/// The text of the request for a new person.
fn add_person(alloc: Global, number: u64) -> Result<Bytes, NoMemory>
    ensures { IfOk result (λ b. b ≡ text_of (Request.AddPerson number)) }
{
    let body = person_body(alloc, number)?;
    full(alloc, "POST", "/people", body.as_str())
}

/// The text of the request for a new article.
fn add_article(alloc: Global, title: u64, author: u64) -> Result<Bytes, NoMemory>
    ensures { IfOk result (λ b. b ≡ text_of (Request.AddArticle title author)) }
{
    let body = article_body(alloc, title, author)?;
    full(alloc, "POST", "/articles", body.as_str())
}

/// The text of the request for other views of an article.
fn set_views(alloc: Global, article: u64, views: u64) -> Result<Bytes, NoMemory>
    ensures { IfOk result (λ b. b ≡ text_of (Request.SetViews article views)) }
{
    let target = article_target(alloc, article)?;
    let body = views_body(alloc, article, views)?;
    full(alloc, "PATCH", target.as_str(), body.as_str())
}

/// The text of the request for a new comment.
fn add_comment(alloc: Global, number: u64) -> Result<Bytes, NoMemory>
    ensures { IfOk result (λ b. b ≡ text_of (Request.AddComment number)) }
{
    let body = comment_body(alloc, number)?;
    full(alloc, "POST", "/comments", body.as_str())
}

/// The text of a request (RFC 9112, section 2.1). Its one error is want of memory.
pub fn text_of(alloc: Global, request: Request) -> Result<Bytes, NoMemory>
    ensures { IfOk result (λ b. b ≡ text_of request) }
{
    match request {
        Request::AddPerson(number) => add_person(alloc, number),
        Request::AddArticle { title, author } => add_article(alloc, title, author),
        Request::SetViews { article, views } => set_views(alloc, article, views),
        Request::DropArticle(article) => at_article(alloc, "DELETE", article),
        Request::ReadPage => bare(alloc, "GET", "/articles?page[size]=20&include=author"),
        Request::ReadArticle(article) => at_article(alloc, "GET", article),
        Request::AddComment(number) => add_comment(alloc, number),
    }
}
