//! Requests by their numbers.
ghost use Rattle.std.specs.Prelude.{◌≡◌, ◌≤◌, IfOk, if◌then◌else◌};
ghost use Rattle.workload_maker.specs.Draws.{drawn, next_state};
ghost use Rattle.workload_maker.specs.Requests.{draws_again, request_at, request_of, request_text, state_after};

use crate::Draws;
use crate::texts::text_of;
use ident_rules::{Bytes, NoMemory};
use std::alloc::Global;

/// What a request of the workload asks for.
#[derive(Clone, Copy)]
pub enum Request {
    /// A new person of that number in its name.
    AddPerson(u64),
    /// A new article of that number in its title, by a person.
    AddArticle {
        /// The number in its title.
        title: u64,
        /// The person's number.
        author: u64,
    },
    /// Another number of views of an article.
    SetViews {
        /// The article's number.
        article: u64,
        /// The number of views.
        views: u64,
    },
    /// An article less.
    DropArticle(u64),
    /// A page of articles, with their authors.
    ReadPage,
    /// An article.
    ReadArticle(u64),
    /// A new comment of that number in its text.
    AddComment(u64),
}

/// How many people are made before all else.
pub const PEOPLE: u64 = 10;

// The request behind the people of that number, of a kind that was drawn.
fn request_of(draws: &mut Draws, kind: u64, number: u64) -> Request
    requires some { 1 ≤ number }
    ensures request { result ≡ request_of kind number draws.old }
    ensures state { draws.new ≡ (if draws_again kind then next_state draws.old else draws.old) }
{
    match kind {
        0..=3 => Request::AddArticle {
            title: number,
            author: draws.draw(10) + 1,
        },
        4..=5 => Request::SetViews {
            article: draws.draw(number) + 1,
            views: number,
        },
        6 => Request::DropArticle(draws.draw(number) + 1),
        7 => Request::ReadPage,
        8 => Request::ReadArticle(draws.draw(number) + 1),
        _ => Request::AddComment(number),
    }
}

// The request of a number.
fn request_at(draws: &mut Draws, number: u64) -> Request
    requires some { 1 ≤ number }
    ensures request { result ≡ request_at number draws.old }
    ensures state { draws.new ≡ state_after number draws.old }
{
    if number <= PEOPLE {
        return Request::AddPerson(number);
    }
    let kind = draws.draw(10);
    request_of(draws, kind, number - PEOPLE)
}

/// The text of the request of a number, from 1: the first `PEOPLE` make people and draw nothing, the others ask for what is drawn, of articles,
/// comments and pages (of this project). Its one error is want of memory; the numbers are drawn all the same.
pub fn make_request(alloc: Global, draws: &mut Draws, number: u64) -> Result<Bytes, NoMemory>
    requires some { 1 ≤ number }
    ensures text { IfOk result (λ b. b ≡ request_text number draws.old) }
    ensures state { draws.new ≡ state_after number draws.old }
{
    let request = request_at(draws, number);
    text_of(alloc, request)
}
