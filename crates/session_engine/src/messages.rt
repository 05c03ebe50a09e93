ghost use Rattle.std.specs.Prelude.{◌≡◌, [], if◌then◌else◌};
ghost use Rattle.outer_ends.specs.Causes.{HasCause};
ghost use Rattle.outer_ends.specs.Streams.{Sends};
ghost use Rattle.http_messages.specs.ReplyText.{interim_text};
ghost use Rattle.http_bodies.specs.Body.{FitsBodyLimit};
ghost use Rattle.session_engine.specs.Seen.{TakesMessage, TakesRest, TakenCause, RestCause};

use http_bodies::{BodyEnd, take_body};
use http_framing::{Buffer, HeadEnd, expects_continue, is_head, judge_head, take_head};
use http_messages::{Framing, Message, RefusedRest, send_continue};
use http_model::{heads_are_decided, read_stays};
use outer_ends::{Failed, Sink, Source};
use std::alloc::Global;

/// What was found where a message should stand.
#[derive(Drop)]
pub enum Taken {
    /// A whole message.
    Whole(Message),
    /// The end of the input, between messages.
    End,
    /// The end of the input, inside a message.
    CutShort,
    /// Something that is refused for that reason; whether its head is one of a HEAD request.
    Refused(RefusedRest, bool),
    /// The source failed.
    ReadFault,
    /// The sink failed at the text that asks for the body.
    WriteFault,
    /// Want of memory.
    NoMemory,
}

/// Writes the text that asks for a body, where it is to be.
fn send_interim<K: Sink>(asks: bool, sink: &mut K) -> Result<(), Failed>
    ensures sends { Sends (K.told sink.old) (K.told sink.new) (if asks then interim_text else []) result }
    ensures cause { HasCause (K.told sink.old).faults (K.told sink.new).faults result }
{
    if asks { send_continue(sink) } else { Ok(()) }
}

/// Takes the body behind a head.
fn take_rest<S: Source>(
    alloc: Global,
    source: &mut S,
    buffer: &mut Buffer,
    head: Message,
    framing: Framing,
) -> Taken
    requires { FitsBodyLimit framing }
    ensures takes { TakesRest head framing buffer.old buffer.new (S.told source.old) (S.told source.new) result }
    ensures cause { RestCause (S.told source.old) (S.told source.new) result }
{
    let mut message = head;
    match take_body(alloc, source, buffer, framing) {
        BodyEnd::Body(body) => {
            message.body = body;
            Taken::Whole(message)
        }
        BodyEnd::CutShort => Taken::CutShort,
        BodyEnd::BadChunk(_) => Taken::Refused(RefusedRest::BadChunk, is_head(&message)),
        BodyEnd::TooLarge => Taken::Refused(RefusedRest::LargeBody, is_head(&message)),
        BodyEnd::ReadFault => Taken::ReadFault,
        BodyEnd::NoMemory => Taken::NoMemory,
    }
}

/// Takes the next message, and asks for its body where it is to be asked for (RFC 9110, section 10.1.1).
pub fn take_message<S: Source, K: Sink>(
    alloc: Global,
    source: &mut S,
    buffer: &mut Buffer,
    sink: &mut K,
) -> Taken
    ensures takes { TakesMessage buffer.old buffer.new (S.told source.old) (S.told source.new) (K.told sink.old) (K.told sink.new) result }
    ensures cause { TakenCause (S.told source.old) (S.told source.new) (K.told sink.old) (K.told sink.new) result }
{
    heads_are_decided();
    read_stays();
    match take_head(alloc, source, buffer) {
        HeadEnd::Head(message) => match judge_head(&message) {
            Err(fault) => Taken::Refused(RefusedRest::Head(fault), is_head(&message)),
            Ok(framing) => match send_interim(expects_continue(&message), sink) {
                Err(Failed) => Taken::WriteFault,
                Ok(()) => take_rest(alloc, source, buffer, message, framing),
            },
        },
        HeadEnd::End => Taken::End,
        HeadEnd::CutShort => Taken::CutShort,
        HeadEnd::Bad => Taken::Refused(RefusedRest::Hopeless, false),
        HeadEnd::TooLarge => Taken::Refused(RefusedRest::TooLarge, false),
        HeadEnd::TooMany => Taken::Refused(RefusedRest::TooMany, false),
        HeadEnd::ReadFault => Taken::ReadFault,
        HeadEnd::NoMemory => Taken::NoMemory,
    }
}
