ghost use Rattle.std.specs.Prelude.{◌≡◌, ◌≤◌, ◌+◌, ◌++◌, [], length, Ok};
ghost use Rattle.outer_ends.specs.Causes.{KeepsCause};
ghost use Rattle.http_messages.specs.Draft.{AddsText, EndsText};

use outer_ends::{Failed, Sink, send_more};
use std::marker::Model;

/// The end of a text, which waits in the caller's room to be sent, and whether its front was sent.
#[derive(Drop)]
pub struct Draft<'a> {
    room: &'a mut [u8],
    len: usize,
    sent: Result<(), Failed>,
}

impl<'a> Model for Draft<'a> {
    ghost use Rattle.std.specs.Prelude.{◌≤◌, length, take};
    ghost use Rattle.http_messages.specs.Draft.{DraftState};

    ghost Value = { DraftState };

    ghost view = { λ d. record {
      held = take d.len d.room.now;
      sent = d.sent;
    } };

    ghost invariant = { λ d. d.len ≤ length d.room.now };
}

impl<'a> Draft<'a> {
    /// A draft of a text with nothing in it, whose pieces wait in that room.
    pub fn new(room: &'a mut [u8]) -> Draft<'a>
        ensures { result ≡ record { held = []; sent = Ok tt } }
    {
        Draft {
            room,
            len: 0,
            sent: Ok(()),
        }
    }

    /// Goes on with the text. The piece waits where there is room for it; else what waits is sent, and then the piece.
    pub fn add<K: Sink>(&mut self, piece: &[u8], sink: &mut K)
        ensures text { AddsText (K.told sink.old) (K.told sink.new) self.old self.new piece.now }
        ensures cause { KeepsCause (K.told sink.old).faults (K.told sink.new).faults self.old.sent self.new.sent }
    {
        if self.sent.is_err() {
            return;
        }
        let from = self.len;
        let sent = self.sent;
        let room = &mut *self.room;
        if piece.len() <= room.len() - from {
            room[from..from + piece.len()].copy_from_slice(piece);
            self.len = from + piece.len();
        } else {
            let front = send_more(sent, &room[..from], sink);
            self.sent = send_more(front, piece, sink);
            self.len = 0;
        }
    }

    /// Sends what waits, and tells whether the whole text was sent.
    pub fn finish<K: Sink>(self, sink: &mut K) -> Result<(), Failed>
        ensures sends { EndsText (K.told sink.old) (K.told sink.new) self.entry result }
        ensures cause { KeepsCause (K.told sink.old).faults (K.told sink.new).faults self.entry.sent result }
    {
        if self.sent.is_err() {
            return self.sent;
        }
        let sent = self.sent;
        let len = self.len;
        let held = &*self.room;
        send_more(sent, &held[..len], sink)
    }
}
