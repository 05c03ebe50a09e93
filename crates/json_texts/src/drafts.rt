ghost use Rattle.std.specs.Prelude.{◌≡◌, [], None, Some, IsSome, MatchResult};
ghost use Rattle.json_texts.specs.Drafts.{Adds};

use ident_rules::{Bytes, NoMemory};
use std::alloc::Global;
use std::marker::Model;

/// A text that is put together piece by piece, until memory runs out. So no call that goes on with it answers an error:
/// `finish` tells of the first one. Contracts see the text, and none where memory ran out.
#[derive(Drop)]
pub struct TextDraft {
    bytes: Vec<u8>,
    failed: bool,
}

impl Model for TextDraft {
    ghost use Rattle.std.specs.Prelude.{None, Some, if◌then◌else◌};
    ghost use Rattle.json_texts.specs.Drafts.{DraftText};

    ghost Value = { DraftText };

    ghost view = { λ d. if d.failed then None else Some d.bytes.items };
}

impl TextDraft {
    /// An empty text. Takes no memory.
    pub fn new(alloc: Global) -> TextDraft
        ensures { result ≡ Some [] }
    {
        TextDraft {
            bytes: Vec::new(alloc),
            failed: false,
        }
    }

    /// An empty text, with room for so many bytes to come; what does not fit takes more.
    pub fn with_room(alloc: Global, room: usize) -> TextDraft
        ensures { IsSome result → result ≡ Some [] }
    {
        match Vec::with_capacity(alloc, room) {
            Ok(bytes) => TextDraft {
                bytes,
                failed: false,
            },
            Err(_) => TextDraft {
                bytes: Vec::new(alloc),
                failed: true,
            },
        }
    }

    /// Goes on with these bytes.
    pub fn add(&mut self, piece: &[u8])
        ensures { Adds self.old self.new piece.now }
    {
        if self.failed {
            return;
        }
        if self.bytes.extend_from_slice(piece).is_err() {
            self.failed = true;
        }
    }

    /// The text; `NoMemory` exactly where memory ran out on the way.
    pub fn finish(self) -> Result<Bytes, NoMemory>
        ensures { MatchResult result (λ bytes. self ≡ Some bytes) (λ _. self ≡ None) }
    {
        if self.failed {
            return Err(NoMemory);
        }
        Ok(Bytes::from_vec(self.bytes))
    }
}
