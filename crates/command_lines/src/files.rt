//! Files that are read whole.
ghost use Rattle.command_lines.specs.Files.{IsRead, IsPiece, IsPieceCause};

use outer_ends::{Failed, Source};
use std::alloc::Global;

/// What a source gave.
#[derive(Drop)]
pub enum FileBytes {
    /// All its bytes.
    Whole(Vec<u8>),
    /// More than were asked for.
    TooLarge,
    /// The source failed.
    Failed,
    /// Want of memory.
    NoMemory,
}

/// What one read of a source came to.
#[derive(Clone, Copy, Debug, PartialEq, Eq)]
enum Piece {
    /// The source was at its end.
    End,
    /// There were some bytes.
    More,
    /// The source failed.
    Failed,
    /// Want of memory.
    NoMemory,
}

/// Reads some bytes behind those that were read.
fn read_piece<S: Source>(source: &mut S, bytes: &mut Vec<u8>) -> Piece
    ensures faults { IsPieceCause (S.told source.old) (S.told source.new) result }
    ensures takes { IsPiece (S.told source.old) (S.told source.new) bytes.old.items bytes.new.items result }
{
    let mut room = [0; 4096];
    match source.read(&mut room) {
        Err(Failed) => Piece::Failed,
        Ok(0) => Piece::End,
        Ok(count) => match bytes.extend_from_slice(&room[..count]) {
            Ok(()) => Piece::More,
            Err(_) => Piece::NoMemory,
        },
    }
}

/// All bytes of a source, where they are not more than `limit`: it is read up to its end, or to past the limit. `Failed` is answered only
/// where the source's count of faults rose.
pub fn read_whole<S: Source>(alloc: Global, limit: usize, source: &mut S) -> FileBytes
    ensures { IsRead limit (S.told source.old) (S.told source.new) result }
{
    let mut bytes = Vec::new(alloc);
    'reading: while bytes.len() <= limit {
        match read_piece(source, &mut bytes) {
            Piece::End => return FileBytes::Whole(bytes),
            Piece::More => (),
            Piece::Failed => return FileBytes::Failed,
            Piece::NoMemory => return FileBytes::NoMemory,
        }
    }
    FileBytes::TooLarge
}
