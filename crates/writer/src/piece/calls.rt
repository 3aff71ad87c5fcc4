// What pieces do.
ghost use Rattle.std.specs.Prelude.{◌≡◌, ◌+◌, ◌*◌, ◌/◌, ◌^◌, ◌<◌, length};
ghost use Rattle.std.specs.Iterator.{at_most};
ghost use Rattle.writer.specs.Pieces.{TakesPiece};

use crate::piece::{Piece, Pieces};

impl<'a> Piece<'a, 4096> {
    // The whole of a sector.
    pub(crate) fn whole(sector: usize, bytes: &'a [u8; 4096]) -> Piece<'a, 4096>
        requires { sector * 4096 < 2 ^ 64 }
        ensures at { result.at ≡ sector * 4096 }
        ensures bytes { result.bytes.now ≡ bytes.now }
    {
        Piece {
            at: sector * 4096,
            bytes,
        }
    }

    // The sector in which it lies.
    pub(crate) fn sector(self) -> usize
        ensures { result ≡ self.entry.at / 4096 }
    {
        self.at / 4096
    }
}

impl<'a, const UNIT: usize> Pieces<'a, UNIT> {
    // The pieces of bytes that are to stand from an address on.
    pub(crate) fn of(at: usize, bytes: &'a [u8]) -> Pieces<'a, UNIT>
        requires unit { 0 < UNIT }
        requires small { at + length bytes.now < 2 ^ 64 }
        ensures at { result.at ≡ at }
        ensures rest { result.rest.now ≡ bytes.now }
    {
        Pieces { at, rest: bytes }
    }
}

impl<'a, const UNIT: usize> Iterator for Pieces<'a, UNIT> {
    type Item = Piece<'a, UNIT>;

    ghost next_gives = { TakesPiece UNIT };

    ghost remaining = { λ s. at_most (length s.rest.now) };

    fn next(&mut self) -> Option<Piece<'a, UNIT>> {
        let room = UNIT - self.at % UNIT;
        let (bytes, rest) = self.rest.split_at(room.min(self.rest.len()));
        if bytes.is_empty() {
            return None;
        }
        let piece = Piece { at: self.at, bytes };
        self.at += bytes.len();
        self.rest = rest;
        Some(piece)
    }
}
