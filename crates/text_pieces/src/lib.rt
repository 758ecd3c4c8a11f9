//! Texts that are put together from words and numbers.
#![tactic(auto)]

ghost use Rattle.std.specs.Prelude.{◌≡◌, ◌++◌, OnOk};
ghost use Rattle.text_pieces.specs.Pieces.{piece_text, pieces_text};

use itoa::Buffer;
use std::alloc::AllocError;

/// A piece of a text: a word as it is, or a number in decimal.
#[derive(Clone, Copy)]
pub enum Piece<'a> {
    Word(&'a [u8]),
    Number(u64),
    Signed(i64),
}

// Appends a piece.
fn push_piece(text: &mut Vec<u8>, piece: Piece<'_>) -> Result<(), AllocError>
    ensures { OnOk result (text.new.items ≡ text.old.items ++ piece_text piece.entry) }
{
    match piece {
        Piece::Word(word) => text.extend_from_slice(word),
        Piece::Number(number) => text.extend_from_slice(Buffer::new().format(number).as_bytes()),
        Piece::Signed(number) => text.extend_from_slice(Buffer::new().format(number).as_bytes()),
    }
}

/// Appends pieces, one after another. The error is that memory is out.
pub fn push_pieces(text: &mut Vec<u8>, pieces: &[Piece<'_>]) -> Result<(), AllocError>
    ensures { OnOk result (text.new.items ≡ text.old.items ++ pieces_text pieces.now) }
{
    for piece in pieces {
        push_piece(text, *piece)?;
    }
    Ok(())
}
