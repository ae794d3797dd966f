//! The text of pieces in one layout.

ghost use Rattle.std.specs.Prelude.{◌≡◌, ◌<◌, ◌^◌, ◌-◌, ◌++◌, ℕ, List, length, true, IfOk, OnOk};
ghost use Rattle.std.specs.List.{list_all};
ghost use Rattle.pz_lexer.specs.declared.kept.Piece.{Piece};
ghost use Rattle.pz_lexer.specs.Kept.{AreKept};
ghost use Rattle.pz_format.specs.Levels.{start, behind, blanks};
ghost use Rattle.pz_format.specs.Layout.{gap, text_behind, layout};
ghost use Rattle.pz_format.specs.ReadingBack.{StandApart, ReadsBack, is_byte};

use crate::blanks::are_joined;
use crate::levels::Level;
use crate::lines::begins_line;
use crate::writing::put_piece;
use pz_lexer::Piece;
use std::alloc::{AllocError, Global};

/// The tokens and comments of a text in one layout. Takes time linear in the text. The only error is
/// want of memory.
pub fn format(alloc: Global, pieces: &[Piece]) -> Result<Vec<u8>, AllocError>
    ensures layout { IfOk result (λ text. text.items ≡ layout pieces.now) }
    // The tokens and comments of the result are these, where these are of a text of bytes in which
    // no two neighbours merge.
    ensures reads_back { (model : List ℕ) → AreKept model pieces.now →
        list_all is_byte model ≡ true → StandApart pieces.now →
        IfOk result (λ text. ReadsBack text.items pieces.now) }
    // So this changes nothing in its own result.
    ensures again { (model : List ℕ) → AreKept model pieces.now →
        list_all is_byte model ≡ true → StandApart pieces.now →
        IfOk result (λ text. (read : List Piece) → AreKept text.items read →
        layout read ≡ text.items) }
{
    let mut text = Vec::with_capacity(alloc, pieces.len())?;
    put_pieces(&mut text, pieces)?;
    Ok(text)
}

fn put_pieces(text: &mut Vec<u8>, pieces: &[Piece]) -> Result<(), AllocError>
    requires { length pieces.now < 2 ^ 64 }
    ensures { OnOk result (text.new.items ≡ text.old.items ++ layout pieces.now) }
{
    let Some((first, others)) = pieces.split_first() else {
        return Ok(());
    };
    put_piece(text, first)?;
    put_others(text, first, others)
}

/// Writes what stands behind the first piece: the others, and the end of the last line.
fn put_others(text: &mut Vec<u8>, first: &Piece, others: &[Piece]) -> Result<(), AllocError>
    requires { length others.now < 2 ^ 64 - 1 }
    ensures { OnOk result (text.new.items ≡
        text.old.items ++ text_behind (behind start first.now) first.now others.now) }
{
    let mut level = Level::start().behind(first);
    let mut before = first;
    let mut rest = others;
    'pieces: while let Some((piece, after)) = rest.split_first() {
        put_gap(text, level, before, piece)?;
        put_piece(text, piece)?;
        level = level.behind(piece);
        before = piece;
        rest = after;
    }
    text.push(b'\n')?;
    Ok(())
}

/// Writes what stands between two pieces.
fn put_gap(
    text: &mut Vec<u8>,
    level: Level,
    before: &Piece,
    piece: &Piece,
) -> Result<(), AllocError>
    ensures { OnOk result (text.new.items ≡ text.old.items ++ gap level before.now piece.now) }
{
    if begins_line(before, piece) {
        text.push(b'\n')?;
        put_blanks(text, level.indent(piece))
    } else if are_joined(before, piece) {
        Ok(())
    } else {
        text.extend_from_slice(b" ")
    }
}

fn put_blanks(text: &mut Vec<u8>, count: usize) -> Result<(), AllocError>
    ensures { OnOk result (text.new.items ≡ text.old.items ++ blanks count) }
{
    for _ in 0..count {
        text.push(b' ')?;
    }
    Ok(())
}
