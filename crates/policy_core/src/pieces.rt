//! The first place of a piece in a text, by the borders of the piece: no character of the text is looked at
//! from an earlier place again.

ghost use Rattle.std.specs.Prelude.{◌≡◌, ◌+◌, ◌<◌, ◌≤◌, IfOk, length};
ghost use Rattle.policy_core.specs.Pieces.{AreBorders, IsNext, IsEnd};

use std::alloc::{AllocError, Global};

/// The place behind the first one where the piece stands in the text, or none. The time grows with the sum of
/// their lengths. Errs where memory runs out.
pub(crate) fn find(
    alloc: Global,
    piece: &[char],
    text: &[char],
) -> Result<Option<usize>, AllocError>
    ensures { IfOk result (IsEnd piece.now text.now) }
{
    let borders = borders_of(alloc, piece)?;
    let mut found = 0;
    for i in 0..text.len() {
        if found == piece.len() {
            return Ok(Some(i));
        }
        found = next(piece, borders.as_slice(), found, text[i]);
    }
    if found == piece.len() {
        Ok(Some(text.len()))
    } else {
        Ok(None)
    }
}

// For each k below the piece's length, the longest part that begins the first k characters, ends them, and is
// not all of them.
fn borders_of(alloc: Global, piece: &[char]) -> Result<Vec<usize>, AllocError>
    ensures length { IfOk result (λ b. length b.items ≡ length piece.now) }
    ensures borders { IfOk result (λ b. AreBorders piece.now b.items) }
{
    let mut borders = Vec::new(alloc);
    let mut found = 0;
    for i in 0..piece.len() {
        borders.push(found)?;
        if i > 0 {
            found = next(piece, borders.as_slice(), found, piece[i]);
        }
    }
    Ok(borders)
}

// How many of the piece's first characters end a text whose last one is `c`, where `found` of them stand
// before it.
fn next(piece: &[char], borders: &[usize], found: usize, c: char) -> usize
    requires found { found < length borders.now }
    requires length { length borders.now ≤ length piece.now }
    requires borders { AreBorders piece.now borders.now }
    ensures at_most { result ≤ found + 1 }
    ensures next { IsNext piece.now found c result }
{
    let mut found = found;
    'shorter: loop {
        if piece[found] == c {
            return found + 1;
        }
        if found == 0 {
            return 0;
        }
        found = borders[found];
    }
}
