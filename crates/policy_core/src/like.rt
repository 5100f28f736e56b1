//! How a text matches a pattern.

ghost use Rattle.std.specs.Prelude.{◌≡◌, IfOk, map};
ghost use Rattle.policy_expressions.specs.declared.kinds.PatternElem.TheVariants.{Char as char_of};
ghost use Rattle.std.specs.Str.{chars};
ghost use Rattle.policy_core.specs.Like.{some_tail, matches, behind_chars, seen};
ghost use Rattle.policy_core.specs.Pieces.{pattern_of};

use crate::pieces::find;
use crate::{Pattern, PatternElem, Text};
use std::alloc::{AllocError, Global};

/// Whether the text matches the pattern. The time grows with the sum of their lengths. Errs where memory
/// runs out.
pub(crate) fn is_like(alloc: Global, text: &Text, pattern: &Pattern) -> Result<bool, AllocError>
    ensures { IfOk result (λ b. b ≡ matches pattern.now (chars text.now)) }
{
    let text = chars_of(alloc, text)?;
    matches(alloc, pattern.elements(), text.as_slice())
}

fn chars_of(alloc: Global, text: &Text) -> Result<Vec<char>, AllocError>
    ensures { IfOk result (λ v. v.items ≡ chars text.now) }
{
    let mut chars = Vec::new(alloc);
    let text = text.as_str();
    for c in text.chars() {
        chars.push(c)?;
    }
    Ok(chars)
}

// What is left of a pattern and a text behind the characters that they have in common.
#[derive(Clone, Copy)]
enum Left<'a> {
    // The rest of both, behind a wildcard of the pattern.
    Wildcard(&'a [PatternElem], &'a [char]),
    // Nothing to do: both are over.
    Whole,
    // No way on: they differ, or one of them is over.
    Nothing,
}

fn behind_chars<'a>(pattern: &'a [PatternElem], text: &'a [char]) -> Left<'a>
    ensures { seen result ≡ behind_chars pattern.now text.now }
{
    let mut pattern = pattern;
    let mut text = text;
    'chars: loop {
        match pattern {
            [] => {
                return match text {
                    [] => Left::Whole,
                    _ => Left::Nothing,
                };
            }
            [PatternElem::Wildcard, pattern_left @ ..] => {
                return Left::Wildcard(pattern_left, text);
            }
            [PatternElem::Char(needed), pattern_left @ ..] => match text {
                [] => return Left::Nothing,
                [c, text_left @ ..] => {
                    if *c != *needed {
                        return Left::Nothing;
                    }
                    pattern = pattern_left;
                    text = text_left;
                }
            },
        }
    }
}

fn matches(alloc: Global, pattern: &[PatternElem], text: &[char]) -> Result<bool, AllocError>
    ensures { IfOk result (λ b. b ≡ matches pattern.now text.now) }
{
    match behind_chars(pattern, text) {
        Left::Wildcard(pattern, text) => some_tail_matches(alloc, pattern, text),
        Left::Whole => Ok(true),
        Left::Nothing => Ok(false),
    }
}

// Whether some tail of the text matches the pattern. Each piece between wildcards is taken at its first
// place: a later one would leave what follows it fewer tails.
fn some_tail_matches(
    alloc: Global,
    pattern: &[PatternElem],
    text: &[char],
) -> Result<bool, AllocError>
    ensures { IfOk result (λ b. b ≡ some_tail (matches pattern.now) text.now) }
{
    let mut pattern = pattern;
    let mut text = text;
    'pieces: loop {
        let piece = first_piece(alloc, pattern)?;
        match piece.left {
            None => return Ok(ends_with(text, piece.chars.as_slice())),
            Some(left) => match find(alloc, piece.chars.as_slice(), text)? {
                Some(end) => {
                    text = text.split_at(end).1;
                    pattern = left;
                }
                None => return Ok(false),
            },
        }
    }
}

// The characters that a pattern begins with, and what follows the wildcard behind them, if there is one.
#[derive(Drop)]
struct Piece<'a> {
    chars: Vec<char>,
    left: Option<&'a [PatternElem]>,
}

fn first_piece(alloc: Global, pattern: &[PatternElem]) -> Result<Piece<'_>, AllocError>
    ensures { IfOk result (λ p. pattern.now ≡ pattern_of p) }
{
    let mut chars = Vec::new(alloc);
    let mut pattern = pattern;
    'elements: loop {
        match pattern {
            [] => return Ok(Piece { chars, left: None }),
            [PatternElem::Wildcard, left @ ..] => {
                return Ok(Piece {
                    chars,
                    left: Some(left),
                });
            }
            [PatternElem::Char(c), left @ ..] => {
                chars.push(*c)?;
                pattern = left;
            }
        }
    }
}

fn ends_with(text: &[char], piece: &[char]) -> bool
    ensures { result ≡ some_tail (matches (map char_of piece.now)) text.now }
{
    text.ends_with(piece)
}
