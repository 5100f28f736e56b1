//! Lines answered one after another.
ghost use Rattle.std.specs.Prelude.{List, ℕ, Option, Some, None, IfOk, string_bytes};
ghost use Rattle.byte_streams.specs.Steps.{RoseBy};
ghost use Rattle.byte_streams.specs.Answering.{AreAnswered, IsStep, IsWritten};

use crate::{Line, Lines, Sink, Source, write_text};
use std::alloc::{AllocError, Global};

/// How answering lines ends.
#[derive(Clone, Copy, Debug, PartialEq, Eq)]
pub enum Ended {
    /// Each line up to the end of the source is answered.
    Done,
    /// The source failed before its end.
    ReadFault,
    /// The sink failed before it had taken the whole answer to a line.
    WriteFault,
    /// Memory ran out.
    OutOfMemory,
}

/// What answers lines.
pub trait AnswersLines {
    // Whether it may be asked.
    ghost is_ready: { Self → Type 0 };

    // The text is an answer to the line, or to one that is too long, with which so many faults are counted.
    ghost is_answer: { Self → ℕ → Option (List ℕ) → List ℕ → Type 0 };

    // How many faults are counted so far.
    ghost faults: { Self → ℕ };

    // The second comes of the first by answering lines.
    ghost comes_of: { Self → Self → Type 0 };

    /// The answer to the line, its last newline included. Earlier answers stay answers.
    fn answer(&mut self, alloc: Global, line: &[u8]) -> Result<String, AllocError>
        requires { is_ready self.old }
        ensures ready { is_ready self.new }
        ensures answer { IfOk result (λ text. (n : ℕ)
            × is_answer self.new n (Some line.now) (string_bytes text)
            × RoseBy n (faults self.old) (faults self.new)) }
        ensures counted { RoseBy 0 (faults self.old) (faults self.new) }
        ensures goes_on { (n : ℕ) (asked : Option (List ℕ)) (text : List ℕ) →
            is_answer self.old n asked text → is_answer self.new n asked text }
        ensures comes { (first : Self) → comes_of first self.old → comes_of first self.new };

    /// The answer to a line that has more bytes than a document may have, its last newline included.
    fn pass_over(&self, alloc: Global) -> Result<String, AllocError>
        ensures { IfOk result (λ text. is_answer self.now 0 None (string_bytes text)) };
}

// Writes the text, or says how that ends.
fn write_answer<K: Sink>(sink: &mut K, text: Result<String, AllocError>) -> Result<(), Ended>
    ensures { IsWritten (K.state sink.old).holds (K.state sink.new).holds text result }
{
    let Ok(text) = text else {
        return Err(Ended::OutOfMemory);
    };
    match write_text(sink, text.as_str().as_bytes()) {
        Ok(()) => Ok(()),
        Err(_) => Err(Ended::WriteFault),
    }
}

// Answers the next line, or says how that ends.
fn answer_next<A: AnswersLines, I: Source + Drop, K: Sink>(
    alloc: Global,
    answers: &mut A,
    lines: &mut Lines<I>,
    sink: &mut K,
) -> Result<(), Ended>
    requires { A.is_ready answers.old }
    ensures ready { A.is_ready answers.new }
    ensures step { IsStep (A.is_answer answers.new) (A.faults answers.old) (A.faults answers.new)
        lines.old lines.new (K.state sink.old).holds (K.state sink.new).holds result }
    ensures goes_on { (n : ℕ) (asked : Option (List ℕ)) (text : List ℕ) →
        A.is_answer answers.old n asked text → A.is_answer answers.new n asked text }
    ensures comes { (first : A) → A.comes_of first answers.old → A.comes_of first answers.new }
{
    match lines.next_line(alloc) {
        Line::Text(line) => write_answer(sink, answers.answer(alloc, line.as_slice())),
        Line::TooLong => write_answer(sink, answers.pass_over(alloc)),
        Line::End => Err(Ended::Done),
        Line::Failed => Err(Ended::ReadFault),
        Line::OutOfMemory => Err(Ended::OutOfMemory),
    }
}

/// Answers each line that is left of the source, and writes each answer at once.
///
/// However it ends, what is written are answers to the first lines, in their order; behind them, where a
/// write failed, a prefix of the next answer. At the end of the source no line is left out. The count of
/// faults rose by those of all these answers at least. A read failed, or memory ran out, in the midst of a
/// line where these are known.
pub fn answer_lines<A: AnswersLines, I: Source + Drop, K: Sink>(
    alloc: Global,
    answers: &mut A,
    lines: &mut Lines<I>,
    sink: &mut K,
) -> Ended
    requires { A.is_ready answers.old }
    ensures ready { A.is_ready answers.new }
    ensures answered { AreAnswered (A.is_answer answers.new) (A.faults answers.old) (A.faults answers.new)
        lines.old (K.state sink.old).holds (K.state sink.new).holds result }
    ensures goes_on { (n : ℕ) (asked : Option (List ℕ)) (text : List ℕ) →
        A.is_answer answers.old n asked text → A.is_answer answers.new n asked text }
    ensures comes { (first : A) → A.comes_of first answers.old → A.comes_of first answers.new }
{
    for _ in 0..u64::MAX {
        if let Err(ended) = answer_next(alloc, answers, lines, sink) {
            return ended;
        }
    }
    Ended::ReadFault
}
