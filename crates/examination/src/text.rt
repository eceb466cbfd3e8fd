//! The key as text. These are functions and not impls of `Display`, whose contract could not say
//! which bytes each text is.

ghost use Rattle.std.specs.Prelude.{◌≡◌, IfOk, string_bytes};
ghost use Rattle.examination.specs.Texts.{line_text, key_text, refusal_text};
ghost use Rattle.examination.specs.declared.answer.LineAnswer.TheVariants.{Reopened};

use crate::answer::{LineAnswer, Reopening};
use engine::presented_number;
use refusals::{Refusal, answer_number};
use std::alloc::{AllocError, Global};

/// The text of a line: its number and its answer. A question that is answered 0 adds free and
/// blocked; a cut adds the count found and what the slip was answered.
pub fn line_text(heap: Global, number: usize, answer: &LineAnswer) -> Result<String, AllocError>
    ensures { IfOk result (λ t. string_bytes t ≡ line_text number answer.now) }
{
    match answer {
        LineAnswer::Accepted => format!(in heap; "{number} 0\n"),
        LineAnswer::Amounts(holding) => {
            let free = holding.free;
            let blocked = holding.blocked;
            format!(in heap; "{number} 0 {free} {blocked}\n")
        }
        LineAnswer::Reopened(reopening) => reopened_text(heap, number, reopening),
        LineAnswer::Refused(refusal) => {
            let refusal = refusal.number();
            format!(in heap; "{number} {refusal}\n")
        }
        LineAnswer::Unasked => format!(in heap; "{number} -\n"),
    }
}

fn reopened_text(heap: Global, number: usize, reopening: &Reopening) -> Result<String, AllocError>
    ensures { IfOk result (λ t. string_bytes t ≡ line_text number (Reopened reopening.now)) }
{
    let answer = answer_number(reopening.answer);
    let found = reopening.found;
    match reopening.slip_answer {
        Some(slip_answer) => {
            let slip_answer = presented_number(slip_answer);
            format!(in heap; "{number} {answer} {found} {slip_answer}\n")
        }
        None => format!(in heap; "{number} {answer} {found} -\n"),
    }
}

/// The text of a key: its lines, numbered from 1.
pub fn key_text(heap: Global, answers: &[LineAnswer]) -> Result<String, AllocError>
    ensures { IfOk result (λ t. string_bytes t ≡ key_text 1 answers.now) }
{
    let mut text = String::new(heap);
    for (before, answer) in answers.iter().enumerate() {
        let line = line_text(heap, before + 1, answer)?;
        text.push_str(line.as_str())?;
    }
    Ok(text)
}

/// What is printed where the whole script is refused: a line 0 with the refusal's number.
pub fn refusal_text(heap: Global, refusal: Refusal) -> Result<String, AllocError>
    ensures { IfOk result (λ t. string_bytes t ≡ refusal_text refusal) }
{
    let number = refusal.number();
    format!(in heap; "0 {number}\n")
}
