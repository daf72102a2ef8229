// The bytes that the program `fit` prints, rendered into a lent buffer.
#![tactic(auto)]

pub mod cores;

ghost use Rattle.std.specs.Prelude.{length};
ghost use Rattle.refusal.specs.Refusal.{number};
ghost use Rattle.render.specs.Lines.{refused_line, answer_text};
ghost use Rattle.render.specs.Rendered.{told, told_error, told_line, told_short, Renders, text_verdict, answer_verdict};

use crate::cores::{first_length, first_line, lines_length, put_lines, refused_line};
use digits::cores::{Writer, places};
use refusal::Refusal;

// How many bytes were written.
#[derive(Clone, Copy)]
pub struct Text {
    pub bytes: usize,
}

// 11: the buffer's need.
#[derive(Clone, Copy, Debug, PartialEq, Eq)]
pub struct ShortText {
    pub need: usize,
}

impl Refusal for ShortText {
    ghost told = { told_short };

    fn number(&self) -> u32 {
        11
    }
}

// The refusals of an answer.
#[derive(Clone, Copy, Debug, PartialEq, Eq)]
pub enum AnswerError {
    // 11: the buffer's need.
    Short { need: usize },
    // 12: 0 the solutions, 1 the marks.
    Mismatch { place: usize },
}

impl Refusal for AnswerError {
    ghost told = { told_error };

    fn number(&self) -> u32 {
        match self {
            AnswerError::Short { need: _ } => 11,
            AnswerError::Mismatch { place: _ } => 12,
        }
    }
}

// A refusal's line by its number, from the first place on.
// Kept: the number, which may be any of 64 bits, as a caller has it that was told no more; `refused_by` takes the refusal.
pub fn refused(number: u64, out: &mut [u8]) -> Result<Text, ShortText>
    ensures { Renders (text_verdict (refused_line number) out.old) (refused_line number) out.old (told_line result) out.new }
{
    let need = places(number) + 9;
    if out.len() < need {
        return Err(ShortText { need });
    }
    let mut w = Writer { out, at: 0 };
    refused_line(&mut w, number);
    Ok(Text { bytes: w.at })
}

// The same line by the refusal itself.
pub fn refused_by<R: Refusal>(refusal: &R, out: &mut [u8]) -> Result<Text, ShortText>
    ensures { Renders (text_verdict (refused_line (number (R.told refusal.now))) out.old) (refused_line (number (R.told refusal.now))) out.old (told_line result) out.new }
{
    refused(u64::from(refusal.number()), out)
}

// An accepted answer, from the first place on: the first line, then a line for each scalar of the solution x, with its mark: 0 is
// silent, any other heard. The need of `out` is the text's length, which is known only once x and the marks agree.
pub fn answer(
    blocks: u64,
    stored: u64,
    products: u64,
    silent: u64,
    x: &[f64],
    marks: &[u8],
    out: &mut [u8],
) -> Result<Text, AnswerError>
    ensures { Renders (answer_verdict x.now marks.now (answer_text blocks stored products silent x.now marks.now) out.old) (answer_text blocks stored products silent x.now marks.now) out.old (told result) out.new }
{
    if x.len() > 65536 {
        return Err(AnswerError::Mismatch { place: 0 });
    }
    if marks.len() != x.len() {
        return Err(AnswerError::Mismatch { place: 1 });
    }
    let scalars = x.len() as u64;
    let need = first_length(blocks, scalars, stored, products, silent) + lines_length(x, marks);
    if out.len() < need {
        return Err(AnswerError::Short { need });
    }
    let mut w = Writer { out, at: 0 };
    first_line(&mut w, blocks, scalars, stored, products, silent);
    put_lines(&mut w, x, marks);
    Ok(Text { bytes: w.at })
}
