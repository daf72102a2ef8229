// What `fit` prints for a night whose sheet has passed.
// Kept: that a night has passed its checks, and that the rooms hold it, is one named record, `Within` of `fit_factor`, of the struct that is handed on.
ghost use Rattle.std.specs.Prelude.{◌≡◌, false, length, ◌==◌};
ghost use Rattle.refusal.specs.Refusal.{number};
ghost use Rattle.scalars.specs.Scalars.{scalar_count};
ghost use Rattle.factor_setup.specs.Exact.{handed};
ghost use Rattle.fit_factor.specs.Fitted.{Within};
ghost use Rattle.render.specs.Rendered.{told, told_line, Renders, text_verdict};
ghost use Rattle.fit_answer.specs.Fit.{night_text};

use factor_setup::System;
use fit_night::cores::night_core;
use render::{AnswerError, ShortText, Text, refused_by};

// The night's lines, or those of a refusal after its plan, into the first places of `out`. x is the right side in old order.
pub fn solve_core(s: &System, x: &mut [f64], out: &mut [u8]) -> Result<Text, ShortText>
    requires within { Within (handed s.now) }
    requires x_len { length x.old ≡ scalar_count s.now.dims.now }
    ensures { Renders (text_verdict (night_text (handed s.now) x.old) out.old) (night_text (handed s.now) x.old) out.old (told_line result) out.new }
{
    let mut marks = [0u8; 512];
    let n = s.dims.len();
    let scalars = x.len();
    match night_core(s, x, &mut marks[..scalars]) {
        Ok(t) => line_core(render::answer(
            n as u64,
            t.stored as u64,
            t.products,
            t.silent as u64,
            x,
            &marks[..scalars],
            out,
        )),
        Err(refusal) => refused_by(&refusal, out),
    }
}

// The outcome of an answer whose solution and marks agree.
pub fn line_core(r: Result<Text, AnswerError>) -> Result<Text, ShortText>
    requires { (number (told r) == 12) ≡ false }
    ensures { told_line result ≡ told r }
{
    match r {
        Ok(text) => Ok(text),
        Err(AnswerError::Short { need }) => Err(ShortText { need }),
        Err(AnswerError::Mismatch { place: _ }) => Err(ShortText { need: 0 }),
    }
}
