// What the program `fit` prints for the bytes of a sheet, whatever they are.
#![tactic(auto)]

pub mod cores;

ghost use Rattle.render.specs.Rendered.{told_line, Renders, text_verdict};
ghost use Rattle.fit_answer.specs.Fit.{printed};

use crate::cores::solve_core;
use factor_setup::System;
use render::{ShortText, Text, refused_by};
use sheet::{Tables, read};

// The answer's bytes go to the first places of `out`: the lines of an accepted night, or the line of a refusal. Only a shorter `out` is
// refused, by 11 with the text's length as its need; it is then as it was, and so are always the places beyond the text.
pub fn answer(bytes: &[u8], out: &mut [u8]) -> Result<Text, ShortText>
    ensures { Renders (text_verdict (printed bytes.now) out.old) (printed bytes.now) out.old (told_line result) out.new }
{
    let mut dims = [0u32; 128];
    let mut late = [0u32; 128];
    let mut perm = [0u32; 128];
    let mut starts = [0u32; 129];
    let mut rows = [0u32; 1024];
    let mut values = [0.0; 4096];
    let mut right = [0.0; 512];
    let mut o = Tables {
        dims: &mut dims,
        late: &mut late,
        perm: &mut perm,
        starts: &mut starts,
        rows: &mut rows,
        values: &mut values,
        right: &mut right,
    };
    let r = read(bytes, &mut o);
    match r {
        Ok(night) => {
            let n = night.blocks;
            let n1 = n + 1;
            let m = night.stored;
            let count = night.values;
            let scalars = night.scalars;
            let tol = night.tol;
            let system = System {
                dims: &dims[..n],
                starts: &starts[..n1],
                rows: &rows[..m],
                values: &values[..count],
                perm: &perm[..n],
                late: &late[..n],
                tol,
            };
            solve_core(&system, &mut right[..scalars], out)
        }
        Err(refusal) => refused_by(&refusal, out),
    }
}
