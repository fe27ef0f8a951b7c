//! Copies of derivations.

ghost use Rattle.std.specs.Prelude.{◌≡◌, IfOk};

use certificate::{Close, Derivation, Line};
use fl_base::{Held, Items, Memory};
use std::alloc::Global;

fn copied_line(alloc: Global, line: &Line) -> Result<Line, Memory>
    ensures { IfOk result (λ l. l ≡ line.now) }
{
    match line {
        Line::Hyp(difference) => Ok(Line::Hyp(*difference)),
        Line::Comb(multiples) => Ok(Line::Comb(Items::from_slice(alloc, multiples.as_slice())?)),
        Line::Cong {
            first,
            second,
            lines,
        } => Ok(Line::Cong {
            first: *first,
            second: *second,
            lines: Items::from_slice(alloc, lines.as_slice())?,
        }),
    }
}

fn copied_lines(alloc: Global, lines: &[Line]) -> Result<Items<Line>, Memory>
    ensures { IfOk result (λ all. all ≡ lines.now) }
{
    let mut all = Items::new(alloc);
    for i in 0..lines.len() {
        all.push(copied_line(alloc, &lines[i])?)?;
    }
    Ok(all)
}

fn copied_close(alloc: Global, close: &Close) -> Result<Close, Memory>
    ensures { IfOk result (λ c. c ≡ close.now) }
{
    match close {
        Close::Distinct { line, second } => Ok(Close::Distinct {
            line: *line,
            second: *second,
        }),
        Close::Residue(line) => Ok(Close::Residue(*line)),
        Close::Range(line) => Ok(Close::Range(*line)),
        Close::Fact { number, lines } => Ok(Close::Fact {
            number: *number,
            lines: Items::from_slice(alloc, lines.as_slice())?,
        }),
    }
}

pub fn copied(alloc: Global, derivation: &Derivation) -> Result<Derivation, Memory>
    ensures { IfOk result (λ d. d ≡ derivation.now) }
{
    let lines = Held::of(copied_lines(alloc, derivation.lines.as_slice())?);
    let close = copied_close(alloc, &derivation.close)?;
    Ok(Derivation {
        lines: lines.into_inner(),
        close,
    })
}
