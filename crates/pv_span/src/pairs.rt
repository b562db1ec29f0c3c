//! The lines of columns: one for each column whose rules cut a span, under its number.

use crate::lines::Line;
use pv_chars::NoMemory;
use pv_layout::Form;
use pv_productive::NO_SIZE;
use std::alloc::Global;

fn line(alloc: Global, one: u32, two: u32, places: usize) -> Result<Line, NoMemory> {
    let least = vec![in alloc; NO_SIZE; places]?;
    Ok(Line { one, two, least })
}

fn no_line(alloc: Global) -> Line {
    Line {
        one: 0,
        two: 0,
        least: Vec::new(alloc),
    }
}

/// The line of a column, with no places where its rules cut nothing.
fn line_of(alloc: Global, form: &Form, number: u32, places: usize) -> Result<Line, NoMemory> {
    match form {
        Form::Star(one, _) => line(alloc, *one, number, places),
        Form::Plus(one) => line(alloc, *one, number, places),
        Form::Then(one, two) => line(alloc, *one, *two, places),
        Form::Never => Ok(no_line(alloc)),
        Form::Element(_, _) => Ok(no_line(alloc)),
        Form::Nothing => Ok(no_line(alloc)),
        Form::OneOf(_) => Ok(no_line(alloc)),
        Form::Opt(_) => Ok(no_line(alloc)),
    }
}

/// The lines of columns for a word of so many tokens. A short word needs none.
pub fn lines_of(alloc: Global, forms: &[Form], tokens: u32) -> Result<Vec<Line>, NoMemory> {
    let mut lines = Vec::new(alloc);
    if tokens < 16 {
        return Ok(lines);
    }
    let mut number = 0;
    for form in forms.iter() {
        lines.push(line_of(alloc, form, number, tokens as usize + 1)?)?;
        number = u32::saturating_add(number, 1);
    }
    Ok(lines)
}
