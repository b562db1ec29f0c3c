//! Writes denials.

ghost use Rattle.std.specs.Prelude.{◌≡◌, ◌≢◌, ◌≤◌, ◌++◌, [], map, IfOk, OnOk, None, length};
ghost use Rattle.pv_words.specs.Numbers.{AreNumbers};
ghost use Rattle.pv_denial.specs.Rows.{AreInOrder, EachRow};
ghost use Rattle.pv_denial_text.specs.Lines.{IsRowInRange, line_text, row_line};
ghost use Rattle.pv_denial_text.specs.Meaning.{DenialMeans, MAX_DENIAL_BYTES as MAX_BYTES};
ghost use Rattle.pv_denial_text.specs.Meaning.{is_denial};
ghost use Rattle.pv_denial_text.specs.Steps.{head_lines};
ghost use Rattle.pv_denial_text.specs.Texts.{AreLines, IsDenialText, lines_of_denial, lines_text};

use crate::causes::cause_word;
use crate::laws::numbers_law;
use pv_cert::kind_word;
use pv_chars::NoMemory;
use pv_denial::{Denial, Row};
use pv_tables::site_number;
use pv_words::{push_next_number, push_numbers, push_path};
use std::alloc::{AllocError, Global};

// Appends the line of a row.
fn push_row(text: &mut Vec<u8>, row: &Row) -> Result<(), AllocError>
    ensures written { OnOk result (text.new.items ≡
        text.old.items ++ line_text (row_line row.now)) }
    ensures in_range { row.now.values ≢ [] → IsRowInRange row.now }
{
    let values = row.values.as_slice();
    let number = site_number(row.site);
    numbers_law(values);
    text.extend_from_slice(kind_word(row.site))?;
    push_next_number(text, u64::from(number))?;
    push_numbers(text, values)?;
    text.push(b'\n')?;
    Ok(())
}

// Appends the line of each row.
fn push_rows(text: &mut Vec<u8>, rows: &[Row]) -> Result<(), AllocError>
    ensures written { OnOk result (text.new.items ≡
        text.old.items ++ lines_text (map row_line rows.now)) }
    ensures in_range { OnOk result (EachRow (λ r. r.values ≢ [] → IsRowInRange r) rows.now) }
{
    for row in rows {
        push_row(text, row)?;
    }
    Ok(())
}

// Appends the lines up to the rows.
fn push_head(text: &mut Vec<u8>, denial: &Denial) -> Result<(), AllocError>
    ensures written { OnOk result (text.new.items ≡
        text.old.items ++ lines_text (head_lines denial.now.path denial.now.cause)) }
    ensures in_range { AreNumbers denial.now.path }
{
    let places = denial.path.places();
    numbers_law(places);
    text.extend_from_slice(b"pvdeny 1\nlist ")?;
    push_path(text, places)?;
    text.extend_from_slice(b"\ncause ")?;
    text.extend_from_slice(cause_word(denial.cause))?;
    text.push(b'\n')?;
    Ok(())
}

/// The text of a denial, which is read again as that denial where its rows ascend, each has a
/// value, they have at most 8,388,608 in all, and the text is within its limit: numbers of the
/// program are in range.
pub fn write_denial(alloc: Global, denial: &Denial) -> Result<Vec<u8>, NoMemory>
    ensures spelled { IfOk result (λ text. text.items ≡ lines_text (lines_of_denial denial.now)) }
    ensures again { AreInOrder denial.now.rows → IfOk result (λ text.
        length text.items ≤ MAX_BYTES → DenialMeans text.items (is_denial denial.now)) }
    ensures is_text { AreLines None (lines_of_denial denial.now) →
        IfOk result (λ text. IsDenialText text.items denial.now) }
{
    let mut text = Vec::new(alloc);
    push_head(&mut text, denial)?;
    push_rows(&mut text, denial.rows.as_slice())?;
    text.extend_from_slice(b"end\n")?;
    Ok(text)
}
