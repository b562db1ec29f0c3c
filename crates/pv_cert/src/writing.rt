//! Writes packs.

ghost use Rattle.std.specs.Prelude.{◌≡◌, ◌++◌, map, IfOk, OnOk, None};
ghost use Rattle.pv_rules.specs.PlainForms.{plain_site};
ghost use Rattle.pv_tables.specs.declared.tables.Table.{Table};
ghost use Rattle.pv_cert.specs.Lines.{kind_word, line_text, mark_line, entry_line};
ghost use Rattle.pv_cert.specs.Packs.{AreLines, IsPackText, lines_of_pack, lines_of_table};
ghost use Rattle.pv_cert.specs.Packs.{lines_text, table_lines};

use crate::packs::Pack;
use pv_chars::NoMemory;
use pv_rules::Site;
use pv_tables::{Entry, Table, site_number};
use pv_words::{push_counted, push_next_number, push_number_line, push_path};
use std::alloc::{AllocError, Global};

// Appends the line of each mark.
fn push_marks(text: &mut Vec<u8>, marks: &[u32]) -> Result<(), AllocError>
    ensures { OnOk result (text.new.items ≡
        text.old.items ++ lines_text (map mark_line marks.now)) }
{
    for mark in marks {
        push_number_line(text, b"mark", u64::from(*mark))?;
    }
    Ok(())
}

/// The letter of a site's kind.
pub fn kind_word(site: Site) -> &'static [u8]
    ensures { result.now ≡ kind_word (plain_site site) }
{
    match site {
        Site::Content(_) => b"c",
        Site::Name(_) => b"n",
        Site::Part(_) => b"p",
        Site::Rest(_) => b"s",
    }
}

// Appends the line of an entry.
fn push_entry(text: &mut Vec<u8>, entry: &Entry) -> Result<(), AllocError>
    ensures { OnOk result (text.new.items ≡ text.old.items ++ line_text (entry_line entry.now)) }
{
    text.extend_from_slice(kind_word(entry.site))?;
    push_next_number(text, u64::from(site_number(entry.site)))?;
    push_next_number(text, u64::from(entry.from))?;
    push_next_number(text, u64::from(entry.to))?;
    push_next_number(text, u64::from(entry.value))?;
    text.push(b'\n')?;
    Ok(())
}

// Appends the line of each entry.
fn push_entries(text: &mut Vec<u8>, entries: &[Entry]) -> Result<(), AllocError>
    ensures { OnOk result (text.new.items ≡
        text.old.items ++ lines_text (map entry_line entries.now)) }
{
    for entry in entries {
        push_entry(text, entry)?;
    }
    Ok(())
}

// Appends the lines of a table.
fn push_table(text: &mut Vec<u8>, table: &Table) -> Result<(), AllocError>
    ensures { OnOk result (text.new.items ≡
        text.old.items ++ lines_text (lines_of_table table.now)) }
{
    text.extend_from_slice(b"list ")?;
    push_path(text, table.path.places())?;
    text.push(b'\n')?;
    push_entries(text, table.entries.as_slice())
}

// Appends the lines of each table.
fn push_tables(text: &mut Vec<u8>, tables: &[Table]) -> Result<(), AllocError>
    ensures { OnOk result (text.new.items ≡
        text.old.items ++ lines_text (table_lines tables.now)) }
{
    for table in tables {
        push_table(text, table)?;
    }
    Ok(())
}

/// The text of a pack, which is read again as that pack where its numbers are in range, the
/// entries of each table ascend strictly, and it is within the limits of a text.
pub fn write_pack(alloc: Global, pack: &Pack) -> Result<Vec<u8>, NoMemory>
    ensures spelled { IfOk result (λ text. text.items ≡ lines_text (lines_of_pack pack.now)) }
    ensures is_text { AreLines None (lines_of_pack pack.now) →
        IfOk result (λ text. IsPackText text.items pack.now) }
{
    let mut text = Vec::new(alloc);
    text.extend_from_slice(b"pvpack 1\n")?;
    push_number_line(&mut text, b"total", pack.total)?;
    push_marks(&mut text, pack.marks.as_slice())?;
    push_counted(&mut text, b"body", pack.body.as_slice())?;
    push_tables(&mut text, pack.tables.as_slice())?;
    text.extend_from_slice(b"end\n")?;
    Ok(text)
}
