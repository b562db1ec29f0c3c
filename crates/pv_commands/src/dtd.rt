//! The command `dtd`.

ghost use Rattle.std.specs.Prelude.{◌≡◌, ◌++◌, ◌<◌, OnOk, IfOk, Some, codes, slice_get};
ghost use Rattle.std.specs.Prelude.{List, ℕ, ◌∷◌, [], Contains};
ghost use Rattle.pv_commands.specs.Dtd.{AreNameLines, IsDtdCourse, IsNameLine, IsTreeText};
ghost use Rattle.pv_commands.specs.Dtd.{TellsDtd, model_text, totals};
ghost use Rattle.pv_commands.specs.Returns.{CountsNone, FindsOver};
ghost use Rattle.pv_opening.specs.Returns.{TellsBy};
ghost use Rattle.pv_dtd.specs.Plain.{declared, model_of};
ghost use Rattle.pv_dtd.specs.PlainForms.{plain_dtd};
ghost use Rattle.pv_model.specs.PlainForms.{plain_model};
ghost use Rattle.pv_productive.specs.PlainForms.{dtd_of};
ghost use Rattle.pv_model.specs.Plain.{PlainModel};

use pv_dtd::Dtd;
use pv_io::Shelf;
use pv_model::{ContentModel, NameId};
use pv_opening::{Response, Status, Stop, open_dtd};
use pv_productive::{Grammar, build};
use pv_rules::HEAVIEST;
use pv_words::push_number;
use std::alloc::{AllocError, Global};

// The word for what a content model is.
fn model_text(model: &ContentModel) -> &'static [u8]
    ensures { result.now ≡ model_text (plain_model model.now) }
{
    match model {
        ContentModel::Empty => b"empty",
        ContentModel::Any => b"any",
        ContentModel::Mixed(_) => b"mixed",
        ContentModel::Children(_) => b"children",
    }
}

// Appends the least tree of a name.
fn push_tree(grammar: &Grammar, name: u32, text: &mut Vec<u8>) -> Result<(), AllocError>
    requires { name < declared (dtd_of grammar.now) }
    ensures { OnOk result ((tree : List ℕ) × IsTreeText (dtd_of grammar.now) name tree ×
        (text.new.items ≡ text.old.items ++ tree)) }
{
    match grammar.least_tree(NameId(name)) {
        None => text.extend_from_slice(b"unproductive"),
        Some(size) => {
            let over = u64::from(HEAVIEST);
            if size < over {
                push_number(text, size)
            } else {
                text.extend_from_slice(b"over")
            }
        }
    }
}

// Appends the line of a declared name.
fn push_name_line(grammar: &Grammar, name: u32, text: &mut Vec<u8>) -> Result<(), AllocError>
    requires { name < declared (dtd_of grammar.now) }
    ensures { OnOk result ((m : PlainModel) × (line : List ℕ) ×
        (model_of (dtd_of grammar.now) name ≡ Some m)
        × IsNameLine (dtd_of grammar.now) name m line × (text.new.items ≡ text.old.items ++ line)) }
{
    let Some(model) = grammar.dtd().model_of(NameId(name)) else {
        unreachable!();
    };
    text.extend_from_slice(grammar.dtd().name_of(NameId(name)))?;
    text.extend_from_slice(b" ")?;
    text.extend_from_slice(model_text(model))?;
    text.extend_from_slice(b" ")?;
    push_tree(grammar, name, text)?;
    text.extend_from_slice(b"\n")?;
    Ok(())
}

// The lines of all declared names.
fn name_lines(alloc: Global, grammar: &Grammar) -> Result<Vec<u8>, AllocError>
    ensures { IfOk result (λ text. AreNameLines (dtd_of grammar.now) 0 (dtd_of grammar.now).models
        text.items) }
{
    let mut text = Vec::new(alloc);
    for name in 0..grammar.dtd().count() {
        push_name_line(grammar, name, &mut text)?;
    }
    Ok(text)
}

// Appends the line of totals.
fn push_totals(grammar: &Grammar, text: &mut Vec<u8>) -> Result<(), AllocError>
    ensures { OnOk result (text.new.items ≡ text.old.items ++ totals (dtd_of grammar.now)) }
{
    let dtd = grammar.dtd();
    text.extend_from_slice(b"types ")?;
    push_number(text, u64::from(dtd.count()))?;
    text.extend_from_slice(b" parts ")?;
    push_number(text, u64::from(dtd.parts()))?;
    text.extend_from_slice(b" undeclared ")?;
    push_number(text, u64::from(dtd.names() - dtd.count()))?;
    text.extend_from_slice(b"\n")?;
    Ok(())
}

fn tell(alloc: Global, grammar: &Grammar) -> Result<Response, Stop>
    ensures { TellsBy (TellsDtd (dtd_of grammar.now)) result }
{
    let mut text = name_lines(alloc, grammar)?;
    push_totals(grammar, &mut text)?;
    Ok(Response {
        status: Status::Done,
        output: text,
    })
}

// The names that the DTD declares, with what is told of them.
fn listing(alloc: Global, opened: Dtd) -> Result<Response, Stop>
    ensures { TellsBy (TellsDtd (plain_dtd opened)) result }
{
    let grammar = build(alloc, opened)?;
    tell(alloc, &grammar)
}

/// The names that a DTD declares, each with its least tree, and the numbers of its types and parts.
pub fn dtd<H: Shelf>(alloc: Global, shelf: &mut H, name: &str) -> Result<Response, Stop>
    requires { Contains (H.names shelf.old) name.now }
    ensures finds { (checked : ℕ) → FindsOver (name.now ∷ []) IsDtdCourse CountsNone
        (H.moment shelf.old) (H.moment shelf.new)
        checked checked result }
    ensures names { H.names shelf.new ≡ H.names shelf.old }
    ensures files { (H.moment shelf.new).files ≡ (H.moment shelf.old).files }
{
    let opened = open_dtd(alloc, shelf, name)?;
    listing(alloc, opened)
}
