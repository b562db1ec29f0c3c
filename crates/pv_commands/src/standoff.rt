//! The command `standoff`.

ghost use Rattle.std.specs.Prelude.{◌≡◌, ◌≤◌, ◌∷◌, [], ℕ, List, IfOk, Contains, false};
ghost use Rattle.std.specs.Prelude.{length};
ghost use Rattle.pv_chars.specs.Names.{IsName};
ghost use Rattle.pv_chars.specs.Texts.{holds_close_mark};
ghost use Rattle.pv_opening.specs.Opening.{IsFile};
ghost use Rattle.pv_opening.specs.JudgedCounts.{CountsJudged, CountsNoMore};
ghost use Rattle.pv_opening.specs.Possibility.{width_stage};
ghost use Rattle.pv_opening.specs.Response.{plain_response};
ghost use Rattle.pv_opening.specs.Returns.{TakesCourse, RefusesWith, Returns, ending_of};
ghost use Rattle.pv_commands.specs.Returns.{FindsOver};
ghost use Rattle.pv_opening.specs.Returns.{ReturnsOver};
ghost use Rattle.pv_opening.specs.Stage.{Behind, beside};
ghost use Rattle.pv_commands.specs.Annotations.{AreTwo, plain_two, two_stage};
ghost use Rattle.pv_commands.specs.Standoff.{CountsNested, IsNestRefusal, IsRangesRefusal};
ghost use Rattle.pv_commands.specs.Standoff.{IsShownCourse, IsStandoffCourse, IsTextRefusal};
ghost use Rattle.pv_commands.specs.Standoff.{judging_nested_stage, nested_lists, nesting_stage};
ghost use Rattle.pv_commands.specs.Standoff.{ranges_file_stage, ranges_stage, text_file_stage};
ghost use Rattle.pv_commands.specs.Standoff.{text_stage, with_shown};
ghost use Rattle.pv_dtd.specs.Plain.{PlainDtd};
ghost use Rattle.pv_dtd.specs.PlainForms.{plain_dtd};
ghost use Rattle.pv_productive.specs.PlainForms.{dtd_of};
ghost use Rattle.pv_standoff.specs.Ranges.{AreNamed, MAX_RANGES};
ghost use Rattle.pv_standoff.specs.declared.ranges.Range.{Range as PlainRange};
ghost use Rattle.pv_tree.specs.Lists.{lists_of};
ghost use Rattle.pv_tree.specs.PlainDocs.{plain_doc};

use crate::check::check_line;
use pv_chars::{NoMemory, TextError, Units, text_units};
use pv_dtd::Dtd;
use pv_io::Shelf;
use pv_opening::{
    Response, Status, Stop, fetch, narrow_verdicts, open_dtd, refuse, refuse_item, refuse_numbers,
};
use pv_productive::{Grammar, build};
use pv_standoff::laws::text_law;
use pv_standoff::{NestError, Ranges, RangesError, nest, read_ranges};
use pv_steps::Steps;
use pv_tree::Doc;
use pv_words::push_counted;
use pv_write::doc_bytes;
use std::alloc::Global;
use std::mem::forget;
use std::sync::ledger::Ledger;
use std::thread::Threads;

/// A root name, and the names of a DTD, a text and ranges.
#[derive(Clone, Copy)]
pub struct Annotation<'a> {
    pub dtd: &'a str,
    pub root: &'a [u8],
    pub text: &'a str,
    pub ranges: &'a str,
}

/// The most bytes of the file of a text, and of the file of ranges.
const MAX_TEXT_BYTES: usize = 67_108_864;

const MAX_RANGES_BYTES: usize = 67_108_864;

// Refuses bytes that are no text, for this reason.
fn refuse_text(alloc: Global, error: TextError) -> Stop
    ensures { RefusesWith (IsTextRefusal error) result }
{
    let status = Status::BadDocument;
    match error {
        TextError::Empty => refuse(alloc, status, b"text empty 0"),
        TextError::BadChar(place) => refuse_item(alloc, status, b"text bad-char ", place as u64),
        TextError::BadReference(place) => {
            refuse_item(alloc, status, b"text bad-reference ", place as u64)
        }
        TextError::Entity(place) => refuse_item(alloc, status, b"text entity ", place as u64),
        TextError::CloseMark(place) => {
            refuse_item(alloc, status, b"text close-mark ", place as u64)
        }
        TextError::NoMemory => Stop::NoMemory,
    }
}

// The units of the text that the bytes are.
fn text_of(alloc: Global, bytes: &[u8]) -> Result<Units, Stop>
    ensures { Returns (λ (units : List (List ℕ)). units) (text_stage bytes.now) 0 result }
{
    match text_units(alloc, bytes) {
        Ok(units) => Ok(units),
        Err(error) => Err(refuse_text(alloc, error)),
    }
}

// The text in the file of this name.
fn open_text<H: Shelf>(alloc: Global, shelf: &mut H, name: &str) -> Result<Units, Stop>
    requires { Contains (H.names shelf.old) name.now }
    ensures over { ReturnsOver (IsFile (H.moment shelf.old).files name.now)
        (λ (units : List (List ℕ)). units) text_file_stage
        (H.moment shelf.old) (H.moment shelf.new) result }
    ensures names { H.names shelf.new ≡ H.names shelf.old }
{
    let bytes = fetch(alloc, shelf, name, MAX_TEXT_BYTES, b"limit text-file")?;
    text_of(alloc, &bytes)
}

// Refuses bytes that are no ranges, for this reason.
fn refuse_ranges(alloc: Global, error: RangesError) -> Stop
    ensures { RefusesWith (IsRangesRefusal error) result }
{
    match error {
        RangesError::Syntax(line) => refuse_item(alloc, Status::BadPack, b"ranges line ", line),
        RangesError::Limit => refuse(alloc, Status::Limit, b"limit ranges"),
        RangesError::NoMemory => Stop::NoMemory,
    }
}

// The ranges that the bytes are.
fn ranges_of(alloc: Global, bytes: &[u8]) -> Result<Ranges, Stop>
    ensures { Returns (λ (ranges : List PlainRange). ranges) (ranges_stage bytes.now) 0 result }
{
    match read_ranges(alloc, bytes) {
        Ok(ranges) => Ok(ranges),
        Err(error) => Err(refuse_ranges(alloc, error)),
    }
}

// The ranges in the file of this name.
fn open_ranges<H: Shelf>(alloc: Global, shelf: &mut H, name: &str) -> Result<Ranges, Stop>
    requires { Contains (H.names shelf.old) name.now }
    ensures over { ReturnsOver (IsFile (H.moment shelf.old).files name.now)
        (λ (ranges : List PlainRange). ranges) ranges_file_stage
        (H.moment shelf.old) (H.moment shelf.new) result }
    ensures names { H.names shelf.new ≡ H.names shelf.old }
{
    let bytes = fetch(alloc, shelf, name, MAX_RANGES_BYTES, b"limit ranges-file")?;
    ranges_of(alloc, &bytes)
}

// Refuses ranges that no document stands for, for this reason.
fn refuse_nesting(alloc: Global, error: NestError) -> Stop
    ensures { RefusesWith (IsNestRefusal error) result }
{
    let status = Status::BadPack;
    match error {
        NestError::Outside(range) => refuse_item(alloc, status, b"ranges outside ", range),
        NestError::Twice { from, to, level } => {
            refuse_numbers(alloc, status, b"ranges twice", &[from, to, level])
        }
        NestError::Crossing {
            from,
            to,
            next_from,
            next_to,
        } => refuse_numbers(
            alloc,
            status,
            b"ranges cross",
            &[from, to, next_from, next_to],
        ),
        NestError::Deep => refuse(alloc, Status::Limit, b"limit depth"),
        NestError::NoMemory => Stop::NoMemory,
    }
}

// The document that stands for a text and ranges.
fn nest_ranges(alloc: Global, root: &[u8], text: &Units, ranges: &Ranges) -> Result<Doc, Stop>
    requires root { IsName root.now }
    requires named { AreNamed ranges.now }
    requires few { length ranges.now ≤ MAX_RANGES }
    requires no_close_mark { holds_close_mark text.now ≡ false }
    ensures { Returns plain_doc (nesting_stage root.now text.now ranges.now) 0 result }
{
    match nest(alloc, root, text, ranges) {
        Ok(doc) => Ok(doc),
        Err(error) => Err(refuse_nesting(alloc, error)),
    }
}

// A response with what `show` replies of a document after it.
fn with_document(alloc: Global, line: Response, doc: &Doc) -> Result<Response, NoMemory>
    ensures { IfOk result (λ r. plain_response r
        ≡ with_shown (plain_response line) (plain_doc doc.now)) }
{
    let bytes = doc_bytes(alloc, doc)?;
    let Response {
        status,
        mut output,
        ..
    } = line;
    push_counted(&mut output, b"show", &bytes)?;
    Ok(Response { status, output })
}

// The document, and before it what `check` tells of it.
fn show<L: Ledger>(
    rt: &(impl Threads + Sync),
    alloc: Global,
    grammar: &Grammar,
    doc: &Doc,
    root: &[u8],
    steps: &mut Steps<L>,
) -> Result<Response, Stop>
    ensures tells { (g : PlainDtd) → g ≡ dtd_of grammar.now →
        TakesCourse (IsShownCourse root.now g (plain_doc doc.now)) result }
    ensures counts { CountsJudged (width_stage (dtd_of grammar.now) (plain_doc doc.now))
        (λ _. length (lists_of (plain_doc doc.now))) CountsNoMore (ending_of result)
        steps.old steps.new }
{
    let verdicts = narrow_verdicts(rt, alloc, grammar, doc, root, steps)?;
    let line = check_line(alloc, &verdicts)?;
    Ok(with_document(alloc, line, doc)?)
}

// The document that stands for a text and ranges, with what `check` tells of it. It is never freed.
fn tell<L: Ledger>(
    rt: &(impl Threads + Sync),
    alloc: Global,
    dtd: Dtd,
    text: &Units,
    ranges: &Ranges,
    root: &[u8],
    steps: &mut Steps<L>,
) -> Result<Response, Stop>
    requires root { IsName root.now }
    requires named { AreNamed ranges.now }
    requires few { length ranges.now ≤ MAX_RANGES }
    requires no_close_mark { holds_close_mark text.now ≡ false }
    ensures finds { TakesCourse (Behind
        (beside (plain_dtd dtd) (nesting_stage root.now text.now ranges.now))
        (λ nested. IsShownCourse root.now nested.0 nested.1)) result }
    ensures counts { CountsJudged (judging_nested_stage root.now (plain_dtd dtd) text.now
        ranges.now) nested_lists CountsNoMore (ending_of result) steps.old steps.new }
{
    let doc = nest_ranges(alloc, root, text, ranges)?;
    let grammar = build(alloc, dtd)?;
    let response = show(rt, alloc, &grammar, &doc, root, steps);
    forget(doc);
    response
}

// The DTD and the text in the files of these names.
fn open_dtd_and_text<H: Shelf>(
    alloc: Global,
    shelf: &mut H,
    named: &Annotation<'_>,
) -> Result<(Dtd, Units), Stop>
    requires dtd_named { Contains (H.names shelf.old) named.now.dtd.now }
    requires text_named { Contains (H.names shelf.old) named.now.text.now }
    ensures over { ReturnsOver (AreTwo named.now.dtd.now named.now.text.now (H.moment shelf.old).files)
        plain_two two_stage
        (H.moment shelf.old) (H.moment shelf.new) result }
    ensures names { H.names shelf.new ≡ H.names shelf.old }
{
    let dtd = open_dtd(alloc, shelf, named.dtd)?;
    let text = open_text(alloc, shelf, named.text)?;
    Ok((dtd, text))
}

/// A text with ranges beside it as a document with nested elements, and whether inserting elements
/// can make it valid for a DTD.
pub fn standoff<H: Shelf, L: Ledger>(
    rt: &(impl Threads + Sync),
    alloc: Global,
    shelf: &mut H,
    named: &Annotation<'_>,
    steps: &mut Steps<L>,
) -> Result<Response, Stop>
    requires dtd_named { Contains (H.names shelf.old) named.now.dtd.now }
    requires text_named { Contains (H.names shelf.old) named.now.text.now }
    requires ranges_named { Contains (H.names shelf.old) named.now.ranges.now }
    requires root_named { IsName named.now.root.now }
    ensures finds { FindsOver
        (named.now.dtd.now ∷ named.now.text.now ∷ named.now.ranges.now ∷ [])
        (IsStandoffCourse named.now.root.now) (CountsNested named.now.root.now)
        (H.moment shelf.old) (H.moment shelf.new)
        steps.old steps.new result }
    ensures names { H.names shelf.new ≡ H.names shelf.old }
    ensures files { (H.moment shelf.new).files ≡ (H.moment shelf.old).files }
{
    text_law();
    let (dtd, text) = open_dtd_and_text(alloc, shelf, named)?;
    let ranges = open_ranges(alloc, shelf, named.ranges)?;
    tell(rt, alloc, dtd, &text, &ranges, named.root, steps)
}
