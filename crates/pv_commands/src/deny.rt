//! The command `deny`.

ghost use Rattle.std.specs.Prelude.{◌≡◌, ◌∷◌, [], ℕ, Contains};
ghost use Rattle.pv_denial.specs.declared.denials.Denial.{Denial as PlainDenial};
ghost use Rattle.pv_commands.specs.DenialFiles.{denial_file_stage, denial_stage};
ghost use Rattle.pv_commands.specs.Deny.{IsDenyCourse, TellsJudgement, flaw_text};
ghost use Rattle.pv_opening.specs.Opening.{IsFile};
ghost use Rattle.pv_commands.specs.Returns.{CountsNone, FindsOver};
ghost use Rattle.pv_opening.specs.Returns.{Returns, ReturnsOver, TellsBy};
ghost use Rattle.pv_dtd.specs.PlainForms.{plain_dtd};
ghost use Rattle.pv_productive.specs.PlainForms.{dtd_of};
ghost use Rattle.pv_tree.specs.PlainDocs.{plain_doc};

use pv_denial::laws::denied_law;
use pv_denial::{Denial, Flaw, JudgeError, Judged, judge};
use pv_denial_text::{MAX_DENIAL_BYTES, TableError, read_denial};
use pv_dtd::Dtd;
use pv_dtd::laws::proper_dtd_law;
use pv_io::Shelf;
use pv_missing::laws::proper::proper_doc_law;
use pv_opening::{
    Named, Opened, Response, Status, Stop, fetch, open_files, refuse, refuse_item, refuse_path,
};
use pv_productive::{Grammar, build};
use pv_tree::{Doc, Mark};
use std::alloc::Global;
use std::mem::forget;

// The denial that the bytes are the text of.
fn denial_of(alloc: Global, bytes: &[u8]) -> Result<Denial, Stop>
    ensures { Returns (λ (denial : PlainDenial). denial) (denial_stage bytes.now) 0 result }
{
    match read_denial(alloc, bytes) {
        Ok(denial) => Ok(denial),
        Err(TableError::Syntax(line)) => {
            Err(refuse_item(alloc, Status::BadPack, b"table line ", line))
        }
        Err(TableError::Limit) => Err(refuse(alloc, Status::Limit, b"limit table")),
        Err(TableError::NoMemory) => Err(Stop::NoMemory),
    }
}

// The denial in the file of this name.
fn open_denial<H: Shelf>(alloc: Global, shelf: &mut H, name: &str) -> Result<Denial, Stop>
    requires { Contains (H.names shelf.old) name.now }
    ensures over { ReturnsOver (IsFile (H.moment shelf.old).files name.now)
        (λ (denial : PlainDenial). denial) denial_file_stage
        (H.moment shelf.old) (H.moment shelf.new) result }
    ensures names { H.names shelf.new ≡ H.names shelf.old }
{
    let bytes = fetch(alloc, shelf, name, MAX_DENIAL_BYTES, b"limit table-file")?;
    denial_of(alloc, &bytes)
}

// The word of a test.
fn flaw_text(flaw: Flaw) -> &'static [u8]
    ensures { result.now ≡ flaw_text flaw }
{
    match flaw {
        Flaw::List => b"list",
        Flaw::Cause => b"cause",
        Flaw::Table => b"table",
        Flaw::Reached => b"reached",
    }
}

// Whether the denial shows that no insertions can make the document valid, for this grammar.
fn tell_by(
    alloc: Global,
    grammar: &Grammar,
    doc: &Doc,
    root: &[u8],
    denial: &Denial,
) -> Result<Response, Stop>
    ensures { TellsBy (TellsJudgement root.now (dtd_of grammar.now) (plain_doc doc.now) denial.now)
        result }
{
    proper_dtd_law(grammar.dtd());
    proper_doc_law(doc);
    denied_law::<Mark>();
    match judge(alloc, grammar, root, doc, denial) {
        Ok(Judged::Denied) => Ok(Response::with_path(
            alloc,
            Status::Done,
            b"denied ",
            denial.path.places(),
        )?),
        Ok(Judged::Rejected(flaw)) => Ok(Response::with_text(
            alloc,
            Status::Negative,
            b"rejected ",
            flaw_text(flaw),
        )?),
        Err(JudgeError::TooWide) => Err(refuse_path(
            alloc,
            Status::Limit,
            b"limit width ",
            denial.path.places(),
        )),
        Err(JudgeError::NoMemory) => Err(Stop::NoMemory),
    }
}

// Whether the denial shows that no insertions can make the document valid, for this DTD.
fn tell(alloc: Global, dtd: Dtd, doc: &Doc, root: &[u8], denial: &Denial) -> Result<Response, Stop>
    ensures { TellsBy (TellsJudgement root.now (plain_dtd dtd) (plain_doc doc.now) denial.now)
        result }
{
    let grammar = build(alloc, dtd)?;
    tell_by(alloc, &grammar, doc, root, denial)
}

/// Whether a denial shows that no insertions can make a document valid for a DTD, whoever made the
/// denial. The document is read before the denial is fetched. Neither is ever freed.
pub fn deny<H: Shelf>(
    alloc: Global,
    shelf: &mut H,
    named: &Named<'_>,
    name: &str,
) -> Result<Response, Stop>
    requires dtd_named { Contains (H.names shelf.old) named.now.dtd.now }
    requires doc_named { Contains (H.names shelf.old) named.now.doc.now }
    requires denial_named { Contains (H.names shelf.old) name.now }
    ensures finds { (checked : ℕ) → FindsOver
        (named.now.dtd.now ∷ named.now.doc.now ∷ name.now ∷ [])
        (IsDenyCourse named.now.root.now) CountsNone
        (H.moment shelf.old) (H.moment shelf.new)
        checked checked result }
    ensures names { H.names shelf.new ≡ H.names shelf.old }
    ensures files { (H.moment shelf.new).files ≡ (H.moment shelf.old).files }
{
    let Opened { dtd, doc, .. } = open_files(alloc, shelf, named)?;
    let denial = open_denial(alloc, shelf, name)?;
    let response = tell(alloc, dtd, &doc, named.root, &denial);
    forget(doc);
    forget(denial);
    response
}
