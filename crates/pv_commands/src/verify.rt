//! The command `verify`.

ghost use Rattle.std.specs.Prelude.{◌≡◌, ◌∷◌, [], List, ℕ, Contains};
ghost use Rattle.pv_cert.specs.declared.packs.Pack.{Pack as PlainPack};
ghost use Rattle.pv_opening.specs.Opening.{IsFile};
ghost use Rattle.pv_commands.specs.PackFiles.{pack_file_stage, pack_stage};
ghost use Rattle.pv_commands.specs.Returns.{CountsNone, FindsOver};
ghost use Rattle.pv_opening.specs.Returns.{Returns, ReturnsOver, TellsBy};
ghost use Rattle.pv_commands.specs.Verify.{IsVerifyCourse, TellsOfPack, test_text};
ghost use Rattle.pv_dtd.specs.PlainForms.{plain_dtd};
ghost use Rattle.pv_read.specs.Meaning.{DocumentMeans, is_document};
ghost use Rattle.pv_tree.specs.Marks.{blank_mark};
ghost use Rattle.pv_tree.specs.PlainDocs.{plain_doc};
ghost use Rattle.pv_verify.specs.ReadBodies.{IsMeant};

use pv_cert::{MAX_PACK_BYTES, Pack, PackError, take_pack};
use pv_dtd::Dtd;
use pv_io::Shelf;
use pv_opening::{
    Named, Opened, Response, Status, Stop, fetch, open_files, refuse, refuse_item, refuse_path,
};
use pv_tree::Doc;
use pv_verify::{Answer, VerifyError, Why, verify_read};
use std::alloc::Global;
use std::mem::forget;

// The pack that the bytes are the text of.
fn pack_of(alloc: Global, bytes: Vec<u8>) -> Result<Pack, Stop>
    ensures { Returns (λ (pack : PlainPack). pack) (pack_stage bytes.items) 0 result }
{
    match take_pack(alloc, bytes) {
        Ok(pack) => Ok(pack),
        Err(PackError::Syntax(line)) => {
            Err(refuse_item(alloc, Status::BadPack, b"pack line ", line))
        }
        Err(PackError::Limit) => Err(refuse(alloc, Status::Limit, b"limit pack")),
        Err(PackError::NoMemory) => Err(Stop::NoMemory),
    }
}

// The pack in the file of this name.
fn open_pack<H: Shelf>(alloc: Global, shelf: &mut H, name: &str) -> Result<Pack, Stop>
    requires { Contains (H.names shelf.old) name.now }
    ensures over { ReturnsOver (IsFile (H.moment shelf.old).files name.now)
        (λ (pack : PlainPack). pack) pack_file_stage
        (H.moment shelf.old) (H.moment shelf.new) result }
    ensures names { H.names shelf.new ≡ H.names shelf.old }
{
    let bytes = fetch(alloc, shelf, name, MAX_PACK_BYTES, b"limit pack-file")?;
    pack_of(alloc, bytes)
}

// The word of a test.
fn test_text(test: Why) -> &'static [u8]
    ensures { result.now ≡ test_text test }
{
    match test {
        Why::Body => b"body",
        Why::Marks => b"marks",
        Why::Kept => b"kept",
        Why::Validity => b"validity",
        Why::Closure => b"closure",
        Why::Totals => b"totals",
    }
}

// Whether the pack shows a least completion of the document.
fn tell(alloc: Global, dtd: &Dtd, root: &[u8], doc: &Doc, pack: &Pack) -> Result<Response, Stop>
    requires { IsMeant root.now (plain_doc doc.now) }
    ensures { (bytes : List ℕ) →
        DocumentMeans blank_mark root.now bytes (is_document (plain_doc doc.now)) →
        TellsBy (TellsOfPack root.now (plain_dtd dtd.now) bytes pack.now) result }
{
    match verify_read(alloc, dtd, root, doc, pack) {
        Ok(Answer::Accepted(total)) => Ok(Response::with_number(
            alloc,
            Status::Done,
            b"accepted ",
            total,
        )?),
        Ok(Answer::Rejected(test)) => Ok(Response::with_text(
            alloc,
            Status::Negative,
            b"rejected ",
            test_text(test),
        )?),
        Err(VerifyError::TooWide(path)) => Err(refuse_path(
            alloc,
            Status::Limit,
            b"limit width ",
            path.places(),
        )),
        Err(VerifyError::Document(_)) => unreachable!(),
        Err(VerifyError::NoMemory) => Err(Stop::NoMemory),
    }
}

/// Whether a pack shows a least completion of a document, for a DTD, whoever made the pack. The
/// document is read before the pack is fetched. Neither is freed, but for the document's bytes.
pub fn verify<H: Shelf>(
    alloc: Global,
    shelf: &mut H,
    named: &Named<'_>,
    name: &str,
) -> Result<Response, Stop>
    requires dtd_named { Contains (H.names shelf.old) named.now.dtd.now }
    requires doc_named { Contains (H.names shelf.old) named.now.doc.now }
    requires pack_named { Contains (H.names shelf.old) name.now }
    ensures finds { (checked : ℕ) → FindsOver
        (named.now.dtd.now ∷ named.now.doc.now ∷ name.now ∷ [])
        (IsVerifyCourse named.now.root.now) CountsNone
        (H.moment shelf.old) (H.moment shelf.new)
        checked checked result }
    ensures names { H.names shelf.new ≡ H.names shelf.old }
    ensures files { (H.moment shelf.new).files ≡ (H.moment shelf.old).files }
{
    let Opened { dtd, doc, .. } = open_files(alloc, shelf, named)?;
    let pack = open_pack(alloc, shelf, name)?;
    let response = tell(alloc, &dtd, named.root, &doc, &pack);
    forget(doc);
    forget(pack);
    response
}
