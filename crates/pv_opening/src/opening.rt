//! Opens the files of a command: fetches their bytes and reads them.

ghost use Rattle.std.specs.Prelude.{◌≡◌, ◌++◌, List, [], ◌∷◌, ℕ, decimal, Contains, IfOk, false};
ghost use Rattle.pv_opening.specs.Opening.{AreFiles, IsFile, fetch_stage, dtd_stage, dtd_file_stage};
ghost use Rattle.pv_opening.specs.Opening.{expanded_dtd_stage};
ghost use Rattle.pv_opening.specs.Parameters.{RefusesParameters};
ghost use Rattle.pv_params.specs.Answers.{Tells};
ghost use Rattle.pv_params.specs.Meaning.{Expands, faulty};
ghost use Rattle.pv_opening.specs.Opening.{document_fetch_stage, fetching_stage, opening_stage};
ghost use Rattle.pv_opening.specs.Documents.{document_stage, RefusesDocument};
ghost use Rattle.pv_words.specs.Paths.{path_text};
ghost use Rattle.pv_words.specs.Numbers.{numbers_text};
ghost use Rattle.pv_opening.specs.Response.{with_line};
ghost use Rattle.pv_opening.specs.Returns.{RefusesWith, Returns, ReturnsOver, plain_fetched};
ghost use Rattle.pv_opening.specs.Returns.{IsOpenedBy, plain_opened};
ghost use Rattle.pv_opening.specs.Status.{needs_cause};
ghost use Rattle.pv_dtd.specs.PlainForms.{plain_dtd};
ghost use Rattle.pv_read.specs.Errors.{Refuses};
ghost use Rattle.pv_read.specs.Meaning.{DocumentMeans};
ghost use Rattle.pv_tree.specs.Marks.{blank_mark};

use crate::response::Response;
use crate::status::Status;
use crate::stop::Stop;
use pv_dtd::{Dtd, DtdError, MAX_DTD_BYTES, read_dtd};
use pv_io::{FetchError, Shelf};
use pv_params::{ParamError, expand};
use pv_read::{DocError, MAX_DOC_BYTES, read_doc};
use pv_tree::Doc;
use std::alloc::Global;

/// A root name, and the names of a DTD and a document.
#[derive(Clone, Copy)]
pub struct Named<'a> {
    pub dtd: &'a str,
    pub root: &'a [u8],
    pub doc: &'a str,
}

/// A DTD, and the bytes of a document.
#[derive(Drop)]
pub struct Fetched {
    pub dtd: Dtd,
    pub bytes: Vec<u8>,
}

/// A DTD, and a document with its bytes.
#[derive(Drop)]
pub struct Opened {
    pub dtd: Dtd,
    pub bytes: Vec<u8>,
    pub doc: Doc,
}

/// Refuses with this line.
pub fn refuse(alloc: Global, status: Status, text: &[u8]) -> Stop
    requires { needs_cause status ≡ false }
    ensures { RefusesWith (λ r. r ≡ with_line status text.now) result }
{
    match Response::with_line(alloc, status, text) {
        Ok(response) => Stop::Refused(response),
        Err(_) => Stop::NoMemory,
    }
}

/// Refuses with a line of this text and the number of an item.
pub fn refuse_item(alloc: Global, status: Status, text: &[u8], item: u64) -> Stop
    requires { needs_cause status ≡ false }
    ensures { RefusesWith (λ r. r ≡ with_line status (text.now ++ decimal item)) result }
{
    match Response::with_number(alloc, status, text, item) {
        Ok(response) => Stop::Refused(response),
        Err(_) => Stop::NoMemory,
    }
}

/// Refuses with a line of this text and a path.
pub fn refuse_path(alloc: Global, status: Status, text: &[u8], places: &[u32]) -> Stop
    requires { needs_cause status ≡ false }
    ensures { RefusesWith (λ r. r ≡ with_line status (text.now ++ path_text places.now)) result }
{
    match Response::with_path(alloc, status, text, places) {
        Ok(response) => Stop::Refused(response),
        Err(_) => Stop::NoMemory,
    }
}

/// Refuses with a line of this text and some numbers.
pub fn refuse_numbers(alloc: Global, status: Status, text: &[u8], numbers: &[u32]) -> Stop
    requires { needs_cause status ≡ false }
    ensures { RefusesWith (λ r. r ≡ with_line status (text.now ++ numbers_text numbers.now))
        result }
{
    match Response::with_numbers(alloc, status, text, numbers) {
        Ok(response) => Stop::Refused(response),
        Err(_) => Stop::NoMemory,
    }
}

/// The bytes of a file of at most so many. The line says `passed` where it has more.
pub fn fetch<H: Shelf>(
    alloc: Global,
    shelf: &mut H,
    name: &str,
    most: usize,
    passed: &[u8],
) -> Result<Vec<u8>, Stop>
    requires { Contains (H.names shelf.old) name.now }
    ensures over { ReturnsOver (IsFile (H.moment shelf.old).files name.now) (λ v. v.items)
        (λ file. fetch_stage file most passed.now)
        (H.moment shelf.old) (H.moment shelf.new) result }
    ensures names { H.names shelf.new ≡ H.names shelf.old }
{
    match shelf.fetch(alloc, name, most) {
        Ok(bytes) => Ok(bytes),
        Err(FetchError::TooLong) => Err(refuse(alloc, Status::Limit, passed)),
        Err(FetchError::Failed) => Err(Stop::ShelfFault),
        Err(FetchError::NoMemory) => Err(Stop::NoMemory),
    }
}

/// The DTD that the text is.
pub fn dtd_of(alloc: Global, bytes: &[u8]) -> Result<Dtd, Stop>
    ensures { Returns plain_dtd (dtd_stage bytes.now) 0 result }
{
    match read_dtd(alloc, bytes) {
        Ok(dtd) => Ok(dtd),
        Err(DtdError::Syntax(item)) => {
            Err(refuse_item(alloc, Status::BadDtd, b"dtd syntax ", item))
        }
        Err(DtdError::Twice(item)) => {
            Err(refuse_item(alloc, Status::BadDtd, b"dtd twice ", item))
        }
        Err(DtdError::MixedTwice(item)) => Err(refuse_item(
            alloc,
            Status::BadDtd,
            b"dtd mixed-twice ",
            item,
        )),
        Err(DtdError::Parameter(item)) => Err(refuse_item(
            alloc,
            Status::BadDtd,
            b"dtd parameter ",
            item,
        )),
        Err(DtdError::Limit(item)) => {
            Err(refuse_item(alloc, Status::Limit, b"limit dtd ", item))
        }
        Err(DtdError::NoMemory) => Err(Stop::NoMemory),
    }
}

// Refuses bytes whose parameter entities can't be put in place, for this reason.
fn refuse_parameters(alloc: Global, error: ParamError) -> Stop
    ensures { (bytes : List ℕ) → Tells (λ fault. Expands bytes (faulty fault)) error
        → RefusesWith (RefusesParameters bytes) result }
{
    match error {
        ParamError::Conditional => refuse(alloc, Status::BadDtd, b"dtd param conditional"),
        ParamError::External => refuse(alloc, Status::BadDtd, b"dtd param external"),
        ParamError::Undeclared => refuse(alloc, Status::BadDtd, b"dtd param undeclared"),
        ParamError::Recursive => refuse(alloc, Status::BadDtd, b"dtd param recursive"),
        ParamError::Syntax => refuse(alloc, Status::BadDtd, b"dtd param syntax"),
        ParamError::Limit => refuse(alloc, Status::Limit, b"limit params"),
        ParamError::NoMemory => Stop::NoMemory,
    }
}

// The DTD of these bytes, once their parameter entities are put in place.
fn expanded_dtd(alloc: Global, bytes: &[u8]) -> Result<Dtd, Stop>
    ensures { Returns plain_dtd (expanded_dtd_stage bytes.now) 0 result }
{
    match expand(alloc, bytes) {
        Ok(text) => dtd_of(alloc, &text),
        Err(error) => Err(refuse_parameters(alloc, error)),
    }
}

/// Refuses bytes that are no document, for this reason.
pub fn refuse_document(alloc: Global, error: DocError) -> Stop
    ensures { (root bytes : List ℕ) → Refuses (DocumentMeans blank_mark root bytes) error
        → RefusesWith (RefusesDocument root bytes) result }
{
    match error {
        DocError::Syntax(item) => {
            refuse_item(alloc, Status::BadDocument, b"document syntax ", item)
        }
        DocError::Mismatch(item) => {
            refuse_item(alloc, Status::BadDocument, b"document mismatch ", item)
        }
        DocError::Entity(item) => {
            refuse_item(alloc, Status::BadDocument, b"document entity ", item)
        }
        DocError::Subset => refuse(alloc, Status::BadDocument, b"document subset"),
        DocError::DoctypeName => refuse(alloc, Status::BadDocument, b"document doctype"),
        DocError::Deep(item) => refuse_item(alloc, Status::Limit, b"limit depth ", item),
        DocError::Limit => refuse(alloc, Status::Limit, b"limit document-file"),
        DocError::NoMemory => Stop::NoMemory,
    }
}

/// The document that the bytes are, beside the DTD and them.
pub fn open_document(alloc: Global, fetched: Fetched, root: &[u8]) -> Result<Opened, Stop>
    ensures returns { Returns plain_opened (document_stage root.now (plain_fetched fetched).0
        (plain_fetched fetched).1) 0 result }
    ensures means { IfOk result (IsOpenedBy root.now) }
{
    let Fetched { dtd, bytes } = fetched;
    match read_doc(alloc, &bytes, root) {
        Ok(doc) => Ok(Opened { dtd, bytes, doc }),
        Err(error) => Err(refuse_document(alloc, error)),
    }
}

/// The DTD in the file of this name.
pub fn open_dtd<H: Shelf>(alloc: Global, shelf: &mut H, name: &str) -> Result<Dtd, Stop>
    requires { Contains (H.names shelf.old) name.now }
    ensures over { ReturnsOver (IsFile (H.moment shelf.old).files name.now) plain_dtd dtd_file_stage
        (H.moment shelf.old) (H.moment shelf.new) result }
    ensures names { H.names shelf.new ≡ H.names shelf.old }
{
    let bytes = fetch(alloc, shelf, name, MAX_DTD_BYTES, b"limit dtd-file")?;
    expanded_dtd(alloc, &bytes)
}

// The bytes of the document in the file of this name.
fn fetch_document<H: Shelf>(alloc: Global, shelf: &mut H, name: &str) -> Result<Vec<u8>, Stop>
    requires { Contains (H.names shelf.old) name.now }
    ensures over { ReturnsOver (IsFile (H.moment shelf.old).files name.now) (λ v. v.items)
        document_fetch_stage
        (H.moment shelf.old) (H.moment shelf.new) result }
    ensures names { H.names shelf.new ≡ H.names shelf.old }
{
    fetch(alloc, shelf, name, MAX_DOC_BYTES, b"limit document-file")
}

/// The DTD and the bytes of the document in the files of these names.
pub fn fetch_files<H: Shelf>(
    alloc: Global,
    shelf: &mut H,
    named: &Named<'_>,
) -> Result<Fetched, Stop>
    requires dtd_named { Contains (H.names shelf.old) named.now.dtd.now }
    requires doc_named { Contains (H.names shelf.old) named.now.doc.now }
    ensures over { ReturnsOver (AreFiles (H.moment shelf.old).files
        (named.now.dtd.now ∷ named.now.doc.now ∷ [])) plain_fetched fetching_stage
        (H.moment shelf.old) (H.moment shelf.new) result }
    ensures names { H.names shelf.new ≡ H.names shelf.old }
{
    let dtd = open_dtd(alloc, shelf, named.dtd)?;
    let bytes = fetch_document(alloc, shelf, named.doc)?;
    Ok(Fetched { dtd, bytes })
}

/// The DTD and the document in the files of these names.
pub fn open_files<H: Shelf>(alloc: Global, shelf: &mut H, named: &Named<'_>) -> Result<Opened, Stop>
    requires dtd_named { Contains (H.names shelf.old) named.now.dtd.now }
    requires doc_named { Contains (H.names shelf.old) named.now.doc.now }
    ensures over { ReturnsOver (AreFiles (H.moment shelf.old).files
        (named.now.dtd.now ∷ named.now.doc.now ∷ [])) plain_opened
        (opening_stage named.now.root.now)
        (H.moment shelf.old) (H.moment shelf.new) result }
    ensures means { IfOk result (IsOpenedBy named.now.root.now) }
    ensures names { H.names shelf.new ≡ H.names shelf.old }
{
    let fetched = fetch_files(alloc, shelf, named)?;
    open_document(alloc, fetched, named.root)
}
