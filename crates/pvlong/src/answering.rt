//! Answers a request: opens its files, and tells what is asked of the document.

ghost use Rattle.std.specs.Prelude.{Contains, Some, false, ◌≡◌};
ghost use Rattle.pv_dtd.specs.PlainForms.{plain_dtd};
ghost use Rattle.pv_tree.specs.Marks.{blank_mark};
ghost use Rattle.pv_tree.specs.PlainDocs.{plain_doc};
ghost use Rattle.pv_productive.specs.PlainForms.{dtd_of};
ghost use Rattle.pv_read.specs.Meaning.{DocumentMeans, is_document};
ghost use Rattle.pv_opening.specs.Returns.{TakesCourse, TellsBy, plain_fetched};
ghost use Rattle.pvlong.specs.RequestAnswers.{FindsAnswer, AnswersFetched};
ghost use Rattle.pvlong.specs.Requests.{plain_request};
ghost use Rattle.pvlong.specs.ToldNumbers.{TellsDocument, TellsFor, TellsNumber, not_least_in};
ghost use Rattle.pvlong.specs.ToldNumbers.{response_in};
ghost use Rattle.pvlong.specs.declared.requests.Question.TheVariants.{Check};

use crate::possibility::check;
use crate::requests::{Question, Request};
use crate::telling::{Told, document_of, number_line, refuse_missing};
use pv_dtd::Dtd;
use pv_io::Shelf;
use pv_long::{Deadline, missing};
use pv_opening::{Fetched, Opened, Response, Stop, fetch_files, open_document};
use pv_productive::{Grammar, build};
use pv_tree::Doc;
use std::alloc::Global;
use std::mem::forget;

// How many elements are missing in a document, which these bytes are.
fn tell_number<D: Deadline>(
    alloc: Global,
    grammar: &Grammar,
    root: &[u8],
    doc: &Doc,
    bytes: &[u8],
    deadline: &D,
) -> Result<Response, Stop>
    requires { DocumentMeans blank_mark root.now bytes.now (is_document (plain_doc doc.now)) }
    ensures { TellsBy (TellsNumber root.now (dtd_of grammar.now) (plain_doc doc.now)) result }
{
    match missing(alloc, grammar, root, doc, bytes, deadline) {
        Ok(found) => Ok(number_line(alloc, &found)?),
        Err(error) => Err(refuse_missing(alloc, error)),
    }
}

// A completion of a document, which these bytes are.
fn tell_document<D: Deadline>(
    alloc: Global,
    grammar: &Grammar,
    root: &[u8],
    doc: &Doc,
    bytes: &[u8],
    deadline: &D,
) -> Result<Told, Stop>
    requires { DocumentMeans blank_mark root.now bytes.now (is_document (plain_doc doc.now)) }
    ensures { TellsBy (TellsDocument root.now (dtd_of grammar.now) (plain_doc doc.now) bytes.now
        (not_least_in result)) (response_in result) }
{
    match missing(alloc, grammar, root, doc, bytes, deadline) {
        Ok(found) => Ok(document_of(found)),
        Err(error) => Err(refuse_missing(alloc, error)),
    }
}

// A response that is no document.
fn told_of(response: Result<Response, Stop>) -> Result<Told, Stop>
    ensures response { response_in result ≡ response }
    ensures least { not_least_in result ≡ false }
{
    match response {
        Ok(response) => Ok(Told::of(response)),
        Err(stop) => Err(stop),
    }
}

// What a question about the elements that are missing in a document is answered, which these bytes
// are.
fn tell<D: Deadline>(
    alloc: Global,
    question: Question,
    dtd: Dtd,
    root: &[u8],
    doc: &Doc,
    bytes: &[u8],
    deadline: &D,
) -> Result<Told, Stop>
    requires means { DocumentMeans blank_mark root.now bytes.now (is_document (plain_doc doc.now)) }
    requires asks { question ≡ Check → ⊥ }
    ensures { TellsBy (TellsFor question root.now (plain_dtd dtd) (plain_doc doc.now) bytes.now
        (not_least_in result)) (response_in result) }
{
    let grammar = build(alloc, dtd)?;
    match question {
        Question::Check => unreachable!(),
        Question::Need => told_of(tell_number(alloc, &grammar, root, doc, bytes, deadline)),
        Question::Complete => tell_document(alloc, &grammar, root, doc, bytes, deadline),
    }
}

// Reads the document, and tells what is asked of what is missing in it. It is never freed.
fn answer_opened<D: Deadline>(
    alloc: Global,
    question: Question,
    fetched: Fetched,
    root: &[u8],
    deadline: &D,
) -> Result<Told, Stop>
    requires { question ≡ Check → ⊥ }
    ensures { TakesCourse (AnswersFetched question root.now (plain_fetched fetched)
        (not_least_in result)) (response_in result) }
{
    let Opened { dtd, bytes, doc } = open_document(alloc, fetched, root)?;
    let told = tell(alloc, question, dtd, root, &doc, &bytes, deadline);
    forget(doc);
    told
}

// What a question about a document is answered, whose bytes were fetched. One that is only checked
// is read without a tree.
fn answer_fetched<D: Deadline>(
    alloc: Global,
    question: Question,
    fetched: Fetched,
    root: &[u8],
    deadline: &D,
) -> Result<Told, Stop>
    ensures { TakesCourse (AnswersFetched question root.now (plain_fetched fetched)
        (not_least_in result)) (response_in result) }
{
    match question {
        Question::Check => told_of(check(alloc, fetched, root)),
        Question::Need | Question::Complete => answer_opened(
            alloc, question, fetched, root, deadline,
        ),
    }
}

/// Answers a request over the files that it names.
pub fn answer<H: Shelf, D: Deadline>(
    alloc: Global,
    shelf: &mut H,
    request: &Request<'_>,
    deadline: &D,
) -> Result<Told, Stop>
    requires dtd_named { Contains (H.names shelf.old) request.now.named.dtd.now }
    requires doc_named { Contains (H.names shelf.old) request.now.named.doc.now }
    ensures finds { FindsAnswer (Some (plain_request request.now))
        (H.moment shelf.old) (H.moment shelf.new) result }
    ensures names { H.names shelf.new ≡ H.names shelf.old }
    ensures files { (H.moment shelf.new).files ≡ (H.moment shelf.old).files }
{
    let fetched = fetch_files(alloc, shelf, &request.named)?;
    answer_fetched(
        alloc,
        request.question,
        fetched,
        request.named.root,
        deadline,
    )
}
