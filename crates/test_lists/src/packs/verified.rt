//! Packs verified.

use pv_cert::{Pack, read_pack};
use pv_dtd::{Dtd, read_dtd};
use pv_read::{DocError, read_doc};
use pv_verify::{Answer, VerifyError, Why, verify, verify_read};
use std::alloc::Global;
use std::test::Fail;
use test_fixture::documents::nested;

// A DTD with two names.
const PAIR: &[u8] = b"<!ELEMENT a (b)><!ELEMENT b EMPTY>";

// The pack of an element that needs another one: what stands before its body, its body, and its
// table.
const HEAD: &str = "pvpack 1\ntotal 1\nmark 1\n";

const BODY: &str = "body 14\n<a><b></b></a>\n";

const TABLE: &str =
    "list 0\nc 0 0 0 1\nc 1 0 0 0\nn 0 0 0 2\nn 1 0 0 1\np 0 0 0 1\np 1 0 0 1\ns 1 0 0 1\n";

fn pack_of(alloc: Global, head: &str, body: &str, tables: &str) -> Result<Pack, Fail> {
    let text = format!(in alloc; "{head}{body}{tables}end\n")?;
    Ok(read_pack(alloc, text.as_bytes())?)
}

// A DTD, a root and a document.
type Texts = (&'static [u8], &'static [u8], &'static [u8]);

// The DTD that the text is, in a box.
fn dtd_of(alloc: Global, text: &[u8]) -> Result<Box<Dtd>, Fail> {
    Ok(Box::new(alloc, read_dtd(alloc, text)?)?)
}

// What a pack is answered against a document.
fn answer_to(alloc: Global, texts: Texts, pack: &Pack) -> Result<Answer, Fail> {
    let (dtd, root, doc) = texts;
    let dtd = dtd_of(alloc, dtd)?;
    Ok(verify(alloc, &dtd, root, doc, pack)?)
}

// What a pack is answered against the tree of a document.
fn answer_to_read(alloc: Global, texts: Texts, pack: &Pack) -> Result<Answer, Fail> {
    let (dtd, root, doc) = texts;
    let dtd = dtd_of(alloc, dtd)?;
    let doc = read_doc(alloc, doc, root)?;
    Ok(verify_read(alloc, &dtd, root, &doc, pack)?)
}

// The table with values that are all 0, with a value too small, with an entry left out, at a path
// that no list has, and with an entry of no part.
const ZEROS: &str =
    "list 0\nc 0 0 0 0\nc 1 0 0 0\nn 0 0 0 0\nn 1 0 0 0\np 0 0 0 0\np 1 0 0 0\ns 1 0 0 0\n";

const TOO_MUCH: &str =
    "list 0\nc 0 0 0 1\nc 1 0 0 0\nn 0 0 0 2\nn 1 0 0 2\np 0 0 0 1\np 1 0 0 1\ns 1 0 0 1\n";

const LEFT_OUT: &str = "list 0\nc 0 0 0 1\nc 1 0 0 0\nn 0 0 0 2\np 0 0 0 1\np 1 0 0 1\ns 1 0 0 1\n";

const ELSEWHERE: &str =
    "list 7\nc 0 0 0 1\nc 1 0 0 0\nn 0 0 0 2\nn 1 0 0 1\np 0 0 0 1\np 1 0 0 1\ns 1 0 0 1\n";

const NO_PART: &str =
    "list 0\nc 0 0 0 1\nc 1 0 0 0\nn 0 0 0 2\nn 1 0 0 1\np 0 0 0 1\np 1 0 0 1\np 99 0 0 0\n";

// What stands before the body of a pack of `<a/>`, its body and its tables, and the answer.
static ROWS: [(&str, &str, &str, Answer); 11] = [
    (HEAD, BODY, TABLE, Answer::Accepted(1)),
    (
        HEAD,
        "body 14\n<a><b></a></b>\n",
        TABLE,
        Answer::Rejected(Why::Body),
    ),
    (
        "pvpack 1\ntotal 1\nmark 5\n",
        BODY,
        TABLE,
        Answer::Rejected(Why::Marks),
    ),
    (
        "pvpack 1\ntotal 1\n",
        BODY,
        TABLE,
        Answer::Rejected(Why::Kept),
    ),
    (
        HEAD,
        "body 14\n<a><a></a></a>\n",
        TABLE,
        Answer::Rejected(Why::Validity),
    ),
    (HEAD, BODY, TOO_MUCH, Answer::Rejected(Why::Closure)),
    (HEAD, BODY, LEFT_OUT, Answer::Rejected(Why::Closure)),
    (HEAD, BODY, ELSEWHERE, Answer::Rejected(Why::Closure)),
    (HEAD, BODY, NO_PART, Answer::Rejected(Why::Closure)),
    (HEAD, BODY, ZEROS, Answer::Rejected(Why::Totals)),
    (
        "pvpack 1\ntotal 2\nmark 1\n",
        BODY,
        TABLE,
        Answer::Rejected(Why::Totals),
    ),
];

fn answer_to_parts(alloc: Global, head: &str, body: &str, tables: &str) -> Result<Answer, Fail> {
    let pack = pack_of(alloc, head, body, tables)?;
    answer_to(alloc, (PAIR, b"a", b"<a/>"), &pack)
}

// What a pack of these parts is answered against the tree of `<a/>`.
fn answer_to_read_parts(
    alloc: Global,
    head: &str,
    body: &str,
    tables: &str,
) -> Result<Answer, Fail> {
    let pack = pack_of(alloc, head, body, tables)?;
    answer_to_read(alloc, (PAIR, b"a", b"<a/>"), &pack)
}

#[test]
fn answered(rt: HostRuntime) -> Result<(), Fail> {
    for (head, body, tables, answer) in &ROWS {
        let found = answer_to_parts(rt.alloc(), *head, *body, *tables)?;
        assert_eq!(rt; found, *answer, "{head}{body}{tables}");
        let by_tree = answer_to_read_parts(rt.alloc(), *head, *body, *tables)?;
        assert_eq!(rt; by_tree, *answer, "{head}{body}{tables}, by the tree");
    }
    Ok(())
}

fn is_valid_accepted(alloc: Global) -> Result<bool, Fail> {
    let pack = pack_of(alloc, "pvpack 1\ntotal 0\n", "body 11\n<a><b/></a>\n", "")?;
    Ok(answer_to(alloc, (PAIR, b"a", b"<a><b/></a>"), &pack)? == Answer::Accepted(0))
}

// A pack without marks and tables, with a body of so many elements, each in the one before it.
fn nested_pack(alloc: Global, depth: usize) -> Result<Pack, Fail> {
    let body = nested(alloc, depth, "<em>", "", "</em>")?;
    let length = body.len();
    let body = format!(in alloc; "body {length}\n{body}\n")?;
    pack_of(alloc, "pvpack 1\ntotal 0\n", body.as_str(), "")
}

fn is_deep_rejected(alloc: Global) -> Result<bool, Fail> {
    let pack = nested_pack(alloc, 100_000)?;
    let texts: Texts = (b"<!ELEMENT em (#PCDATA|em)*>", b"em", b"<em/>");
    Ok(answer_to(alloc, texts, &pack)? == Answer::Rejected(Why::Kept))
}

fn is_document_refused(alloc: Global) -> Result<bool, Fail> {
    let dtd = dtd_of(alloc, PAIR)?;
    let pack = pack_of(alloc, HEAD, BODY, TABLE)?;
    Ok(matches!(
        verify(alloc, &dtd, b"a", b"<a>", &pack),
        Err(VerifyError::Document(DocError::Syntax(1)))
    ))
}

#[test]
fn other_documents(rt: HostRuntime) -> Result<(), Fail> {
    assert!(rt; is_valid_accepted(rt.alloc())?, "a valid document");
    assert!(rt; is_deep_rejected(rt.alloc())?, "a deep body");
    assert!(rt; is_document_refused(rt.alloc())?, "no document");
    Ok(())
}
