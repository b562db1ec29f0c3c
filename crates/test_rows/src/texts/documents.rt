//! Rows of documents: what is read, and the first item in fault of what isn't.

use crate::runs::rows::{check_rows, check_run};
use crate::runs::runs::Given;
use pv_cli::Status;
use std::alloc::{AllocError, Global};
use std::test::Fail;
use std::thread::Threads;
use test_fixture::documents::nested;
use test_fixture::dtds::{ANY, ARTICLE};

const DONE: Status = Status::Done;

const BAD: Status = Status::BadDocument;

// Documents of any content that are read, each whatever it tests.
static READ: [&str; 28] = [
    "\u{FEFF}<a/>",
    "\u{FEFF}<?xml version='1.0'?><a/>",
    "<?xml version=\"1.1\" encoding='us-ascii' standalone = 'no' ?><a/>",
    "<!DOCTYPE a><a/>",
    "<!DOCTYPE a SYSTEM 'x\"y' ><a/>",
    "<!DOCTYPE a PUBLIC \"-//X//Y z//EN\" 'u'><a/>",
    "<!DOCTYPE a SYSTEM \"x?y=1&z;=&#0;\"><a/>",
    "<!-- c --> <?p x?>\n<!DOCTYPE a><?q?><!----><a/> <!-- d --><?p?>\r\n",
    "<a b='1' c=\"2\" b = '3'/>",
    "<a b='\"' c=\"'\" d=''></a\t>",
    "<a b='&lt;&#38;&quot;>'/>",
    "<a b='1\r\n2\t3\u{85}'>\r\n\r\u{2028}</a>",
    "<a>&amp;&lt;&gt;&apos;&quot;&#9;&#xA;&#x10FFFF;</a>",
    "<a>&#0000000000000000000000065;&#x0000000000000000041;</a>",
    "<a>]]&gt;]]&#62;]&#93;></a>",
    "<a>]]<!--x-->></a>",
    "<a><![CDATA[]]></a>",
    "<a><![CDATA[<&]]]]><![CDATA[>]]></a>",
    "<a><!-- <a> & - -> --><?p <a> ? > ?></a>",
    "<a>x<!--y-->z<?p?>w<![CDATA[v]]>u</a>",
    "<a><?xml-stylesheet href='x'?><?XMLx?></a>",
    "<a><?p & &b; &#0;?></a>",
    "<a>é€\u{FFFD}\u{10000}\u{7F}</a>",
    "<a>\u{FEFF}</a>",
    "<a>></a>",
    "<a><a /><a  ></a ></a>",
    "<a>\t\n\r </a>",
    "\r\n\t <a/>",
];

// Documents that aren't read, and what is said of them.
static REFUSED: [(&str, &str); 75] = [
    ("", "syntax 0"),
    (" ", "syntax 1"),
    ("\u{FEFF}", "syntax 0"),
    ("\u{FEFF}<a", "syntax 0"),
    ("\u{FEFF}\u{FEFF}<a/>", "syntax 0"),
    ("x<a/>", "syntax 0"),
    ("&#32;<a/>", "syntax 0"),
    (" <?xml version='1.0'?><a/>", "syntax 1"),
    ("<!--c--><?xml version='1.0'?><a/>", "syntax 1"),
    ("<?xml version='2.0'?><a/>", "syntax 0"),
    ("<?xml version='1.0' encoding='latin1'?><a/>", "syntax 0"),
    ("<?xml encoding='utf-8'?><a/>", "syntax 0"),
    ("<?XML x?><a/>", "syntax 0"),
    ("<![CDATA[x]]><a/>", "syntax 0"),
    ("</a><a/>", "syntax 0"),
    ("<!DOCTYPE b><a/>", "doctype"),
    ("<!DOCTYPE ab><a/>", "doctype"),
    ("<!DOCTYPE a><!DOCTYPE a><a/>", "syntax 1"),
    ("<!DOCTYPE a><!DOCTYPE b><a/>", "syntax 1"),
    ("<!DOCTYPE a []><a/>", "subset"),
    ("<!DOCTYPE b SYSTEM 'x'[<!ELEMENT a ANY>]><a/>", "subset"),
    ("<!--c--><!DOCTYPE a [", "subset"),
    ("<!DOCTYPE a><!DOCTYPE a []><a/>", "syntax 1"),
    ("<a><!DOCTYPE a []></a>", "syntax 1"),
    ("<a/><!DOCTYPE a []>", "syntax 1"),
    ("<!DOCTYPE a SYSTEM><a/>", "syntax 0"),
    ("<!DOCTYPE a PUBLIC 'x'><a/>", "syntax 0"),
    ("<!DOCTYPE a PUBLIC 'x'y' 'z'><a/>", "syntax 0"),
    ("<!DOCTYPE a PUBLIC 'é' 'z'><a/>", "syntax 0"),
    ("<!DOCTYPE a PUBLIC '&' 'z'><a/>", "syntax 0"),
    ("<!doctype a><a/>", "syntax 0"),
    ("<!DOCTYPEa><a/>", "syntax 0"),
    ("<!DOCTYPE a", "syntax 0"),
    ("<!DOCTYPE a SYSTEM 'x", "syntax 0"),
    ("<!DOCTYPE a PUBLIC 'x", "syntax 0"),
    ("<!--c--><!DOCTYPE a PUBLIC 'x' \"y", "syntax 1"),
    ("<?xml", "syntax 0"),
    ("<?xml version='1.", "syntax 0"),
    ("\u{FEFF}<?xml version='1.0' encoding='utf-8'?", "syntax 0"),
    ("<!--c-- --><a/>", "syntax 0"),
    ("<!--c---><a/>", "syntax 0"),
    ("<!--c", "syntax 0"),
    ("<?p", "syntax 0"),
    ("<a>", "syntax 1"),
    ("<a>x", "syntax 2"),
    ("<a>x<b", "syntax 2"),
    ("<a/", "syntax 0"),
    ("<a>x<b/", "syntax 2"),
    ("<a></a", "syntax 1"),
    ("<a><!--", "syntax 1"),
    ("<a><![CDATA[x]]", "syntax 1"),
    ("<a><?p", "syntax 1"),
    ("<a>&amp", "syntax 1"),
    ("<a b='x", "syntax 0"),
    ("<a b=x/>", "syntax 0"),
    ("<a b/>", "syntax 0"),
    ("<a b='1'c='2'/>", "syntax 0"),
    ("<a b='<'/>", "syntax 0"),
    ("<a b='&'/>", "syntax 0"),
    ("<a&/>", "syntax 0"),
    ("<a></a&>", "syntax 1"),
    ("<a / >", "syntax 0"),
    ("< a/>", "syntax 0"),
    ("<1/>", "syntax 0"),
    ("<a>]]></a>", "syntax 1"),
    ("<a>& </a>", "syntax 1"),
    ("<a>&#xFFFF;</a>", "syntax 1"),
    ("<a>&#0;</a>", "syntax 1"),
    ("<a>&#x;</a>", "syntax 1"),
    ("<a>\u{1}</a>", "syntax 1"),
    ("<a/></a>", "syntax 1"),
    ("<a/>x", "syntax 1"),
    ("<a/> &lt;", "syntax 1"),
    ("<a/><a/>", "syntax 1"),
    ("<a/><![CDATA[]]>", "syntax 1"),
];

// Entities, mismatches, and items where several kinds of fault stand.
static TOLD: [(&str, &str); 14] = [
    ("<a>&nbsp;</a>", "entity 1"),
    ("<a b='&x;'/>", "entity 0"),
    ("<a b='&x;'></b>", "entity 0"),
    ("<a>&lt;&b;&;</a>", "syntax 1"),
    ("<a>&b;]]></a>", "syntax 1"),
    ("&b;<a/>", "syntax 0"),
    ("<a/>&b;", "syntax 1"),
    ("<a></b>", "mismatch 1"),
    ("<a>x<b>y</a></b>", "mismatch 4"),
    ("<a></aa>", "mismatch 1"),
    ("<a></b ></a>", "mismatch 1"),
    ("<a>x<!--c-->&y;</b>", "entity 3"),
    ("<!DOCTYPE b><a>&x;</a>", "doctype"),
    ("<a>&x;</b>", "entity 1"),
];

fn check_refused<R: AllocGlobal + Threads + Sync>(
    rt: &R,
    dtd: &str,
    root: &str,
    rows: &[(&str, &str)],
) -> Result<(), Fail> {
    for (doc, fault) in rows {
        let line = format!(in rt.alloc(); "document {fault}\n")?;
        check_rows(rt, "valid", &[(dtd, root, *doc, BAD, line.as_str())])?;
    }
    Ok(())
}

// `show` gives the document as it was read.
fn check_shown<R: AllocGlobal + Threads + Sync>(rt: &R, doc: &'static str) -> Result<(), Fail> {
    let words: [&'static str; 4] = ["session", "a.dtd", "a", "d.xml"];
    let files: [(&'static str, &'static str); 2] = [("a.dtd", ANY), ("d.xml", doc)];
    let given = Given {
        input: b"show\n",
        ..Given::plain(&words, &files)
    };
    let length = doc.len();
    let reply = format!(in rt.alloc(); "show {length}\n{doc}\n")?;
    check_run(rt, doc, &given, DONE, reply.as_bytes())
}

#[test]
fn documents(rt: HostRuntime) -> Result<(), Fail> {
    for doc in &READ {
        check_rows(&rt, "valid", &[(ANY, "a", *doc, DONE, "valid\n")])?;
        check_shown(&rt, *doc)?;
    }
    check_refused(&rt, ANY, "a", &REFUSED)?;
    check_refused(&rt, ANY, "a", &TOLD)
}

static FAULTS: [(&str, &str); 6] = [
    ("<doc><head>a</head><se", "syntax 4"),
    ("<doc><head></doc>", "mismatch 2"),
    ("<doc>&nbsp;</doc>", "entity 1"),
    ("<!DOCTYPE doc [<!ELEMENT doc ANY>]><doc/>", "subset"),
    ("<!DOCTYPE p><p/>", "doctype"),
    ("", "syntax 0"),
];

#[test]
fn faults(rt: HostRuntime) -> Result<(), Fail> {
    check_refused(&rt, ARTICLE, "doc", &FAULTS)
}

// What stands before and after 5,000 times a digit.
static REFERENCES: [(&str, &str, &str, Status, &str); 8] = [
    ("<a>&#", "0", "65;</a>", DONE, "valid\n"),
    ("<a>&#x", "0", "10FFFF;</a>", DONE, "valid\n"),
    ("<a b='&#", "0", "9;'/>", DONE, "valid\n"),
    ("<a>&#", "0", ";</a>", BAD, "document syntax 1\n"),
    ("<a>&#x", "0", "FFFF;</a>", BAD, "document syntax 1\n"),
    ("<a b='&#x", "0", "110000;'/>", BAD, "document syntax 0\n"),
    ("<a>&#", "9", ";</a>", BAD, "document syntax 1\n"),
    ("<a>&#x", "1", ";</a>", BAD, "document syntax 1\n"),
];

fn with_digits(alloc: Global, first: &str, digit: &str, last: &str) -> Result<String, AllocError> {
    let mut text = String::from_str(alloc, first)?;
    text.push_str(&nested(alloc, 5_000, digit, last, "")?)?;
    Ok(text)
}

#[test]
fn long_references(rt: HostRuntime) -> Result<(), Fail> {
    for (first, digit, last, status, line) in &REFERENCES {
        let doc = with_digits(rt.alloc(), first, digit, last)?;
        check_rows(&rt, "valid", &[(ANY, "a", doc.as_str(), *status, *line)])?;
    }
    Ok(())
}
