//! Rows of `dtd`: parameter entities that are put in place, and their faults.

use crate::runs::rows::check_run;
use crate::runs::runs::Given;
use crate::texts::listing::{Row, check};
use pv_cli::Status;
use std::test::Fail;
use std::thread::Threads;

static PUT_IN_PLACE: [Row; 5] = [
    ("<!ENTITY % x \"y\">", "types 0 parts 0 undeclared 0\n"),
    (
        "<!ENTITY % inline \"em|br\"><!ELEMENT p (#PCDATA|%inline;)*>",
        "p mixed 1\ntypes 1 parts 2 undeclared 2\n",
    ),
    (
        "<!ENTITY % m \"EMPTY\"><!ENTITY % m \"ANY\"><!ELEMENT a %m;>",
        "a empty 1\ntypes 1 parts 0 undeclared 0\n",
    ),
    (
        "<!ENTITY % xx '&#37;zz;'><!ENTITY % zz '&#60;!ELEMENT a EMPTY>'>%xx;",
        "a empty 1\ntypes 1 parts 0 undeclared 0\n",
    ),
    (
        "<!ENTITY % block \"p|list\">
<!ELEMENT doc (head, sec+)>
<!ELEMENT head (#PCDATA)>
<!ELEMENT sec (title?, (%block;)*)>
<!ELEMENT title (#PCDATA)>
<!ELEMENT p (#PCDATA|em|br)*>
<!ELEMENT em (#PCDATA|em)*>
<!ELEMENT br EMPTY>
<!ELEMENT list (item, item+)>
<!ELEMENT item (p+)>
",
        "doc children 3\nhead mixed 1\nsec children 1\ntitle mixed 1\np mixed 1\nem mixed 1\n\
         br empty 1\nlist children 5\nitem children 2\ntypes 9 parts 21 undeclared 0\n",
    ),
];

static FAULTS: [Row; 8] = [
    ("<!ENTITY % r \"&#37;r;\">%r;", "dtd param recursive\n"),
    ("<!ELEMENT a (%b;)>", "dtd param undeclared\n"),
    ("<!ELEMENT a ANY>%p;", "dtd param undeclared\n"),
    ("<!ENTITY % e SYSTEM \"e.mod\">", "dtd param external\n"),
    ("<![INCLUDE[]]>", "dtd param conditional\n"),
    (
        "<!ENTITY % x \"<!ELEMENT a \">%x;EMPTY>",
        "dtd param syntax\n",
    ),
    ("<!ELEMENT a (% b)>", "dtd parameter 0\n"),
    ("<!ATTLIST a b CDATA %>", "dtd parameter 0\n"),
];

// Sixteen entities, each of which refers twice to the one before, and a reference to one of the
// last two.
const DOUBLING: &str = "<!ENTITY % e0 \"\"><!ENTITY % e1 \"&#37;e0;&#37;e0;\">
<!ENTITY % e2 \"&#37;e1;&#37;e1;\"><!ENTITY % e3 \"&#37;e2;&#37;e2;\">
<!ENTITY % e4 \"&#37;e3;&#37;e3;\"><!ENTITY % e5 \"&#37;e4;&#37;e4;\">
<!ENTITY % e6 \"&#37;e5;&#37;e5;\"><!ENTITY % e7 \"&#37;e6;&#37;e6;\">
<!ENTITY % e8 \"&#37;e7;&#37;e7;\"><!ENTITY % e9 \"&#37;e8;&#37;e8;\">
<!ENTITY % e10 \"&#37;e9;&#37;e9;\"><!ENTITY % e11 \"&#37;e10;&#37;e10;\">
<!ENTITY % e12 \"&#37;e11;&#37;e11;\"><!ENTITY % e13 \"&#37;e12;&#37;e12;\">
<!ENTITY % e14 \"&#37;e13;&#37;e13;\"><!ENTITY % e15 \"&#37;e14;&#37;e14;\">
<!ENTITY % e16 \"&#37;e15;&#37;e15;\">";

// Runs `dtd` on the doubling entities and a reference to this one.
fn check_doubled<R: AllocGlobal + Threads + Sync>(
    rt: &R,
    last: &str,
    status: Status,
    output: &str,
) -> Result<(), Fail> {
    let mut text = String::new(rt.alloc());
    text.push_str(DOUBLING)?;
    text.push_str(last)?;
    let words: [&str; 2] = ["dtd", "a.dtd"];
    let files: [(&str, &str); 1] = [("a.dtd", text.as_str())];
    check_run(
        rt,
        last,
        &Given::plain(&words, &files),
        status,
        output.as_bytes(),
    )
}

#[test]
fn rows(rt: HostRuntime) -> Result<(), Fail> {
    check(&rt, Status::Done, &PUT_IN_PLACE)?;
    check(&rt, Status::BadDtd, &FAULTS)?;
    check_doubled(&rt, "%e15;", Status::Done, "types 0 parts 0 undeclared 0\n")?;
    check_doubled(&rt, "%e16;", Status::Limit, "limit params\n")
}
