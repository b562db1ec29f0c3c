//! Runs of commands on a DTD, a document and a certificate.

use crate::runs::rows::check_run;
use crate::runs::runs::Given;
use pv_cli::Status;
use std::test::Fail;
use std::thread::Threads;

/// What a command on a certificate is given, and the status and the output that it has to answer.
#[derive(Clone, Copy)]
pub struct Row<'a> {
    pub dtd: &'a str,
    pub root: &'a str,
    pub doc: &'a str,
    pub certificate: &'a str,
    pub status: Status,
    pub output: &'a str,
}

/// Runs a command on a row, where these fetches fail. A `Fail` with another answer.
pub fn check_row<'a, R: AllocGlobal + Threads + Sync>(
    rt: &R,
    command: &'a str,
    row: &Row<'a>,
    failing_fetches: &[u64],
) -> Result<(), Fail> {
    let words: [&'a str; 5] = [command, "a.dtd", row.root, "d.xml", "c.txt"];
    let files: [(&'a str, &'a str); 3] = [
        ("a.dtd", row.dtd),
        ("d.xml", row.doc),
        ("c.txt", row.certificate),
    ];
    let given = Given {
        failing_fetches,
        ..Given::plain(&words, &files)
    };
    check_run(rt, row.output, &given, row.status, row.output.as_bytes())
}
