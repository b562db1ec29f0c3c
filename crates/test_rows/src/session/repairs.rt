//! Rows of sessions on impossible documents, which they repair.

use crate::runs::rows::{Script, check_scripts};
use std::test::Fail;

const SWAPPED: &str = "<doc><sec/><head/></doc>";

static REPAIRS: [Script; 8] = [
    (
        SWAPPED,
        "need\nwrap 0 0 1 br\nunwrap 0.1\nneed\nundo\nverdicts\n",
        "no impossible 0\nno impossible 0\nok 1 1 0\nneed 1\nok 2 0 1\n\
         verdicts 4\n. valid 0\n0 impossible 2\n0.0 valid 0\n0.1 valid 2\n",
    ),
    (
        "<doc><head/><sec><p><br> </br></p></sec></doc>",
        "deltext 0.1.0.0.0\n",
        "ok 1 0 0\n",
    ),
    (SWAPPED, "wrap 0 0 2 sec\n", "ok 2 1 1\n"),
    ("<doc>Hello</doc>", "wrap 0 0 1 br\n", "no impossible 0.0\n"),
    (
        SWAPPED,
        "complete\nneed\nundo\nrename 0.0 head\nundo\nredo\nshow\n",
        "no impossible 0\nno impossible 0\nno history\nok 2 0 1\nok 2 0 1\nok 2 0 1\n\
         show 25\n<doc><head/><head/></doc>\n",
    ),
    (
        "<doc><sec><p><br>x</br></p></sec><head/></doc>",
        "wrap 0.1 0 0 br\nneed\ndeltext 0.0.0.0.0\nneed\nundo\nneed\n",
        "no impossible 0.1\nno impossible 0\nok 1 0 1\nno impossible 0\nok 1 0 2\n\
         no impossible 0\n",
    ),
    (
        "<doc><sec/><head/></doc>",
        "unwrap 0.0\nverdicts\nundo\nundo\n",
        "ok 1 1 0\nverdicts 3\n. valid 0\n0 possible 1\n0.0 valid 0\nok 2 0 1\nno history\n",
    ),
    (
        "<doc><br>x</br></doc>",
        "need\nunwrap 0.0\nneed\n",
        "no impossible 0.0\nok 1 1 0\nneed 2\n",
    ),
];

#[test]
fn repairs(rt: HostRuntime) -> Result<(), Fail> {
    check_scripts(&rt, &REPAIRS, 65_536)
}
