//! Rows of `offer` in a session.

use crate::runs::rows::{Script, check_scripts};
use std::test::Fail;

const HELLO: &str = "<doc>Hello</doc>";

static OFFERS: [Script; 9] = [
    (
        HELLO,
        "offer 0 0 1\n",
        "offer 7\nhead\nsec\ntitle\np\nem\nlist\nitem\n",
    ),
    (
        "<p>a</p>",
        "offer . 0 1\n",
        "offer 4\ndoc\nsec\nlist\nitem\n",
    ),
    (
        "<doc><p>a</p></doc>",
        "offer 0.0\noffer 0\n",
        "offer 7\nhead\nsec\ntitle\np\nem\nlist\nitem\noffer 4\ndoc\nsec\nlist\nitem\n",
    ),
    (
        HELLO,
        "offer 0.0 0 0\noffer 0 1 0\noffer .\n",
        "no shape not-element\nno shape range\nno shape not-element\n",
    ),
    // A node that isn't there, and lines that are no command.
    (
        HELLO,
        "offer 0.7 0 0\noffer 0.7\noffer\noffer 0 0\noffer 0 0 1 p\noffer 00\noffer 0 \n",
        "no shape no-node\nno shape no-node\nno command\nno command\nno command\nno command\n\
         no command\n",
    ),
    // A new root takes the old one alone, and there may be no name for it.
    (
        HELLO,
        "offer . 0 0\noffer . 0 1\n",
        "no shape root-shape\noffer 0\n",
    ),
    // What an offer told is kept, and it leaves the session as it was.
    (
        HELLO,
        "offer 0 0 1\nwrap 0 0 1 br\nwrap 0 0 1 doc\nwrap 0 0 1 head\nhistory\nundo\noffer 0 0 1\n\
         verdicts\nredo\n",
        "offer 7\nhead\nsec\ntitle\np\nem\nlist\nitem\n\
         no impossible 0.0\nno impossible 0\nok 2 1 0\n\
         history 1\nwrap 0 0 1 head\nok 1 1 0\noffer 7\nhead\nsec\ntitle\np\nem\nlist\nitem\n\
         verdicts 2\n. valid 0\n0 possible 2\nok 2 1 0\n",
    ),
    // An impossible document: what leaves no more lists impossible.
    (
        "<doc><sec/><head/></doc>",
        "offer 0 0 1\noffer 0.0\n",
        "offer 1\ndoc\noffer 9\ndoc\nhead\nsec\ntitle\np\nem\nbr\nlist\nitem\n",
    ),
    (
        "<doc><head/><sec><p>a</p></sec></doc>",
        "offer 0.1 0 1\noffer 0.1.0 0 1\noffer 0.1 0 0\n",
        "offer 2\nlist\nitem\noffer 1\nem\noffer 6\ntitle\np\nem\nbr\nlist\nitem\n",
    ),
];

#[test]
fn offers(rt: HostRuntime) -> Result<(), Fail> {
    check_scripts(&rt, &OFFERS, 65_536)
}
