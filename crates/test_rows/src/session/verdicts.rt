//! Rows of `verdicts` after each kind of move: the verdict of each list, and the number of the move
//! that changed it last.

use crate::runs::rows::{Script, check_scripts};
use crate::session::scripts::HELLO;
use std::test::Fail;

static MOVES: [Script; 10] = [
    (
        HELLO,
        "wrap 0 0 1 head\nverdicts\n\
         undo\nverdicts\n\
         redo\nverdicts\n",
        "ok 2 1 0\nverdicts 3\n. valid 0\n0 possible 1\n0.0 valid 1\n\
         ok 1 1 0\nverdicts 2\n. valid 0\n0 possible 2\n\
         ok 2 1 0\nverdicts 3\n. valid 0\n0 possible 3\n0.0 valid 3\n",
    ),
    (
        "<doc><sec/></doc>",
        "insert 0 0 head\nverdicts\n\
         undo\nverdicts\n\
         redo\nverdicts\n",
        "ok 2 0 0\nverdicts 4\n. valid 0\n0 valid 1\n0.0 valid 1\n0.1 valid 0\n\
         ok 1 1 0\nverdicts 3\n. valid 0\n0 possible 2\n0.0 valid 0\n\
         ok 2 0 0\nverdicts 4\n. valid 0\n0 valid 3\n0.0 valid 3\n0.1 valid 0\n",
    ),
    // The kids of the element that goes keep their stamps; an element that comes back has a new
    // one.
    (
        "<doc><head/><sec><list><item><p/></item></list></sec></doc>",
        "unwrap 0.1.0\nverdicts\n\
         undo\nverdicts\n\
         redo\nverdicts\n",
        "ok 1 1 0\n\
         verdicts 6\n. valid 0\n0 valid 0\n0.0 valid 0\n0.1 possible 1\n0.1.0 valid 0\n\
         0.1.0.0 valid 0\n\
         ok 2 1 0\n\
         verdicts 7\n. valid 0\n0 valid 0\n0.0 valid 0\n0.1 valid 2\n0.1.0 possible 2\n\
         0.1.0.0 valid 0\n0.1.0.0.0 valid 0\n\
         ok 1 1 0\n\
         verdicts 6\n. valid 0\n0 valid 0\n0.0 valid 0\n0.1 possible 3\n0.1.0 valid 0\n\
         0.1.0.0 valid 0\n",
    ),
    // The parent's list changes too.
    (
        "<doc><p>a</p></doc>",
        "rename 0.0 head\nverdicts\n\
         undo\nverdicts\n\
         undo\nredo\nverdicts\n\
         redo\nverdicts\n",
        "ok 2 1 0\nverdicts 3\n. valid 0\n0 possible 1\n0.0 valid 1\n\
         ok 2 1 0\nverdicts 3\n. valid 0\n0 possible 2\n0.0 valid 2\n\
         no history\nok 2 1 0\nverdicts 3\n. valid 0\n0 possible 3\n0.0 valid 3\n\
         no history\nverdicts 3\n. valid 0\n0 possible 3\n0.0 valid 3\n",
    ),
    // The document node's list changes with the root.
    (
        "<p>a</p>",
        "rename 0 sec\nverdicts\n\
         undo\nverdicts\n\
         wrap . 0 1 doc\nverdicts\n\
         unwrap 0\nverdicts\n\
         undo\nverdicts\n",
        "ok 2 2 0\nverdicts 2\n. possible 1\n0 possible 1\n\
         ok 2 1 0\nverdicts 2\n. possible 2\n0 valid 2\n\
         ok 2 1 0\nverdicts 3\n. valid 3\n0 possible 3\n0.0 valid 2\n\
         ok 1 1 0\nverdicts 2\n. possible 4\n0 valid 2\n\
         ok 2 1 0\nverdicts 3\n. valid 5\n0 possible 5\n0.0 valid 2\n",
    ),
    (
        HELLO,
        "split 0.0 2\nverdicts\n\
         undo\nverdicts\n\
         redo\nverdicts\n\
         join 0.0\nverdicts\n\
         undo\nverdicts\n\
         redo\nverdicts\n",
        "ok 1 1 0\nverdicts 2\n. valid 0\n0 possible 1\n\
         ok 1 1 0\nverdicts 2\n. valid 0\n0 possible 2\n\
         ok 1 1 0\nverdicts 2\n. valid 0\n0 possible 3\n\
         ok 1 1 0\nverdicts 2\n. valid 0\n0 possible 4\n\
         ok 1 1 0\nverdicts 2\n. valid 0\n0 possible 5\n\
         ok 1 1 0\nverdicts 2\n. valid 0\n0 possible 6\n",
    ),
    (
        "<doc><head/><sec> </sec></doc>",
        "text 0.1.0 x\nverdicts\n\
         undo\nverdicts\n\
         redo\nverdicts\n",
        "ok 1 1 0\nverdicts 4\n. valid 0\n0 valid 0\n0.0 valid 0\n0.1 possible 1\n\
         ok 1 0 0\nverdicts 4\n. valid 0\n0 valid 0\n0.0 valid 0\n0.1 valid 2\n\
         ok 1 1 0\nverdicts 4\n. valid 0\n0 valid 0\n0.0 valid 0\n0.1 possible 3\n",
    ),
    (
        "<doc><head/><sec/></doc>",
        "addtext 0.1 0 x\nverdicts\n\
         undo\nverdicts\n\
         redo\nverdicts\n",
        "ok 1 1 0\nverdicts 4\n. valid 0\n0 valid 0\n0.0 valid 0\n0.1 possible 1\n\
         ok 1 0 0\nverdicts 4\n. valid 0\n0 valid 0\n0.0 valid 0\n0.1 valid 2\n\
         ok 1 1 0\nverdicts 4\n. valid 0\n0 valid 0\n0.0 valid 0\n0.1 possible 3\n",
    ),
    (
        "<doc><head/><sec>x</sec></doc>",
        "deltext 0.1.0\nverdicts\n\
         undo\nverdicts\n\
         redo\nverdicts\n",
        "ok 1 0 0\nverdicts 4\n. valid 0\n0 valid 0\n0.0 valid 0\n0.1 valid 1\n\
         ok 1 1 0\nverdicts 4\n. valid 0\n0 valid 0\n0.0 valid 0\n0.1 possible 2\n\
         ok 1 0 0\nverdicts 4\n. valid 0\n0 valid 0\n0.0 valid 0\n0.1 valid 3\n",
    ),
    // What is refused changes no stamp and takes no number.
    (
        HELLO,
        "undo\nredo\nwrap 0 0 1 br\nverdicts\n\
         wrap 0 0 1 p\nverdicts\n\
         insert 0.0 0 sec\nwrap 0 0 9 p\nrename 0 1x\ntext 0.0.0 a<b\nredo\nverdicts\n\
         wrap 0.0 0 1 em\nundo\ninsert 0 1 head\nunwrap 0.0.0\nnothing\nverdicts\n\
         redo\nredo\nverdicts\n\
         undo\nundo\nundo\nverdicts\n",
        "no history\nno history\nno impossible 0.0\nverdicts 2\n. valid 0\n0 possible 0\n\
         ok 2 1 0\nverdicts 3\n. valid 0\n0 possible 1\n0.0 valid 1\n\
         no impossible 0.0\nno shape range\nno shape bad-name\nno shape bad-text\nno history\n\
         verdicts 3\n. valid 0\n0 possible 1\n0.0 valid 1\n\
         ok 2 1 0\nok 1 1 0\nno impossible 0\nno shape not-element\nno command\n\
         verdicts 3\n. valid 0\n0 possible 1\n0.0 valid 3\n\
         ok 2 1 0\nno history\nverdicts 4\n. valid 0\n0 possible 1\n0.0 valid 4\n0.0.0 valid 4\n\
         ok 1 1 0\nok 1 1 0\nno history\nverdicts 2\n. valid 0\n0 possible 6\n",
    ),
];

#[test]
fn moves(rt: HostRuntime) -> Result<(), Fail> {
    check_scripts(&rt, &MOVES, 65_536)
}
