//! The marks of a document laid out by verdicts that are known.

ghost use Rattle.std.specs.Prelude.{◌≡◌, ◌≤◌, ◌+◌, ◌*◌};
ghost use Rattle.pv_cache.specs.LaidMarks.{lay_node, lay_kids, lay_doc, lists_in, lists_in_all};
ghost use Rattle.pv_cache.specs.LaidMarks.{nth_verdict};
ghost use Rattle.pv_tree.specs.Legal.{MAX_NODES};
ghost use Rattle.pv_tree.specs.Plain.{nodes_in, nodes_in_all};
ghost use Rattle.pv_tree.specs.PlainDocs.{plain_doc};
ghost use Rattle.pv_tree.specs.PlainForms.{forest, plain};

use crate::updates::{Update, update_element, update_top};
use pv_missing::Verdicts;
use pv_tree::{Doc, Node, Nodes, Verdict};

// The verdict of this number; there is one for each list.
fn nth_verdict(verdicts: &Verdicts, number: u64) -> Verdict
    ensures { result ≡ nth_verdict verdicts.now.verdicts number }
{
    match verdicts.at(number) {
        Some(verdict) => verdict,
        None => Verdict::Valid,
    }
}

// Marks the lists of a subtree by the verdicts from this number on, and gives the number after
// them.
#[cycle(lay)]
fn lay_node(node: &mut Node, verdicts: &Verdicts, number: u64) -> u64
    requires small { number + nodes_in (plain node.old) ≤ 2 * MAX_NODES }
    ensures laid { plain node.new ≡ lay_node verdicts.now.verdicts number (plain node.old) }
    ensures next { result ≡ number + lists_in (plain node.old) }
{
    let Node::Elem { kids, .. } = node else {
        return number;
    };
    let next = lay_kids(kids, verdicts, number + 1);
    update_element(node, nth_verdict(verdicts, number), 0);
    next
}

// Marks the lists of nodes side by side, from this number on.
#[cycle(lay)]
fn lay_kids(kids: &mut Nodes, verdicts: &Verdicts, number: u64) -> u64
    requires small { number + nodes_in_all (forest kids.old.items) ≤ 2 * MAX_NODES }
    ensures laid { forest kids.new.items
        ≡ lay_kids verdicts.now.verdicts number (forest kids.old.items) }
    ensures next { result ≡ number + lists_in_all (forest kids.old.items) }
{
    let mut next = number;
    let mut i = 0;
    'kids: while i < kids.len() {
        next = lay_node(&mut kids[i], verdicts, next);
        i += 1;
    }
    next
}

/// Marks all lists of a document by their verdicts in document order, with stamps of 0.
pub(crate) fn lay_doc(doc: &mut Doc, verdicts: &Verdicts)
    ensures { plain_doc doc.new ≡ lay_doc verdicts.now.verdicts (plain_doc doc.old) }
{
    lay_node(&mut doc.root, verdicts, 1);
    let update = Update {
        verdict: nth_verdict(verdicts, 0),
        inner: None,
        stamp: 0,
    };
    update_top(doc, &update);
}
