//! The search of texts that stand side by side for `]]>` (XML 1.0, section 2.4).

ghost use Rattle.std.specs.Prelude.{◌≡◌, ◌++◌, false};
ghost use Rattle.pv_tree.specs.Plain.{forest_of};
ghost use Rattle.pv_tree.specs.PlainForms.{plain, plain_all};
ghost use Rattle.pv_edit.specs.Effects.{one_text};
ghost use Rattle.pv_edit.specs.Reasons.{is_text, spells_close_mark};
ghost use Rattle.pv_edit.specs.CloseMarks.{EndsBy, IsNear, after_byte, search_bytes, search_run};
ghost use Rattle.pv_edit.specs.CloseMarks.{search_tree, search_trees, search_units};

use pv_chars::Units;
use pv_tree::Node;

/// How many `]` stand at the end of what was searched: none, one, or at least two.
#[derive(Clone, Copy, Debug, PartialEq, Eq)]
pub(crate) enum Brackets {
    Zero,
    One,
    Two,
}

/// What stands at the end after one more byte; none where that ends a `]]>`.
fn after_byte(before: Brackets, byte: u8) -> Option<Brackets>
    ensures { result ≡ after_byte before byte }
{
    if byte == b']' {
        return Some(match before {
            Brackets::Zero => Brackets::One,
            Brackets::One => Brackets::Two,
            Brackets::Two => Brackets::Two,
        });
    }
    if byte == b'>' && before == Brackets::Two {
        return None;
    }
    Some(Brackets::Zero)
}

// What stands at the end after some bytes of a text; none where `]]>` was found.
fn search_bytes(before: Brackets, bytes: &[u8]) -> Option<Brackets>
    ensures { result ≡ search_bytes before bytes.now }
{
    let mut at_end = before;
    for byte in bytes {
        at_end = after_byte(at_end, *byte)?;
    }
    Some(at_end)
}

/// What stands at the end after a text; none where `]]>` was found.
pub(crate) fn search_text(before: Brackets, text: &Units) -> Option<Brackets>
    ensures { result ≡ search_units before text.now }
{
    search_bytes(before, text.bytes())
}

/// What stands at the end after some nodes; none where `]]>` was found. All nodes but texts end
/// the run.
pub(crate) fn search_nodes(before: Brackets, nodes: &[Node]) -> Option<Brackets>
    ensures { result ≡ search_trees before (plain_all nodes.now) }
{
    let mut at_end = before;
    for node in nodes {
        at_end = search_node(at_end, node)?;
    }
    Some(at_end)
}

fn search_node(before: Brackets, node: &Node) -> Option<Brackets>
    ensures { result ≡ search_tree before (plain node.now) }
{
    match node {
        Node::Elem { .. } => Some(Brackets::Zero),
        Node::Text(units) => search_text(before, units),
        Node::Cdata(_) => Some(Brackets::Zero),
        Node::Misc(_) => Some(Brackets::Zero),
    }
}

// What stands at the end after the texts at the front of some nodes; none where `]]>` was found.
fn search_run(before: Brackets, nodes: &[Node]) -> Option<Brackets>
    ensures { result ≡ search_run before (plain_all nodes.now) }
{
    let mut at_end = before;
    for node in nodes {
        let Node::Text(units) = node else {
            return Some(Brackets::Zero);
        };
        at_end = search_text(at_end, units)?;
    }
    Some(at_end)
}

fn is_text(node: &Node) -> bool
    ensures { result ≡ is_text (plain node.now) }
{
    matches!(node, Node::Text(_))
}

// The texts at the end of some nodes.
fn last_run(nodes: &[Node]) -> &[Node]
    ensures { EndsBy (plain_all nodes.now) (plain_all result.now) }
{
    for place in (0..nodes.len()).rev() {
        if !is_text(&nodes[place]) {
            return &nodes[place + 1..];
        }
    }
    nodes
}

/// Whether texts that stand side by side among these nodes, in this order, spell `]]>`; those in
/// front and after don't by themselves.
pub(crate) fn spell_close_mark(front: &[Node], middle: &[Node], back: &[Node]) -> bool
    requires front { spells_close_mark (forest_of (plain_all front.now)) ≡ false }
    requires back { spells_close_mark (forest_of (plain_all back.now)) ≡ false }
    ensures { result ≡ spells_close_mark (forest_of
        (plain_all front.now ++ (plain_all middle.now ++ plain_all back.now))) }
{
    search_near(front, middle, back).is_none()
}

fn search_near(front: &[Node], middle: &[Node], back: &[Node]) -> Option<Brackets>
    ensures { IsNear (plain_all front.now) (plain_all middle.now) (plain_all back.now) result }
{
    let at_front = search_nodes(Brackets::Zero, last_run(front))?;
    let at_middle = search_nodes(at_front, middle)?;
    search_run(at_middle, back)
}

/// Whether they do with a text among them.
pub(crate) fn spell_close_mark_with(front: &[Node], text: &Units, back: &[Node]) -> bool
    requires front { spells_close_mark (forest_of (plain_all front.now)) ≡ false }
    requires back { spells_close_mark (forest_of (plain_all back.now)) ≡ false }
    ensures { result ≡ spells_close_mark (forest_of
        (plain_all front.now ++ (one_text text.now ++ plain_all back.now))) }
{
    search_with(front, text, back).is_none()
}

fn search_with(front: &[Node], text: &Units, back: &[Node]) -> Option<Brackets>
    ensures { IsNear (plain_all front.now) (one_text text.now) (plain_all back.now) result }
{
    let at_front = search_nodes(Brackets::Zero, last_run(front))?;
    let at_text = search_text(at_front, text)?;
    search_run(at_text, back)
}
