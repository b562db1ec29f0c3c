//! The lists that tables are of.

ghost use Rattle.std.specs.Prelude.{◌≡◌, ◌≤◌, List, ℕ, IfSome, IsNone, Some};
ghost use Rattle.std.specs.List.{Contains};
ghost use Rattle.std.specs.Option.{option_and_then, option_map};
ghost use Rattle.pv_dtd.specs.Plain.{number_of};
ghost use Rattle.pv_dtd.specs.PlainForms.{plain_dtd};
ghost use Rattle.pv_rules.specs.PlainForms.{plain_site};
ghost use Rattle.pv_rules.specs.Sites.{PlainSite, content_site, name_site};
ghost use Rattle.pv_tree.specs.Legal.{MAX_NODES};
ghost use Rattle.pv_tree.specs.Lists.{Listed, lists_of};
ghost use Rattle.pv_tree.specs.Places.{at_node, owner_of};
ghost use Rattle.pv_tree.specs.Plain.{nodes_in_all};
ghost use Rattle.pv_tree.specs.PlainDocs.{plain_doc, plain_found};
ghost use Rattle.pv_tree.specs.PlainForms.{forest, plain};
ghost use Rattle.pv_tree.specs.declared.nodes.Mark.{Mark};
ghost use Rattle.pv_missing.specs.ListWeights.{site_of};
ghost use Rattle.pv_table_check.specs.ClosedTables.{IsListOf};

use pv_dtd::Dtd;
use pv_rules::Site;
use pv_tree::laws::list_at_law;
use pv_tree::{Doc, Found, Mark, Node, Path};

/// A list of a document: its kids, and the site of what these are to be.
#[derive(Clone, Copy)]
pub struct ListAt<'a> {
    pub site: Site,
    pub kids: &'a [Node],
}

// The site of an element of this name.
fn name_site(dtd: &Dtd, name: &[u8]) -> Option<Site>
    ensures { option_map plain_site result ≡
        option_map name_site (number_of (plain_dtd dtd.now) name.now) }
{
    match dtd.name_id(name) {
        Some(id) => Some(Site::Name(id)),
        None => None,
    }
}

// The site of the content of an element of this name.
fn content_site(dtd: &Dtd, name: &[u8]) -> Option<Site>
    ensures { option_map plain_site result ≡
        option_map content_site (number_of (plain_dtd dtd.now) name.now) }
{
    match dtd.name_id(name) {
        Some(id) => Some(Site::Content(id)),
        None => None,
    }
}

// The site of what the kids of the document node or of a node are to be.
fn site_at(dtd: &Dtd, root: &[u8], found: Found<'_>) -> Option<Site>
    ensures { option_map plain_site result ≡
        option_and_then (site_of (plain_dtd dtd.now) root.now)
        (owner_of (plain_found found.entry)) }
{
    match found {
        Found::Document => name_site(dtd, root),
        Found::Inner(node) => site_within(dtd, root, node),
    }
}

// The site of what the kids of a node are to be.
fn site_within(dtd: &Dtd, root: &[u8], node: &Node) -> Option<Site>
    ensures { option_map plain_site result ≡
        option_and_then (site_of (plain_dtd dtd.now) root.now)
        (owner_of (at_node (plain node.now))) }
{
    match node {
        Node::Elem { name, .. } => content_site(dtd, name.as_slice()),
        Node::Text(_) | Node::Cdata(_) | Node::Misc(_) => None,
    }
}

/// The list at a path; none where there is no such list, or where the DTD doesn't have the name of
/// its owner.
pub fn find_list<'a>(dtd: &Dtd, root: &[u8], doc: &'a Doc, path: &Path) -> Option<ListAt<'a>>
    ensures found { IfSome result (λ l. IsListOf (plain_dtd dtd.now) root.now
        (lists_of (plain_doc doc.now)) path.now (plain_site l.site) (forest l.kids.now)) }
    ensures few { IfSome result (λ l. nodes_in_all (forest l.kids.now) ≤ MAX_NODES) }
    ensures none { IsNone result → (list : Listed Mark) (s : PlainSite) →
        Contains (lists_of (plain_doc doc.now)) list → path.now ≡ list.path →
        site_of (plain_dtd dtd.now) root.now list.owner ≡ Some s → ⊥ }
{
    list_at_law::<Mark>();
    let found = doc.node_at(path)?;
    let site = site_at(dtd, root, found)?;
    let kids = doc.kids_at(path)?;
    Some(ListAt { site, kids })
}
