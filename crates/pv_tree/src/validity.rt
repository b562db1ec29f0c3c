//! Whether a document is valid.

ghost use Rattle.std.specs.Prelude.{◌≡◌, ◌≤◌, ◌↔◌, ℕ, List, IsNone, IsTrue, IfOk, IfSome};
ghost use Rattle.std.specs.Option.{option_copied, option_map, option_and_then};
ghost use Rattle.pv_model.specs.PlainForms.{plain_model};
ghost use Rattle.pv_dtd.specs.Plain.{number_of, model_of};
ghost use Rattle.pv_dtd.specs.PlainForms.{plain_dtd};
ghost use Rattle.pv_dtd.specs.Hedge.{IsValid};
ghost use Rattle.pv_tree.specs.View.{view};
ghost use Rattle.pv_tree.specs.Lists.{IsFirstNot, IsOwnValid, IsRootElement, IsRootList, IsValidList};
ghost use Rattle.pv_tree.specs.Lists.{lists_of};
ghost use Rattle.pv_tree.specs.PlainForms.{plain, forest};
ghost use Rattle.pv_tree.specs.PlainDocs.{plain_doc};

use crate::document::Doc;
use crate::nodes::Node;
use crate::paths::Path;
use crate::search::{ListTest, first_list};
use crate::walk::{DocList, OwnerName};
use crate::words::append_word;
use pv_chars::NoMemory;
use pv_dtd::Dtd;
use pv_model::{ContentModel, LaidModel, Token};
use std::alloc::Global;

/// The path of the first list, in document order, that isn't valid by itself; none where the
/// document is valid.
///
/// ```rust
/// // test_rows: a_word_and_an_invalid_list
/// let dtd = read_dtd(alloc, b"<!ELEMENT a (#PCDATA|b)*><!ELEMENT b ANY>")?;
/// let doc = read_doc(alloc, b"<a> <b/>x<c/></a>", b"a")?;
/// let found = first_invalid(alloc, &dtd, b"a", &doc)?;
/// assert!(rt; found.is_some_and(|path| path.places() == [0].as_slice()));
/// ```
pub fn first_invalid(
    alloc: Global,
    dtd: &Dtd,
    root: &[u8],
    doc: &Doc,
) -> Result<Option<Path>, NoMemory>
    ensures valid { IfOk result (λ found. IsNone found
        ↔ IsValid (plain_dtd dtd.now) root.now (view (plain_doc doc.now).root)) }
    ensures first { IfOk result (λ found. IfSome found
        (IsFirstNot (IsValidList (plain_dtd dtd.now) root.now) (lists_of (plain_doc doc.now)))) }
{
    let mut tokens = Vec::new(alloc);
    first_list(alloc, &Validity { alloc, dtd, root }, doc, &mut tokens)
}

// Whether lists are valid by themselves. The tokens that it keeps are those of any list before.
#[derive(Drop)]
struct Validity<'a> {
    alloc: Global,
    dtd: &'a Dtd,
    root: &'a [u8],
}

impl ListTest for Validity<'_> {
    type State = Vec<Token>;

    ghost passes = { λ test. IsValidList (plain_dtd test.dtd.now) };

    ghost awaits = { λ test _ root _. root ≡ test.root.now };

    fn passes_list(&self, list: &DocList<'_>, tokens: &mut Vec<Token>) -> Result<bool, NoMemory> {
        match list.owner {
            OwnerName::Document => Ok(is_root_list(self.root, list.kids)),
            OwnerName::Element(name) => {
                is_own_valid(self.alloc, self.dtd, name, list.kids, tokens)
            }
        }
    }
}

// Whether these kids are one element of this name.
fn is_root_list(root: &[u8], kids: &[Node]) -> bool
    ensures { IsTrue result ↔ IsRootList root.now (forest kids.now) }
{
    match kids {
        [node] => is_root(root, node),
        _ => false,
    }
}

// Whether the node is an element of this name.
fn is_root(root: &[u8], node: &Node) -> bool
    ensures { IsTrue result ↔ IsRootElement root.now (plain node.now) }
{
    match node {
        Node::Elem { name, .. } => name.as_slice() == root,
        Node::Text(_) | Node::Cdata(_) | Node::Misc(_) => false,
    }
}

// Whether these kids, by themselves, fit an element of this name. The tokens are those of any list
// before.
fn is_own_valid(
    alloc: Global,
    dtd: &Dtd,
    name: &[u8],
    kids: &[Node],
    tokens: &mut Vec<Token>,
) -> Result<bool, NoMemory>
    ensures { IfOk result (λ fits. IsTrue fits
        ↔ IsOwnValid (plain_dtd dtd.now) (number_of (plain_dtd dtd.now) name.now)
        (forest kids.now)) }
{
    let Some(model) = model_named(dtd, name) else {
        return Ok(false);
    };
    if let ContentModel::Empty = model.model() {
        return Ok(kids.is_empty());
    }
    tokens.clear();
    append_word(dtd, kids, tokens)?;
    model
        .allows(alloc, dtd.count(), tokens)
        .map_err(|_| NoMemory)
}

// The content model of a declared name.
fn model_named<'a>(dtd: &'a Dtd, name: &[u8]) -> Option<&'a LaidModel>
    ensures { option_map plain_model (option_copied result)
        ≡ option_and_then (model_of (plain_dtd dtd.now)) (number_of (plain_dtd dtd.now) name.now) }
{
    let id = dtd.name_id(name)?;
    dtd.laid_model_of(id)
}
