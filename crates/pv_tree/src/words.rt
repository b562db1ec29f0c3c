//! The words of lists of nodes.

ghost use Rattle.std.specs.Prelude.{◌≡◌, ◌++◌, List, IfOk, OnOk, map};
ghost use Rattle.pv_model.specs.Plain.{PlainToken};
ghost use Rattle.pv_model.specs.PlainForms.{plain_token};
ghost use Rattle.pv_dtd.specs.Plain.{number_of};
ghost use Rattle.pv_dtd.specs.PlainForms.{plain_dtd};
ghost use Rattle.pv_dtd.specs.Hedge.{token};
ghost use Rattle.pv_tree.specs.Words.{node_before, word_of};
ghost use Rattle.pv_tree.specs.Tokens.{token_before};
ghost use Rattle.pv_tree.specs.PlainForms.{plain, forest};

use crate::nodes::Node;
use pv_chars::{List, NoMemory};
use pv_dtd::Dtd;
use pv_model::Token;
use std::alloc::Global;

/// Tokens in order: the word of a list.
///
/// ```rust
/// let tokens = Tokens::of(vec![in alloc; Token::Text, Token::Other]?);
/// assert!(rt; tokens.as_slice().len() == 2);
/// ```
pub type Tokens = List<Token>;

/// The word of some nodes: an element by its name, data for a text with a data unit and for a
/// CDATA section, and nothing for others.
///
/// ```rust
/// // test_rows: a_word_and_an_invalid_list
/// let dtd = read_dtd(alloc, b"<!ELEMENT a (#PCDATA|b)*><!ELEMENT b ANY>")?;
/// let doc = read_doc(alloc, b"<a> <b/>x<c/></a>", b"a")?;
/// let kids = doc.kids_at(&Path::new(alloc, &[0])?).unwrap_or(&[]);
/// let tokens = [Token::Name(NameId(1)), Token::Text, Token::Other];
/// assert!(rt; word(alloc, &dtd, kids)?.as_slice() == tokens.as_slice());
/// ```
pub fn word(alloc: Global, dtd: &Dtd, kids: &[Node]) -> Result<Tokens, NoMemory>
    ensures { IfOk result (λ tokens. map plain_token tokens
        ≡ word_of (plain_dtd dtd.now) (forest kids.now)) }
{
    let mut tokens = Vec::new(alloc);
    append_word(dtd, kids, &mut tokens)?;
    Ok(List::of(tokens))
}

/// Appends the word of some nodes.
pub(crate) fn append_word(dtd: &Dtd, kids: &[Node], tokens: &mut Vec<Token>) -> Result<(), NoMemory>
    ensures { OnOk result (map plain_token tokens.new.items
        ≡ map plain_token tokens.old.items ++ word_of (plain_dtd dtd.now) (forest kids.now)) }
{
    for kid in kids {
        if let Some(token) = token_of(dtd, kid) {
            tokens.push(token)?;
        }
    }
    Ok(())
}

// The token of a node, where it has one.
fn token_of(dtd: &Dtd, node: &Node) -> Option<Token>
    ensures { (rest : List PlainToken) →
        node_before (plain_dtd dtd.now) (plain node.now) rest ≡ token_before result rest }
{
    match node {
        Node::Elem { name, .. } => Some(name_token(dtd, name.as_slice())),
        Node::Text(units) => units.has_data().then_some(Token::Text),
        Node::Cdata(_) => Some(Token::Text),
        Node::Misc(_) => None,
    }
}

/// The token of an element of this name.
///
/// ```rust
/// let dtd = read_dtd(alloc, b"<!ELEMENT a (b)>")?;
/// assert!(rt; name_token(&dtd, b"b") == Token::Name(NameId(1)));
/// assert!(rt; name_token(&dtd, b"c") == Token::Other);
/// ```
pub fn name_token(dtd: &Dtd, name: &[u8]) -> Token
    ensures { plain_token result ≡ token (number_of (plain_dtd dtd.now) name.now) }
{
    match dtd.name_id(name) {
        Some(id) => Token::Name(id),
        None => Token::Other,
    }
}
