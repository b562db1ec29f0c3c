//! The words of lists, as the layer above takes them.

use pv_model::{NameId, Token};
use pv_tree::{first_invalid, word};
use std::alloc::Global;
use std::test::Fail;
use test_fixture::documents::{document_of, dtd_of, kids_of};

const DTD: &str = "<!ELEMENT a (#PCDATA|b)*><!ELEMENT b ANY>";

const DOC: &str = "<a> <b/>x<c/></a>";

static WORD: [Token; 3] = [Token::Name(NameId(1)), Token::Text, Token::Other];

fn has_word(alloc: Global, tokens: &[Token]) -> Result<bool, Fail> {
    let dtd = dtd_of(alloc, DTD)?;
    let doc = document_of(alloc, DOC, "a")?;
    Ok(word(alloc, &dtd, kids_of(&doc)?)?.as_slice() == tokens)
}

fn is_invalid_at(alloc: Global, places: &[u32]) -> Result<bool, Fail> {
    let dtd = dtd_of(alloc, DTD)?;
    let doc = document_of(alloc, DOC, "a")?;
    match first_invalid(alloc, &dtd, b"a", &doc)? {
        Some(path) => Ok(path.places() == places),
        None => Ok(false),
    }
}

#[test]
fn a_word_and_an_invalid_list(rt: HostRuntime) -> Result<(), Fail> {
    assert!(rt; has_word(rt.alloc(), &WORD)?);
    assert!(rt; is_invalid_at(rt.alloc(), &[0])?);
    Ok(())
}
