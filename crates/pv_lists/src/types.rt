//! Element types by their names.

ghost use Rattle.std.specs.Prelude.{◌≡◌, IfOk, IfSome};
ghost use Rattle.pv_chars.specs.Names.{IsName};
ghost use Rattle.pv_dtd.specs.Plain.{PlainDtd};
ghost use Rattle.pv_dtd.specs.PlainForms.{plain_dtd};
ghost use Rattle.pv_lists.specs.Types.{IsTypeOf, AreTypesNamed, AreTypes};

use pv_chars::{NoMemory, is_name};
use pv_dtd::Dtd;
use pv_model::Token;
use std::alloc::Global;

/// How many places there are.
const PLACES: usize = 256;

/// What the DTD says of elements of a name.
#[derive(Clone, Copy)]
pub struct ElementType<'a> {
    pub name: &'a [u8],
    /// Whether the bytes are a Name.
    pub is_name: bool,
    /// What such an element is in the word of the list that it stands in.
    pub token: Token,
}

impl<'a> ElementType<'a> {
    // That of this name.
    fn of(dtd: &Dtd, name: &'a [u8]) -> ElementType<'a>
        ensures { IsTypeOf (plain_dtd dtd.now) name.now result }
    {
        let token = match dtd.name_id(name) {
            Some(id) => Token::Name(id),
            None => Token::Other,
        };
        ElementType {
            name,
            is_name: is_name(name),
            token,
        }
    }
}

/// Element types that were found, each at a place by its name. A document has few names, so most
/// tags need no search in the DTD.
#[derive(Drop)]
pub struct FoundTypes<'a> {
    types: Vec<ElementType<'a>>,
}

impl<'a> FoundTypes<'a> {
    /// The type of this name alone.
    pub fn of(alloc: Global, dtd: &Dtd, name: &'a [u8]) -> Result<FoundTypes<'a>, NoMemory>
        ensures { IfOk result (λ found. AreTypes (plain_dtd dtd.now) found) }
    {
        let types = Vec::from_elem(alloc, ElementType::of(dtd, name), PLACES)?;
        Ok(FoundTypes { types })
    }

    /// The type of these bytes, where they are a Name that was found lately.
    pub fn known(&self, bytes: &[u8]) -> Option<ElementType<'a>>
        requires { AreTypesNamed self.now }
        ensures bytes { IfSome result (λ kind. kind.name.now ≡ bytes.now) }
        ensures named { IfSome result (λ kind. IsName kind.name.now) }
        ensures typed { (g : PlainDtd) → AreTypes g self.now →
            IfSome result (λ kind. IsTypeOf g kind.name.now kind) }
    {
        let place = place_of(bytes);
        if place >= self.types.len() {
            return None;
        }
        let found = self.types[place];
        if found.is_name && found.name == bytes {
            Some(found)
        } else {
            None
        }
    }

    /// The type of this name. One that wasn't found lately is found in the DTD.
    pub fn find(&mut self, dtd: &Dtd, name: &'a [u8]) -> ElementType<'a>
        requires { AreTypes (plain_dtd dtd.now) self.old }
        ensures found { IsTypeOf (plain_dtd dtd.now) name.now result }
        ensures kept { AreTypes (plain_dtd dtd.now) self.new }
    {
        let place = place_of(name);
        if place >= self.types.len() {
            return ElementType::of(dtd, name);
        }
        let found = self.types[place];
        if found.name == name {
            return found;
        }
        let found = ElementType::of(dtd, name);
        self.types[place] = found;
        found
    }

    /// This type where it is at hand, or else the one that is found.
    pub fn or_find(
        &mut self,
        dtd: &Dtd,
        name: &'a [u8],
        kind: Option<ElementType<'a>>,
    ) -> ElementType<'a>
        requires types { AreTypes (plain_dtd dtd.now) self.old }
        requires typed { IfSome kind (IsTypeOf (plain_dtd dtd.now) name.now) }
        ensures found { IsTypeOf (plain_dtd dtd.now) name.now result }
        ensures kept { AreTypes (plain_dtd dtd.now) self.new }
    {
        match kind {
            Some(kind) => kind,
            None => self.find(dtd, name),
        }
    }
}

// A place by the length of the name and a few of its bytes.
fn place_of(name: &[u8]) -> usize {
    match name {
        [first, .., last] => {
            let middle = name[name.len() / 2];
            let bytes = *first as usize * 31 + middle as usize * 7 + *last as usize;
            name.len().wrapping_mul(13).wrapping_add(bytes) % PLACES
        }
        [first] => *first as usize,
        [] => 0,
    }
}
