//! Where an item stands, and which items may stand there.

ghost use Rattle.std.specs.Prelude.{◌≡◌, ◌↔◌, IsTrue};
ghost use Rattle.std.specs.List.{list_all};
ghost use Rattle.pv_chars.specs.Spaces.{is_space};
ghost use Rattle.pv_read.specs.Left.{is_at_front, takes_doctype, behind_misc};
ghost use Rattle.pv_read.specs.Kinds.{IsOtherDoctype, opens_element};
ghost use Rattle.pv_read.specs.PlainItems.{plain_item};
ghost use Rattle.pv_read.specs.PlainPlaces.{plain_stage, plain_place};
ghost use Rattle.pv_read.specs.Places.{takes_doctype_at, open_at, may_stand_in_prolog};
ghost use Rattle.pv_read.specs.Places.{may_stand_in_content, may_stand_in_epilog, may_stand};
ghost use Rattle.pv_read.specs.Places.{IsMismatchIn, IsMismatchAt, stage_behind};

use crate::forms::Item;
use pv_chars::scan::is_space;

/// Where in the prolog: at its front, with no item yet; before a document type declaration; after
/// one.
#[derive(Clone, Copy)]
pub enum PrologStage {
    AtFront,
    BeforeDoctype,
    BehindDoctype,
}

impl PrologStage {
    fn takes_doctype(self) -> bool
        ensures { result ≡ takes_doctype (plain_stage self) }
    {
        match self {
            PrologStage::AtFront => true,
            PrologStage::BeforeDoctype => true,
            PrologStage::BehindDoctype => false,
        }
    }

    fn is_at_front(self) -> bool
        ensures { result ≡ is_at_front (plain_stage self) }
    {
        match self {
            PrologStage::AtFront => true,
            PrologStage::BeforeDoctype => false,
            PrologStage::BehindDoctype => false,
        }
    }

    fn behind_misc(self) -> PrologStage
        ensures { plain_stage result ≡ behind_misc (plain_stage self) }
    {
        match self {
            PrologStage::AtFront => PrologStage::BeforeDoctype,
            PrologStage::BeforeDoctype => PrologStage::BeforeDoctype,
            PrologStage::BehindDoctype => PrologStage::BehindDoctype,
        }
    }

    /// The stage after an item that may stand here.
    pub fn behind(self, item: &Item<'_>) -> PrologStage
        ensures { plain_stage result ≡ stage_behind (plain_stage self) (plain_item item.now) }
    {
        match item {
            Item::XmlDeclaration(_) => PrologStage::BeforeDoctype,
            Item::Doctype { .. } => PrologStage::BehindDoctype,
            Item::CommentOrInstruction(_) => self.behind_misc(),
            Item::CdataSection(_) => self,
            Item::StartTag(_) => self,
            Item::EmptyTag(_) => self,
            Item::EndTag { .. } => self,
            Item::TextRun(_) => self.behind_misc(),
        }
    }

    fn may_hold(self, item: &Item<'_>) -> bool
        ensures { result ≡ may_stand_in_prolog (plain_stage self) (plain_item item.now) }
    {
        match item {
            Item::XmlDeclaration(_) => self.is_at_front(),
            Item::Doctype { .. } => self.takes_doctype(),
            Item::CommentOrInstruction(_) => true,
            Item::CdataSection(_) => false,
            Item::StartTag(_) => true,
            Item::EmptyTag(_) => true,
            Item::EndTag { .. } => false,
            Item::TextRun(text) => is_white(text),
        }
    }
}

// Whether all is white space.
fn is_white(text: &[u8]) -> bool
    ensures { result ≡ list_all is_space text.now }
{
    text.iter().all(|b| is_space(*b))
}

fn may_stand_in_content(item: &Item<'_>) -> bool
    ensures { result ≡ may_stand_in_content (plain_item item.now) }
{
    match item {
        Item::XmlDeclaration(_) => false,
        Item::Doctype { .. } => false,
        Item::CommentOrInstruction(_) => true,
        Item::CdataSection(_) => true,
        Item::StartTag(_) => true,
        Item::EmptyTag(_) => true,
        Item::EndTag { .. } => true,
        Item::TextRun(_) => true,
    }
}

fn may_stand_in_epilog(item: &Item<'_>) -> bool
    ensures { result ≡ may_stand_in_epilog (plain_item item.now) }
{
    match item {
        Item::XmlDeclaration(_) => false,
        Item::Doctype { .. } => false,
        Item::CommentOrInstruction(_) => true,
        Item::CdataSection(_) => false,
        Item::StartTag(_) => false,
        Item::EmptyTag(_) => false,
        Item::EndTag { .. } => false,
        Item::TextRun(text) => is_white(text),
    }
}

// Whether the item is an end tag of another name.
fn ends_other(open_name: &[u8], item: &Item<'_>) -> bool
    ensures { IsTrue result ↔ IsMismatchIn open_name.now (plain_item item.now) }
{
    match item {
        Item::XmlDeclaration(_) => false,
        Item::Doctype { .. } => false,
        Item::CommentOrInstruction(_) => false,
        Item::CdataSection(_) => false,
        Item::StartTag(_) => false,
        Item::EmptyTag(_) => false,
        Item::EndTag { name, .. } => *name != open_name,
        Item::TextRun(_) => false,
    }
}

/// Whether the item is a document type declaration of another name than the root's.
pub fn is_other_doctype(root: &[u8], item: &Item<'_>) -> bool
    ensures { IsTrue result ↔ IsOtherDoctype root.now (plain_item item.now) }
{
    match item {
        Item::XmlDeclaration(_) => false,
        Item::Doctype { name, .. } => *name != root,
        Item::CommentOrInstruction(_) => false,
        Item::CdataSection(_) => false,
        Item::StartTag(_) => false,
        Item::EmptyTag(_) => false,
        Item::EndTag { .. } => false,
        Item::TextRun(_) => false,
    }
}

/// Whether the item opens an element.
pub fn opens_element(item: &Item<'_>) -> bool
    ensures { result ≡ opens_element (plain_item item.now) }
{
    match item {
        Item::XmlDeclaration(_) => false,
        Item::Doctype { .. } => false,
        Item::CommentOrInstruction(_) => false,
        Item::CdataSection(_) => false,
        Item::StartTag(_) => true,
        Item::EmptyTag(_) => true,
        Item::EndTag { .. } => false,
        Item::TextRun(_) => false,
    }
}

/// Where an item of a document stands.
#[derive(Clone, Copy)]
pub enum Place<'a> {
    /// In the prolog, at a stage of it (XML 1.0, section 2.8).
    Prolog(PrologStage),
    /// In the root, with the name of the innermost open element and the number of open ones.
    Content(&'a [u8], usize),
    /// After the root.
    Epilog,
}

impl Place<'_> {
    /// Whether a document type declaration may stand here.
    pub fn takes_doctype(&self) -> bool
        ensures { result ≡ takes_doctype_at (plain_place self.now) }
    {
        match self {
            Place::Prolog(stage) => stage.takes_doctype(),
            Place::Content(..) => false,
            Place::Epilog => false,
        }
    }

    /// The number of open elements.
    pub fn open_elements(&self) -> usize
        ensures { result ≡ open_at (plain_place self.now) }
    {
        match self {
            Place::Prolog(_) => 0,
            Place::Content(_, open_elements) => *open_elements,
            Place::Epilog => 0,
        }
    }

    /// Whether the item may stand here, whatever its names.
    pub fn may_hold(&self, item: &Item<'_>) -> bool
        ensures { result ≡ may_stand (plain_place self.now) (plain_item item.now) }
    {
        match self {
            Place::Prolog(stage) => stage.may_hold(item),
            Place::Content(..) => may_stand_in_content(item),
            Place::Epilog => may_stand_in_epilog(item),
        }
    }

    /// Whether the item is an end tag of another name than that of the innermost open element.
    pub fn is_mismatch(&self, item: &Item<'_>) -> bool
        ensures { IsTrue result ↔ IsMismatchAt (plain_place self.now) (plain_item item.now) }
    {
        match self {
            Place::Prolog(_) => false,
            Place::Content(name, _) => ends_other(name, item),
            Place::Epilog => false,
        }
    }
}
