//! Laws on document texts. Their functions give nothing, and all but one do nothing.

ghost use Rattle.std.specs.Prelude.{ℕ, List};
ghost use Rattle.pv_tree.specs.Prolog.{IsProlog};
ghost use Rattle.pv_read.specs.DocumentLaws.{GrammarsAgree, DocumentsMeanOne, HasOneMeaning};
ghost use Rattle.pv_read.specs.DocumentLaws.{MeansWhatItSpells, SpellsOneDocument};
ghost use Rattle.pv_read.specs.DocumentLaws.{MeansSameWithinWider};
ghost use Rattle.pv_read.specs.Limits.{TextLimits};
ghost use Rattle.pv_read.specs.ItemLaws.{ItemsAreDetermined, TextsAreRuns, UnitsAreCharacterData};
ghost use Rattle.pv_read.specs.ItemLaws.{CharacterDataIsUnits};

use crate::forms::{begins_subset, item_at};
use pv_chars::scan::after_byte_order_mark;
use pv_tree::Doc;

/// At most one item stands at the front.
pub fn one_item_law()
    ensures { ItemsAreDetermined }
{}

/// A text that `text_units` cuts into units is a text run in which each reference is known, and
/// the other way round.
pub fn text_law()
    ensures run { TextsAreRuns }
    ensures units { UnitsAreCharacterData }
    ensures back { CharacterDataIsUnits }
{}

/// A text means at most one thing: a document, its first item in fault, or that it has too many
/// bytes.
pub fn one_meaning_law()
    ensures { DocumentsMeanOne }
{}

/// A text means exactly one thing: a document, its first item in fault, or that it has too many
/// bytes.
///
/// This function goes over the items of the text, whether or not they may stand where they do, and
/// takes no memory.
pub fn has_meaning_law(bytes: &[u8], root: &[u8])
    ensures { (limits : TextLimits) → HasOneMeaning limits root.now bytes.now }
{
    let mut rest = after_byte_order_mark(bytes);
    'items: while let Some((_, more)) = item_at(rest) {
        let _subset = begins_subset(rest);
        rest = more;
    }
    let _subset = begins_subset(rest);
}

/// Within wider limits a text means the same, unless a limit was passed.
pub fn wider_limits_law()
    ensures { MeansSameWithinWider }
{}

/// The grammar of a document by its items and the one by its tree give the same documents.
pub fn agreement_law()
    ensures { GrammarsAgree }
{}

/// What a text spells by its tree it means by its items, whatever the marks.
pub fn meant_law()
    ensures { MeansWhatItSpells }
{}

/// A text has one tree, marks aside, of any depth and size.
pub fn one_document_law()
    ensures { SpellsOneDocument }
{}

/// What stands before a document's root is a prolog for some name of the root.
pub fn prolog_law(_doc: &Doc)
    ensures { ∥ ((name : List ℕ) × IsProlog name _doc.now.before) ∥₁ }
{}
