//! XML declarations, processing instructions, comments and CDATA sections (XML 1.0, sections 2.5
//! to 2.8).

ghost use Rattle.std.specs.Prelude.{MatchOption};
ghost use Rattle.pv_chars.specs.Fronts.{BeginsNone};
ghost use Rattle.pv_chars.specs.Markup.{IsComment, IsInstruction, IsCdata};
ghost use Rattle.pv_chars.specs.Declarations.{IsXmlDecl};
ghost use Rattle.pv_read.specs.Items.{BeginsItem};
ghost use Rattle.pv_read.specs.PlainItems.{plain_item};

use crate::forms::items::Item;
use pv_chars::declarations::after_xml_decl;
use pv_chars::markup::{after_cdata, after_comment, after_instruction};

/// The comment at the front, and what stands after it.
pub fn comment_at(bytes: &[u8]) -> Option<(Item<'_>, &[u8])>
    ensures { MatchOption result (BeginsNone IsComment bytes.now)
        (λ r. BeginsItem (plain_item r.0) bytes.now r.1.now) }
{
    let rest = after_comment(bytes)?;
    let comment = bytes.split_at(bytes.len() - rest.len()).0;
    Some((Item::CommentOrInstruction(comment), rest))
}

/// The CDATA section at the front, and what stands after it.
pub fn cdata_at(bytes: &[u8]) -> Option<(Item<'_>, &[u8])>
    ensures { MatchOption result (BeginsNone IsCdata bytes.now)
        (λ r. BeginsItem (plain_item r.0) bytes.now r.1.now) }
{
    let rest = after_cdata(bytes)?;
    let section = bytes.split_at(bytes.len() - rest.len()).0;
    Some((Item::CdataSection(section), rest))
}

/// The processing instruction at the front, and what stands after it.
pub fn instruction_at(bytes: &[u8]) -> Option<(Item<'_>, &[u8])>
    ensures { MatchOption result (BeginsNone IsInstruction bytes.now)
        (λ r. BeginsItem (plain_item r.0) bytes.now r.1.now) }
{
    let rest = after_instruction(bytes)?;
    let instruction = bytes.split_at(bytes.len() - rest.len()).0;
    Some((Item::CommentOrInstruction(instruction), rest))
}

/// The XML declaration at the front, and what stands after it.
pub fn xml_declaration_at(bytes: &[u8]) -> Option<(Item<'_>, &[u8])>
    ensures { MatchOption result (BeginsNone IsXmlDecl bytes.now)
        (λ r. BeginsItem (plain_item r.0) bytes.now r.1.now) }
{
    let rest = after_xml_decl(bytes)?;
    let declaration = bytes.split_at(bytes.len() - rest.len()).0;
    Some((Item::XmlDeclaration(declaration), rest))
}
