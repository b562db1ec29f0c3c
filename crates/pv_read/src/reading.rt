//! Reads a document, in one pass from left to right.

ghost use Rattle.std.specs.Prelude.{◌≡◌, ◌≤◌, ◌<◌, ◌+◌, ◌^◌, ◌++◌};
ghost use Rattle.std.specs.Prelude.{suc, ℕ, List, [], length, IfOk, IfErr};
ghost use Rattle.pv_tree.specs.Plain.{nodes_in};
ghost use Rattle.pv_tree.specs.Legal.{MAX_NODES};
ghost use Rattle.pv_tree.specs.PlainForms.{plain};
ghost use Rattle.pv_tree.specs.PlainDocs.{plain_doc};
ghost use Rattle.pv_tree.specs.Marks.{HasMarks, blank_mark};
ghost use Rattle.pv_tree.specs.declared.nodes.Mark.{Mark};
ghost use Rattle.pv_read.specs.Grammar.{IsDocumentText};
ghost use Rattle.pv_read.specs.Left.{in_epilog};
ghost use Rattle.pv_read.specs.Meaning.{MAX_DOC_BYTES as MAX_BYTES, Outcome, is_document};
ghost use Rattle.pv_read.specs.Meaning.{DocumentRestMeans, DocumentMeans};
ghost use Rattle.pv_read.specs.Errors.{Refuses};
ghost use Rattle.pv_read.specs.PlainForms.{Answers};
ghost use Rattle.pv_read.specs.Steps.{LeadsBehind};
ghost use Rattle.pv_read.specs.Prologs.{behind_tag};
ghost use Rattle.pv_read.specs.Epilogs.{document};

use crate::content::read_content;
use crate::epilog::read_epilog;
use crate::errors::DocError;
use crate::open::empty_element;
use crate::prolog::{RootTag, root_tag};
use pv_chars::bytes_of;
use pv_chars::scan::after_byte_order_mark;
use pv_tree::{Doc, Mark, Node};
use std::alloc::Global;

/// The most elements of a document that stand one inside another.
pub const MAX_DEPTH: usize = 512;

/// The most bytes of a document.
pub const MAX_DOC_BYTES: usize = 67_108_864;

// The root that this tag opens, what stands after it, and the number of items up to its end.
fn root_at<'a>(
    alloc: Global,
    most_depth: Option<usize>,
    root: &[u8],
    opening: &RootTag<'a>,
) -> Result<(Node, &'a [u8], u64), DocError>
    requires { suc opening.now.count + length opening.now.rest.now < 2 ^ 64 }
    ensures read { IfOk result (λ r. (before : List ℕ) →
        LeadsBehind most_depth blank_mark root.now (suc opening.now.count)
        (behind_tag before opening.now.is_short opening.now.tag.name.now opening.now.tag.attrs.now)
        opening.now.rest.now
        r.2 (in_epilog before (plain r.0) []) r.1.now) }
    ensures refused { IfErr result (λ e. (before : List ℕ) →
        Refuses (DocumentRestMeans most_depth blank_mark root.now (suc opening.now.count)
        (behind_tag before opening.now.is_short opening.now.tag.name.now opening.now.tag.attrs.now)
        opening.now.rest.now) e) }
    ensures few { IfOk result (λ r. r.2 + length r.1.now
        ≤ suc opening.now.count + length opening.now.rest.now) }
{
    let count = opening.count + 1;
    if opening.is_short {
        return Ok((empty_element(alloc, &opening.tag)?, opening.rest, count));
    }
    read_content(alloc, most_depth, root, &opening.tag, opening.rest, count)
}

// A document by its parts: the root, and what stands before and after it.
#[derive(Drop)]
struct DocumentParts<'a> {
    before: &'a [u8],
    root: Node,
    after: &'a [u8],
}

// The parts of the document that the bytes are.
fn parts_of<'a>(alloc: Global, bytes: &'a [u8], root: &[u8]) -> Result<DocumentParts<'a>, DocError>
    requires { length bytes.now ≤ MAX_BYTES }
    ensures read { IfOk result (λ p. DocumentMeans blank_mark root.now bytes.now
        (is_document (document p.before.now (plain p.root) p.after.now))) }
    ensures refused { IfErr result (λ e. Refuses (DocumentMeans blank_mark root.now bytes.now) e) }
{
    let most_depth = Some(MAX_DEPTH);
    let opening = root_tag(most_depth, root, after_byte_order_mark(bytes))?;
    let (element, after, count) = root_at(alloc, most_depth, root, &opening)?;
    read_epilog(most_depth, root, after, count)?;
    Ok(DocumentParts {
        before: bytes.split_at(bytes.len() - opening.from_tag.len()).0,
        root: element,
        after,
    })
}

/// The document that the bytes are, with blank marks, where the root's name is this one (XML 1.0,
/// section 2.1).
///
/// The name is that of the document type declaration, where there is one: the root itself may have
/// another.
pub fn read_doc(alloc: Global, bytes: &[u8], root: &[u8]) -> Result<Doc, DocError>
    ensures read { IfOk result (λ doc. IsDocumentText root.now bytes.now (plain_doc doc)) }
    ensures means { IfOk result (λ doc. DocumentMeans blank_mark root.now bytes.now
        (is_document (plain_doc doc))) }
    ensures few { IfOk result (λ doc. nodes_in (plain_doc doc).root < MAX_NODES) }
    ensures marks { IfOk result (λ doc. HasMarks blank_mark (plain_doc doc)) }
    ensures refused { IfErr result (λ error.
        Refuses (DocumentMeans blank_mark root.now bytes.now) error) }
    ensures exactly { (o : Outcome Mark) → DocumentMeans blank_mark root.now bytes.now o →
        Answers o result }
{
    if bytes.len() > MAX_DOC_BYTES {
        return Err(DocError::Limit);
    }
    let parts = parts_of(alloc, bytes, root)?;
    let before = bytes_of(alloc, parts.before)?;
    let after = bytes_of(alloc, parts.after)?;
    Ok(Doc {
        before,
        root: parts.root,
        after,
        mark: Mark::BLANK,
    })
}
