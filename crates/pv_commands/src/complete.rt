//! The command `complete`.

ghost use Rattle.std.specs.Prelude.{◌≡◌, IfErr, IfOk};
ghost use Rattle.pv_commands.specs.Complete.{IsCompleteCourse, IsPackOfCompletion, IsVerifiable};
ghost use Rattle.pv_opening.specs.Documents.{HasText, PlainOpened};
ghost use Rattle.pv_commands.specs.PackRefusals.{IsRefusalFor};
ghost use Rattle.pv_commands.specs.Returns.{BehindDocument};
ghost use Rattle.pv_opening.specs.Returns.{TakesCourse, RefusesWith, plain_fetched};
ghost use Rattle.pv_complete.specs.Tables.{HasTablesCause};
ghost use Rattle.pv_productive.specs.PlainForms.{dtd_of};
ghost use Rattle.pv_tree.specs.PlainDocs.{plain_doc};

use pv_cert::{Pack, write_pack};
use pv_complete::{Completion, NeedError, TabledCompletion, complete_with_tables};
use pv_dtd::laws::proper_dtd_law;
use pv_missing::laws::proper::proper_doc_law;
use pv_opening::{Fetched, Opened, Response, Status, Stop, open_document, refuse, refuse_path};
use pv_productive::{Grammar, build};
use pv_read::laws::meant_law;
use pv_tables::laws::one_list_at_path_law;
use pv_tree::{Doc, Mark};
use pv_verify::laws::made_pack_law;
use pv_write::laws::spelled_is_written_law;
use std::alloc::Global;
use std::mem::forget;

// The pack of a least completion of a document, which `verify` accepts.
fn pack_of(alloc: Global, grammar: &Grammar, doc: &Doc, root: &[u8]) -> Result<Pack, NeedError>
    requires { HasText root.now (plain_doc doc.now) }
    ensures least { IfOk result
        (IsPackOfCompletion root.now (dtd_of grammar.now) (plain_doc doc.now)) }
    ensures verifiable { IfOk result (IsVerifiable root.now (dtd_of grammar.now)
        (plain_doc doc.now)) }
    ensures refused { IfErr result (HasTablesCause (dtd_of grammar.now)
        root.now (plain_doc doc.now)) }
{
    meant_law();
    spelled_is_written_law();
    one_list_at_path_law::<Mark>();
    made_pack_law::<Mark>();
    proper_dtd_law(grammar.dtd());
    proper_doc_law(doc);
    let TabledCompletion { completion, tables } = complete_with_tables(alloc, grammar, root, doc)?;
    let Completion { count, marks, body } = completion;
    Ok(Pack {
        total: count,
        marks,
        body,
        tables,
    })
}

// Refuses a document that has no pack, for this reason.
fn refuse_pack(alloc: Global, error: NeedError) -> Stop
    ensures { RefusesWith (IsRefusalFor error) result }
{
    match error {
        NeedError::Impossible(path) => {
            refuse_path(alloc, Status::Negative, b"impossible ", path.places())
        }
        NeedError::TooWide(path) => {
            refuse_path(alloc, Status::Limit, b"limit width ", path.places())
        }
        NeedError::TooHeavy => refuse(alloc, Status::Limit, b"limit weight"),
        NeedError::TooMany => refuse(alloc, Status::Limit, b"limit tables"),
        NeedError::NoMemory => Stop::NoMemory,
    }
}

// The text of the pack, or why there is none.
fn tell(alloc: Global, grammar: &Grammar, doc: &Doc, root: &[u8]) -> Result<Response, Stop>
    requires { HasText root.now (plain_doc doc.now) }
    ensures { (opened : PlainOpened) → opened.dtd ≡ dtd_of grammar.now →
        opened.doc ≡ plain_doc doc.now → TakesCourse (IsCompleteCourse root.now opened) result }
{
    proper_dtd_law(grammar.dtd());
    proper_doc_law(doc);
    match pack_of(alloc, grammar, doc, root) {
        Ok(pack) => Ok(Response {
            status: Status::Done,
            output: write_pack(alloc, &pack)?,
        }),
        Err(error) => Err(refuse_pack(alloc, error)),
    }
}

/// The pack of a least completion of a document, for a DTD. The document is never freed.
pub fn complete(alloc: Global, fetched: Fetched, root: &[u8]) -> Result<Response, Stop>
    ensures { TakesCourse (BehindDocument IsCompleteCourse root.now (plain_fetched fetched))
        result }
{
    let Opened { dtd, doc, .. } = open_document(alloc, fetched, root)?;
    let grammar = build(alloc, dtd)?;
    let response = tell(alloc, &grammar, &doc, root);
    forget(doc);
    response
}
