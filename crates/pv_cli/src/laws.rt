//! Laws that the contract of `pvtag` stands on. Their functions do nothing.

ghost use Rattle.pv_cli.specs.Laws.{AnswersWithoutFault, SessionsAreGuarded};

use pv_dtd::laws::{dtd_text_law, one_meaning_law};
use pv_io::Source;
use pv_params::laws::one_expansion_law;
use pv_read::laws::{meant_law, one_document_law, one_meaning_law as one_document_meaning_law};

/// Where no device failed, the defined response was written, or there was no memory and nothing was
/// written.
pub fn complete_law<S: Source>()
    ensures { AnswersWithoutFault S }
{}

/// Over files that hold a DTD and a document none of whose lists is too wide, and devices that
/// don't fail, a session answers its whole script, or there was no memory and it wrote nothing.
pub fn guarded_session_law<S: Source>()
    ensures { SessionsAreGuarded S }
{
    one_expansion_law();
    one_meaning_law();
    dtd_text_law();
    one_document_meaning_law();
    meant_law();
    one_document_law();
    complete_law::<S>();
}
