//! Laws on what the program does. Their functions do nothing.

ghost use Rattle.law_program.specs.Laws.{AcceptsLeast, ComesByCause, DeniesImpossible, FaultsShow};
ghost use Rattle.law_program.specs.Laws.{HasOneResponse, RaisesOneAtMost};
ghost use Rattle.law_program.specs.Within.{AnswersWithin};

use pv_cert::laws::one_meaning_law as one_pack_meaning_law;
use pv_chars::laws::one_meaning_law as one_text_meaning_law;
use pv_cli::laws::complete_law;
use pv_denial::laws::one_judged_law;
use pv_denial_text::laws::one_meaning_law as one_denial_meaning_law;
use pv_deny::laws::one_denial_law;
use pv_dtd::laws::one_meaning_law;
use pv_io::Source;
use pv_missing::laws::words::one_live_word_law;
use pv_offer::laws::{no_ground_law, one_ground_law, one_offer_law};
use pv_params::laws::one_expansion_law;
use pv_read::laws::{meant_law, one_document_law, one_meaning_law as one_document_meaning_law};
use pv_script::laws::one_command_law;
use pv_session::laws::one_answer_law;
use pv_standoff::laws::{one_meaning_law as one_nesting_law, one_reading_law};
use pv_tables::laws::one_tables_law;
use pv_tree::Mark;
use pv_tree::laws::valid_lists_law;
use pv_verify::laws::one_answer_law as one_pack_answer_law;

/// Over given files a command has one response, and `session` one for each script and each set of
/// lines that there was no memory for, but for the documents of completions; so has `complete`, but
/// for the bodies and marks of packs.
pub fn one_response_law()
    ensures { HasOneResponse }
{
    one_expansion_law();
    one_meaning_law();
    one_document_meaning_law();
    meant_law();
    one_document_law();
    valid_lists_law();
    one_command_law();
    one_answer_law();
    one_offer_law();
    one_ground_law();
    no_ground_law();
    one_live_word_law();
    one_tables_law::<()>();
    one_pack_meaning_law();
    one_pack_answer_law::<Mark>();
    one_text_meaning_law();
    one_reading_law();
    one_nesting_law();
    one_denial_meaning_law();
    one_judged_law::<()>();
    one_denial_law::<()>();
}

/// A fault that a device counted shows in the status.
pub fn faults_law<S: Source>()
    ensures { FaultsShow S }
{}

/// Each status comes only by its cause, and at most one count of faults rises.
pub fn causes_law<S: Source>()
    ensures causes { ComesByCause S }
    ensures one { RaisesOneAtMost S }
{}

/// Where the words are a command, what it reads is within its grammars and limits, and no device
/// failed, what was asked was done, or is answered by no, or a list, the missing elements, or what
/// is made for tables or a denial passes a limit, or there was no memory and nothing was written.
pub fn within_law<S: Source>()
    ensures { AnswersWithin S }
{
    one_expansion_law();
    one_meaning_law();
    one_document_meaning_law();
    one_pack_meaning_law();
    one_text_meaning_law();
    one_reading_law();
    one_nesting_law();
    one_denial_meaning_law();
    complete_law::<S>();
}

/// Whatever run of `verify` ends with status 0 has written `accepted K`, where K is the least
/// number of missing elements and the pack's body completes the document by so many, whoever made
/// the pack.
pub fn verify_law<S: Source>()
    ensures { AcceptsLeast S }
{}

/// Whatever run of `deny` ends with status 0 has written `denied PATH`, and no insertions make the
/// document valid, whoever made the denial.
pub fn deny_law<S: Source>()
    ensures { DeniesImpossible S }
{}
