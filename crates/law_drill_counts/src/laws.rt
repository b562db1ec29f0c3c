//! Laws on what a drill counts. Their functions do nothing.

ghost use Rattle.law_drill_counts.specs.Counts.{CountsByFormula, DrillsBegin, PrintsFormula};
ghost use Rattle.law_drill_counts.specs.Counts.{RespondsByFormula};

use law_drill_tree::laws::{document_law, dtd_law};
use pv_cli::laws::complete_law;
use pv_dtd::laws::one_meaning_law;
use pv_io::Source;
use pv_missing::laws::verdicts::none_impossible_law;
use pv_read::laws::{meant_law, one_document_law, one_meaning_law as one_document_meaning_law};
use pv_script::laws::one_command_law;

/// A drill begins a session, whoever answers its lines there gets the counts of the formula, and
/// `drill` responds with their line.
pub fn drill_counts_law()
    ensures begins { DrillsBegin }
    ensures counts { CountsByFormula }
    ensures response { RespondsByFormula }
{
    one_meaning_law();
    one_document_meaning_law();
    meant_law();
    one_document_law();
    one_command_law();
    none_impossible_law::<()>();
    dtd_law();
    document_law();
}

/// Where no device failed, a run of a drill wrote the line of the formula, or there was no memory
/// and it wrote nothing.
pub fn drill_prints_law<S: Source>()
    ensures { PrintsFormula S }
{
    drill_counts_law();
    complete_law::<S>();
}
