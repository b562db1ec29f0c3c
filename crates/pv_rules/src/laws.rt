//! The laws of rules, parts and derivations, each the contract of a function that does nothing.

ghost use Rattle.std.specs.Prelude.{List};
ghost use Rattle.pv_model.specs.Plain.{PlainToken};
ghost use Rattle.pv_dtd.specs.Plain.{PlainDtd};
ghost use Rattle.pv_rules.specs.Rules.{Goal, Rule};
ghost use Rattle.pv_rules.specs.Laws.{AttainedAreWeights, BarrierHolds, ClosedAtSitesIsClosed};
ghost use Rattle.pv_rules.specs.Laws.{ClosedIsBelow, ClosedSetHolds, OneWeight, RowsMakeBarrier};
ghost use Rattle.pv_rules.specs.Laws.{RulesAreOfTheirKind, RulesAreOverSpans, RulesAreSmall};
ghost use Rattle.pv_rules.specs.Laws.{RulesKeepSites, WeightsAreClosed};
ghost use Rattle.pv_rules.specs.PartLaws.{FlatByNumber, PartsAreFormed, PartsByNumber};

/// No derivation weighs less than a closed table says.
pub fn closed_below_law()
    ensures { (g : PlainDtd) (w : List PlainToken) → ClosedIsBelow Goal (Rule g w) }
{}

/// Whatever has a derivation is in each closed set.
pub fn closed_set_law()
    ensures { (g : PlainDtd) (w : List PlainToken) → ClosedSetHolds Goal (Rule g w) }
{}

/// A weight is unique.
pub fn one_weight_law()
    ensures { (g : PlainDtd) (w : List PlainToken) → OneWeight Goal (Rule g w) }
{}

/// The table of all weights is closed.
pub fn weights_closed_law()
    ensures { (g : PlainDtd) (w : List PlainToken) → WeightsAreClosed Goal (Rule g w) }
{}

/// Values of a closed table that are attained are weights.
pub fn attained_law()
    ensures { (g : PlainDtd) (w : List PlainToken) → AttainedAreWeights Goal (Rule g w) }
{}

/// Each rule is over a span of the word, and its right sides over spans within.
pub fn spans_law()
    ensures { (g : PlainDtd) (w : List PlainToken) → RulesAreOverSpans g w }
{}

/// A rule costs at most 1, and has at most two right sides.
pub fn small_law()
    ensures { (g : PlainDtd) (w : List PlainToken) → RulesAreSmall g w }
{}

/// The rules of a site are those of what stands there.
pub fn kinds_law()
    ensures { (g : PlainDtd) (w : List PlainToken) → RulesAreOfTheirKind g w }
{}

/// The right sides of a rule are sites of the DTD where the left side is one.
pub fn sites_law()
    ensures { (g : PlainDtd) (w : List PlainToken) → RulesKeepSites g w }
{}

/// A table that is closed at the sites of a DTD, and heaviest elsewhere, is closed.
pub fn closed_at_sites_law()
    ensures { (g : PlainDtd) (w : List PlainToken) → ClosedAtSitesIsClosed g w }
{}

/// No derivation leads beyond a barrier.
pub fn barrier_law()
    ensures { (g : PlainDtd) (w : List PlainToken) → BarrierHolds g w }
{}

/// Rows that rise are a barrier exactly where the rules hold whose right sides end where they say.
pub fn barrier_rows_law()
    ensures { (g : PlainDtd) (w : List PlainToken) → RowsMakeBarrier g w }
{}

/// What stands at the numbers within and after a part.
pub fn parts_law()
    ensures { (g : PlainDtd) → PartsByNumber g }
{}

/// Each part is formed as the models are.
pub fn formed_law()
    ensures { (g : PlainDtd) → PartsAreFormed g }
{}

/// The parts laid out flat are those of the numbers.
pub fn flat_law()
    ensures { (g : PlainDtd) → FlatByNumber g }
{}
