//! The laws of productive names, each the contract of a function that does nothing.

ghost use Rattle.pv_productive.specs.Laws.{ProductiveDerives, ProductiveIsElement};
ghost use Rattle.pv_productive.specs.Laws.{SizeIsOfElement, SizeIsWeight};

/// A name is productive exactly where some hedge is one good element of it.
pub fn productive_element_law()
    ensures { ProductiveIsElement }
{}

/// The least size of a name is the least number of elements of a hedge that is one good element of
/// it.
pub fn size_of_element_law()
    ensures { SizeIsOfElement }
{}

/// A name is productive exactly where its content has a derivation over no tokens.
pub fn productive_law()
    ensures { ProductiveDerives }
{}

/// The least size of a name is one more than the least weight of its content over no tokens.
pub fn size_law()
    ensures { SizeIsWeight }
{}
