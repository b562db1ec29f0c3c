//! Building a grammar.

ghost use Rattle.std.specs.Prelude.{◌≡◌, IfOk};
ghost use Rattle.pv_dtd.specs.PlainForms.{plain_dtd};
ghost use Rattle.pv_productive.specs.PlainForms.{dtd_of};
ghost use Rattle.pv_productive.specs.Tables.{AreSizes};

use crate::grammar::Grammar;
use crate::layout::Layout;
use crate::lowering::lower_all;
use crate::sizes::Sizes;
use crate::spread::spread;
use pv_chars::NoMemory;
use pv_dtd::Dtd;
use std::alloc::Global;

/// The least sizes of the names of a DTD that is laid out.
fn least_sizes(alloc: Global, layout: &Layout) -> Result<Vec<u32>, NoMemory>
    ensures { IfOk result (λ names. AreSizes (plain_dtd layout.now.dtd) names.items) }
{
    let mut sizes = Sizes::new(alloc, layout)?;
    spread(alloc, layout, &mut sizes)?;
    while lower_all(layout, &mut sizes) {}
    let Sizes {
        names,
        parts: _,
        rests: _,
    } = sizes;
    Ok(names)
}

/// Finds the productive names of a DTD, and their least sizes.
///
/// It takes memory for the parts of the DTD, for the sizes of parts and names, and for the names
/// that content models mention; `NoMemory` says that there was no memory for them. The DTD is
/// dropped then.
pub fn build(alloc: Global, dtd: Dtd) -> Result<Grammar, NoMemory>
    ensures { IfOk result (λ grammar. dtd_of grammar ≡ plain_dtd dtd) }
{
    let layout = Layout::of(alloc, dtd)?;
    match least_sizes(alloc, &layout) {
        Ok(names) => Ok(Grammar::of(layout, names)),
        Err(error) => Err(error),
    }
}
