//! All layers, and the free columns.

ghost use Rattle.std.specs.Prelude.{◌≡◌, ◌<◌, ◌^◌, IfOk, get_or, length, true};
ghost use Rattle.pv_columns.specs.Frees.{AreFree, RepeatBefore};
ghost use Rattle.pv_columns.specs.ColumnRules.{InRange};
ghost use Rattle.pv_columns.specs.Rows.{AreEdges};
ghost use Rattle.pv_columns.specs.Sets.{AreLayers, AreTokensBelow, TakesAll};

use crate::frees::{is_within, keep_repeating, repeats_of};
use crate::layers::Edge;
use crate::rows::layer_of;
use crate::rules::ColumnRule;
use std::alloc::{AllocError, Global};

/// Which tokens each column takes, of 64 tokens.
#[derive(Debug, Drop)]
pub struct Layer {
    pub words: Vec<u64>,
}

/// Which tokens each column takes, of 64 tokens for each layer.
pub fn layers_of(
    alloc: Global,
    rules: &[ColumnRule],
    live: &[bool],
    edges: &[Edge],
    count: u64,
    width: usize,
) -> Result<Vec<Layer>, AllocError>
    requires in_range { InRange width rules.now }
    requires edges { AreEdges rules.now live.now edges.now }
    ensures count { IfOk result (λ layers. length layers.items ≡ count) }
    ensures exact { IfOk result (λ layers. AreLayers rules.now live.now layers.items) }
{
    let mut layers = Vec::new(alloc);
    for layer_number in 0..count {
        let words = layer_of(alloc, rules, live, edges, layer_number, width)?;
        layers.push(Layer { words })?;
    }
    Ok(layers)
}

/// Whether a column takes all that another one takes.
pub fn takes_all(
    rules: &[ColumnRule],
    live: &[bool],
    layers: &[Layer],
    big: usize,
    small: usize,
) -> bool
    requires layers { AreLayers rules.now live.now layers.now }
    requires tokens { AreTokensBelow (length layers.now) rules.now }
    ensures { result ≡ true → TakesAll rules.now live.now big small }
{
    for layer in layers {
        let more = layer.words.get(big).copied().unwrap_or(0);
        let fewer = layer.words.get(small).copied().unwrap_or(0);
        if !is_within(fewer, more) {
            return false;
        }
    }
    true
}

/// The columns that repeat all that they take.
pub(crate) fn repeating_columns(
    alloc: Global,
    rules: &[ColumnRule],
    live: &[bool],
    layers: &[Layer],
    width: usize,
) -> Result<Vec<bool>, AllocError>
    requires in_range { InRange width rules.now }
    requires layers { AreLayers rules.now live.now layers.now }
    requires tokens { AreTokensBelow (length layers.now) rules.now }
    requires few { length layers.now < 2 ^ 32 }
    ensures { IfOk result (λ frees. AreFree rules.now live.now frees.items) }
{
    let mut frees = Vec::from_slice(alloc, live)?;
    for (number, layer) in layers.iter().enumerate() {
        let repeats = repeats_of(
            alloc,
            rules,
            live,
            number as u64,
            layer.words.as_slice(),
            width,
        )?;
        keep_repeating(layer.words.as_slice(), repeats.as_slice(), &mut frees);
    }
    Ok(frees)
}
