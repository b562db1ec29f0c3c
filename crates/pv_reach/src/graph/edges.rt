//! Columns that lead to others at one place.
//!
//! A column leads to each column on the right of its rules without a token, where all of these
//! reach over no tokens: it reaches whatever they reach.

ghost use Rattle.std.specs.Prelude.{◌≡◌, ◌⊎◌, ℕ, Contains, IfOk};
ghost use Rattle.pv_columns.specs.Marks.{AreNullable};
ghost use Rattle.pv_reach.specs.LeadingColumns.{AreRightEdges, IsRightEdgeOf, Turned};

use pv_columns::{ColumnRule, Edge, is_open};
use std::alloc::{AllocError, Global};

/// Appends the edges of a rule.
fn push_edges(rule: &ColumnRule, edges: &mut Vec<Edge>) -> Result<(), AllocError>
    ensures { IfOk result (λ _. (e : Edge) → Contains edges.new.items e →
        Contains edges.old.items e ⊎ IsRightEdgeOf rule.now e) }
{
    for column in &rule.columns {
        edges.push(Edge {
            from: rule.left,
            to: *column,
        })?;
    }
    Ok(())
}

/// The edges of the rules, where these columns reach over no tokens.
pub fn edges_of(alloc: Global, rules: &[ColumnRule], bare: &[bool]) -> Result<Vec<Edge>, AllocError>
    requires { AreNullable rules.now bare.now }
    ensures { IfOk result (λ edges. AreRightEdges rules.now edges.items) }
{
    let mut edges = Vec::new(alloc);
    for rule in rules {
        if is_open(rule, bare) {
            push_edges(rule, &mut edges)?;
        }
    }
    Ok(edges)
}

/// The edges the other way.
pub fn turned_edges(alloc: Global, edges: &[Edge]) -> Result<Vec<Edge>, AllocError>
    ensures { IfOk result (λ turned. Turned edges.now turned.items) }
{
    let mut turned = Vec::new(alloc);
    for edge in edges {
        turned.push(Edge {
            from: edge.to,
            to: edge.from,
        })?;
    }
    Ok(turned)
}
