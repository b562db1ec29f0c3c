//! The columns that reach over no tokens.

ghost use Rattle.std.specs.Prelude.{◌≡◌, ◌<◌, ◌⊎◌, ℕ, IfOk, false, length, slice_index_or, true};
ghost use Rattle.pv_dtd.specs.Productive.{IsProductive};
ghost use Rattle.pv_productive.specs.PlainForms.{dtd_of};
ghost use Rattle.pv_reach.specs.Columns.{AreRules};
ghost use Rattle.pv_columns.specs.Marks.{AreNullable};

use crate::graph::flags::set_flag;
use pv_columns::{ColumnRule, is_open};
use pv_model::NameId;
use pv_productive::Grammar;
use std::alloc::{AllocError, Global};

/// Marks a name, if it is productive.
fn set_name(grammar: &Grammar, name: u32, flags: &mut Vec<bool>)
    requires { name < length (dtd_of grammar.now).names }
    ensures { (x : ℕ) → slice_index_or flags.new.items x false ≡ true →
        IsProductive (dtd_of grammar.now) x ⊎ (slice_index_or flags.old.items x false ≡ true) }
{
    if grammar.is_productive(NameId(name)) {
        set_flag(flags, name as usize);
    }
}

/// Marks the productive names.
fn set_names(grammar: &Grammar, flags: &mut Vec<bool>)
    ensures { (x : ℕ) → slice_index_or flags.new.items x false ≡ true →
        IsProductive (dtd_of grammar.now) x ⊎ (slice_index_or flags.old.items x false ≡ true) }
{
    for name in 0..grammar.dtd().names() {
        set_name(grammar, name, flags);
    }
}

/// The columns that reach over no tokens: the contents of productive names, and with them, from
/// inner parts outwards, whatever has a rule of such columns.
pub fn bare_columns(
    alloc: Global,
    grammar: &Grammar,
    rules: &[ColumnRule],
    width: usize,
) -> Result<Vec<bool>, AllocError>
    requires { AreRules (dtd_of grammar.now) rules.now }
    ensures { IfOk result (λ flags. AreNullable rules.now flags.items) }
{
    let mut flags = vec![in alloc; false; width]?;
    set_names(grammar, &mut flags);
    for rule in rules {
        if is_open(rule, &flags) {
            set_flag(&mut flags, rule.left);
        }
    }
    Ok(flags)
}
