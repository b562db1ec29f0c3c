//! Columns as they are made: what stands in each, with one column for what is found again.

ghost use Rattle.std.specs.Prelude.{◌≡◌, ◌+◌, ◌≤◌, IsTrue, length};
ghost use Rattle.pv_layout.specs.FormForms.{plain_form};

use crate::forms::Form;
use crate::sites::NO_COLUMN;
use pv_chars::NoMemory;
use std::alloc::Global;

/// How many slots there are.
const SLOTS: usize = 16_384;

/// The columns that are made, numbered after those of the names. A slot has the number of a column
/// whose form has the slot's hash.
#[derive(Debug, Drop)]
pub struct Making {
    pub names: u32,
    pub forms: Vec<Form>,
    slots: Vec<u32>,
    pub ghost few: { names + length forms.items ≤ 4294967295 },
}

fn mix_in(hash: u32, number: u32) -> u32 {
    hash.wrapping_mul(40_503)
        .wrapping_add(number.wrapping_mul(9_973))
}

fn hash_of_all(columns: &[u32]) -> u32 {
    let mut hash = 1;
    for column in columns.iter() {
        hash = mix_in(hash, *column);
    }
    hash
}

/// A number that is the same for the same forms.
fn hash_of(form: &Form) -> u32 {
    match form {
        Form::Never => 0,
        Form::Element(id, column) => mix_in(id.0, *column),
        Form::Nothing => 2,
        Form::OneOf(columns) => hash_of_all(columns),
        Form::Opt(column) => mix_in(3, *column),
        Form::Star(column, texts) => mix_in(if *texts { 4 } else { 5 }, *column),
        Form::Plus(column) => mix_in(6, *column),
        Form::Then(one, two) => mix_in(mix_in(7, *one), *two),
    }
}

fn are_same(columns: &[u32], others: &[u32]) -> bool
    ensures { IsTrue result → columns.now ≡ others.now }
{
    columns == others
}

/// Whether two forms are the same.
fn is_same(form: &Form, other: &Form) -> bool
    ensures { IsTrue result → plain_form form.now ≡ plain_form other.now }
{
    form == other
}

impl Making {
    ghost use Rattle.std.specs.Prelude.{◌≡◌, IfOk, IfSome, OnOk, [], length};
    ghost use Rattle.pv_layout.specs.FormForms.{plain_all, plain_form};
    ghost use Rattle.pv_layout.specs.Making.{IsMade, KeepsForms};

    /// No column but those of so many names.
    pub fn new(alloc: Global, names: u32) -> Result<Making, NoMemory>
        ensures names { IfOk result (λ making. making.names ≡ names) }
        ensures none { IfOk result (λ making. making.forms.items ≡ []) }
    {
        Ok(Making {
            names,
            forms: Vec::new(alloc),
            slots: vec![in alloc; NO_COLUMN; SLOTS]?,
        })
    }

    /// The column in which a form stands, where its slot tells it.
    fn find(&self, form: &Form, slot: usize) -> Option<u32>
        ensures { IfSome result (λ c. IsMade self.now.names (plain_all self.now.forms.items) c
            (plain_form form.now)) }
    {
        let column = *self.slots.get(slot)?;
        if column < self.names {
            return None;
        }
        let other = self.forms.get((column - self.names) as usize)?;
        if is_same(other, form) {
            Some(column)
        } else {
            None
        }
    }

    /// The column in which a form stands, which is made if need be.
    pub fn column(&mut self, form: Form) -> Result<u32, NoMemory>
        ensures made { IfOk result (λ c. IsMade self.new.names (plain_all self.new.forms.items) c
            (plain_form form)) }
        ensures kept { OnOk result (KeepsForms self.old.names (plain_all self.old.forms.items)
            (plain_all self.new.forms.items)) }
        ensures names { self.new.names ≡ self.old.names }
    {
        let slot = hash_of(&form) as usize % SLOTS;
        if let Some(column) = self.find(&form, slot) {
            return Ok(column);
        }
        let column = self.names as usize + self.forms.len();
        if column >= NO_COLUMN as usize {
            return Err(NoMemory);
        }
        self.forms.push(form)?;
        if slot < self.slots.len() {
            self.slots[slot] = column as u32;
        }
        Ok(column as u32)
    }
}
