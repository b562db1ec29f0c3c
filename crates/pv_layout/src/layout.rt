//! A grammar with its columns.

ghost use Rattle.std.specs.Prelude.{◌≡◌, ◌≤◌, ◌++◌, IfOk, OnOk, length};
ghost use Rattle.pv_dtd.specs.Plain.{parts_in_models};
ghost use Rattle.pv_productive.specs.PlainForms.{dtd_of};
ghost use Rattle.pv_layout.specs.Columns.{AreFit, no_column};
ghost use Rattle.pv_layout.specs.FormForms.{plain_all};
ghost use Rattle.pv_layout.specs.Making.{AreLaid, element_forms};
ghost use Rattle.pv_layout.specs.Mentions.{AreTold};
ghost use Rattle.pv_layout.specs.SiteForms.{plain_sites};

use crate::forms::Form;
use crate::laying::{blank_sites, lay_content, lay_part};
use crate::making::Making;
use crate::mentions::Mentions;
use crate::sites::{Sites, column_at};
use pv_chars::NoMemory;
use pv_model::NameId;
use pv_productive::Grammar;
use pv_rules::Site;
use std::alloc::Global;

/// A grammar with its columns, laid out once for all words: which one each site has, what stands in
/// each, and which others mention it.
#[derive(Debug, Drop)]
pub struct ColumnLayout<'a> {
    /// The grammar.
    pub grammar: &'a Grammar,
    /// The column of each site.
    pub sites: Sites,
    /// What stands in each column, by its number.
    pub forms: Vec<Form>,
    /// Which columns mention each.
    pub mentions: Mentions,
    pub ghost fit: { ∥ AreFit (dtd_of grammar.now) (plain_sites sites) (plain_all forms.items) ∥₁ },
    pub ghost few: { length forms.items ≤ no_column },
    pub ghost told: { ∥ AreTold (plain_all forms.items) mentions ∥₁ },
}

/// The columns of a grammar, kept without it.
#[derive(Debug, Drop)]
pub struct Columns {
    sites: Sites,
    forms: Vec<Form>,
    mentions: Mentions,
    pub ghost few: { length forms.items ≤ no_column },
    pub ghost told: { ∥ AreTold (plain_all forms.items) mentions ∥₁ },
}

impl<'a> ColumnLayout<'a> {
    ghost use Rattle.std.specs.Prelude.{◌≡◌};
    ghost use Rattle.pv_rules.specs.PlainForms.{plain_site};
    ghost use Rattle.pv_productive.specs.PlainForms.{dtd_of};
    ghost use Rattle.pv_layout.specs.Columns.{column_of};
    ghost use Rattle.pv_layout.specs.KeptColumns.{AreColumnsOf};
    ghost use Rattle.pv_layout.specs.SiteForms.{plain_sites};

    /// A grammar with its columns, which were kept.
    pub fn of(grammar: &'a Grammar, columns: Columns) -> ColumnLayout<'a>
        requires { ∥ AreColumnsOf (dtd_of grammar.now) columns ∥₁ }
        ensures { result.grammar.now ≡ grammar.now }
    {
        ColumnLayout {
            grammar,
            sites: columns.sites,
            forms: columns.forms,
            mentions: columns.mentions,
        }
    }

    /// The columns alone.
    pub fn into_columns(self) -> Columns
        ensures { ∥ AreColumnsOf (dtd_of self.entry.grammar.now) result ∥₁ }
    {
        Columns {
            sites: self.sites,
            forms: self.forms,
            mentions: self.mentions,
        }
    }

    /// What stands in each column, by its number.
    pub fn forms(&self) -> &[Form]
        ensures { result.now ≡ self.now.forms.items }
    {
        self.forms.as_slice()
    }

    /// The column of a site of the grammar.
    pub fn column(&self, site: Site) -> u32
        ensures { result ≡ column_of (plain_sites self.now.sites) (plain_site site) }
    {
        self.sites.column(site)
    }
}

/// Gives all parts their columns, the last part first: what is within a part has higher numbers,
/// and so have the members after it.
fn lay_parts(
    alloc: Global,
    grammar: &Grammar,
    sites: &mut Sites,
    making: &mut Making,
) -> Result<(), NoMemory>
    requires { AreLaid (dtd_of grammar.now) (plain_sites sites.old) making.old.names
        (plain_all making.old.forms.items) (parts_in_models (dtd_of grammar.now).models) 0 }
    ensures { OnOk result (AreLaid (dtd_of grammar.now) (plain_sites sites.new)
        making.new.names (plain_all making.new.forms.items) 0 0) }
{
    for number in (0..grammar.dtd().parts()).rev() {
        lay_part(alloc, grammar, number, sites, making)?;
    }
    Ok(())
}

/// Gives the contents of all names that are declared their columns.
fn lay_contents(
    alloc: Global,
    grammar: &Grammar,
    sites: &mut Sites,
    making: &mut Making,
) -> Result<(), NoMemory>
    requires { AreLaid (dtd_of grammar.now) (plain_sites sites.old) making.old.names
        (plain_all making.old.forms.items) 0 0 }
    ensures { OnOk result (AreLaid (dtd_of grammar.now) (plain_sites sites.new)
        making.new.names (plain_all making.new.forms.items) 0
        (length (dtd_of grammar.now).models)) }
{
    for id in 0..grammar.dtd().count() {
        lay_content(alloc, grammar, NameId(id), sites, making)?;
    }
    Ok(())
}

/// Gives all sites their columns, where those of names have theirs.
fn lay_sites(
    alloc: Global,
    grammar: &Grammar,
    sites: &mut Sites,
    making: &mut Making,
) -> Result<(), NoMemory>
    requires { AreLaid (dtd_of grammar.now) (plain_sites sites.old) making.old.names
        (plain_all making.old.forms.items) (parts_in_models (dtd_of grammar.now).models) 0 }
    ensures { OnOk result (AreLaid (dtd_of grammar.now) (plain_sites sites.new)
        making.new.names (plain_all making.new.forms.items) 0
        (length (dtd_of grammar.now).models)) }
{
    lay_parts(alloc, grammar, sites, making)?;
    lay_contents(alloc, grammar, sites, making)?;
    Ok(())
}

/// What stands in all columns: in those of names, and in those that were made.
fn all_forms(
    alloc: Global,
    names: u32,
    contents: &[u32],
    made: Vec<Form>,
) -> Result<Vec<Form>, NoMemory>
    ensures { IfOk result (λ forms. plain_all forms.items ≡
        element_forms contents.now names ++ plain_all made.items) }
{
    let mut made = made;
    let mut forms = Vec::new(alloc);
    for name in 0..names {
        let content = column_at(contents, name as usize);
        forms.push(Form::Element(NameId(name), content))?;
    }
    forms.append(&mut made)?;
    Ok(forms)
}

/// The columns of all sites, among those that are made.
fn laid_sites(alloc: Global, grammar: &Grammar, making: &mut Making) -> Result<Sites, NoMemory>
    requires { making.old.names ≡ length (dtd_of grammar.now).names }
    ensures { IfOk result (λ sites. AreLaid (dtd_of grammar.now) (plain_sites sites)
        making.new.names (plain_all making.new.forms.items) 0
        (length (dtd_of grammar.now).models)) }
{
    let mut sites = blank_sites(alloc, making.names, grammar.dtd().parts())?;
    lay_sites(alloc, grammar, &mut sites, making)?;
    Ok(sites)
}

/// The column of each site, and what stands in each column.
fn sites_and_forms(alloc: Global, grammar: &Grammar) -> Result<(Sites, Vec<Form>), NoMemory>
    ensures fit { IfOk result (λ columns. AreFit (dtd_of grammar.now) (plain_sites columns.0)
        (plain_all columns.1.items)) }
    ensures few { IfOk result (λ columns. length columns.1.items ≤ no_column) }
{
    let mut making = Making::new(alloc, grammar.dtd().names())?;
    let sites = laid_sites(alloc, grammar, &mut making)?;
    let forms = all_forms(alloc, making.names, &sites.contents, making.forms)?;
    Ok((sites, forms))
}

/// A grammar with its columns. Sites that stand for the same words get one.
pub fn lay_out(alloc: Global, grammar: &Grammar) -> Result<ColumnLayout<'_>, NoMemory>
    ensures { IfOk result (λ layout. layout.grammar.now ≡ grammar.now) }
{
    let (sites, forms) = sites_and_forms(alloc, grammar)?;
    let mentions = Mentions::of(alloc, &forms)?;
    Ok(ColumnLayout {
        grammar,
        sites,
        forms,
        mentions,
    })
}
