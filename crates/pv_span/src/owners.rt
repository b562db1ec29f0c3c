//! The owners of lists, under a grammar that is laid out.

ghost use Rattle.std.specs.Prelude.{◌↔◌, IsTrue};
ghost use Rattle.pv_rules.specs.Sites.{HasSite};
ghost use Rattle.pv_productive.specs.PlainForms.{dtd_of};
ghost use Rattle.pv_missing.specs.PlainForms.{plain_of};

use pv_layout::ColumnLayout;
use pv_missing::Of;
use pv_productive::Grammar;
use pv_rules::Site;

/// Whether the grammar has the owner's name.
pub fn is_known_owner(grammar: &Grammar, of: Of) -> bool
    ensures { IsTrue result ↔ HasSite (dtd_of grammar.now) (plain_of of) }
{
    match of {
        Of::Root(id) | Of::Elem(id) => id.0 < grammar.dtd().names(),
    }
}

/// The owner of a list, whose name the grammar has.
#[derive(Clone, Copy)]
pub struct ListOwner<'a> {
    /// The grammar, laid out.
    pub layout: &'a ColumnLayout<'a>,
    /// The owner.
    pub of: Of,
    pub ghost has: { ∥ HasSite (dtd_of layout.now.grammar.now) (plain_of of) ∥₁ },
}

impl ListOwner<'_> {
    ghost use Rattle.std.specs.Prelude.{◌≡◌};
    ghost use Rattle.pv_rules.specs.PlainForms.{plain_site};
    ghost use Rattle.pv_missing.specs.PlainForms.{plain_of};

    /// The site of what the owner's kids are to be.
    pub fn site(&self) -> Site
        ensures { plain_site result ≡ plain_of self.now.of }
    {
        match self.of {
            Of::Root(id) => Site::Name(id),
            Of::Elem(id) => Site::Content(id),
        }
    }
}
