//! A DTD together with the least size of each of its names.

ghost use Rattle.pv_dtd.specs.PlainForms.{plain_dtd};
ghost use Rattle.pv_productive.specs.Tables.{AreSizes};

use crate::layout::Layout;
use crate::sizes::{NO_SIZE, size_at};
use pv_dtd::Dtd;
use pv_model::NameId;
use pv_rules::{FlatContent, FlatDtd, FlatPart, Site, has_site};

/// A DTD, its parts by number, and which of its names are productive: of which some element is
/// valid, with all that it holds.
#[derive(Debug, Drop)]
pub struct Grammar {
    layout: Layout,
    sizes: Vec<u32>,
    pub ghost sized: { ∥ AreSizes (plain_dtd layout.dtd) sizes.items ∥₁ },
}

impl Grammar {
    ghost use Rattle.std.specs.Prelude.{◌≡◌, ◌<◌, ◌↔◌, IsTrue, MatchOption, length, slice_get};
    ghost use Rattle.pv_dtd.specs.Productive.{IsProductive};
    ghost use Rattle.pv_dtd.specs.PlainForms.{plain_dtd};
    ghost use Rattle.pv_rules.specs.Flat.{flat_contents, flat_parts};
    ghost use Rattle.pv_rules.specs.PlainForms.{IsFlat, plain_site};
    ghost use Rattle.pv_rules.specs.Sites.{HasSite};
    ghost use Rattle.pv_productive.specs.PlainForms.{dtd_of};
    ghost use Rattle.pv_productive.specs.Sizes.{IsCutSize};

    // The grammar of a DTD that is laid out, with the sizes of its names.
    pub(crate) fn of(layout: Layout, sizes: Vec<u32>) -> Grammar
        requires { AreSizes (plain_dtd layout.dtd) sizes.items }
        ensures { result.layout ≡ layout }
    {
        Grammar { layout, sizes }
    }

    /// The DTD.
    pub fn dtd(&self) -> &Dtd
        ensures { plain_dtd result.now ≡ dtd_of self.now }
    {
        self.layout.dtd()
    }

    /// The parts and content models of the DTD, by number.
    pub fn flat(&self) -> &FlatDtd
        ensures { IsFlat (dtd_of self.now) result.now }
    {
        self.layout.flat()
    }

    /// The part of a number, where there is one.
    pub fn part_of(&self, number: u32) -> Option<FlatPart>
        ensures { result ≡ slice_get (flat_parts (dtd_of self.now)) number }
    {
        self.layout.part(number)
    }

    /// The content model of a name, where it is declared.
    pub fn content_of(&self, id: NameId) -> Option<FlatContent>
        ensures { result ≡ slice_get (flat_contents 0 (dtd_of self.now).models) id.0 }
    {
        self.layout.content(id.0)
    }

    /// Whether the DTD has a site.
    pub fn has_site(&self, site: Site) -> bool
        ensures { IsTrue result ↔ HasSite (dtd_of self.now) (plain_site site) }
    {
        has_site(self.layout.dtd(), self.layout.flat(), site)
    }

    /// Whether some element of this name is good: its name is declared, and so it is for all
    /// elements within it, and the content of each is one that its model allows (section 3, the
    /// constraint Element Valid).
    pub fn is_productive(&self, id: NameId) -> bool
        requires { id.0 < length (dtd_of self.now).names }
        ensures { IsTrue result ↔ IsProductive (dtd_of self.now) id.0 }
    {
        size_at(self.sizes.as_slice(), id.0) < NO_SIZE
    }

    /// The least number of elements of a good element of this name, itself included, or 1,000,001
    /// where that is more than 1,000,000; `None` where the name isn't productive.
    pub fn least_tree(&self, id: NameId) -> Option<u64>
        requires { id.0 < length (dtd_of self.now).names }
        ensures { MatchOption result (¬ IsProductive (dtd_of self.now) id.0)
            (λ size. IsCutSize (dtd_of self.now) id.0 size) }
    {
        let size = size_at(self.sizes.as_slice(), id.0);
        if size < NO_SIZE {
            Some(u64::from(size))
        } else {
            None
        }
    }
}
