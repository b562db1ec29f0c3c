//! The sites of the missing grammar.

ghost use Rattle.std.specs.Prelude.{◌≡◌, ◌↔◌, IsTrue, slice_get};
ghost use Rattle.pv_dtd.specs.Plain.{PlainDtd};
ghost use Rattle.pv_dtd.specs.PlainForms.{plain_dtd};
ghost use Rattle.pv_rules.specs.PlainForms.{IsFlat, plain_site};
ghost use Rattle.pv_rules.specs.Sites.{HasSite, rest_site};

use crate::flat::Membership;
use crate::flat_dtd::FlatDtd;
use pv_dtd::Dtd;
use pv_model::NameId;

/// What a part of a word may stand for: an element of a name, the content of such an element, a
/// part of a content model by its number, or the members of a sequence from the one with this
/// number on.
#[derive(Clone, Copy, Debug, PartialEq, Eq)]
pub enum Site {
    Name(NameId),
    Content(NameId),
    Part(u32),
    Rest(u32),
}

/// Whether the part of a number is a member of a sequence.
fn is_member(flat: &FlatDtd, number: u32) -> bool
    ensures { (g : PlainDtd) → IsFlat g flat.now → IsTrue result ↔ HasSite g (rest_site number) }
{
    let Some(part) = flat.part(number) else {
        return false;
    };
    match part.membership {
        Membership::Outside => false,
        Membership::Followed | Membership::Last => true,
    }
}

/// Whether a DTD, whose parts are laid out flat, has a site.
pub fn has_site(dtd: &Dtd, flat: &FlatDtd, site: Site) -> bool
    requires { IsFlat (plain_dtd dtd.now) flat.now }
    ensures { IsTrue result ↔ HasSite (plain_dtd dtd.now) (plain_site site) }
{
    match site {
        Site::Name(id) | Site::Content(id) => id.0 < dtd.names(),
        Site::Part(number) => number < dtd.parts(),
        Site::Rest(number) => is_member(flat, number),
    }
}
