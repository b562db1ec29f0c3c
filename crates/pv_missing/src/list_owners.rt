//! The owners of lists.

ghost use Rattle.std.specs.Prelude.{◌≡◌, IfSome};
ghost use Rattle.std.specs.Option.{option_map};
ghost use Rattle.pv_dtd.specs.PlainForms.{plain_dtd};
ghost use Rattle.pv_rules.specs.Sites.{HasSite};
ghost use Rattle.pv_tree.specs.Lists.{an_element, the_document};
ghost use Rattle.pv_missing.specs.PlainForms.{plain_of};
ghost use Rattle.pv_missing.specs.ListWeights.{site_of};

use crate::owners::Of;
use pv_dtd::Dtd;

/// The owner of an element's list; none where the DTD doesn't have its name.
pub fn element_owner(dtd: &Dtd, name: &[u8]) -> Option<Of>
    ensures owner { site_of (plain_dtd dtd.now) name.now (an_element name.now)
        ≡ option_map plain_of result }
    ensures known { IfSome result (λ of. HasSite (plain_dtd dtd.now) (plain_of of)) }
{
    match dtd.name_id(name) {
        Some(id) => Some(Of::Elem(id)),
        None => None,
    }
}

/// The owner of the document node's list; none where the DTD doesn't have the root's name.
pub fn root_owner(dtd: &Dtd, root: &[u8]) -> Option<Of>
    ensures owner { site_of (plain_dtd dtd.now) root.now the_document ≡ option_map plain_of result }
    ensures known { IfSome result (λ of. HasSite (plain_dtd dtd.now) (plain_of of)) }
{
    match dtd.name_id(root) {
        Some(id) => Some(Of::Root(id)),
        None => None,
    }
}
