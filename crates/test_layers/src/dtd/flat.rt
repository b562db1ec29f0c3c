//! Parts of a DTD laid out flat, and its sites.

ghost use Rattle.pv_dtd.specs.PlainForms.{plain_dtd};
ghost use Rattle.pv_rules.specs.PlainForms.{IsFlat};

use crate::dtd::expectations::expect;
use pv_dtd::{Dtd, read_dtd};
use pv_model::NameId;
use pv_rules::{ContentKind, FlatContent, FlatDtd, FlatPart, Kind, Membership, Site, has_site};
use std::process::Abort;
use std::test::Fail;

/// The model `(b, (c | d*)+)`, one of mixed content, and two without parts.
const TEXT: &str = "<!ELEMENT a (b, (c | d*)+)>
<!ELEMENT b (#PCDATA | c)*>
<!ELEMENT c EMPTY>
<!ELEMENT d ANY>
";

/// The parts: of each its kind, its end, and its membership.
static PARTS: [(Kind, u32, Membership); 8] = [
    (Kind::Seq, 7, Membership::Outside),
    (Kind::Name(NameId(1)), 2, Membership::Followed),
    (Kind::Plus, 7, Membership::Last),
    (Kind::Choice, 7, Membership::Outside),
    (Kind::Name(NameId(2)), 5, Membership::Outside),
    (Kind::Star, 7, Membership::Outside),
    (Kind::Name(NameId(3)), 7, Membership::Outside),
    (Kind::Name(NameId(2)), 8, Membership::Outside),
];

fn are_parts(rt: &impl Abort, parts: &[FlatPart]) {
    assert!(rt; parts.len() == PARTS.len());
    for (part, (kind, end, membership)) in parts.iter().zip(&PARTS) {
        let holds = part.kind == *kind && part.end == *end && part.membership == *membership;
        expect(rt, holds, end);
    }
}

/// The contents of the names: of each its kind, its first part, and the part after its last.
static CONTENTS: [(ContentKind, u32, u32); 4] = [
    (ContentKind::Children, 0, 7),
    (ContentKind::Mixed, 7, 8),
    (ContentKind::Empty, 8, 8),
    (ContentKind::Any, 8, 8),
];

fn are_contents(rt: &impl Abort, contents: &[FlatContent]) {
    assert!(rt; contents.len() == CONTENTS.len());
    for (content, (kind, first, end)) in contents.iter().zip(&CONTENTS) {
        let holds = content.kind == *kind && content.first == *first && content.end == *end;
        expect(rt, holds, first);
    }
}

/// Sites, each with whether the DTD has it.
static SITES: [(Site, bool); 8] = [
    (Site::Name(NameId(3)), true),
    (Site::Content(NameId(4)), false),
    (Site::Part(7), true),
    (Site::Part(8), false),
    (Site::Rest(0), false),
    (Site::Rest(1), true),
    (Site::Rest(2), true),
    (Site::Rest(3), false),
];

fn are_sites(rt: &impl Abort, dtd: &Dtd, flat: &FlatDtd)
    requires { IsFlat (plain_dtd dtd.now) flat.now }
{
    for (site, wanted) in &SITES {
        expect(rt, has_site(dtd, flat, *site) == *wanted, site);
    }
}

#[test]
fn laid_out_flat(rt: HostRuntime) -> Result<(), Fail> {
    let dtd = read_dtd(rt.alloc(), TEXT.as_bytes())?;
    let flat = FlatDtd::of(rt.alloc(), &dtd)?;
    are_parts(&rt, flat.parts());
    are_contents(&rt, flat.contents());
    are_sites(&rt, &dtd, &flat);
    Ok(())
}
