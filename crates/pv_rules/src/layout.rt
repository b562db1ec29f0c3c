//! Laying out content models, part by part.

ghost use Rattle.std.specs.Prelude.{◌≡◌, ◌+◌, ◌++◌, ◌<◌, ◌≤◌, ◌^◌, length, OnOk};
ghost use Rattle.pv_model.specs.PlainForms.{numbers_of, plain_model, plain_part, plain_parts};
ghost use Rattle.pv_dtd.specs.Plain.{parts_in, parts_in_all, parts_in_model};
ghost use Rattle.pv_rules.specs.Flat.{content_kind_of, flat_members, flat_model, flat_names};
ghost use Rattle.pv_rules.specs.Flat.{flat_part, flat_within, kind_of, membership_of};

use crate::flat::{ContentKind, FlatPart, Kind, Membership};
use pv_chars::NoMemory;
use pv_model::{ContentModel, NameId, Part};

/// What a content model is, without its parts.
pub fn content_kind_of(model: &ContentModel) -> ContentKind
    ensures { result ≡ content_kind_of (plain_model model.now) }
{
    match model {
        ContentModel::Empty => ContentKind::Empty,
        ContentModel::Any => ContentKind::Any,
        ContentModel::Mixed(_) => ContentKind::Mixed,
        ContentModel::Children(_) => ContentKind::Children,
    }
}

/// Appends the parts of a content model.
pub fn push_model(model: &ContentModel, parts: &mut Vec<FlatPart>) -> Result<(), NoMemory>
    requires { length parts.old.items + parts_in_model (plain_model model.now) < 2 ^ 32 }
    ensures { OnOk result (parts.new.items ≡ parts.old.items ++
        flat_model (length parts.old.items) (plain_model model.now)) }
{
    match model {
        ContentModel::Empty => Ok(()),
        ContentModel::Any => Ok(()),
        ContentModel::Mixed(names) => push_names(names.as_slice(), parts),
        ContentModel::Children(part) => push_part(part, Membership::Outside, parts),
    }
}

/// Appends the names of a mixed model.
fn push_names(names: &[NameId], parts: &mut Vec<FlatPart>) -> Result<(), NoMemory>
    requires { length parts.old.items + length names.now < 2 ^ 32 }
    ensures { OnOk result (parts.new.items ≡ parts.old.items ++
        flat_names (length parts.old.items) (numbers_of names.now)) }
{
    for name in names {
        let end = parts.len() as u32 + 1;
        parts.push(FlatPart {
            kind: Kind::Name(*name),
            end,
            membership: Membership::Outside,
        })?;
    }
    Ok(())
}

fn kind_of(part: &Part) -> Kind
    ensures { result ≡ kind_of (plain_part part.now) }
{
    match part {
        Part::Name(name) => Kind::Name(*name),
        Part::Seq(_) => Kind::Seq,
        Part::Choice(_) => Kind::Choice,
        Part::Opt(_) => Kind::Opt,
        Part::Star(_) => Kind::Star,
        Part::Plus(_) => Kind::Plus,
    }
}

fn membership_of(in_sequence: bool, has_more: bool) -> Membership
    ensures { result ≡ membership_of in_sequence has_more }
{
    if !in_sequence {
        Membership::Outside
    } else if has_more {
        Membership::Followed
    } else {
        Membership::Last
    }
}

/// Appends a part and all within it.
#[cycle(push_part)]
fn push_part(part: &Part, membership: Membership, parts: &mut Vec<FlatPart>) -> Result<(), NoMemory>
    requires { length parts.old.items + parts_in (plain_part part.now) < 2 ^ 32 }
    ensures { OnOk result (parts.new.items ≡ parts.old.items ++
        flat_part (length parts.old.items) membership (plain_part part.now)) }
{
    let number = parts.len();
    parts.push(FlatPart {
        kind: kind_of(part),
        end: 0,
        membership,
    })?;
    push_within(part, parts)?;
    parts[number].end = parts.len() as u32;
    Ok(())
}

/// Appends all within a part.
#[cycle(push_part)]
fn push_within(part: &Part, parts: &mut Vec<FlatPart>) -> Result<(), NoMemory>
    requires { length parts.old.items + parts_in (plain_part part.now) ≤ 2 ^ 32 }
    ensures { OnOk result (parts.new.items ≡ parts.old.items ++
        flat_within (length parts.old.items) (plain_part part.now)) }
{
    match part {
        Part::Name(_) => Ok(()),
        Part::Seq(members) => push_members(members, true, parts),
        Part::Choice(members) => push_members(members, false, parts),
        Part::Opt(inner) => push_part(inner, Membership::Outside, parts),
        Part::Star(inner) => push_part(inner, Membership::Outside, parts),
        Part::Plus(inner) => push_part(inner, Membership::Outside, parts),
    }
}

/// Appends members side by side.
#[cycle(push_part)]
fn push_members(
    members: &[Part],
    in_sequence: bool,
    parts: &mut Vec<FlatPart>,
) -> Result<(), NoMemory>
    requires { length parts.old.items + parts_in_all (plain_parts members.now) < 2 ^ 32 }
    ensures { OnOk result (parts.new.items ≡ parts.old.items ++
        flat_members (length parts.old.items) in_sequence (plain_parts members.now)) }
{
    for (i, member) in members.iter().enumerate() {
        push_part(
            member,
            membership_of(in_sequence, i + 1 < members.len()),
            parts,
        )?;
    }
    Ok(())
}
