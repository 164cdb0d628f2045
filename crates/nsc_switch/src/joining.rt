// Rows joined at the action merge: members of groups, and ids of a user's groups.
ghost use Rattle.std.specs.Prelude.{◌≡◌, ◌++◌, IfOk, OnOk, length};
ghost use Rattle.std.specs.BTreeSet.{IsFromIterResult};
ghost use Rattle.std.specs.Ordering.{nat_cmp};
ghost use Rattle.nsc_model.specs.Answers.{joined, joined_group, joined_ids, joined_row, row_in, with_members};
ghost use Rattle.nsc_model.specs.Wire.{group_found};
ghost use Rattle.nsc_switch.specs.Joins.{may_join};

use nsc_base::{Ids, NoMemory, Texts};
use nsc_model::{Group, Looked, Row};
use std::alloc::{AllocError, Global};
use std::collections::BTreeSet;

// The longest reply of a group to which others were joined, in bytes.
const JOIN_LIMIT: u128 = 134_217_728;

/// Joins an outcome to the row that is held, if one is. If no row was found, the held row stays.
pub(crate) fn join_outcome(
    alloc: Global,
    held: Option<Row>,
    outcome: Looked,
) -> Result<Looked, NoMemory>
    ensures { IfOk result (λ looked. looked ≡ joined held outcome) }
{
    let Some(held) = held else {
        return Ok(outcome);
    };
    match outcome {
        Looked::Found(found) => Ok(Looked::Found(join(alloc, held, found)?)),
        Looked::NotFound | Looked::Unavail => Ok(Looked::Found(held)),
    }
}

/// Takes the row of an outcome, if it has one.
pub(crate) fn row_in(outcome: Looked) -> Option<Row>
    ensures { result ≡ row_in outcome }
{
    match outcome {
        Looked::Found(row) => Some(row),
        Looked::NotFound | Looked::Unavail => None,
    }
}

// Joins the row that a later service found to the held row. Only groups and ids are joined; a held
// row of another kind stays.
fn join(alloc: Global, held: Row, found: Row) -> Result<Row, NoMemory>
    ensures { IfOk result (λ row. row ≡ joined_row held found) }
{
    match (held, found) {
        (Row::Group(held), Row::Group(found)) => Ok(Row::Group(join_groups(held, &found)?)),
        (Row::Groups(held), Row::Groups(found)) => Ok(Row::Groups(join_ids(
            alloc,
            held,
            found.as_slice(),
        )?)),
        (held, _) => Ok(held),
    }
}

// Appends the members of a found group to those of the held one, if the two may be joined. A member
// of both stands twice.
fn join_groups(held: Group, found: &Group) -> Result<Group, NoMemory>
    ensures { IfOk result (λ group. group ≡ joined_group held found.now) }
{
    let mut group = held;
    if may_join(&group, found) {
        append_members(&mut group.members, &found.members)?;
    }
    Ok(group)
}

// Whether two groups have one name and one id, and the reply of the joined group is not too long.
fn may_join(held: &Group, found: &Group) -> bool
    ensures { result ≡ may_join held.now found.now }
{
    held.name.as_slice() == found.name.as_slice()
        && held.gid == found.gid
        && joined_len(held, found) <= JOIN_LIMIT
}

// The length of the joined group's reply: six fields, a field for each member, and the texts, each
// with a zero byte. In `u128` the sum of such lengths, each below 2^64, does not overflow.
fn joined_len(held: &Group, found: &Group) -> u128
    ensures { result ≡ length (group_found (with_members held.now found.now)) }
{
    let members = held.members.len() as u128 + found.members.len() as u128;
    let texts = held.members.run().len() as u128 + found.members.run().len() as u128;
    24 + 4 * members + (held.name.len() as u128 + 1) + (held.passwd.len() as u128 + 1) + texts
}

// Appends copies of texts.
fn append_members(members: &mut Texts, found: &Texts) -> Result<(), NoMemory>
    ensures { OnOk result (members.new ≡ members.old ++ found.now) }
{
    for at in 0..found.len() {
        members.push(found.get(at))?;
    }
    Ok(())
}

// Appends the ids that are not among the held ones.
fn join_ids(alloc: Global, held: Ids, found: &[u32]) -> Result<Ids, NoMemory>
    ensures { IfOk result (λ ids. ids ≡ joined_ids held found.now) }
{
    let seen = set_of(alloc, held.as_slice())?;
    let mut ids = held.into_vec();
    for id in found {
        if !seen.contains(id) {
            ids.push(*id)?;
        }
    }
    Ok(Ids::from_vec(ids))
}

// The set of these ids.
fn set_of(alloc: Global, ids: &[u32]) -> Result<BTreeSet<u32>, AllocError>
    ensures { IfOk result (IsFromIterResult nat_cmp ids.now) }
{
    ids.iter().copied().collect(alloc)
}
