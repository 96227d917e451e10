//! An object that is being read.
ghost use Rattle.std.specs.Prelude.{◌≡◌, [], IfOk, map, option_map, string_cmp};
ghost use Rattle.std.specs.BTreeMap.{insert_entry};
ghost use Rattle.serde_json.specs.Data as read_as;
ghost use Rattle.relay_tree.specs.Seen.{members_of};
ghost use Rattle.relay_tree.specs.Text.{members_tree};
ghost use Rattle.relay_tree.specs.Reading.{AreRead, as_read, members_read};

use crate::members::Members;
use crate::tree::Tree;
use std::alloc::{AllocError, Global};
use std::collections::BTreeMap;

/// The most members that are kept in a list, where an insertion moves those behind it.
const FEW: usize = 32;

/// For how many members a list has place at first.
const FIRST: usize = 4;

/// The members of an object so far, by name. Those of a small object are kept as they stay. Those
/// of another are kept in a map, so that names in any order cost a look-up each; so are members of
/// which one could not be read (`None`), since a later one may stand under its name.
#[derive(Drop)]
pub(crate) enum OpenObject {
    Few(Members),
    Many(BTreeMap<String, Option<Tree>>),
}

impl OpenObject {
    /// Begins an object. Allocates nothing.
    pub(crate) fn new(alloc: Global) -> OpenObject
        ensures { members_read result ≡ [] }
    {
        OpenObject::Few(Members::new(alloc))
    }

    /// Adds a member, in place of an earlier one with the same name.
    pub(crate) fn with(
        self,
        alloc: Global,
        name: String,
        value: Option<Tree>,
    ) -> Result<OpenObject, AllocError>
        ensures { IfOk result
            (λ object. members_read object
            ≡ insert_entry string_cmp (members_read self) name value) }
    {
        match self {
            OpenObject::Few(members) => with_next(alloc, members, name, value),
            OpenObject::Many(map) => Ok(OpenObject::Many(with_another(map, name, value)?)),
        }
    }

    /// Ends the object: returns its members, if all their values could be read.
    pub(crate) fn close(self, alloc: Global) -> Result<Option<Members>, AllocError>
        ensures { IfOk result
            (λ members. (ms : read_as.Members) → AreRead ms (members_read self)
            → members_tree ms ≡ option_map (λ m. members_of m.entries) members) }
    {
        match self {
            OpenObject::Few(mut members) => {
                members.trim();
                Ok(Some(members))
            }
            OpenObject::Many(map) => gather(alloc, map),
        }
    }
}

/// Adds a member to the list, or to a map of all members if there are many or it has no value.
fn with_next(
    alloc: Global,
    members: Members,
    name: String,
    value: Option<Tree>,
) -> Result<OpenObject, AllocError>
    ensures { IfOk result
        (λ object. members_read object
        ≡ insert_entry string_cmp (map as_read members.entries) name value) }
{
    let Some(value) = value else {
        let map = into_map(alloc, members)?;
        return Ok(OpenObject::Many(with_another(map, name, None)?));
    };
    if members.len() >= FEW {
        let map = into_map(alloc, members)?;
        return Ok(OpenObject::Many(with_another(map, name, Some(value))?));
    }
    Ok(OpenObject::Few(with_one(alloc, members, name, value)?))
}

fn with_one(
    alloc: Global,
    members: Members,
    name: String,
    value: Tree,
) -> Result<Members, AllocError>
    ensures { IfOk result
        (λ all. all.entries ≡ insert_entry string_cmp members.entries name value) }
{
    let mut members = members;
    if members.len() == 0 {
        members = Members::with_capacity(alloc, FIRST)?;
    }
    drop(members.insert(name, value)?);
    Ok(members)
}

fn with_another(
    map: BTreeMap<String, Option<Tree>>,
    name: String,
    value: Option<Tree>,
) -> Result<BTreeMap<String, Option<Tree>>, AllocError>
    ensures { IfOk result (λ all. all.entries ≡ insert_entry string_cmp map.entries name value) }
{
    let mut map = map;
    match map.insert(name, value) {
        Ok(earlier) => drop(earlier),
        Err(_) => return Err(AllocError),
    }
    Ok(map)
}

/// Returns members as a map, in which each has a value.
fn into_map(alloc: Global, members: Members) -> Result<BTreeMap<String, Option<Tree>>, AllocError>
    ensures { IfOk result (λ all. all.entries ≡ map as_read members.entries) }
{
    let mut found = BTreeMap::new(alloc);
    for (name, value) in members.into_entries() {
        found = with_another(found, name, Some(value))?;
    }
    Ok(found)
}

/// Returns the members of a map, if each has a value.
fn gather(
    alloc: Global,
    found: BTreeMap<String, Option<Tree>>,
) -> Result<Option<Members>, AllocError>
    ensures { IfOk result
        (λ members. (ms : read_as.Members) → AreRead ms found.entries
        → members_tree ms ≡ option_map (λ m. members_of m.entries) members) }
{
    let mut members = Members::with_capacity(alloc, found.len())?;
    for (name, value) in found {
        let Some(value) = value else {
            return Ok(None);
        };
        drop(members.insert(name, value)?);
    }
    Ok(Some(members))
}
