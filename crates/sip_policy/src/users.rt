//! Users with their digests and groups, found by name. Who has proved to be one is asked in `sip_auth`.
ghost use Rattle.std.specs.Prelude.{◌≡◌, ◌⊎◌, ℕ, List, Some, None, true, false, find, is_some, if◌then◌else◌, IfOk, IfErr, OnOk};
ghost use Rattle.std.specs.List.{list_any};
ghost use Rattle.std.specs.Option.{option_copied};
ghost use Rattle.std.specs.Str.{bytes_eq};
ghost use Rattle.sip_policy.specs.User as Definitions;
ghost use Rattle.sip_policy.specs.User.{is_named, is_users_name};
ghost use Rattle.sip_policy.specs.Users.{have_own_names, place_of, AreNamed};
ghost use Rattle.sip_policy.specs.declared.error.PolicyError.TheVariants.{NoMemory, NameTwice};

use crate::error::PolicyError;
use crate::user::User;
use sip_text::Items;
use std::alloc::{AllocError, Global};
use std::collections::HashMap;
use std::marker::Model;

/// The configured users, no two of one name, seen as the list of them. A name is found in constant time:
/// names are configured, so nobody who sends requests chooses where they fall.
pub struct Users {
    alloc: Global,
    list: Items<User>,
    /// Where the user of each name stands in the list.
    places: HashMap<Vec<u8>, usize>,
    /// Whether some user has an H(A1) by SHA-256, which each challenge asks.
    has_sha256: bool,
}

/// Written out, so that it is proved once and not wherever they are dropped.
impl Drop for Users {
    fn drop(self) {
        let Users {
            alloc: _,
            list: _,
            places: _,
            has_sha256: _,
        } = self;
    }
}

impl Model for Users {
    ghost use Rattle.std.specs.Prelude.{◌≡◌, List, is_some};
    ghost use Rattle.std.specs.List.{list_any};
    ghost use Rattle.sip_policy.specs.declared.user.User.{User};
    ghost use Rattle.sip_policy.specs.Users.{place_of, AreNamed};

    ghost Value = { List User };

    ghost view = { λ u. u.list };

    ghost invariant = { λ u. AreNamed (place_of u.places) u.list
        × (u.has_sha256 ≡ list_any (λ user. is_some user.a1_sha256) u.list) };
}

impl Clone for Users {
    ghost is_clone = { λ users copy. copy ≡ users };

    fn clone(&self) -> Result<Users, AllocError> {
        let list = copy_users(self.alloc, self.list.as_slice())?;
        match Users::new(self.alloc, list) {
            Ok(users) => Ok(users),
            Err(_) => Err(AllocError),
        }
    }
}

impl Users {
    /// These users.
    ///
    /// Refuses NoMemory, and NameTwice exactly where two have the same name.
    pub fn new(alloc: Global, users: Items<User>) -> Result<Users, PolicyError>
        ensures ok { IfOk result (λ known. known ≡ users) }
        ensures distinct { OnOk result (have_own_names users ≡ true) }
        ensures refused { IfErr result (λ e. (e ≡ NoMemory) ⊎ ((e ≡ NameTwice) × (have_own_names users ≡ false))) }
    {
        let places = places_of_names(alloc, users.as_slice())?;
        let has_sha256 = any_has_sha256(users.as_slice());
        Ok(Users {
            alloc,
            list: users,
            places,
            has_sha256,
        })
    }

    /// The users, in their order.
    pub fn as_slice(&self) -> &[User]
        ensures { result.now ≡ self.now }
    {
        self.list.as_slice()
    }

    /// The user of a name, compared byte by byte. Takes constant time and no memory.
    pub fn find(&self, name: &[u8]) -> Option<&User>
        ensures value { option_copied result ≡ find (is_named name.now) self.now }
        ensures distinct { have_own_names self.now ≡ true }
    {
        user_named(&self.places, self.list.as_slice(), name)
    }

    /// Whether a name is a user's. Takes constant time and no memory.
    pub fn has_name(&self, name: &[u8]) -> bool
        ensures { result ≡ is_users_name self.now name.now }
    {
        self.find(name).is_some()
    }

    /// Whether some user has an H(A1) by SHA-256. Takes constant time and no memory.
    pub fn any_has_sha256(&self) -> bool
        ensures { result ≡ list_any (λ user. is_some user.a1_sha256) self.now }
    {
        self.has_sha256
    }

    /// Whether the user of a name is in a group. Takes the time of the user's groups, and no memory.
    pub fn is_in_group(&self, name: &[u8], group: &[u8]) -> bool
        ensures { result ≡ Definitions.is_in_group self.now name.now group.now }
    {
        match self.find(name) {
            Some(user) => user.is_in(group),
            None => false,
        }
    }
}

/// The user of a name, where each name leads to the place of its user.
fn user_named<'a>(
    places: &HashMap<Vec<u8>, usize>,
    users: &'a [User],
    name: &[u8],
) -> Option<&'a User>
    requires { AreNamed (place_of places.now) users.now }
    ensures { option_copied result ≡ find (is_named name.now) users.now }
{
    let place = places.get(name)?;
    users.get(*place)
}

/// Whether some user has an H(A1) by SHA-256.
fn any_has_sha256(users: &[User]) -> bool
    ensures { result ≡ list_any (λ user. is_some user.a1_sha256) users.now }
{
    users.iter().any(|user| user.a1_sha256.is_some())
}

/// The places of users, by their names.
fn places_of_names(alloc: Global, users: &[User]) -> Result<HashMap<Vec<u8>, usize>, PolicyError>
    ensures ok { IfOk result (λ places. AreNamed (place_of places) users.now) }
    ensures refused { IfErr result (λ e. (e ≡ NoMemory) ⊎ ((e ≡ NameTwice) × (have_own_names users.now ≡ false))) }
{
    let mut places = HashMap::with_capacity(alloc, users.len())?;
    for (at, user) in users.iter().enumerate() {
        add_name(alloc, &mut places, user.name.as_slice(), at)?;
    }
    Ok(places)
}

/// Lets a name lead to a place. A name that leads to one already is refused, and leads to this one from then on.
fn add_name(
    alloc: Global,
    places: &mut HashMap<Vec<u8>, usize>,
    name: &[u8],
    at: usize,
) -> Result<(), PolicyError>
    ensures ok { OnOk result ((other : List ℕ) → place_of places.new other
        ≡ (if bytes_eq other name.now then Some at else place_of places.old other)) }
    ensures new { OnOk result (place_of places.old name.now ≡ None) }
    ensures refused { IfErr result
        (λ e. (e ≡ NoMemory) ⊎ ((e ≡ NameTwice) × (is_some (place_of places.old name.now) ≡ true))) }
{
    let copy = Vec::from_slice(alloc, name)?;
    if places.insert(copy, at)?.is_none() {
        Ok(())
    } else {
        Err(PolicyError::NameTwice)
    }
}

/// Users, copied.
fn copy_users(alloc: Global, users: &[User]) -> Result<Items<User>, AllocError>
    ensures { IfOk result (λ copies. copies ≡ users.now) }
{
    let mut copies = Items::new(alloc);
    for user in users {
        copies.push(user.copy(alloc)?)?;
    }
    Ok(copies)
}
