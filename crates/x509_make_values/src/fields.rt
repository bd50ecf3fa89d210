//! An object taken apart, so that no member is overlooked.

use json::Value;
use std::alloc::Allocator;
use x509_make_parts::{Done, Fault, Place};

/// How many members an object may have.
const ROOM: usize = 32;

/// Members that a report has for people, and that aren't read.
const TOLD: [&'static str; 2] = ["at", "field"];

/// The members of an object, and which of them were taken. None stands twice.
#[derive(Drop)]
pub struct Fields<'t, 'v, A: Allocator> {
    members: &'t [(&'v str, Value<'v, A>)],
    taken: [bool; ROOM],
}

/// The members of an object.
fn members_of<'t, 'v, A: Allocator>(
    node: &'t Value<'v, A>,
) -> Option<&'t [(&'v str, Value<'v, A>)]> {
    match node {
        Value::Object(members) => Some(members.as_slice()),
        _ => None,
    }
}

/// Whether a member stands before another of its name.
fn stands_before<A: Allocator>(members: &[(&str, Value<'_, A>)], index: usize, name: &str) -> bool {
    for (before, (key, _)) in members.iter().enumerate() {
        if before < index && *key == name {
            return true;
        }
    }
    false
}

/// The first member that stands twice: where it does so again.
fn repeated<A: Allocator>(members: &[(&str, Value<'_, A>)]) -> Option<usize> {
    for (index, (key, _)) in members.iter().enumerate() {
        if stands_before(members, index, *key) {
            return Some(index);
        }
    }
    None
}

impl<'t, 'v, A: Allocator + Copy> Fields<'t, 'v, A> {
    /// The members of an object, of which none is taken yet.
    ///
    /// # Errors
    /// `Not` where it is no object, `Twice` at a member that stands there already, `Said` where there are more than 32.
    pub fn of(place: &mut Place, node: &'t Value<'v, A>) -> Result<Self, Fault> {
        let Some(members) = members_of(node) else {
            return Err(Fault::Not("an object"));
        };
        if members.len() > ROOM {
            return Err(Fault::Said("more than 32 members"));
        }
        if let Some(index) = repeated(members) {
            place.enter(index);
            return Err(Fault::Twice);
        }
        Ok(Fields {
            members,
            taken: [false; ROOM],
        })
    }

    /// Which member has a name.
    fn index_of(&self, name: &str) -> Option<usize> {
        for (index, (key, _)) in self.members.iter().enumerate() {
            if *key == name && index < ROOM {
                return Some(index);
            }
        }
        None
    }

    /// Whether there is a member with a name.
    pub fn has(&self, name: &str) -> bool {
        self.index_of(name).is_some()
    }

    /// Takes a member, and goes to it.
    pub fn enter(&mut self, place: &mut Place, name: &str) -> Option<&'t Value<'v, A>> {
        let index = self.index_of(name)?;
        if index < ROOM {
            self.taken[index] = true;
        }
        let (_, value) = self.members.get(index)?;
        place.enter(index);
        Some(value)
    }

    /// Takes a member that must be there, and goes to it.
    ///
    /// # Errors
    /// `Missing`.
    pub fn need(
        &mut self,
        place: &mut Place,
        name: &'static str,
    ) -> Result<&'t Value<'v, A>, Fault> {
        match self.enter(place, name) {
            Some(value) => Ok(value),
            None => Err(Fault::Missing(name)),
        }
    }

    /// Takes the members with these names, which are read from the object itself.
    pub fn pass(&mut self, names: &[&'static str]) {
        for name in names {
            if let Some(index) = self.index_of(*name) {
                if index < ROOM {
                    self.taken[index] = true;
                }
            }
        }
    }

    /// Takes all members.
    pub fn pass_all(&mut self) {
        self.taken = [true; ROOM];
    }

    /// The first member that wasn't taken.
    fn left(&self) -> Option<usize> {
        for (index, _) in self.members.iter().enumerate() {
            if index >= ROOM || !self.taken[index] {
                return Some(index);
            }
        }
        None
    }

    /// Sees that each member was taken, but for those that a report has for people.
    ///
    /// # Errors
    /// `Unknown`, at the first that wasn't.
    pub fn finish(&mut self, place: &mut Place) -> Done {
        self.pass(&TOLD);
        match self.left() {
            Some(index) => {
                place.enter(index);
                Err(Fault::Unknown)
            }
            None => Ok(()),
        }
    }
}
