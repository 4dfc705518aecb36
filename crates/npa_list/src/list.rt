ghost use Rattle.std.specs.Prelude.{◌≡◌, [], ◌∷◌, ◌++◌, ◌<◌, ◌↔◌, length, slice_get, slice_set, IsTrue, IsSome, MatchOption, IfOk, OnOk, OnErr};
ghost use Rattle.std.specs.Option.{option_copied};

use std::alloc::{AllocError, Global};
use std::marker::Model;

/// A list of values, in order. Contracts see it as the plain list of its members, so two lists
/// with the same members are equal wherever they lie in memory, and a type may reach itself
/// through it, as a term does through the list of its arguments.
#[derive(Debug, Drop)]
pub struct List<T> {
    members: Vec<T>,
}

impl<T> Model for List<T> {
    ghost use Rattle.std.specs.Prelude.{List as ListOf};
    ghost use Rattle.std.specs.Coded.{coded_list};

    ghost Value = { ListOf T };

    ghost coded = { coded_list T.code };

    ghost view = { λ l. l.members.items };
}

impl<T> List<T> {
    /// The empty list. It takes no memory.
    pub fn new(alloc: Global) -> List<T>
        ensures { result ≡ [] }
    {
        List {
            members: Vec::new(alloc),
        }
    }

    /// The members of a vector, in its order. It takes no memory.
    pub fn from_vec(members: Vec<T>) -> List<T>
        ensures { result ≡ members.items }
    {
        List { members }
    }

    /// The members as a vector, in the same order. It takes no memory.
    pub fn into_vec(self) -> Vec<T>
        ensures { result.items ≡ self }
    {
        let List { members } = self;
        members
    }

    /// How many members the list has.
    pub fn len(&self) -> usize
        ensures { result ≡ length self.now }
    {
        self.members.len()
    }

    /// Whether the list has no member.
    pub fn is_empty(&self) -> bool
        ensures { IsTrue result ↔ (self.now ≡ []) }
    {
        self.members.is_empty()
    }

    /// The member at a place, counted from 0: `None` exactly where the place isn't below `len`.
    pub fn get(&self, at: usize) -> Option<&T>
        ensures value { option_copied result ≡ slice_get self.now at }
        ensures within { IsSome result ↔ (at < length self.now) }
    {
        self.members.get(at)
    }

    /// The members as a slice.
    pub fn as_slice(&self) -> &[T]
        ensures { result.now ≡ self.now }
    {
        self.members.as_slice()
    }
}

impl<T: Drop> List<T> {
    /// Adds a member at the end. Where memory is wanting the list stays as it was and the member
    /// is dropped.
    pub fn push(&mut self, member: T) -> Result<(), AllocError>
        ensures ok { OnOk result (self.new ≡ self.old ++ member ∷ []) }
        ensures err { OnErr result (self.new ≡ self.old) }
    {
        self.members.push(member)?;
        Ok(())
    }

    /// Puts a member in another's place, which is dropped.
    pub fn set(&mut self, at: usize, member: T)
        requires { at < length self.old }
        ensures { self.new ≡ slice_set self.old at member }
    {
        self.members[at] = member;
    }

    /// Takes the last member off.
    pub fn pop(&mut self) -> Option<T>
        ensures { MatchOption result ((self.old ≡ []) × (self.new ≡ [])) (λ last. self.old ≡ self.new ++ last ∷ []) }
    {
        self.members.pop()
    }
}

impl<T: Copy + Drop> List<T> {
    /// A list with the members of a slice.
    pub fn from_slice(alloc: Global, members: &[T]) -> Result<List<T>, AllocError>
        ensures { IfOk result (λ list. list ≡ members.now) }
    {
        Ok(List {
            members: Vec::from_slice(alloc, members)?,
        })
    }

    /// Adds the members of a slice at the end. Where memory is wanting the list stays as it was.
    pub fn extend_from_slice(&mut self, members: &[T]) -> Result<(), AllocError>
        ensures ok { OnOk result (self.new ≡ self.old ++ members.now) }
        ensures err { OnErr result (self.new ≡ self.old) }
    {
        self.members.extend_from_slice(members)
    }
}
