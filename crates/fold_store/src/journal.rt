ghost use Rattle.std.specs.Prelude.{◌≡◌, ◌+◌, ◌<◌, ◌≤◌, ℕ, [], ◌∷◌, ◌++◌, length, take, OnOk, OnErr};
ghost use Rattle.fold_store.specs.Journal.{Written};

use fold_core::{Event, NoMemory};
use std::alloc::Global;
use std::marker::Model;

/// A history, and for how many events there surely is room behind it.
#[derive(Drop)]
pub(crate) struct Journal {
    events: Vec<Event>,
    due: usize,
}

impl Model for Journal {
    ghost use Rattle.std.specs.Prelude.{◌+◌, ◌≤◌, length};
    ghost use Rattle.std.specs.Vec.{vec_capacity};
    ghost use Rattle.fold_store.specs.Journal.{Written};

    ghost Value = { Written };

    ghost view = { λ j. record { events = j.events.items; due = j.due } };

    ghost invariant = { λ j. length j.events.items + j.due ≤ vec_capacity j.events };
}

impl Journal {
    /// The empty history, with no room.
    pub(crate) fn new(alloc: Global) -> Journal
        ensures { result ≡ record { events = []; due = 0 } }
    {
        Journal {
            events: Vec::new(alloc),
            due: 0,
        }
    }

    /// How many events there are.
    pub(crate) fn len(&self) -> usize
        ensures { result ≡ length self.now.events }
    {
        self.events.len()
    }

    /// Makes room for so many more events.
    pub(crate) fn promise(&mut self, more: usize) -> Result<(), NoMemory>
        ensures ok { OnOk result (self.new ≡ record self.old { due = self.old.due + more }) }
        ensures err { OnErr result (self.new ≡ self.old) }
    {
        let due = self.due.checked_add(more).ok_or(NoMemory)?;
        self.events.reserve(due)?;
        self.due = due;
        Ok(())
    }

    /// Needs so much less room.
    pub(crate) fn withdraw(&mut self, less: usize)
        requires { less ≤ self.old.due }
        ensures events { self.new.events ≡ self.old.events }
        ensures due { self.new.due + less ≡ self.old.due }
    {
        self.due -= less;
    }

    /// Writes an event where there is room for it.
    pub(crate) fn note(&mut self, event: Event)
        requires { 0 < self.old.due }
        ensures events { self.new.events ≡ self.old.events ++ event ∷ [] }
        ensures due { self.new.due + 1 ≡ self.old.due }
    {
        self.due -= 1;
        match self.events.push(event) {
            Ok(()) => {}
            Err(_) => unreachable!(),
        }
    }

    /// Forgets the events from this number on.
    pub(crate) fn truncate(&mut self, len: usize)
        ensures events { self.new.events ≡ take len self.old.events }
        ensures due { self.new.due ≡ self.old.due }
    {
        self.events.truncate(len);
    }
}
