ghost use Rattle.std.specs.Prelude.{◌≡◌};
ghost use Rattle.fold_core.specs.declared.event.Status.TheVariants.{Waiting, Taken};
ghost use Rattle.fold_core.specs.Machine.{Entry, let_go, put_back_entry};
ghost use Rattle.fold_store.specs.Table.{retired_by, clip_entry};

use fold_core::{Origin, Status};
use std::marker::Model;

/// Where an entry keeps its item. Contracts see the item alone, wherever it lies.
#[derive(Drop)]
pub(crate) struct Place<I> {
    item: I,
}

impl<I> Model for Place<I> {
    ghost Value = { I };

    ghost coded = { I.code };

    ghost view = { λ p. p.item };
}

impl<I> Place<I> {
    /// The place of an item that the entry owns.
    pub(crate) fn own(item: I) -> Place<I>
        ensures { result ≡ item }
    {
        Place { item }
    }

    /// The item that is kept there.
    pub(crate) fn item(&self) -> &I
        ensures { result.now ≡ self.now }
    {
        &self.item
    }
}

/// A kept item, where it comes from and how far it has come.
#[derive(Drop)]
pub(crate) struct Kept<I> {
    place: Place<I>,
    origin: Origin,
    status: Status,
}

impl<I> Model for Kept<I> {
    ghost use Rattle.fold_core.specs.Machine.{Entry};

    ghost Value = { Entry I };

    ghost view = { λ k. record { item = k.place; origin = k.origin; status = k.status } };
}

impl<I> Kept<I> {
    /// A new entry, which waits.
    pub(crate) fn new(item: I, origin: Origin) -> Kept<I>
        ensures { result ≡ record { item = item; origin = origin; status = Waiting } }
    {
        Kept {
            place: Place::own(item),
            origin,
            status: Status::Waiting,
        }
    }

    /// The kept item.
    pub(crate) fn item(&self) -> &I
        ensures { result.now ≡ self.now.item }
    {
        self.place.item()
    }

    /// Where it comes from.
    pub(crate) fn origin(&self) -> Origin
        ensures { result ≡ self.now.origin }
    {
        self.origin
    }

    /// How far it has come.
    pub(crate) fn status(&self) -> Status
        ensures { result ≡ self.now.status }
    {
        self.status
    }

    /// A worker takes it.
    pub(crate) fn take(&mut self)
        ensures { self.new ≡ record self.old { status = Taken } }
    {
        self.status = Status::Taken;
    }

    /// Entry `to`, which covers it, retires it by the event at the tick.
    pub(crate) fn retire(&mut self, to: u32, tick: u64)
        ensures { self.new ≡ retired_by to tick self.old }
    {
        self.status = Status::Retired {
            to,
            tick,
            taken: self.status.is_taken(),
        };
    }

    /// Its children are placed: it isn't taken any more.
    pub(crate) fn let_go(&mut self)
        ensures { self.new ≡ record self.old { status = let_go self.old.status } }
    {
        self.status = match self.status {
            Status::Waiting | Status::Taken | Status::Finished => Status::Finished,
            Status::Retired { to, tick, .. } => Status::Retired {
                to,
                tick,
                taken: false,
            },
        };
    }

    /// It isn't taken any more, and waits again if it was.
    pub(crate) fn put_back(&mut self)
        ensures { self.new ≡ put_back_entry self.old }
    {
        self.status = match self.status {
            Status::Waiting | Status::Taken => Status::Waiting,
            Status::Finished => Status::Finished,
            Status::Retired { to, tick, .. } => Status::Retired {
                to,
                tick,
                taken: false,
            },
        };
    }

    /// Its tick is brought down to the bound.
    pub(crate) fn clip(&mut self, bound: u64)
        ensures { self.new ≡ clip_entry bound self.old }
    {
        if let Status::Retired { to, tick, taken } = self.status {
            self.status = Status::Retired {
                to,
                tick: tick.min(bound),
                taken,
            };
        }
    }
}
