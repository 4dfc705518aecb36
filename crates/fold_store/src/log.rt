ghost use Rattle.std.specs.Prelude.{◌≡◌, ◌<◌, ◌≤◌, ℕ, [], length, map, slice_set, OnOk};
ghost use Rattle.fold_core.specs.Machine.{Stands};
ghost use Rattle.fold_store.specs.declared.log.Mark.{Mark};
ghost use Rattle.fold_store.specs.Log.{Ascends, Marked, NoneNewer, clip_mark};

use fold_core::NoMemory;
use std::alloc::Global;
use std::marker::Model;

/// That an entry was retired, by the event at the tick or an earlier one.
#[derive(Debug, Clone, Copy)]
pub(crate) struct Mark {
    pub(crate) number: u32,
    pub(crate) tick: u64,
}

/// Which entries were retired, in order. It may also name entries that weren't.
#[derive(Drop)]
pub(crate) struct Log {
    marks: Vec<Mark>,
}

impl Model for Log {
    ghost use Rattle.std.specs.Prelude.{List};
    ghost use Rattle.fold_store.specs.declared.log.Mark.{Mark};
    ghost use Rattle.fold_store.specs.Log.{Ascends};

    ghost Value = { List Mark };

    ghost view = { λ l. l.marks.items };

    ghost invariant = { λ l. Ascends l.marks.items };
}

/// Brings the tick of the mark at a place down to the bound.
fn clip_at(marks: &mut Vec<Mark>, at: usize, bound: u64)
    requires { at < length marks.old.items }
    ensures { (mark : Mark) → Stands marks.old.items at mark → marks.new.items ≡ slice_set marks.old.items at (clip_mark bound mark) }
{
    marks[at].tick = marks[at].tick.min(bound);
}

/// Brings the ticks of the marks from a place on down to the bound.
fn clip_from(marks: &mut Vec<Mark>, from: usize, bound: u64)
    requires within { from ≤ length marks.old.items }
    requires older { NoneNewer bound from marks.old.items }
    ensures { marks.new.items ≡ map (clip_mark bound) marks.old.items }
{
    for at in from..marks.len() {
        clip_at(marks, at, bound);
    }
}

impl Log {
    /// No mark.
    pub(crate) fn new(alloc: Global) -> Log
        ensures { result ≡ [] }
    {
        Log {
            marks: Vec::new(alloc),
        }
    }

    /// The marks.
    pub(crate) fn marks(&self) -> &[Mark]
        ensures { result.now ≡ self.now }
    {
        self.marks.as_slice()
    }

    /// The last tick, or a later one that is given.
    fn at_least(&self, tick: u64) -> u64
        ensures given { tick ≤ result }
        ensures last { (k : ℕ) (mark : Mark) → Stands self.now k mark → mark.tick ≤ result }
    {
        match self.marks.last() {
            Some(mark) => mark.tick.max(tick),
            None => tick,
        }
    }

    /// Marks an entry.
    fn add(&mut self, number: u32, tick: u64) -> Result<(), NoMemory>
        ensures marked { OnOk result (Marked self.new number tick) }
        ensures keeps { (n since : ℕ) → Marked self.old n since → Marked self.new n since }
    {
        let tick = self.at_least(tick);
        self.marks.push(Mark { number, tick })?;
        Ok(())
    }

    /// Marks each of the entries. Where memory is wanting some may be marked.
    pub(crate) fn add_all(&mut self, numbers: &[u32], tick: u64) -> Result<(), NoMemory>
        ensures marked { OnOk result ((k n : ℕ) → Stands numbers.now k n → Marked self.new n tick) }
        ensures keeps { (n since : ℕ) → Marked self.old n since → Marked self.new n since }
    {
        for number in numbers {
            self.add(*number, tick)?;
        }
        Ok(())
    }

    /// The place from which on all marks are past the bound.
    pub(crate) fn newer(&self, bound: u64) -> usize
        ensures within { result ≤ length self.now }
        ensures older { NoneNewer bound result self.now }
    {
        let mut left = self.marks.len();
        while left > 0 {
            if self.marks[left - 1].tick <= bound {
                return left;
            }
            left -= 1;
        }
        0
    }

    /// Brings the ticks of the marks from a place on down to the bound.
    pub(crate) fn clip(&mut self, from: usize, bound: u64)
        requires within { from ≤ length self.old }
        requires older { NoneNewer bound from self.old }
        ensures { self.new ≡ map (clip_mark bound) self.old }
    {
        clip_from(&mut self.marks, from, bound);
    }
}
