ghost use Rattle.std.specs.Prelude.{◌≡◌, ◌≢◌, ◌<◌, ◌+◌, ℕ, [], ◌∷◌, ◌++◌, length, slice_set, OnOk, OnErr};
ghost use Rattle.fold_core.specs.Machine.{Stands};
ghost use Rattle.fold_store.specs.declared.forest.Node.{Node};
ghost use Rattle.fold_store.specs.Forest.{InForest, SameInClass, with_own};

use fold_core::NoMemory;
use std::alloc::Global;
use std::marker::Model;

/// The most steps of a walk up to a head. A tree of fewer than 2^32 numbers has no more levels, since
/// the smaller of two trees goes under the larger; and a shorter walk ends in the same class.
const MOST_STEPS: u32 = 32;

/// A number in its class.
#[derive(Debug, Clone, Copy)]
struct Node {
    /// The number above it in its tree: itself at the head.
    up: u32,
    /// At the head, how many numbers its class has.
    size: u32,
    /// At the head, the number that was named last in a join.
    last: u32,
}

/// Numbers in classes, from 0. Contracts see the nodes; what they say holds of any label that is
/// the same throughout each class.
#[derive(Drop)]
pub(crate) struct Forest {
    nodes: Vec<Node>,
}

impl Model for Forest {
    ghost use Rattle.std.specs.Prelude.{List};
    ghost use Rattle.fold_store.specs.declared.forest.Node.{Node};
    ghost use Rattle.fold_store.specs.Forest.{InForest};

    ghost Value = { List Node };

    ghost view = { λ f. f.nodes.items };

    ghost invariant = { λ f. InForest f.nodes.items };
}

impl Forest {
    /// No number.
    pub(crate) fn new(alloc: Global) -> Forest
        ensures { result ≡ [] }
    {
        Forest {
            nodes: Vec::new(alloc),
        }
    }

    /// The next number, in a class of its own.
    pub(crate) fn add(&mut self) -> Result<(), NoMemory>
        requires { length self.old < 100000 }
        ensures many { OnOk result (length self.new ≡ length self.old + 1) }
        ensures same { OnOk result ((label : ℕ → ℕ) (own : ℕ) → SameInClass label self.old → SameInClass (with_own label (length self.old) own) self.new) }
        ensures err { OnErr result (self.new ≡ self.old) }
    {
        let number = self.nodes.len() as u32;
        self.nodes.push(Node {
            up: number,
            size: 1,
            last: number,
        })?;
        Ok(())
    }

    /// The head of the number's class, or a number on the way to it.
    fn head(&self, number: u32) -> u32
        requires { number < length self.now }
        ensures within { result < length self.now }
        ensures same { (label : ℕ → ℕ) → SameInClass label self.now → label result ≡ label number }
    {
        let mut at = number;
        for _step in 0..MOST_STEPS {
            let up = self.nodes[at as usize].up;
            if up == at {
                return at;
            }
            at = up;
        }
        at
    }

    /// The number that was named last in a join of the number's class.
    pub(crate) fn last(&self, number: u32) -> u32
        requires { number < length self.now }
        ensures within { result < length self.now }
        ensures same { (label : ℕ → ℕ) → SameInClass label self.now → label result ≡ label number }
    {
        let head = self.head(number);
        self.nodes[head as usize].last
    }

    /// Puts one tree under the head of another, whose last number is given.
    fn put_under(&mut self, under: u32, top: u32, last: u32)
        requires under { under < length self.old }
        requires top { top < length self.old }
        requires last { last < length self.old }
        ensures many { length self.new ≡ length self.old }
        ensures same { (label : ℕ → ℕ) → SameInClass label self.old → label under ≡ label top → label last ≡ label top → SameInClass label self.new }
    {
        let size = self.nodes[under as usize].size;
        self.nodes[under as usize].up = top;
        let size = self.nodes[top as usize].size.saturating_add(size);
        self.nodes[top as usize] = Node {
            up: top,
            size,
            last,
        };
    }

    /// Joins the classes of two numbers, the second of which is the last one then.
    pub(crate) fn join(&mut self, number: u32, last: u32)
        requires number { number < length self.old }
        requires last { last < length self.old }
        ensures many { length self.new ≡ length self.old }
        ensures same { (label : ℕ → ℕ) → SameInClass label self.old → label number ≡ label last → SameInClass label self.new }
    {
        let first = self.head(number);
        let second = self.head(last);
        if first == second {
            return;
        }
        if self.nodes[first as usize].size < self.nodes[second as usize].size {
            self.put_under(first, second, last);
        } else {
            self.put_under(second, first, last);
        }
    }

    /// Joins the class of each of the numbers with that of the last one.
    pub(crate) fn join_all(&mut self, numbers: &[u32], last: u32)
        requires numbers { (k n : ℕ) → Stands numbers.now k n → n < length self.old }
        requires last { last < length self.old }
        ensures many { length self.new ≡ length self.old }
        ensures same { (label : ℕ → ℕ) → SameInClass label self.old → ((k n : ℕ) → Stands numbers.now k n → label n ≡ label last) → SameInClass label self.new }
    {
        for number in numbers {
            self.join(*number, last);
        }
    }
}
