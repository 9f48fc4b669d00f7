// A waiting goal, its name and its place. Document 01, "How a derivation runs".
ghost use Rattle.std.specs.Prelude.{◌≡◌, ℕ, List, eqb};
ghost use Rattle.hgn.specs.Network.{is_parent};
ghost use Rattle.network.specs.Entries.{name_in, name_of, waiting_of};

use sheet_index::index::Span;

// A place in the waiting list, from 0.
#[derive(Clone, Copy, PartialEq, Eq, PartialOrd, Ord)]
pub struct Place(pub u16);

// The name of a goal: the step whose method brought it in, none for a goal of the order, and its number in the network that it came with.
#[derive(Clone, Copy, PartialEq, Eq)]
pub struct Name {
    pub step: Option<u16>,
    pub number: u16,
}

// A method that was used: the step, the method's number (from 0), and the name of the goal at which it was used.
#[derive(Clone, Copy)]
pub struct Used {
    pub step: u16,
    pub method: u16,
    pub parent: Name,
}

// A goal: its rows, its number in the network that it came with, the method that brought it in (none: the order did), and whether it is its
// method's last node, which comes after all the others.
#[derive(Clone, Copy)]
pub struct Entry {
    pub rows: Span,
    pub number: u16,
    pub source: Option<Used>,
    pub last: bool,
}

// A goal that waits, and how often it is listed after goals that still wait.
#[derive(Clone, Copy)]
pub struct Waiting {
    pub goal: Entry,
    pub pending: u16,
}

impl Entry {
    pub fn name(&self) -> Name
        ensures { result ≡ name_in self.now }
    {
        Name {
            step: self.source.map(|used| used.step),
            number: self.number,
        }
    }

    // This goal came with a method that was used at the goal of this name.
    pub fn is_under(&self, name: Name) -> bool
        ensures { (shop order : List ℕ) → result ≡ is_parent (name_of name) (waiting_of shop order self.now).parent }
    {
        match self.source {
            Some(used) => name == used.parent,
            None => false,
        }
    }
}

impl Waiting {
    // The goal is free: it is listed after no goal that still waits.
    pub fn is_free(&self) -> bool
        ensures { result ≡ eqb self.now.pending 0 }
    {
        self.pending == 0
    }
}
