// What a refused call says: a numbered ground, the layer in which it arose, and what is at fault first.
ghost use Rattle.std.specs.Prelude.{◌≡◌, Some};
ghost use Rattle.store.specs.Refusals.{meaning, in_finder};
ghost use Rattle.store.specs.Shown.{layer_text, culprit_text, fault_text};

use std::{error, fmt};

// The grounds, by their numbers.
#[derive(Clone, Copy, PartialEq, Eq, Debug)]
pub enum Refusal {
    StoreBroken = 1,
    BadPattern = 2,
    BadPart = 3,
    BadBindings = 4,
    BadEntryCount = 5,
    BadEntry = 6,
    PartNotOpen = 7,
    EntryNotWaiting = 8,
    FindPending = 9,
    FindNotPending = 10,
    NoPartOpen = 11,
    BadEnds = 12,
    EndsApart = 13,
    EndsLooselyJoined = 14,
    HostFull = 15,
}

#[derive(Clone, Copy, PartialEq, Eq, Debug)]
pub enum Layer {
    Finder,
    Round,
    Host,
}

// `Nothing` is a culprit of its own and not an `Option`, so that a fault is shown and compared as one type.
#[derive(Clone, Copy, PartialEq, Eq, Debug)]
pub enum Culprit {
    Nothing,
    Part(usize),
    Entry(usize),
    TablePair(usize),
    FoundPair {
        part: usize,
        entry: usize,
        pair: usize,
    },
}

#[derive(Clone, Copy, PartialEq, Eq, Debug)]
pub struct Fault {
    pub refusal: Refusal,
    pub layer: Layer,
    pub culprit: Culprit,
}

impl Refusal {
    pub fn number(self) -> u8
        ensures { result ≡ (meaning self).number }
    {
        self as u8
    }
}

impl fmt::Display for Layer {
    ghost output = { λ l. Some (layer_text l) };

    fn fmt<W: fmt::Write>(&self, f: &mut fmt::Formatter<W>) -> fmt::Result {
        match self {
            Layer::Finder => f.write_str("finder"),
            Layer::Round => f.write_str("round"),
            Layer::Host => f.write_str("host"),
        }
    }
}

impl fmt::Display for Culprit {
    ghost output = { λ c. Some (culprit_text c) };

    fn fmt<W: fmt::Write>(&self, f: &mut fmt::Formatter<W>) -> fmt::Result {
        match self {
            Culprit::Nothing => Ok(()),
            Culprit::Part(i) => write!(f, " part {i}"),
            Culprit::Entry(j) => write!(f, " entry {j}"),
            Culprit::TablePair(k) => write!(f, " pair {k}"),
            Culprit::FoundPair { part, entry, pair } => {
                write!(f, " part {part} entry {entry} pair {pair}")
            }
        }
    }
}

impl fmt::Display for Fault {
    ghost output = { λ f. Some (fault_text f) };

    fn fmt<W: fmt::Write>(&self, f: &mut fmt::Formatter<W>) -> fmt::Result {
        let number = self.refusal.number();
        let layer = self.layer;
        let culprit = self.culprit;
        write!(f, "refused {number} {layer}{culprit}")
    }
}

impl error::Error for Fault {}

impl Fault {
    // A fault of the finder's own layer.
    pub fn finder(refusal: Refusal, culprit: Culprit) -> Fault
        ensures { result ≡ in_finder refusal culprit }
    {
        Fault {
            refusal,
            layer: Layer::Finder,
            culprit,
        }
    }
}
