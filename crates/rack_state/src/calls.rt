// What the calls of a rack answer.
ghost use Rattle.std.specs.Prelude.{◌≡◌};
ghost use Rattle.model.specs.Calls.{returned as number_and_place};
ghost use Rattle.rack_state.specs.Faults.{fault_of};
ghost use Rattle.rack_state.specs.declared.calls.Fault.TheVariants.{Store, Line};

use lines::LineFault;
use plans::StoreFault;
use results::ResultKey;
use std::error::Error;
use std::fmt;

// Why a call is refused.
#[derive(Clone, Copy, PartialEq, Eq, Debug)]
pub enum Fault {
    // of STORE and COMPILE: a graph is loaded and not drained
    Busy,
    Store(StoreFault),
    Line(LineFault),
    // of STEP, READ and DROP: no graph is loaded
    NoGraph,
    // of STEP: all commands are carried out
    Drained,
    // of STEP: this command needs more words, values or result places than are free
    Full(usize),
    // of READ: not all commands are carried out
    NotDrained,
    // of making a rack: a size out of range, or an area too short
    Sizes,
}

// A result: the coordinates of the left variables, which are the first `rank` of the key, and the sum there.
#[derive(Clone, Copy)]
pub struct Entry<V> {
    pub key: ResultKey,
    pub rank: usize,
    pub value: V,
}

impl fmt::Display for Fault {
    fn fmt<W: fmt::Write>(&self, f: &mut fmt::Formatter<W>) -> fmt::Result {
        match self {
            Fault::Busy => f.write_str("a graph is under way"),
            Fault::Store(fault) => write!(f, "{fault}"),
            Fault::Line(fault) => write!(f, "{fault}"),
            Fault::NoGraph => f.write_str("no graph is loaded"),
            Fault::Drained => f.write_str("all commands are carried out"),
            Fault::Full(command) => write!(f, "no room for command {command}"),
            Fault::NotDrained => f.write_str("not all commands are carried out"),
            Fault::Sizes => f.write_str("a size out of range, or an area too short"),
        }
    }
}

impl Error for Fault {}

impl From<StoreFault> for Fault {
    ghost from_gives = { λ f e. e ≡ Store f };

    fn from(fault: StoreFault) -> Fault {
        Fault::Store(fault)
    }
}

impl From<LineFault> for Fault {
    ghost from_gives = { λ f e. e ≡ Line f };

    fn from(fault: LineFault) -> Fault {
        Fault::Line(fault)
    }
}

impl Fault {
    // The number and the place that a refusal returns.
    pub fn returned(self) -> (u8, usize)
        ensures { result ≡ number_and_place (fault_of self) }
    {
        match self {
            Fault::Busy => (1, 0),
            Fault::Store(StoreFault::Slot(slot)) => (2, slot),
            Fault::Store(StoreFault::Shape) => (3, 0),
            Fault::Store(StoreFault::Entry(index)) => (4, index),
            Fault::Store(StoreFault::Room) => (5, 0),
            Fault::Line(fault) => (fault.rule.number(), fault.place),
            Fault::NoGraph => (13, 0),
            Fault::Drained => (14, 0),
            Fault::Full(command) => (15, command),
            Fault::NotDrained => (16, 0),
            Fault::Sizes => (17, 0),
        }
    }
}
