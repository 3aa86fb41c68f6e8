// The types that document 01 declares. What they mean is said in specs/.
#![tactic(auto)]

ghost use Rattle.std.specs.Prelude.{◌≡◌};
ghost use Rattle.rules.specs.Graph.{opposite, pin_of, inverted};
ghost use Rattle.rules.specs.Answers.{number_of};

use std::error::Error;
use std::fmt;

// A literal: twice its pin, and 1 more where it is inverted.
#[derive(Clone, Copy)]
pub struct Literal {
    pub word: u32,
}

impl Literal {
    // The literal of the other bit.
    pub fn opposite(self) -> Literal
        ensures { result.word ≡ opposite self.word }
    {
        if self.word % 2 == 0 {
            Literal {
                word: self.word + 1,
            }
        } else {
            Literal {
                word: self.word - 1,
            }
        }
    }

    pub fn pin(self) -> u32
        ensures { result ≡ pin_of self.word }
    {
        self.word / 2
    }

    pub fn inverted(self) -> bool
        ensures { result ≡ inverted self.word }
    {
        self.word % 2 == 1
    }
}

#[derive(Clone, Copy, PartialEq, Eq)]
pub enum Edge {
    Rising,
    Falling,
}

// What drives a pin of the graph: an AND gate of two literals, an input port, a clock flag of a port and an edge,
// a flip-flop's or a RAM's cell, or nothing: constant 0.
#[derive(Clone, Copy)]
pub enum Driver {
    And(Literal, Literal),
    Port(u32),
    Flag(u32, Edge),
    Dff(u32),
    Ram(u32),
    Constant,
}

// A flip-flop record: the literals of its next bit and its enable, and its pin.
#[derive(Clone, Copy)]
pub struct Record {
    pub next: u32,
    pub enable: u32,
    pub pin: u32,
}

// What has to be worked out: an output literal, a flip-flop or a RAM by its place in its table, or a handed-on pin.
#[derive(Clone, Copy)]
pub enum Endpoint {
    Output(u32),
    Flop(u32),
    Memory(u32),
    Handed(u32),
}

// The running counts of a graph.
#[derive(Clone, Copy)]
pub struct Tally {
    pub pins: u32,
    pub gates: u32,
    pub outputs: u32,
    pub dffs: u32,
    pub rams: u32,
}

// How many cells, pins and nets a netlist has.
#[derive(Clone, Copy)]
pub struct NetlistCounts {
    pub cells: u32,
    pub pins: u32,
    pub nets: u32,
}

// How many pins, output literals, flip-flop and RAM records a graph has.
#[derive(Clone, Copy)]
pub struct GraphCounts {
    pub pins: u32,
    pub outputs: u32,
    pub dffs: u32,
    pub rams: u32,
}

// How many of each a caller has room for.
#[derive(Clone, Copy)]
pub struct Rooms {
    pub pins: u32,
    pub outputs: u32,
    pub dffs: u32,
    pub rams: u32,
    pub fanouts: u32,
}

// Why a call is refused, in the order of the numbers that a caller in C is told.
#[derive(Clone, Copy, Debug, PartialEq, Eq)]
pub enum Refusal {
    Bounds,
    Lengths,
    Kinds,
    Latch,
    PinLists,
    Nets,
    Loop,
    ClockCell,
    ClockLength,
    Marker,
    Room,
    Graph,
    Levels,
    NothingRead,
    Index,
}

impl Refusal {
    // The refusal's number.
    pub fn number(self) -> u32
        ensures { result ≡ number_of self }
    {
        match self {
            Refusal::Bounds => 1,
            Refusal::Lengths => 2,
            Refusal::Kinds => 3,
            Refusal::Latch => 4,
            Refusal::PinLists => 5,
            Refusal::Nets => 6,
            Refusal::Loop => 7,
            Refusal::ClockCell => 8,
            Refusal::ClockLength => 9,
            Refusal::Marker => 10,
            Refusal::Room => 11,
            Refusal::Graph => 12,
            Refusal::Levels => 13,
            Refusal::NothingRead => 14,
            Refusal::Index => 15,
        }
    }
}

impl fmt::Display for Refusal {
    fn fmt<W: fmt::Write>(&self, f: &mut fmt::Formatter<W>) -> fmt::Result {
        match self {
            Refusal::Bounds => write!(f, "a count, room or level is out of its bounds"),
            Refusal::Lengths => write!(f, "a table is not of the length of its count"),
            Refusal::Kinds => write!(f, "a kind is unknown, or a cell but the first is the top"),
            Refusal::Latch => write!(f, "a cell is a latch"),
            Refusal::PinLists => write!(f, "the pins of the cells break a rule"),
            Refusal::Nets => write!(f, "a net has no one driver"),
            Refusal::Loop => write!(f, "pins depend on themselves"),
            Refusal::ClockCell => write!(f, "a clock comes from a cell that makes no clock"),
            Refusal::ClockLength => write!(f, "a clock passes more than 64 cells"),
            Refusal::Marker => write!(f, "a gated clock reaches a pin that must have a logic bit"),
            Refusal::Room => write!(f, "a result table has too little room"),
            Refusal::Graph => write!(f, "the graph breaks a rule"),
            Refusal::Levels => write!(f, "the split levels do not rise"),
            Refusal::NothingRead => write!(f, "no endpoint reads a pin but 0"),
            Refusal::Index => write!(f, "an index is out of range, repeats, or stands too early"),
        }
    }
}

impl Error for Refusal {}

// How many pins a stage hands on, and how many endpoints it takes.
#[derive(Clone, Copy)]
pub struct StageSize {
    pub handed: u32,
    pub taken: u32,
}

// How many stages there are, how many pins they hand on in all, and how many endpoints they take.
#[derive(Clone, Copy)]
pub struct StagesSize {
    pub stages: u32,
    pub handed: u32,
    pub taken: u32,
}

// The tables of a netlist as they are lent: a word a cell, where each cell's list begins, the pins that the lists name,
// five words a pin, and a word a net.
#[derive(Clone, Copy)]
pub struct NetlistTables<'a> {
    pub kinds: &'a [u32],
    pub starts: &'a [u32],
    pub list: &'a [u32],
    pub pins: &'a [u32],
    pub nets: &'a [u32],
}

// The tables of what a graph's endpoints read, with its counts: a word an output, three a flip-flop, 123 a RAM.
#[derive(Clone, Copy)]
pub struct EndTables<'a> {
    pub counts: GraphCounts,
    pub outputs: &'a [u32],
    pub dffs: &'a [u32],
    pub rams: &'a [u32],
}

// A graph as it is lent: those tables, and three words a pin.
#[derive(Clone, Copy)]
pub struct GraphTables<'a> {
    pub ends: EndTables<'a>,
    pub drivers: &'a [u32],
}
