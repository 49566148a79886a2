//! Objects' kinds, the calls on objects, and the styles of records, with their words.
ghost use Rattle.std.specs.Prelude.{◌≡◌};
ghost use Rattle.pp_core.specs.Calls.{arguments};
ghost use Rattle.pp_core.specs.Words.{named, kind_word, kinds, method_word, style_word, styles};

use crate::sequence::Sequence;

/// The kind of an object of a run.
#[derive(Clone, Copy, Debug, PartialEq, Eq)]
pub enum Kind {
    /// A memory of numbered cells, each 0 at first.
    Memory,
    /// A set of keys.
    KeySet,
    /// A map from keys to values.
    KeyMap,
    /// A whole number.
    Counter,
    /// A first-in first-out queue.
    Queue,
    /// A last-in first-out stack.
    Stack,
    /// A queue that returns the least item first.
    PriorityQueue,
}

impl Kind {
    /// Its word in a header.
    pub fn word(self) -> &'static str
        ensures { result.now ≡ kind_word self }
    {
        match self {
            Kind::Memory => "mem",
            Kind::KeySet => "set",
            Kind::KeyMap => "map",
            Kind::Counter => "counter",
            Kind::Queue => "queue",
            Kind::Stack => "stack",
            Kind::PriorityQueue => "prio",
        }
    }

    /// The kind whose word this is.
    pub fn named(word: &str) -> Option<Kind>
        ensures { result ≡ named kind_word kinds word.now }
    {
        match word {
            "mem" => Some(Kind::Memory),
            "set" => Some(Kind::KeySet),
            "map" => Some(Kind::KeyMap),
            "counter" => Some(Kind::Counter),
            "queue" => Some(Kind::Queue),
            "stack" => Some(Kind::Stack),
            "prio" => Some(Kind::PriorityQueue),
            _ => None,
        }
    }
}

/// The kinds of the objects of a run, in their order.
pub type Kinds = Sequence<Kind>;

/// The method of a call.
#[derive(Clone, Copy, Debug, PartialEq, Eq)]
pub enum Method {
    Read,
    Write,
    Cas,
    Add,
    Remove,
    Contains,
    Put,
    Get,
    FetchAdd,
    Enq,
    Deq,
    StackPush,
    StackPop,
    Insert,
    Take,
    Least,
}

impl Method {
    /// Its word in a record.
    pub fn word(self) -> &'static str
        ensures { result.now ≡ method_word self }
    {
        match self {
            Method::Read => "read",
            Method::Write => "write",
            Method::Cas => "cas",
            Method::Add => "add",
            Method::Remove => "remove",
            Method::Contains => "contains",
            Method::Put => "put",
            Method::Get => "get",
            Method::FetchAdd => "fetch_add",
            Method::Enq => "enq",
            Method::Deq => "deq",
            Method::StackPush => "push",
            Method::StackPop => "pop",
            Method::Insert => "insert",
            Method::Take => "take",
            Method::Least => "least",
        }
    }
}

/// A call with its arguments, of which an unused one is 0.
#[derive(Clone, Copy, Debug, PartialEq, Eq)]
pub struct Call {
    /// The place of the object in the catalog.
    pub object: u16,
    pub method: Method,
    pub first: i64,
    pub second: i64,
    pub third: i64,
}

impl Call {
    /// Its arguments in their order, also those that its method does not have.
    pub fn arguments(&self) -> [i64; 3]
        ensures { result ≡ arguments self.now }
    {
        [self.first, self.second, self.third]
    }
}

/// How the records of a run were recorded.
#[derive(Clone, Copy, Debug, PartialEq, Eq)]
pub enum Style {
    /// Each record is one step of the machine.
    Rules,
    /// Each operation is published at once.
    Boosted,
    /// A transaction publishes its operations when it commits.
    Optimistic,
    /// As a processor's transactional memory does, in sections.
    Hardware,
    /// A transaction may read what others published and did not commit.
    Dependent,
}

impl Style {
    /// Its word in a header.
    pub fn word(self) -> &'static str
        ensures { result.now ≡ style_word self }
    {
        match self {
            Style::Rules => "rules",
            Style::Boosted => "boosted",
            Style::Optimistic => "optimistic",
            Style::Hardware => "hardware",
            Style::Dependent => "dependent",
        }
    }

    /// The style whose word this is.
    pub fn named(word: &str) -> Option<Style>
        ensures { result ≡ named style_word styles word.now }
    {
        match word {
            "rules" => Some(Style::Rules),
            "boosted" => Some(Style::Boosted),
            "optimistic" => Some(Style::Optimistic),
            "hardware" => Some(Style::Hardware),
            "dependent" => Some(Style::Dependent),
            _ => None,
        }
    }
}
