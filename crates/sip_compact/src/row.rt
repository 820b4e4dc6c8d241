//! What is kept of an event that may be chosen.
ghost use Rattle.std.specs.Prelude.{◌≡◌};
ghost use Rattle.sip_compact.specs.Parts as Definitions;

/// Where the text of an event stands in a record's file: from one place up to another, in bytes or in lines, as who tells it
/// counts.
#[derive(Clone, Copy)]
pub struct Place {
    pub start: u64,
    pub end: u64,
}

/// What an event is.
#[derive(Clone, Copy)]
pub(crate) enum Kind {
    Datagram,
    Fault,
    Time,
}

/// An event that may be chosen.
#[derive(Clone, Copy)]
pub(crate) struct Row {
    pub place: Place,
    pub kind: Kind,
    /// Its moment, in milliseconds.
    pub at: u64,
    /// Of a datagram its number, of a fault that of the datagram whose packet failed; 0 of a moment.
    pub number: u64,
    /// The number of the datagram whose word is the nonce of its credential, if it has one that lived.
    pub challenge: Option<u64>,
}

impl Row {
    /// Whether it is a datagram.
    pub(crate) fn is_datagram(&self) -> bool {
        match self.kind {
            Kind::Datagram => true,
            Kind::Fault | Kind::Time => false,
        }
    }

    /// Whether it is a fault.
    pub(crate) fn is_fault(&self) -> bool {
        match self.kind {
            Kind::Fault => true,
            Kind::Datagram | Kind::Time => false,
        }
    }

    /// Whether it is a moment.
    pub(crate) fn is_time(&self) -> bool {
        match self.kind {
            Kind::Time => true,
            Kind::Datagram | Kind::Fault => false,
        }
    }

    /// Where its text stands.
    pub(crate) fn place(&self) -> Place
        ensures { result ≡ Definitions.place_of self.now }
    {
        self.place
    }
}
