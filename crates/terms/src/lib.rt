// The words that all layers share: why a call is refused and where, and the kinds of a job's nodes.
#![tactic(auto)]

ghost use Rattle.std.specs.Prelude.{◌≡◌};
ghost use Rattle.terms.specs.Numbers.{Decodes, kind_number, reason_number};

// Why a call is refused, in the order of the papers' numbers, from 1 on.
#[derive(Clone, Copy, Debug, PartialEq, Eq)]
pub enum Reason {
    // the bytes end too early
    Cut,
    // they do not begin with `WSJ`
    Mark,
    // the version is not 1
    Version,
    // the node count is 0 or above 1,000
    Count,
    // a node's kind is unknown, or not permitted there
    Kind,
    // a register is 64 or more
    Register,
    // a node is at depth 65
    Depth,
    // there is a sixteenth FORK
    Forks,
    // nodes or bytes do not match the count
    Length,
    // the output is shorter than the result
    ShortTray,
    // no accepted job compiles to the code
    ForeignCode,
    // registers, counts and records do not fit the code
    ForeignState,
    // there are more than 32,768 picks
    LongList,
    // an ATOMIC has more than 200 nodes below it
    LongTransaction,
    // the text is no formula
    NoScript,
}

// Why, and where.
#[derive(Clone, Copy, Debug, PartialEq, Eq)]
pub struct Refusal {
    pub reason: Reason,
    pub place: usize,
}

impl Reason {
    // The papers' number.
    pub fn number(self) -> u8
        ensures { result ≡ reason_number self }
    {
        match self {
            Reason::Cut => 1,
            Reason::Mark => 2,
            Reason::Version => 3,
            Reason::Count => 4,
            Reason::Kind => 5,
            Reason::Register => 6,
            Reason::Depth => 7,
            Reason::Forks => 8,
            Reason::Length => 9,
            Reason::ShortTray => 10,
            Reason::ForeignCode => 11,
            Reason::ForeignState => 12,
            Reason::LongList => 13,
            Reason::LongTransaction => 14,
            Reason::NoScript => 15,
        }
    }

    // A refusal at this place.
    pub fn at(self, place: usize) -> Refusal
        ensures { result ≡ record { reason = self; place = place } }
    {
        Refusal {
            reason: self,
            place,
        }
    }
}

// The kinds of a job's nodes, in the order of their bytes, from 1 on: four of processes, then four of transactions.
#[derive(Clone, Copy, Debug, PartialEq, Eq)]
pub enum Kind {
    Valp,
    Addp,
    Atomic,
    Fork,
    Valt,
    Addt,
    Read,
    Write,
}

// A byte that is no kind.
#[derive(Clone, Copy, Debug, PartialEq, Eq)]
pub struct UnknownKind;

impl TryFrom<u8> for Kind {
    type Error = UnknownKind;

    ghost try_from_gives = { Decodes };

    fn try_from(byte: u8) -> Result<Kind, UnknownKind> {
        match byte {
            1 => Ok(Kind::Valp),
            2 => Ok(Kind::Addp),
            3 => Ok(Kind::Atomic),
            4 => Ok(Kind::Fork),
            5 => Ok(Kind::Valt),
            6 => Ok(Kind::Addt),
            7 => Ok(Kind::Read),
            8 => Ok(Kind::Write),
            _ => Err(UnknownKind),
        }
    }
}

impl Kind {
    // The kind's byte in a job.
    pub fn byte(self) -> u8
        ensures { result ≡ kind_number self }
    {
        match self {
            Kind::Valp => 1,
            Kind::Addp => 2,
            Kind::Atomic => 3,
            Kind::Fork => 4,
            Kind::Valt => 5,
            Kind::Addt => 6,
            Kind::Read => 7,
            Kind::Write => 8,
        }
    }
}
