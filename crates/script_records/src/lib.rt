// The records of a script as bytes: two letters, then as many bytes as they say.
#![tactic(auto)]

ghost use Rattle.std.specs.Prelude.{◌≡◌, ◌+◌, ◌*◌, ◌≤◌, length};
ghost use Rattle.script_records.specs.Records.{two_at, kind_of, letters_of_kind, size_of_kind, record_in, record_kind};

// The kinds of records.
#[derive(Clone, Copy, Debug, PartialEq, Eq)]
pub enum Kind {
    Tick,
    Dump,
    Integrate,
    Emit,
}

// Two letters that are no record's.
#[derive(Clone, Copy, Debug, PartialEq, Eq)]
pub struct UnknownMark;

#[derive(Clone, Copy, Debug, PartialEq, Eq)]
pub struct Tick {
    pub x: u8,
    pub y: u8,
    pub valid: u8,
}

#[derive(Clone, Copy, Debug, PartialEq, Eq)]
pub struct Dump {
    pub cell: u64,
    pub command: u64,
    pub bank: u64,
    pub phase: u64,
}

#[derive(Clone, Copy, Debug, PartialEq, Eq)]
pub struct Emit {
    pub cell: u64,
    pub bank: u64,
    pub bin: u64,
}

#[derive(Clone, Copy, Debug, PartialEq, Eq)]
pub enum Record {
    Tick(Tick),
    Dump(Dump),
    // Of this cell.
    Integrate(u64),
    Emit(Emit),
}

// What stands next in the input. Cut: an unknown mark, or a record that the input ends in.
#[derive(Clone, Copy, Debug, PartialEq, Eq)]
pub enum Next {
    Record(Record),
    End,
    Cut,
}

// Two bytes, low first.
pub fn two(low: u8, high: u8) -> u64
    ensures value { result ≡ low + 256 * high }
    ensures upper_bound { result ≤ 65535 }
{
    u64::from(u16::from_le_bytes([low, high]))
}

impl TryFrom<[u8; 2]> for Kind {
    type Error = UnknownMark;

    ghost try_from_gives = { λ letters r. r ≡ kind_of (two_at letters 0) };

    fn try_from(letters: [u8; 2]) -> Result<Self, UnknownMark> {
        match &letters {
            b"TK" => Ok(Kind::Tick),
            b"DP" => Ok(Kind::Dump),
            b"IN" => Ok(Kind::Integrate),
            b"EM" => Ok(Kind::Emit),
            _ => Err(UnknownMark),
        }
    }
}

impl Kind {
    // The letters of a record.
    pub fn letters(self) -> [u8; 2]
        ensures { result ≡ letters_of_kind self }
    {
        match self {
            Kind::Tick => *b"TK",
            Kind::Dump => *b"DP",
            Kind::Integrate => *b"IN",
            Kind::Emit => *b"EM",
        }
    }

    // The bytes of a record, its letters with them.
    pub fn size(self) -> usize
        ensures { result ≡ size_of_kind self }
    {
        match self {
            Kind::Tick => 5,
            Kind::Dump => 7,
            Kind::Integrate => 3,
            Kind::Emit => 6,
        }
    }

    // The record at the head of some bytes, where all its bytes are there.
    pub fn record_in(self, b: &[u8]) -> Record
        requires { size_of_kind self ≤ length b.now }
        ensures { result ≡ record_in self b.now }
    {
        match self {
            Kind::Tick => Record::Tick(Tick {
                x: b[2],
                y: b[3],
                valid: b[4],
            }),
            Kind::Dump => Record::Dump(Dump {
                cell: u64::from(b[2]),
                command: u64::from(b[3]),
                bank: u64::from(b[4]),
                phase: two(b[5], b[6]),
            }),
            Kind::Integrate => Record::Integrate(u64::from(b[2])),
            Kind::Emit => Record::Emit(Emit {
                cell: u64::from(b[2]),
                bank: u64::from(b[3]),
                bin: two(b[4], b[5]),
            }),
        }
    }
}

impl Record {
    pub fn kind(self) -> Kind
        ensures { result ≡ record_kind self }
    {
        match self {
            Record::Tick(_) => Kind::Tick,
            Record::Dump(_) => Kind::Dump,
            Record::Integrate(_) => Kind::Integrate,
            Record::Emit(_) => Kind::Emit,
        }
    }
}
