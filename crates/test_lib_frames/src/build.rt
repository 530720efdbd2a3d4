// Frames, built by the test itself: kind, N and content say all of a frame.
use lta_spec::Fields;
use test_lib_tools::bytes::{Kind, PEAK, put, put_word, sum, twice, word_at};
use test_lib_tools::random::{below, upto};

// The bytes of every buffer here: some more than the longest frame has.
pub const ROOM: usize = 1200;

// A field, in the order of Fields.
#[derive(Clone, Copy)]
pub enum Field {
    Kind,
    Cell,
    Block,
    Bin,
    Bank,
    Ticks,
    Centre,
    Edge,
    Second,
    Offset,
}

// What a frame has in its fields and lags.
#[derive(Clone, Copy)]
pub enum Content {
    // The base frame, from which most rows start. A lag may be 128000 in size.
    Base,
    // The base frame with another value in one field.
    Changed(Field, u32),
    // So many ticks, all valid, the greatest value in every other field, and lags as great as they can be.
    Full(u32),
    // Pseudo-random fields and lags that keep document 01's rules, by the seed of their draws.
    Random(u64),
}

// A frame of N lags, with the layout of a kind.
#[derive(Clone, Copy)]
pub struct Frame {
    pub kind: Kind,
    pub lags: u64,
    pub content: Content,
}

// The fields of the base frame.
fn base_fields(kind: u32) -> Fields {
    Fields {
        kind,
        cell: 5,
        block: 77,
        bin: 300,
        bank: 1,
        ticks: 1000,
        centre: 900,
        edge: 800,
        second: 123456,
        offset: 789,
    }
}

// The fields of the base frame, one of them changed.
fn changed_fields(kind: u32, field: Field, value: u32) -> Fields {
    let base = base_fields(kind);
    match field {
        Field::Kind => Fields {
            kind: value,
            ..base
        },
        Field::Cell => Fields {
            cell: value,
            ..base
        },
        Field::Block => Fields {
            block: value,
            ..base
        },
        Field::Bin => Fields { bin: value, ..base },
        Field::Bank => Fields {
            bank: value,
            ..base
        },
        Field::Ticks => Fields {
            ticks: value,
            ..base
        },
        Field::Centre => Fields {
            centre: value,
            ..base
        },
        Field::Edge => Fields {
            edge: value,
            ..base
        },
        Field::Second => Fields {
            second: value,
            ..base
        },
        Field::Offset => Fields {
            offset: value,
            ..base
        },
    }
}

// So many ticks, all valid, and the greatest of every other field.
fn full_fields(kind: u32, ticks: u32) -> Fields {
    Fields {
        kind,
        cell: 15,
        block: 255,
        bin: 999,
        bank: 1,
        ticks,
        centre: ticks,
        edge: ticks,
        second: u32::MAX,
        offset: 255999999,
    }
}

// Fields that keep document 01's rules.
fn random_fields(kind: u32, seed: u64) -> Fields {
    let ticks = upto(seed, 0, 16777215);
    Fields {
        kind,
        cell: upto(seed, 1, 15),
        block: upto(seed, 2, 255),
        bin: upto(seed, 3, 999),
        bank: upto(seed, 4, 1),
        ticks,
        centre: upto(seed, 5, ticks),
        edge: upto(seed, 6, ticks),
        second: upto(seed, 7, u32::MAX),
        offset: upto(seed, 8, 255999999),
    }
}

// DATA_BIAS, which is also the most that a lag may be in size.
pub fn bias(ticks: u32) -> u32 {
    PEAK as u32 * (ticks % (1 << 24))
}

// The header words, by their bits in document 01; the eighth is DATA_BIAS.
fn header_words(f: Fields) -> [u32; 8] {
    [
        f.kind | (f.cell << 11),
        (f.block << 8) | (f.bin << 16) | (f.bank << 31),
        f.ticks,
        f.centre,
        f.edge,
        f.second,
        f.offset,
        bias(f.ticks),
    ]
}

impl Frame {
    // The base frame of a kind and N.
    pub fn base(kind: Kind, lags: u64) -> Frame {
        Frame {
            kind,
            lags,
            content: Content::Base,
        }
    }

    // Another content in the same layout.
    pub fn with(self, content: Content) -> Frame {
        Frame { content, ..self }
    }

    pub fn length(self) -> usize {
        self.kind.length(self.lags)
    }

    pub fn fields(self) -> Fields {
        let kind = self.kind as u32;
        match self.content {
            Content::Base => base_fields(kind),
            Content::Changed(field, value) => changed_fields(kind, field, value),
            Content::Full(ticks) => full_fields(kind, ticks),
            Content::Random(seed) => random_fields(kind, seed),
        }
    }

    // Lag word j, where no lag is beyond `most` in size: rising in the base frame; I up and Q down, or either where the
    // frame is pseudo-random.
    fn lag_word(self, most: u32, j: u16) -> u32 {
        let (size, is_down) = match self.content {
            Content::Base | Content::Changed(..) => (1 + 45 * u32::from(j), j % 2 == 1),
            Content::Full(_) => (most, j % 2 == 1),
            Content::Random(seed) => {
                let draw = u64::from(j);
                (
                    upto(seed, 100 + draw, most),
                    below(seed, 1000 + draw, 2) == 1,
                )
            }
        };
        if is_down { size.wrapping_neg() } else { size }
    }

    // "Last: sum of all words before it", and `add`.
    pub fn seal(self, s: &mut [u8], add: u32) {
        let k = self.kind.last(self.lags);
        let right = sum(s, 0, k);
        put_word(s, k, right.wrapping_add(add));
    }

    pub fn bytes(self) -> [u8; ROOM] {
        let mut s = [0; ROOM];
        put(&mut s, 0, 0x4c);
        put(&mut s, 1, 0x54);
        let f = self.fields();
        let heads = self.kind.heads();
        for (k, word) in header_words(f).into_iter().enumerate().take(heads) {
            put_word(&mut s, k, word);
        }
        for j in 0..twice(self.lags) {
            put_word(&mut s, heads + j, self.lag_word(bias(f.ticks), j as u16));
        }
        self.seal(&mut s, 0);
        s
    }

    // Its bytes with w as word k, then the right last word and `add`.
    pub fn bytes_with(self, k: usize, w: u32, add: u32) -> [u8; ROOM] {
        let mut s = self.bytes();
        put_word(&mut s, k, w);
        self.seal(&mut s, add);
        s
    }
}

// Lag number j of the pairs that start with byte `at`.
pub fn lag(s: &[u8], at: usize, j: usize) -> i32 {
    word_at(s, at.saturating_add(j.saturating_mul(4))).cast_signed()
}

// The lag numbers of the pairs that start with byte `at`, and four more than the longest frame has.
pub fn numbers(s: &[u8], at: usize) -> [i32; 260] {
    let mut lags = [0; 260];
    for (j, number) in lags.iter_mut().enumerate() {
        *number = lag(s, at, j);
    }
    lags
}

// A length, and others near it or far from it. A word more and a word less come to the length of a frame of the other
// kind.
#[derive(Clone, Copy, PartialEq, Eq)]
pub enum Near {
    Right,
    ByteMore,
    WordMore,
    Longest,
    Nothing,
    Two,
    ByteLess,
    WordLess,
}

impl Near {
    pub const ALL: [Near; 8] = [
        Near::Right,
        Near::ByteMore,
        Near::WordMore,
        Near::Longest,
        Near::Nothing,
        Near::Two,
        Near::ByteLess,
        Near::WordLess,
    ];

    pub fn of(self, right: usize) -> usize {
        match self {
            Near::Right => right,
            Near::ByteMore => right.saturating_add(1),
            Near::WordMore => right.saturating_add(4),
            Near::Longest => ROOM,
            Near::Nothing => 0,
            Near::Two => 2,
            Near::ByteLess => right.saturating_sub(1),
            Near::WordLess => right.saturating_sub(4),
        }
    }
}
