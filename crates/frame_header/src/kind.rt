// The kinds of frames: their numbers, and where the parts of their frames stand.
ghost use Rattle.std.specs.Prelude.{◌≡◌, true, ◌≤◌};
ghost use Rattle.lta_spec.specs.Frame.{head_words, frame_length, lags_at, length_kind, fields_ok};
ghost use Rattle.frame_header.specs.Kind.{kind_number};

use crate::BIAS;
use lta_spec::{ACCUMULATED, Fields, SPEED_FRAME};

// How many header words a frame of a kind has, by the kind's number: any but a speed frame's as the accumulator's.
pub fn head_words(kind: u32) -> usize
    ensures { (result ≡ head_words kind) × (7 ≤ result) × (result ≤ 8) }
{
    if kind == SPEED_FRAME { BIAS + 1 } else { BIAS }
}

// Where the lag pairs of a frame start, in bytes: behind mark and header words.
pub fn lags_at(kind: u32) -> u64
    ensures { (result ≡ lags_at kind) × (result ≤ 34) }
{
    2 + 4 * head_words(kind) as u64
}

// The bytes of a frame of so many lags: mark, header words, lag pairs and last word.
pub fn frame_length(kind: u32, lags: u64) -> u64
    requires { lags ≤ 128 }
    ensures { result ≡ frame_length kind lags }
{
    lags_at(kind) + 8 * lags + 4
}

#[derive(Clone, Copy, Debug, PartialEq, Eq)]
pub enum FrameKind {
    // A frame that the accumulator sends.
    Accumulated,
    // A speed frame, with DATA_BIAS behind W6.
    Speed,
}

impl FrameKind {
    // The kind that fields name.
    #[tactic(auto, unfolding(lta_spec::specs::Frame::fields_ok))]
    pub fn of(f: Fields) -> FrameKind
        requires { fields_ok f ≡ true }
        ensures { kind_number result ≡ f.kind }
    {
        if f.kind == SPEED_FRAME {
            FrameKind::Speed
        } else {
            FrameKind::Accumulated
        }
    }

    // The kind that has frames of so many bytes; where none has, the accumulator's.
    #[tactic(auto, unfolding(lta_spec::specs::Frame::length_kind))]
    pub fn of_length(lags: u64, bytes: u64) -> FrameKind
        requires { lags ≤ 128 }
        ensures { kind_number result ≡ length_kind lags bytes }
    {
        if bytes == FrameKind::Speed.length(lags) {
            FrameKind::Speed
        } else {
            FrameKind::Accumulated
        }
    }

    // How many header words a frame has.
    pub fn head_words(self) -> usize
        ensures { (result ≡ head_words (kind_number self)) × (7 ≤ result) × (result ≤ 8) }
    {
        head_words(self.into())
    }

    // Where the lag pairs of a frame start, in bytes.
    pub fn lags_at(self) -> u64
        ensures { (result ≡ lags_at (kind_number self)) × (result ≤ 34) }
    {
        lags_at(self.into())
    }

    // The bytes of a frame of so many lags.
    pub fn length(self, lags: u64) -> u64
        requires { lags ≤ 128 }
        ensures { result ≡ frame_length (kind_number self) lags }
    {
        frame_length(self.into(), lags)
    }
}

impl From<FrameKind> for u32 {
    ghost from_gives = { λ k n. n ≡ kind_number k };

    fn from(kind: FrameKind) -> u32 {
        match kind {
            FrameKind::Accumulated => ACCUMULATED,
            FrameKind::Speed => SPEED_FRAME,
        }
    }
}
