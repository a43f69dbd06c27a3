//! The fields of a pointer word, packed into 64 bits.

ghost use Rattle.std.specs.Prelude.{◌≡◌, ◌^◌, ◌<◌};
ghost use Rattle.cb_ptr.specs.Word.{IsInWidths, fields_of, numbered_state, state_number, word_of};

/// Where an object is.
#[derive(Clone, Copy, Debug, PartialEq, Eq, Hash)]
pub enum State {
    /// Never made, or freed.
    Empty,
    /// In far memory, in a span-set.
    Far,
    /// In local memory, at the word's place.
    Here,
    /// Claimed: by the one caller that will settle it, or by the leaving batch.
    Moving,
}

impl State {
    /// The state's two bits in a word.
    fn bits(self) -> u64
        ensures { result ≡ state_number self }
    {
        match self {
            State::Empty => 0,
            State::Far => 1,
            State::Here => 2,
            State::Moving => 3,
        }
    }

    /// The state that has these two bits.
    fn from_bits(bits: u64) -> State
        ensures { result ≡ numbered_state bits }
    {
        match bits {
            0 => State::Empty,
            1 => State::Far,
            2 => State::Here,
            _ => State::Moving,
        }
    }
}

/// The fields of a pointer word.
#[derive(Clone, Copy, Debug, PartialEq, Eq, Hash)]
pub struct PtrWord {
    /// Where the object is.
    pub state: State,
    /// Whether the object was pinned or settled as hot since the flag was last cleared.
    pub hot: bool,
    /// How many pins hold the object here, below 1,024.
    pub pins: u32,
    /// The length in bytes, below 65,536.
    pub len: u32,
    /// The index of the first memory word of the object's slot, below 2^24.
    pub place: u32,
}

/// The word of these fields: state in bits 0 and 1, hot in bit 2, pins from bit 3, length from bit
/// 13 and place from bit 29. Bits 53 to 63 are zero.
pub fn pack(p: &PtrWord) -> u64
    requires { IsInWidths p.now }
    ensures word { result ≡ word_of p.now }
    ensures below { result < 2 ^ 53 }
    ensures reads_back { fields_of result ≡ p.now }
{
    let hot = u64::from(p.hot) << 2;
    let pins = u64::from(p.pins) << 3;
    let len = u64::from(p.len) << 13;
    let place = u64::from(p.place) << 29;
    p.state.bits() + hot + pins + len + place
}

/// The fields of a word. Bits 53 to 63 are not looked at.
pub fn unpack(w: u64) -> PtrWord
    ensures fields { result ≡ fields_of w }
    ensures in_widths { IsInWidths result }
    ensures packs_back { w < 2 ^ 53 → word_of result ≡ w }
{
    PtrWord {
        state: State::from_bits(w & 3),
        hot: (w >> 2) & 1 == 1,
        pins: ((w >> 3) & 0x3ff) as u32,
        len: ((w >> 13) & 0xffff) as u32,
        place: ((w >> 29) & 0xff_ffff) as u32,
    }
}
