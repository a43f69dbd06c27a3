//! What is wrong with a script: its reasons, in their order.

ghost use Rattle.std.specs.Prelude.{◌≡◌};
ghost use Rattle.cb_script.specs.declared.fault.ScriptFault.TheVariants.{NoMemory as OutOfMemory};
ghost use Rattle.cb_script.specs.declared.fault.Refusal.TheVariants.{NoMemory as RefusedMemory, Broken};

use cb_types::NoMemory;

/// What is wrong with a script: the rule that its first bad line breaks.
#[derive(Clone, Copy, Debug, PartialEq, Eq)]
pub enum Reason {
    /// The input has more than 1,048,576 bytes. The line is 0.
    TooLong,
    /// Line 1 is missing, or has not the form of the header.
    Header,
    /// A field of the header is out of its range.
    Config,
    /// There are more than 20,000 lines after the header.
    Lines,
    /// The spaces, the verb or the count of words.
    Shape,
    /// The lane is no number up to 15, or it is lane 0 after a line of another lane.
    Lane,
    /// The name has not 1 to 16 lower-case letters and digits.
    Name,
    /// A make of a name that was made before, or another verb on one that its lane does not know.
    Known,
    /// The node is no number below the nodes, or the place no number up to 4,096.
    Number,
    /// The bytes are not in lower-case hexadecimal.
    Hex,
    /// There are more than 4,096 bytes.
    Length,
    /// A step of an eviction or a compaction, where lanes run as threads.
    Mode,
}

impl Reason {
    ghost use Rattle.cb_script.specs.Reasons.{reason_number, reason_word};

    /// The number by which the reason is printed.
    pub fn number(&self) -> u32
        ensures { result ≡ reason_number self.now }
    {
        match self {
            Reason::TooLong => 1,
            Reason::Header => 2,
            Reason::Config => 3,
            Reason::Lines => 4,
            Reason::Shape => 5,
            Reason::Lane => 6,
            Reason::Name => 7,
            Reason::Known => 8,
            Reason::Number => 9,
            Reason::Hex => 10,
            Reason::Length => 11,
            Reason::Mode => 12,
        }
    }

    /// The word by which the reason is printed.
    pub fn word(&self) -> &'static str
        ensures { result.now ≡ reason_word self.now }
    {
        match self {
            Reason::TooLong => "toolong",
            Reason::Header => "header",
            Reason::Config => "config",
            Reason::Lines => "lines",
            Reason::Shape => "shape",
            Reason::Lane => "lane",
            Reason::Name => "name",
            Reason::Known => "known",
            Reason::Number => "number",
            Reason::Hex => "hex",
            Reason::Length => "length",
            Reason::Mode => "mode",
        }
    }
}

/// Why no script was read.
#[derive(Clone, Copy, Debug, PartialEq, Eq)]
pub enum ScriptFault {
    /// The bytes are no script: the first bad line, and the least reason on it. The line is 0
    /// where the fault is told of the input as a whole, and the header is line 1.
    Bad { line: u32, reason: Reason },
    /// There was no memory for what was read.
    NoMemory,
}

impl From<NoMemory> for ScriptFault {
    ghost from_gives = { λ _ e. e ≡ OutOfMemory };

    fn from(_refused: NoMemory) -> ScriptFault {
        ScriptFault::NoMemory
    }
}

/// Why a line was not read.
#[derive(Clone, Copy)]
pub(crate) enum Refusal {
    /// The line breaks the rule after this reason.
    Broken(Reason),
    /// There was no memory for what was read.
    NoMemory,
}

impl From<NoMemory> for Refusal {
    ghost from_gives = { λ _ e. e ≡ RefusedMemory };

    fn from(_refused: NoMemory) -> Refusal {
        Refusal::NoMemory
    }
}

impl From<Reason> for Refusal {
    ghost from_gives = { λ reason e. e ≡ Broken reason };

    fn from(reason: Reason) -> Refusal {
        Refusal::Broken(reason)
    }
}
