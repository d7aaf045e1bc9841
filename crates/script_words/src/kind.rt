ghost use Rattle.std.specs.Prelude.{◌≡◌};
ghost use Rattle.script_words.specs.Faults.{kind_number};

/// Why a line of a script is bad.
#[derive(Clone, Copy, PartialEq, Eq, Debug)]
pub enum Kind {
    /// A word isn't one of those that may stand there.
    Word,
    /// A word is no number, or no address.
    Number,
    /// The line ends too early.
    Missing,
    /// A word is too many.
    Extra,
    /// A digit isn't hexadecimal, or the count of digits is odd, or it isn't the one that is wanted.
    Hex,
    /// A name is given again, or a flag, or the budget.
    Twice,
    /// No earlier line has this name.
    Unknown,
    /// A number is outside its range, or there are too many bytes or lines.
    Limit,
    /// The script ends without its last line.
    NoEnd,
    /// A line comes behind the last line.
    AfterEnd,
}

impl Kind {
    /// Its number, 1 to 10, as it is printed.
    pub fn number(self) -> u8
        ensures { result ≡ kind_number self }
    {
        match self {
            Kind::Word => 1,
            Kind::Number => 2,
            Kind::Missing => 3,
            Kind::Extra => 4,
            Kind::Hex => 5,
            Kind::Twice => 6,
            Kind::Unknown => 7,
            Kind::Limit => 8,
            Kind::NoEnd => 9,
            Kind::AfterEnd => 10,
        }
    }
}

/// Why a line was not taken: it is bad, or an allocation failed.
#[derive(Clone, Copy, PartialEq, Eq, Debug)]
pub enum LineFault {
    Bad(Kind),
    Memory,
}
