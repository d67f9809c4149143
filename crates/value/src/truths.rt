//! The truth of a search condition, and its tables.

ghost use Rattle.std.specs.Prelude.{◌≡◌};
ghost use Rattle.value.specs.Truths.{and_of, or_of, not_of, is_of, truth_of_bool, name_of};

/// The truth of a search condition.
#[derive(Clone, Copy, Debug, PartialEq, Eq)]
pub enum Truth {
    True,
    False,
    Unknown,
}

impl Truth {
    /// False if a side is false, else unknown if a side is unknown, else true.
    pub fn and(self, other: Truth) -> Truth
        ensures { result ≡ and_of self other }
    {
        match (self, other) {
            (Truth::False, _) | (_, Truth::False) => Truth::False,
            (Truth::Unknown, _) | (_, Truth::Unknown) => Truth::Unknown,
            (Truth::True, Truth::True) => Truth::True,
        }
    }

    /// True if a side is true, else unknown if a side is unknown, else false.
    pub fn or(self, other: Truth) -> Truth
        ensures { result ≡ or_of self other }
    {
        match (self, other) {
            (Truth::True, _) | (_, Truth::True) => Truth::True,
            (Truth::Unknown, _) | (_, Truth::Unknown) => Truth::Unknown,
            (Truth::False, Truth::False) => Truth::False,
        }
    }

    /// The other of true and false. Unknown stays unknown.
    pub fn not(self) -> Truth
        ensures { result ≡ not_of self }
    {
        match self {
            Truth::True => Truth::False,
            Truth::False => Truth::True,
            Truth::Unknown => Truth::Unknown,
        }
    }

    /// Whether this is that truth, as IS asks. It is never unknown.
    pub fn is(self, other: Truth) -> bool
        ensures { result ≡ is_of self other }
    {
        self == other
    }

    /// The word that SQL has for it.
    pub fn name(self) -> &'static str
        ensures { result.now ≡ name_of self }
    {
        match self {
            Truth::True => "TRUE",
            Truth::False => "FALSE",
            Truth::Unknown => "UNKNOWN",
        }
    }
}

/// The truth of what is known to hold, or not to hold.
impl From<bool> for Truth {
    ghost from_gives = { λ holds truth. truth ≡ truth_of_bool holds };

    fn from(holds: bool) -> Truth {
        if holds { Truth::True } else { Truth::False }
    }
}
