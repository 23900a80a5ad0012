// What can be wrong with a line, and what is told of it.
use std::fmt;

#[derive(Clone, Copy)]
pub(crate) enum Wrong {
    UnknownCall,
    UnknownField,
    FewWords,
    ManyWords,
    BadWord,
    BadNumber,
    TooLong,
    NoCase,
}

impl fmt::Display for Wrong {
    fn fmt<W: fmt::Write>(&self, f: &mut fmt::Formatter<W>) -> fmt::Result {
        match self {
            Wrong::UnknownCall => write!(f, "unknown call"),
            Wrong::UnknownField => write!(f, "unknown field"),
            Wrong::FewWords => write!(f, "too few words"),
            Wrong::ManyWords => write!(f, "too many words"),
            Wrong::BadWord => write!(f, "bad word"),
            Wrong::BadNumber => write!(f, "bad number"),
            Wrong::TooLong => write!(f, "too long"),
            Wrong::NoCase => write!(f, "no case"),
        }
    }
}
