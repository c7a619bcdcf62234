use pl_base::Name;
use std::fmt;

/// Where a file, a folder or a state breaks its rules.
#[derive(Debug, Drop)]
pub enum Place {
    /// At a byte, a line or a record, counted from 0.
    At(u64),
    /// The whole is no JSON text.
    Json,
    /// The JSON text has no list of records at its top.
    Records,
    /// The name of a file or folder has a form that isn't allowed.
    BadName,
    /// A rule on the whole is broken, the one of this name, which is in lower case.
    Rule(Name),
}

impl fmt::Display for Place {
    ghost use Rattle.std.specs.Prelude.{Some};
    ghost use Rattle.pcrlock_answer.specs.Texts.{place_text};

    ghost output = { λ place. Some (place_text place) };

    fn fmt<W: fmt::Write>(&self, f: &mut fmt::Formatter<W>) -> fmt::Result {
        match self {
            Place::At(place) => write!(f, "{place}"),
            Place::Json => write!(f, "json"),
            Place::Records => write!(f, "records"),
            Place::BadName => write!(f, "name"),
            Place::Rule(name) => {
                let name = name.text();
                write!(f, "rule {name}")
            }
        }
    }
}
