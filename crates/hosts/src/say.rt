// How answers are shown.
use request::Pair;
use std::fmt;
use store::Fault;

// A value, or none.
#[derive(Clone, Copy)]
pub struct OrNone<T>(pub Option<T>);

impl<T: fmt::Display> fmt::Display for OrNone<T> {
    fn fmt<W: fmt::Write>(&self, f: &mut fmt::Formatter<W>) -> fmt::Result {
        match &self.0 {
            Some(value) => write!(f, "{value}"),
            None => f.write_str("none"),
        }
    }
}

// The ends of an equality.
#[derive(Clone, Copy)]
pub struct Ends(pub Pair);

impl fmt::Display for Ends {
    fn fmt<W: fmt::Write>(&self, f: &mut fmt::Formatter<W>) -> fmt::Result {
        let Pair { from, to } = self.0;
        write!(f, "{from} to {to}")
    }
}

// The number of an equality, or why it was refused.
#[derive(Drop)]
pub struct Made(pub Result<usize, Fault>);

impl fmt::Display for Made {
    fn fmt<W: fmt::Write>(&self, f: &mut fmt::Formatter<W>) -> fmt::Result {
        match self.0 {
            Ok(number) => write!(f, "{number}"),
            Err(fault) => write!(
                f,
                "refused {}, {:?}, {:?}",
                fault.refusal.number(),
                fault.layer,
                fault.culprit
            ),
        }
    }
}
