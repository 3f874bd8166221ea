// The four kinds, and a rewriter of any of them.
ghost use Rattle.std.specs.Prelude.{Some, codes};
ghost use Rattle.kind.specs.Words.{word, Reads};

use rewrite::{BasicEq, ComplexEq, CustomEq, ForceEq};
use std::{error, fmt};

#[derive(Clone, Copy, PartialEq, Eq, Debug)]
pub enum Kind {
    Basic,
    Complex,
    Custom,
    Force,
}

impl fmt::Display for Kind {
    ghost output = { λ k. Some (word k) };

    fn fmt<W: fmt::Write>(&self, f: &mut fmt::Formatter<W>) -> fmt::Result {
        match self {
            Kind::Basic => f.write_str("basic"),
            Kind::Complex => f.write_str("complex"),
            Kind::Custom => f.write_str("custom"),
            Kind::Force => f.write_str("force"),
        }
    }
}

// A word that names no kind.
#[derive(Clone, Copy, PartialEq, Eq, Debug)]
pub struct NotAKind;

impl fmt::Display for NotAKind {
    ghost output = { λ _. Some (codes "no kind of rewriter") };

    fn fmt<W: fmt::Write>(&self, f: &mut fmt::Formatter<W>) -> fmt::Result {
        f.write_str("no kind of rewriter")
    }
}

impl error::Error for NotAKind {}

// A word names the kind that is written so.
impl<'a> TryFrom<&'a [u8]> for Kind {
    type Error = NotAKind;

    ghost try_from_gives = { λ bytes r. Reads bytes.now r };

    fn try_from(bytes: &'a [u8]) -> Result<Self, NotAKind> {
        match bytes {
            b"basic" => Ok(Kind::Basic),
            b"complex" => Ok(Kind::Complex),
            b"custom" => Ok(Kind::Custom),
            b"force" => Ok(Kind::Force),
            _ => Err(NotAKind),
        }
    }
}

// CustomEq and ForceEq stand over ComplexEq. An enum and no `dyn`: a rewriter's calls are generic over the host.
#[derive(Drop)]
pub enum AnyEq<'a> {
    Basic(BasicEq<'a>),
    Complex(ComplexEq<'a>),
    Custom(CustomEq<ComplexEq<'a>>),
    Force(ForceEq<ComplexEq<'a>>),
}
