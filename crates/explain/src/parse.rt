// A line of a request as a typed item, and what the item adds to the request.
use crate::expected::{Expected, LineError};
use crate::host_text::{Class, ClassKind, Live};
use crate::number::parse_number;
use crate::text::{Action, Bindings, Query, RequestText};
use crate::words::{Words, split_once};
use kind::Kind;
use request::{ENodeIdx, Pair, TermIdx};
use std::alloc::Global;
use store::{HasVar, TermKind};
use version::Version;

// A word, empty where the line has no more. It has a type of its own so that other crates' types can be read from it.
#[derive(Clone, Copy)]
struct Word<'a>(&'a [u8]);

impl<'a> TryFrom<Word<'a>> for usize {
    type Error = Expected;

    fn try_from(word: Word<'a>) -> Result<usize, Expected> {
        parse_number(word.0).ok_or(Expected::Number)
    }
}

// The two kinds of numbers are types of their own so that none is taken for the other, and each is read in a line.
impl<'a> TryFrom<Word<'a>> for TermIdx {
    type Error = Expected;

    fn try_from(word: Word<'a>) -> Result<TermIdx, Expected> {
        usize::try_from(word).map(TermIdx)
    }
}

impl<'a> TryFrom<Word<'a>> for ENodeIdx {
    type Error = Expected;

    fn try_from(word: Word<'a>) -> Result<ENodeIdx, Expected> {
        usize::try_from(word).map(ENodeIdx)
    }
}

impl<'a> TryFrom<Word<'a>> for Pair {
    type Error = Expected;

    fn try_from(word: Word<'a>) -> Result<Pair, Expected> {
        let (from, to) = split_once(word.0, b':').ok_or(Expected::Pair)?;
        Ok(Pair {
            from: usize::try_from(Word(from))?,
            to: usize::try_from(Word(to))?,
        })
    }
}

impl<'a> TryFrom<Word<'a>> for HasVar {
    type Error = Expected;

    fn try_from(word: Word<'a>) -> Result<HasVar, Expected> {
        match word.0 {
            b"no" => Ok(HasVar::No),
            b"yes" => Ok(HasVar::Yes),
            b"unknown" => Ok(HasVar::Unknown),
            _ => Err(Expected::HasVar),
        }
    }
}

impl<'a> TryFrom<Word<'a>> for Kind {
    type Error = Expected;

    fn try_from(word: Word<'a>) -> Result<Kind, Expected> {
        Kind::try_from(word.0).map_err(|_| Expected::Kind)
    }
}

fn next<'a, T: TryFrom<Word<'a>, Error = Expected>>(words: &mut Words<'a>) -> Result<T, Expected> {
    T::try_from(Word(words.next().unwrap_or(&[])))
}

fn rest<'a, T: TryFrom<Word<'a>, Error = Expected> + Drop>(
    words: Words<'a>,
    heap: Global,
) -> Result<Vec<T>, LineError> {
    words
        .map(|word| T::try_from(Word(word)).map_err(LineError::Unread))
        .try_collect(heap)
}

pub fn no_more(mut words: Words) -> Result<(), Expected> {
    match words.next() {
        Some(_) => Err(Expected::LineEnd),
        None => Ok(()),
    }
}

// A line of a request. It is data and no closure, so that it is read whole before it changes anything.
#[derive(Drop)]
pub enum Item<'a> {
    Symbol(&'a [u8]),
    Term {
        kind: TermKind,
        children: Vec<usize>,
    },
    Mark {
        term: usize,
        has_var: HasVar,
    },
    Node {
        owner: usize,
    },
    Pattern {
        term: usize,
    },
    Bindings(Bindings),
    Entry {
        node: usize,
        pairs: Vec<Pair>,
    },
    Live(Live),
    Class {
        kind: ClassKind,
        class: Class,
    },
    Version(Version),
    Action(Action),
}

impl<'a> Item<'a> {
    // The item of a line that begins with this word and goes on with these.
    pub fn read(word: &[u8], words: Words<'a>, heap: Global) -> Result<Item<'a>, LineError> {
        match word {
            b"app" => read_term(TermKind::App, words, heap),
            b"quant" => read_term(TermKind::Quant, words, heap),
            b"terms" => Ok(Item::Bindings(Bindings::Terms(rest(words, heap)?))),
            b"nodes" => Ok(Item::Bindings(Bindings::Nodes(rest(words, heap)?))),
            b"entry" => read_entry(words, heap),
            _ => Item::read_short(word, words, heap),
        }
    }

    // The same for the items that have as many words each time.
    fn read_short(word: &[u8], mut words: Words<'a>, heap: Global) -> Result<Item<'a>, LineError> {
        let item = match word {
            b"symbol" => read_symbol(&mut words)?,
            b"var" => read_var(&mut words, heap)?,
            b"mark" => read_mark(&mut words)?,
            b"node" => Item::Node {
                owner: next(&mut words)?,
            },
            b"pattern" => Item::Pattern {
                term: next(&mut words)?,
            },
            b"live" => read_live(&mut words)?,
            b"class" => read_class(ClassKind::Class, &mut words)?,
            b"link" => read_class(ClassKind::Link, &mut words)?,
            b"version" => read_version(&mut words)?,
            b"find" => read_find(&mut words)?,
            b"offers" => read_offers(&mut words)?,
            b"round" => Item::Action(Action::Round {
                kind: next(&mut words)?,
            }),
            _ => return Err(LineError::Unread(Expected::KnownWord)),
        };
        no_more(words)?;
        Ok(item)
    }

    pub fn apply(self, request: &mut RequestText) -> Result<(), LineError> {
        match self {
            Item::Symbol(name) => request.store.add_symbol(name)?,
            Item::Term { kind, children } => request.store.add_term(kind, children.as_slice())?,
            Item::Mark { term, has_var } => request.store.mark(term, has_var)?,
            Item::Node { owner } => request.store.add_node(owner)?,
            Item::Pattern { term } => request.set_pattern(term)?,
            Item::Bindings(bindings) => request.set_bindings(bindings)?,
            Item::Entry { node, pairs } => request.add_entry(node, pairs.as_slice())?,
            Item::Live(live) => request.host.add_live(live)?,
            Item::Class { kind, class } => request.host.add_class(kind, class)?,
            Item::Version(version) => request.host.set_version(version)?,
            Item::Action(action) => request.add_action(action)?,
        }
        Ok(())
    }
}

fn read_symbol<'a>(words: &mut Words<'a>) -> Result<Item<'a>, Expected> {
    words.next().map(Item::Symbol).ok_or(Expected::Name)
}

fn read_var<'a>(words: &mut Words<'a>, heap: Global) -> Result<Item<'a>, Expected> {
    Ok(Item::Term {
        kind: TermKind::Var(next(words)?),
        children: Vec::new(heap),
    })
}

// A term of a kind that has a number, and then its children.
fn read_term<'a, F: FnOnce(usize) -> TermKind>(
    kind: F,
    mut words: Words<'a>,
    heap: Global,
) -> Result<Item<'a>, LineError>
    requires { F.IsAlwaysCallable kind }
{
    Ok(Item::Term {
        kind: kind(next(&mut words)?),
        children: rest(words, heap)?,
    })
}

fn read_mark<'a>(words: &mut Words<'a>) -> Result<Item<'a>, Expected> {
    Ok(Item::Mark {
        term: next(words)?,
        has_var: next(words)?,
    })
}

fn read_entry<'a>(mut words: Words<'a>, heap: Global) -> Result<Item<'a>, LineError> {
    Ok(Item::Entry {
        node: next(&mut words)?,
        pairs: rest(words, heap)?,
    })
}

fn read_live<'a>(words: &mut Words<'a>) -> Result<Item<'a>, Expected> {
    Ok(Item::Live(Live {
        term: next(words)?,
        node: next(words)?,
    }))
}

fn read_class<'a>(kind: ClassKind, words: &mut Words<'a>) -> Result<Item<'a>, Expected> {
    Ok(Item::Class {
        kind,
        class: Class {
            node: next(words)?,
            loose: next(words)?,
            strict: next(words)?,
        },
    })
}

fn read_version<'a>(words: &mut Words<'a>) -> Result<Item<'a>, Expected> {
    Ok(Item::Version(Version {
        major: next(words)?,
        minor: next(words)?,
        patch: next(words)?,
    }))
}

fn read_find<'a>(words: &mut Words<'a>) -> Result<Item<'a>, Expected> {
    Ok(Item::Action(Action::Find {
        kind: next(words)?,
        part: next(words)?,
        entry: next(words)?,
    }))
}

fn read_offers<'a>(words: &mut Words<'a>) -> Result<Item<'a>, Expected> {
    Ok(Item::Action(Action::Offers(Query {
        kind: next(words)?,
        entry: next(words)?,
        term: next(words)?,
        pattern_term: next(words)?,
    })))
}
