// The host that a request's finds and rounds are asked of, as it is read.
ghost use Rattle.std.specs.Prelude.{◌≡◌, [], ◌∷◌, ◌++◌, IfOk, IfErr, Some, MatchResult, OnOk, ◌≢◌};
ghost use Rattle.explain.specs.Given.{given, none_given};
ghost use Rattle.explain.specs.Once.{Once};
ghost use Rattle.explain.specs.Read.{Untold};
ghost use Rattle.explain.specs.declared.expected.Expected.TheVariants.{ClassLine};
ghost use Rattle.std.specs.Option.{unwrap_or};

use crate::expected::{Expected, LineError};
use crate::host_tables::{HostTables, table};
use crate::once::set_once;
use std::alloc::{AllocError, Global};
use std::fmt;
use version::Version;

#[derive(Clone, Copy)]
pub struct Live {
    pub term: usize,
    pub node: usize,
}

// Whether the host's classes are given by class numbers or by links.
#[derive(Clone, Copy, PartialEq, Eq, Debug)]
pub enum ClassKind {
    Class,
    Link,
}

impl fmt::Display for ClassKind {
    fn fmt<W: fmt::Write>(&self, f: &mut fmt::Formatter<W>) -> fmt::Result {
        match self {
            ClassKind::Class => f.write_str("class"),
            ClassKind::Link => f.write_str("link"),
        }
    }
}

#[derive(Clone, Copy)]
pub struct Class {
    pub node: usize,
    pub loose: usize,
    pub strict: usize,
}

#[derive(Drop)]
pub struct HostText {
    live: Vec<Live>,
    class_kind: Option<ClassKind>,
    classes: Vec<Class>,
    version: Option<Version>,
}

impl HostText {
    pub fn new(heap: Global) -> HostText
        ensures { Untold result }
    {
        HostText {
            live: Vec::new(heap),
            class_kind: None,
            classes: Vec::new(heap),
            version: None,
        }
    }

    pub fn add_live(&mut self, live: Live) -> Result<(), AllocError>
        ensures { OnOk result (self.new.live.items ≡ self.old.live.items ++ (live ∷ [])) }
    {
        self.live.push(live)?;
        Ok(())
    }

    // The first line of classes says which kind the others are of.
    fn keep_to(&mut self, kind: ClassKind) -> Result<(), Expected>
        ensures kind { MatchResult result (λ _. (unwrap_or self.old.class_kind kind ≡ kind) × (self.new.class_kind ≡ Some kind)) (λ e. (unwrap_or self.old.class_kind kind ≢ kind) × (e ≡ ClassLine (unwrap_or self.old.class_kind kind)) × (self.new.class_kind ≡ self.old.class_kind)) }
        ensures classes { self.new.classes ≡ self.old.classes }
    {
        let first = *self.class_kind.get_or_insert(kind);
        if first != kind {
            return Err(Expected::ClassLine(first));
        }
        Ok(())
    }

    pub fn add_class(&mut self, kind: ClassKind, class: Class) -> Result<(), LineError>
        ensures kind { OnOk result ((unwrap_or self.old.class_kind kind ≡ kind) × (self.new.class_kind ≡ Some kind)) }
        ensures classes { OnOk result (self.new.classes.items ≡ self.old.classes.items ++ (class ∷ [])) }
    {
        self.keep_to(kind)?;
        self.classes.push(class)?;
        Ok(())
    }

    // The tables that the lines give, for a store with so many terms and nodes.
    pub fn tables(&self, terms: usize, nodes: usize, heap: Global) -> Result<HostTables, AllocError>
        ensures live { IfOk result (λ t. t.live.items ≡ given (λ l. l.term) (λ l. l.node) (none_given terms) self.now.live.items) }
        ensures loose { IfOk result (λ t. t.loose.items ≡ given (λ l. l.node) (λ l. l.loose) (none_given nodes) self.now.classes.items) }
        ensures strict { IfOk result (λ t. t.strict.items ≡ given (λ l. l.node) (λ l. l.strict) (none_given nodes) self.now.classes.items) }
        ensures kind { IfOk result (λ t. t.class_kind ≡ unwrap_or self.now.class_kind ClassKind.Class) }
    {
        let classes = self.classes.as_slice();
        Ok(HostTables {
            live: table(self.live.as_slice(), |l| l.term, |l| l.node, terms, heap)?,
            class_kind: self.class_kind.unwrap_or(ClassKind::Class),
            loose: table(classes, |l| l.node, |l| l.loose, nodes, heap)?,
            strict: table(classes, |l| l.node, |l| l.strict, nodes, heap)?,
        })
    }

    pub fn set_version(&mut self, version: Version) -> Result<(), Expected>
        ensures once { Once result self.old.version self.new.version version }
        ensures refusal { IfErr result (λ e. e ≡ Expected.OneVersion) }
    {
        set_once(&mut self.version, version, Expected::OneVersion)
    }
}
