// The version of Z3 that wrote a log.
#![tactic(auto)]

ghost use Rattle.std.specs.Prelude.{◌≡◌};
ghost use Rattle.version.specs.Order.{at_least, at_most};

// Versions are ordered by their fields, from the first to the last.
#[derive(Clone, Copy, PartialEq, Eq, PartialOrd, Ord, Debug)]
pub struct Version {
    pub major: usize,
    pub minor: usize,
    pub patch: usize,
}

impl Version {
    pub const fn new(major: usize, minor: usize, patch: usize) -> Version
        ensures { result ≡ record { major = major; minor = minor; patch = patch } }
    {
        Version {
            major,
            minor,
            patch,
        }
    }

    pub fn is_ge_version(self, major: usize, minor: usize, patch: usize) -> bool
        ensures { result ≡ at_least self major minor patch }
    {
        self >= Version::new(major, minor, patch)
    }

    pub fn is_le_version(self, major: usize, minor: usize, patch: usize) -> bool
        ensures { result ≡ at_most self major minor patch }
    {
        self <= Version::new(major, minor, patch)
    }
}
