// The program's arguments, and the input that they name.
use std::io::Read;
use std::{env, fs, io};

#[derive(Drop)]
pub enum Source {
    Stdin,
    File(String),
}

impl Source {
    pub fn bytes(self, rt: &HostRuntime) -> io::Result<Vec<u8>> {
        match self {
            Source::Stdin => {
                let mut bytes = Vec::new(rt.alloc());
                rt.stdin().read_to_end(&mut bytes)?;
                Ok(bytes)
            }
            Source::File(path) => fs::read(rt, path.as_str()),
        }
    }
}

// None where the arguments cannot be followed.
pub fn read(rt: &HostRuntime) -> io::Result<Option<Source>> {
    let mut source = Source::Stdin;
    for word in env::args(rt)?.skip(1) {
        match (word.as_str(), &source) {
            ("--terse", _) => {}
            (text, Source::Stdin) if !text.starts_with('-') => source = Source::File(word),
            _ => return Ok(None),
        }
    }
    Ok(Some(source))
}
