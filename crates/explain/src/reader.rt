// The requests of an input, one after the other.
use crate::expected::{Expected, LineError};
use crate::parse::{Item, no_more};
use crate::show::show;
use crate::text::RequestText;
use crate::words::{Lines, Words};
use std::alloc::Global;
use std::io;

// Where in the input a line stands. What is left of a request with a bad line is skipped.
#[derive(Drop)]
enum State {
    Outside,
    Reading(RequestText),
    Skipping,
}

#[derive(Drop)]
struct Reader<'a> {
    rt: &'a HostRuntime,
    line: usize,
    requests: usize,
}

pub fn explain(rt: &HostRuntime, input: &[u8]) -> anyhow::Result<()> {
    let mut reader = Reader {
        rt,
        line: 0,
        requests: 0,
    };
    let mut state = State::Outside;
    for line in Lines::new(input) {
        reader.line = reader.line.saturating_add(1);
        state = reader.step(state, Words::new(line))?;
    }
    reader.finish(state)
}

impl Reader<'_> {
    // The first word decides whether a line begins or ends a request, whatever follows it.
    fn step(&mut self, state: State, mut words: Words) -> anyhow::Result<State> {
        match words.next() {
            None => Ok(state),
            Some(b"request") => {
                self.finish(state)?;
                self.begin(words)
            }
            Some(b"end") => self.end(state, words),
            Some(word) => self.item(state, word, words),
        }
    }

    fn begin(&mut self, words: Words) -> anyhow::Result<State> {
        let number = self.requests;
        self.requests = number.saturating_add(1);
        println!(self.rt; "request #{number}")?;
        if let Err(e) = no_more(words) {
            self.say(e)?;
            return Ok(State::Skipping);
        }
        Ok(State::Reading(RequestText::new(self.rt.alloc())))
    }

    fn end(&self, state: State, words: Words) -> anyhow::Result<State> {
        match (state, no_more(words)) {
            (State::Outside, _) => self.say(Expected::Request)?,
            (State::Reading(_), Err(e)) => self.say(e)?,
            (state, _) => self.finish(state)?,
        }
        Ok(State::Outside)
    }

    fn item(&self, state: State, word: &[u8], words: Words) -> anyhow::Result<State> {
        match state {
            State::Outside => {
                self.say(Expected::Request)?;
                Ok(State::Outside)
            }
            State::Reading(text) => self.read(text, word, words),
            State::Skipping => Ok(State::Skipping),
        }
    }

    fn read(&self, mut text: RequestText, word: &[u8], words: Words) -> anyhow::Result<State> {
        match add_line(&mut text, word, words, self.rt.alloc()) {
            Ok(()) => Ok(State::Reading(text)),
            Err(LineError::Unread(e)) => {
                self.say(e)?;
                Ok(State::Skipping)
            }
            Err(LineError::Memory(e)) => Err(e.into()),
        }
    }

    fn finish(&self, state: State) -> anyhow::Result<()> {
        if let State::Reading(text) = state {
            show(self.rt, &text)?;
        }
        Ok(())
    }

    fn say(&self, e: Expected) -> io::Result<()> {
        println!(self.rt; "line {}: expected {e}", self.line)
    }
}

fn add_line(
    text: &mut RequestText,
    word: &[u8],
    words: Words,
    heap: Global,
) -> Result<(), LineError> {
    Item::read(word, words, heap)?.apply(text)
}
