//! What the program's port reads and writes: the words of a process, files of the system, and writers that fail.

use anyhow::Result;
use std::alloc::Global;
use std::env::{Env, FillError};
use std::io::{self, ErrorKind, Write};
use std::rt::Files;
use ti_port::{FileStore, Store, program_words};

/// A writer one of whose writes fails, by its number from 1.
#[derive(Drop)]
pub struct Faltering {
    taken: Vec<u8>,
    turn: u64,
    failing: u64,
    /// Whether that write is an error. Else it takes no byte.
    broken: bool,
    most: usize,
}

impl Faltering {
    pub fn new(alloc: Global, failing: u64, broken: bool, most: usize) -> Faltering {
        Faltering {
            taken: Vec::new(alloc),
            turn: 0,
            failing,
            broken,
            most,
        }
    }

    /// All the bytes that it has taken.
    pub fn taken(&self) -> &[u8] {
        &self.taken
    }
}

impl Write for Faltering {
    fn write(&mut self, bytes: &[u8]) -> io::Result<usize> {
        self.turn = self.turn.saturating_add(1);
        if self.turn == self.failing {
            if self.broken {
                return Err(io::Error::from(ErrorKind::BrokenPipe));
            }
            return Ok(0);
        }
        let count = bytes.len().min(self.most);
        self.taken.extend_from_slice(&bytes[..count])?;
        Ok(count)
    }

    fn flush(&mut self) -> io::Result<()> {
        Ok(())
    }
}

/// What a file of the system holds.
pub fn read<R: Files>(rt: &R, alloc: Global, name: &str, limit: &str) -> Result<String> {
    let mut store = FileStore::new(rt);
    let fetched = store.fetch(alloc, name, limit.parse::<u64>()?)?;
    Ok(format!(in alloc; "{fetched:?}")?)
}

/// A process that was started with these words.
#[derive(Drop)]
struct Started<'a>(&'a [Vec<u8>]);

impl Env for Started<'_> {
    fn arg(&self, i: usize, buf: &mut [u8]) -> Result<usize, FillError> {
        let Some(word) = self.0.get(i) else {
            return Err(FillError::NotPresent);
        };
        let Some(place) = buf.get_mut(..word.len()) else {
            return Err(FillError::TooLong);
        };
        place.copy_from_slice(word);
        Ok(word.len())
    }

    fn var(&self, _name: &str, _buf: &mut [u8]) -> Result<usize, FillError> {
        Err(FillError::NotPresent)
    }

    fn var_at(&self, _i: usize, _buf: &mut [u8]) -> Result<usize, FillError> {
        Err(FillError::NotPresent)
    }
}

/// The words of a process that was started with these, each in hexadecimal, the program's name first.
pub fn words(alloc: Global, started: &[&str]) -> Result<String> {
    let mut all = Vec::new(alloc);
    for word in started {
        all.push(hex::decode(alloc, word)?)?;
    }
    let words = program_words(&(Started(&all), alloc))?;
    Ok(format!(in alloc; "{words:?}")?)
}
