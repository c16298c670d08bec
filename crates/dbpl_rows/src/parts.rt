use crate::failure::Failure;
use crate::notation::bytes_of;
use std::alloc::Global;
use std::str;

/// What a row asks about: the bytes of each part of its input. A bar stands between two parts.
#[derive(Debug, Drop)]
pub struct Parts {
    items: Vec<Vec<u8>>,
}

impl Parts {
    pub(crate) fn read(alloc: Global, input: &str) -> Result<Parts, Failure> {
        let mut items = Vec::new(alloc);
        for part in input.split('|') {
            items.push(bytes_of(alloc, part)?)?;
        }
        Ok(Parts { items })
    }

    pub(crate) fn get(&self, at: usize) -> Result<&[u8], Failure> {
        match self.items.get(at) {
            Some(bytes) => Ok(bytes.as_slice()),
            None => Err(Failure::Unreadable),
        }
    }

    /// The part as a text.
    pub(crate) fn text(&self, at: usize) -> Result<&str, Failure> {
        match str::from_utf8(self.get(at)?) {
            Ok(text) => Ok(text),
            Err(_) => Err(Failure::Unreadable),
        }
    }

    /// The parts from this one on.
    pub(crate) fn from(&self, at: usize) -> &[Vec<u8>] {
        match self.items.as_slice().split_at_checked(at) {
            Some((_, behind)) => behind,
            None => &[],
        }
    }
}
