//! The name that is nearest to a word.

use crate::lines::Page;
use std::alloc::Global;
use std::str::from_utf8;
use uvm_glob::Name;

/// The name that is nearest to a word, of those that were added.
#[derive(Clone, Copy)]
pub struct Nearest<'a> {
    alloc: Global,
    word: &'a str,
    // The name with the least distance, and the distance.
    best: Option<(usize, Name)>,
    // The first name that is a short form of the word.
    short: Option<Name>,
}

impl<'a> Nearest<'a> {
    /// Begins without names.
    pub fn new(alloc: Global, word: &'a str) -> Nearest<'a> {
        Nearest {
            alloc,
            word,
            best: None,
            short: None,
        }
    }

    /// Adds a name.
    pub fn add(&mut self, name: &Name, page: &mut Page) {
        let most = self.word.len().max(3) / 3;
        let Ok(text) = from_utf8(name.as_bytes()) else {
            return;
        };
        if self.short.is_none() && is_short_for(name.as_bytes(), self.word.as_bytes()) {
            self.short = Some(*name);
        }
        match strsim::osa_distance(self.alloc, self.word, text) {
            Ok(distance) if distance <= most && self.is_better(distance) => {
                self.best = Some((distance, *name));
            }
            Ok(_) => {}
            Err(_) => page.fail(),
        }
    }

    // Returns whether a distance is less than that of the best name.
    fn is_better(&self, distance: usize) -> bool {
        match self.best {
            Some((least, _)) => distance < least,
            None => true,
        }
    }

    /// Appends ` The nearest is NAME.`, if a name is near.
    pub fn write(&self, page: &mut Page) {
        let name = match (self.best, self.short) {
            (Some((_, name)), _) | (None, Some(name)) => name,
            (None, None) => return,
        };
        page.say(" The nearest is ");
        page.name(&name);
        page.say(".");
    }
}

// Returns whether a name is a short form of a word, as `drv` is of `driver`: it has letters of the word in their order, with the first of them.
fn is_short_for(name: &[u8], word: &[u8]) -> bool {
    let mut left = name;
    if left.len() < 2 || left.first() != word.first() {
        return false;
    }
    for byte in word {
        if let Some((first, rest)) = left.split_first() {
            if first == byte {
                left = rest;
            }
        }
    }
    left.is_empty()
}
