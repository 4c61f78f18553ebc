//! The text of an explanation.

use std::alloc::Global;
use std::str::from_utf8;
use uvm_glob::Name;

// The greatest number of lines under a heading, and of words in a list.
const MOST: usize = 8;

/// The text of an explanation. Once memory runs out, nothing more is appended.
#[derive(Drop)]
pub struct Page {
    text: String,
    has_failed: bool,
}

impl Page {
    /// Begins without a text.
    pub fn new(alloc: Global) -> Page {
        Page {
            text: String::new(alloc),
            has_failed: false,
        }
    }

    /// Returns the text.
    pub fn text(&self) -> &str {
        self.text.as_str()
    }

    /// Returns whether memory has run out.
    pub fn has_failed(&self) -> bool {
        self.has_failed
    }

    /// Notes that memory ran out.
    pub fn fail(&mut self) {
        self.has_failed = true;
    }

    /// Appends a text.
    pub fn say(&mut self, text: &str) {
        if !self.has_failed && self.text.push_str(text).is_err() {
            self.has_failed = true;
        }
    }

    /// Appends bytes that are a text.
    pub fn bytes(&mut self, bytes: &[u8]) {
        if let Ok(text) = from_utf8(bytes) {
            self.say(text);
        }
    }

    /// Appends a name.
    pub fn name(&mut self, name: &Name) {
        self.bytes(name.as_bytes());
    }

    /// Appends a number.
    pub fn number(&mut self, number: u64) {
        if !self.has_failed && write!(self.text, "{number}").is_err() {
            self.has_failed = true;
        }
    }

    /// Appends a count.
    pub fn count(&mut self, count: usize) {
        self.number(count as u64);
    }

    /// Appends a signed number.
    pub fn signed(&mut self, number: i64) {
        if !self.has_failed && write!(self.text, "{number}").is_err() {
            self.has_failed = true;
        }
    }
}

/// Lines under a heading, which is written with the first line. Lines beyond the greatest number are counted.
#[derive(Clone, Copy)]
pub struct Section {
    heading: &'static str,
    count: usize,
}

impl Section {
    /// Begins without lines.
    pub fn new(heading: &'static str) -> Section {
        Section { heading, count: 0 }
    }

    /// Returns whether a further line would only be counted.
    pub fn is_full(&self) -> bool {
        self.count >= MOST
    }

    /// Begins a line, and returns whether it is to be written.
    pub fn begin(&mut self, page: &mut Page) -> bool {
        if self.count == 0 {
            page.say(self.heading);
            page.say(":\n");
        }
        self.count = self.count.saturating_add(1);
        if self.count > MOST {
            return false;
        }
        page.say("  ");
        true
    }

    /// Ends the section with the number of lines that were only counted.
    pub fn end(&self, page: &mut Page) {
        if self.count > MOST {
            page.say("  and ");
            page.count(self.count.saturating_sub(MOST));
            page.say(" more\n");
        }
    }
}

/// Words in a list. Words beyond the greatest number are counted.
#[derive(Clone, Copy)]
pub struct List {
    count: usize,
}

impl List {
    /// Begins without words.
    pub fn new() -> List {
        List { count: 0 }
    }

    /// Begins a word, and returns whether it is to be written.
    pub fn begin(&mut self, page: &mut Page) -> bool {
        self.count = self.count.saturating_add(1);
        if self.count > MOST {
            return false;
        }
        page.say(if self.count > 1 { ", " } else { "" });
        true
    }

    /// Ends the list: with the number of words that were only counted, or with a text for no words.
    pub fn end(&self, page: &mut Page, none: &str) {
        if self.count == 0 {
            page.say(none);
        } else if self.count > MOST {
            page.say(" and ");
            page.count(self.count.saturating_sub(MOST));
            page.say(" more");
        }
    }
}
