//! The words of a line, and their readers.

ghost use Rattle.std.specs.Prelude.{◌≡◌, ◌↔◌, ◌<◌, ◌^◌, ℕ, List, [], ◌∷◌, ◌++◌, IfErr, IfOk, IfSome, IsTrue, MatchResult, None, Some};
ghost use Rattle.std.specs.Fmt.{decimal, signed_decimal};
ghost use Rattle.std.specs.List.{join_with_byte};
ghost use Rattle.uvm_glob.specs.Globs.{glob_fault};
ghost use Rattle.uvm_glob.specs.Paths.{path_text};
ghost use Rattle.uvm_report.specs.Severities.{severity_name};
ghost use Rattle.uvm_lines.specs.Lines.{priority_text};
ghost use Rattle.script_answer_acts.specs.Sound.{IsGlob, IsName, IsPath, IsSigned};
ghost use Rattle.script_answers.specs.Words.{IsAny, Reads, ReadsInMemory, ReadsWord, in_brackets, words_left, words_of};

use crate::faults::LineFault;
use script_answer_acts::laws::names_come_back;
use std::alloc::Global;
use uvm_glob::{Glob, Name, Path, PathFault};
use uvm_report::Severity;

// The words of a line that are not read yet, separated by single blanks. Each reader removes the words that it reads. Errors: `NoAct` if no
// word is left or the word has another form; out of memory (`Memory`) for paths and globs.
#[derive(Clone, Copy, Drop)]
pub(crate) struct Words<'a> {
    left: Option<&'a str>,
}

impl<'a> Words<'a> {
    // Creates the reader of all words of a line.
    pub(crate) fn of(line: &'a str) -> Words<'a>
        ensures { words_left result ≡ words_of line.now }
    {
        Words { left: Some(line) }
    }

    // Reads the next word. Errors: `NoAct` if no word is left.
    pub(crate) fn word(&mut self) -> Result<&'a str, LineFault>
        ensures ok { IfOk result (λ word. words_left self.old ≡ word.now ∷ words_left self.new) }
        ensures err { IfErr result (λ fault. (fault ≡ LineFault.NoAct) × (words_left self.old ≡ [])) }
    {
        let text = self.left.ok_or(LineFault::NoAct)?;
        match text.split_once(' ') {
            Some((word, left)) => {
                self.left = Some(left);
                Ok(word)
            }
            None => {
                self.left = None;
                Ok(text)
            }
        }
    }

    // Reads all the text that is left, which may be empty.
    pub(crate) fn rest(&mut self) -> &'a str
        ensures { result.now ≡ join_with_byte 32 (words_left self.old) }
    {
        let text = self.left.unwrap_or("");
        self.left = None;
        text
    }

    // Returns whether no word is left.
    pub(crate) fn is_done(&self) -> bool
        ensures { IsTrue result ↔ (words_left self.now ≡ []) }
    {
        self.left.is_none()
    }

    // Reads the next word as a name.
    pub(crate) fn name(&mut self) -> Result<Name, LineFault>
        ensures { Reads (λ name. name) IsName (words_left self.old) (words_left self.new) result }
    {
        name_of(self.word()?)
    }

    // Reads the next word as a path in parentheses.
    pub(crate) fn path(&mut self, alloc: Global) -> Result<Path, LineFault>
        ensures path { IfOk result IsPath }
        ensures reads { ReadsInMemory (λ names. in_brackets (path_text names)) IsPath (words_left self.old) (words_left self.new) result }
    {
        names_come_back();
        let text = self.enclosed()?;
        if text.is_empty() {
            return Ok(Path::top(alloc));
        }
        match Path::parse(alloc, text.as_bytes()) {
            Ok(path) => Ok(path),
            Err(PathFault::Memory) => Err(LineFault::Memory),
            Err(_) => Err(LineFault::NoAct),
        }
    }

    // Reads the next word as a glob in parentheses.
    pub(crate) fn glob(&mut self, alloc: Global) -> Result<Glob, LineFault>
        ensures glob { IfOk result IsGlob }
        ensures sound { IfOk result (λ glob. glob_fault glob ≡ None) }
        ensures reads { ReadsInMemory in_brackets (λ glob. glob_fault glob ≡ None) (words_left self.old) (words_left self.new) result }
    {
        match Glob::new(alloc, self.enclosed()?.as_bytes()) {
            Ok(glob) => Ok(glob),
            Err(PathFault::Memory) => Err(LineFault::Memory),
            Err(_) => Err(LineFault::NoAct),
        }
    }

    // Reads the next word as a number of 64 bits.
    pub(crate) fn number(&mut self) -> Result<u64, LineFault>
        ensures { Reads decimal (λ n. n < 2 ^ 64) (words_left self.old) (words_left self.new) result }
    {
        number_of(self.word()?)
    }

    // Reads the next word as a number of 16 bits.
    pub(crate) fn small(&mut self) -> Result<u16, LineFault>
        ensures { Reads decimal (λ n. n < 2 ^ 16) (words_left self.old) (words_left self.new) result }
    {
        small_of(self.word()?)
    }

    // Reads the next word as a number of 32 bits.
    pub(crate) fn tag(&mut self) -> Result<u32, LineFault>
        ensures { Reads decimal (λ n. n < 2 ^ 32) (words_left self.old) (words_left self.new) result }
    {
        tag_of(self.word()?)
    }

    // Reads the next word as a number of 16 bits, or `none`.
    pub(crate) fn priority(&mut self) -> Result<Option<u16>, LineFault>
        ensures { Reads priority_text (λ priority. IfSome priority (λ n. n < 2 ^ 16)) (words_left self.old) (words_left self.new) result }
    {
        match self.word()? {
            "none" => Ok(None),
            word => Ok(Some(small_of(word)?)),
        }
    }

    // Reads the next word as a signed integer of 64 bits.
    pub(crate) fn integer(&mut self) -> Result<i64, LineFault>
        ensures { Reads signed_decimal IsSigned (words_left self.old) (words_left self.new) result }
    {
        integer_of(self.word()?)
    }

    // Reads the next word as a severity.
    pub(crate) fn severity(&mut self) -> Result<Severity, LineFault>
        ensures { Reads severity_name IsAny (words_left self.old) (words_left self.new) result }
    {
        severity_of(self.word()?).ok_or(LineFault::NoAct)
    }

    // Reads the next word and returns the text between its parentheses.
    fn enclosed(&mut self) -> Result<&'a str, LineFault>
        ensures { (text : List ℕ) (rest : List (List ℕ)) → words_left self.old ≡ in_brackets text ∷ rest
            → MatchResult result (λ inner. (inner.now ≡ text) × (words_left self.new ≡ rest)) (λ _. ⊥) }
    {
        between(self.word()?, '(', ')')
    }
}

// Returns the text between the first character and the last character of a word. Errors: `NoAct` if the word has other ones.
pub(crate) fn between(word: &str, first: char, last: char) -> Result<&str, LineFault>
    ensures { (text : List ℕ) → first < 128 → last < 128 → word.now ≡ first ∷ text ++ last ∷ [] → MatchResult result (λ inner. inner.now ≡ text) (λ _. ⊥) }
{
    let inner = word.strip_prefix(first).ok_or(LineFault::NoAct)?;
    inner.strip_suffix(last).ok_or(LineFault::NoAct)
}

pub(crate) fn name_of(word: &str) -> Result<Name, LineFault>
    ensures name { IfOk result (λ name. name ≡ word.now) }
    ensures reads { ReadsWord (λ name. name) IsName word.now result }
{
    match Name::new(word.as_bytes()) {
        Ok(name) => Ok(name),
        Err(_) => Err(LineFault::NoAct),
    }
}

pub(crate) fn number_of(word: &str) -> Result<u64, LineFault>
    ensures { ReadsWord decimal (λ n. n < 2 ^ 64) word.now result }
{
    match word.parse::<u64>() {
        Ok(number) => Ok(number),
        Err(_) => Err(LineFault::NoAct),
    }
}

pub(crate) fn small_of(word: &str) -> Result<u16, LineFault>
    ensures { ReadsWord decimal (λ n. n < 2 ^ 16) word.now result }
{
    match word.parse::<u16>() {
        Ok(number) => Ok(number),
        Err(_) => Err(LineFault::NoAct),
    }
}

pub(crate) fn tag_of(word: &str) -> Result<u32, LineFault>
    ensures { ReadsWord decimal (λ n. n < 2 ^ 32) word.now result }
{
    match word.parse::<u32>() {
        Ok(number) => Ok(number),
        Err(_) => Err(LineFault::NoAct),
    }
}

pub(crate) fn integer_of(word: &str) -> Result<i64, LineFault>
    ensures { ReadsWord signed_decimal IsSigned word.now result }
{
    match word.parse::<i64>() {
        Ok(number) => Ok(number),
        Err(_) => Err(LineFault::NoAct),
    }
}

pub(crate) fn severity_of(word: &str) -> Option<Severity>
    ensures { (severity : Severity) → word.now ≡ severity_name severity → result ≡ Some severity }
{
    match word {
        "INFO" => Some(Severity::Info),
        "WARNING" => Some(Severity::Warning),
        "ERROR" => Some(Severity::Error),
        "FATAL" => Some(Severity::Fatal),
        _ => None,
    }
}
