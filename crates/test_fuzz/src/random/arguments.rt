//! Random arguments of actions, within their limits and beyond.

use crate::random::dice::Dice;
use std::alloc::{AllocError, Global};
use uvm_glob::{Glob, Name, Path};
use uvm_report::{Report, Severity, Text, Which};
use uvm_sequencer::{How, Mode};
use uvm_tlm::{Item, PortKind};

/// A name of the greatest length, 64 bytes.
pub(crate) const LONG: &str = "long_name_of_sixty_four_bytes___________________________________";

// A path of the greatest length, 32 names.
const DEEP: &str = "a.a.a.a.a.a.a.a.a.a.a.a.a.a.a.a.a.a.a.a.a.a.a.a.a.a.a.a.a.a.a.a";

// Names of children, types and ports, and names that nothing has.
const NAMES: [&str; 23] = [
    "a", "b", "c", "pp", "gp", "ap", "sp", "s2", "sq", "q2", "f", "g", "im", "ex", "t", "d", "e",
    "q", "r", "s", LONG, "nobody", "nothing",
];

const PATHS: [&str; 22] = [
    "", "a", "b", "a.b", "a.a", "pp", "gp", "ap", "sp", "sq", "f", "g", "im", "ex", "a.pp", "a.gp",
    "a.ap", "b.sp", "a.im", "nowhere", LONG, DEEP,
];

const GLOBS: [&str; 12] = [
    "",
    "*",
    "?",
    "+",
    "a",
    "a.*",
    "*.a",
    "a.?",
    "*a*b*",
    "pp",
    "**",
    "nowhere.*",
];

/// The fields that are set and read.
pub(crate) const FIELDS: [&str; 3] = ["f", "g", "h"];

/// The ids of reports.
pub(crate) const IDS: [&str; 5] = ["X", "Y", "Z", "CONNERR", LONG];

const TEXTS: [&str; 6] = [
    "",
    "said",
    "a text  with ] blanks ",
    "UVM_ERROR @ 0: uvm_test_top [X] not so",
    "two\nlines and \u{e9}",
    "a text that is as long as one may be, or longer, by some words and words and words and words and words and words and words and \
     words and words and words and words and words and words and words and words and words and words",
];

/// Values of fields, and numbers of items.
pub(crate) const VALUES: [i64; 7] = [0, 1, 2, 3, -1, i64::MAX, i64::MIN];

/// Numbers of ticks, mostly small.
pub(crate) const TICKS: [u64; 20] = [
    0,
    0,
    0,
    1,
    1,
    1,
    1,
    2,
    2,
    2,
    3,
    3,
    4,
    5,
    5,
    6,
    1_000,
    1_000_000_000_000_000,
    1_000_000_000_000_001,
    u64::MAX,
];

/// Tags of waits.
pub(crate) const TAGS: [u32; 6] = [1, 2, 3, 9, 0, u32::MAX];

/// Counts of objections that are raised or dropped.
pub(crate) const OBJECTIONS: [u16; 8] = [1, 1, 1, 1, 2, 3, 0, u16::MAX];

/// Priorities, and none.
pub(crate) const PRIORITIES: [Option<u16>; 12] = [
    None,
    None,
    None,
    None,
    None,
    Some(1),
    Some(7),
    Some(100),
    Some(200),
    Some(300),
    Some(u16::MAX),
    Some(0),
];

/// Verbosity levels.
pub(crate) const LEVELS: [u16; 7] = [0, 100, 200, 300, 500, 10_000, u16::MAX];

/// Severities, seldom `Fatal`.
pub(crate) const SEVERITIES: [Severity; 12] = [
    Severity::Info,
    Severity::Info,
    Severity::Info,
    Severity::Info,
    Severity::Warning,
    Severity::Warning,
    Severity::Warning,
    Severity::Warning,
    Severity::Error,
    Severity::Error,
    Severity::Error,
    Severity::Fatal,
];

/// Arbitration modes of sequencers.
pub(crate) const MODES: [Mode; 5] = [
    Mode::Fifo,
    Mode::Weighted,
    Mode::Random,
    Mode::StrictFifo,
    Mode::StrictRandom,
];

/// Ways in which drivers request items.
pub(crate) const HOWS: [How; 3] = [How::Next, How::Try, How::Get];

/// Kinds of ports and exports.
pub(crate) const KINDS: [PortKind; 4] = [
    PortKind::Put,
    PortKind::Get,
    PortKind::Analysis,
    PortKind::Seq,
];

/// Sizes of FIFOs, in items.
pub(crate) const SIZES: [u16; 6] = [0, 1, 1, 2, 3, u16::MAX];

/// Returns the name with this text, or `x` if the text is not a name.
pub(crate) fn name_of(text: &str) -> Name {
    match Name::new(text.as_bytes()) {
        Ok(name) => name,
        Err(_) => Name::literal("x"),
    }
}

/// Returns a random name, mostly one of `usual`.
pub(crate) fn name(dice: &mut Dice, usual: &[&'static str]) -> Name {
    if dice.one_in(16) {
        return name_of(dice.pick(&NAMES, ""));
    }
    name_of(dice.pick(usual, ""))
}

/// Returns the path with this text, or the path of the top if the text is not a path or memory runs out.
pub(crate) fn path_of(alloc: Global, text: &str) -> Path {
    match Path::parse(alloc, text.as_bytes()) {
        Ok(path) => path,
        Err(_) => Path::top(alloc),
    }
}

/// Returns a random path below a performer, mostly one of `usual`.
pub(crate) fn path(alloc: Global, dice: &mut Dice, usual: &[&'static str]) -> Path {
    if dice.one_in(16) {
        return path_of(alloc, dice.pick(&PATHS, ""));
    }
    path_of(alloc, dice.pick(usual, ""))
}

/// Returns a random glob below a performer. Errors: out of memory.
pub(crate) fn glob(alloc: Global, dice: &mut Dice) -> Result<Glob, AllocError> {
    match Glob::new(alloc, dice.pick(&GLOBS, "").as_bytes()) {
        Ok(glob) => Ok(glob),
        Err(_) => Glob::literal(alloc, "*"),
    }
}

/// Returns a random item.
pub(crate) fn item(dice: &mut Dice) -> Item {
    Item([
        dice.pick(&VALUES, 0),
        dice.pick(&VALUES, 0),
        dice.pick(&VALUES, 0),
        0,
    ])
}

/// Returns a random report. Errors: out of memory.
pub(crate) fn report(alloc: Global, dice: &mut Dice) -> Result<Report, AllocError> {
    Ok(Report {
        severity: dice.pick(&SEVERITIES, Severity::Info),
        id: name(dice, &IDS),
        text: Text::lossy(alloc, dice.pick(&TEXTS, ""))?,
        verbosity: dice.pick(&LEVELS, 0),
    })
}

/// Returns a random choice of the reports that a setting is for.
pub(crate) fn which(dice: &mut Dice) -> Which {
    let severity = dice.pick(&SEVERITIES, Severity::Info);
    let id = name(dice, &IDS);
    match dice.below(4) {
        0 => Which::All,
        1 => Which::Severity(severity),
        2 => Which::Id(id),
        _ => Which::Both(severity, id),
    }
}
