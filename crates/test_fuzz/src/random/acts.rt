//! Random actions.

use crate::random::arguments::{
    FIELDS, HOWS, IDS, KINDS, LEVELS, MODES, OBJECTIONS, PRIORITIES, SEVERITIES, SIZES, TAGS,
    TICKS, VALUES, glob, item, name, path, path_of, report, which,
};
use crate::random::dice::Dice;
use std::alloc::{AllocError, Global};
use uvm_glob::Name;
use uvm_object::{Act, What};
use uvm_report::{Actions, Severity};
use uvm_sequencer::{How, Mode};
use uvm_tlm::PortKind;

/// The subject of an answer.
#[derive(Clone, Copy)]
pub(crate) enum Theme {
    /// The creation of components, and everything of `Adding`.
    Building,
    /// New children that are not components, settings of fields, and overrides.
    Adding,
    /// Connections.
    Connecting,
    /// Actions of a component in the run phase.
    Running,
    /// Actions of a sequence.
    Sequencing,
    /// Reports, and settings for them.
    Telling,
}

const THEMES: [Theme; 5] = [
    Theme::Building,
    Theme::Connecting,
    Theme::Running,
    Theme::Sequencing,
    Theme::Telling,
];

// The names of children that are not components.
const PARTS: [&str; 11] = [
    "pp", "gp", "ap", "sp", "s2", "sq", "q2", "f", "g", "im", "ex",
];

// The ends of connections.
const CONNECTIONS: [(&str, &str); 8] = [
    ("pp", "ex"),
    ("ex", "g"),
    ("ap", "a.im"),
    ("a.sp", "a.sq"),
    ("gp", "a.g"),
    ("sp", "q2"),
    ("a.ap", "b.im"),
    ("sp", "sq"),
];

// The paths of sequencers.
const SEQUENCERS: [&str; 6] = ["sq", "sq", "q2", "a.sq", "b.sq", "a.q2"];

/// Returns a random action, mostly one of the theme. Errors: out of memory.
pub(crate) fn act_of(alloc: Global, dice: &mut Dice, theme: Theme) -> Result<Act, AllocError> {
    let drawn = dice.pick(&THEMES, theme);
    match if dice.one_in(10) { drawn } else { theme } {
        Theme::Building if dice.one_in(3) => Ok(Act::Create {
            type_name: name(dice, &["c", "c", "c", "d", "d", "d", "t"]),
            name: name(dice, &["a", "a", "b", "c"]),
        }),
        Theme::Building | Theme::Adding => adding(alloc, dice),
        Theme::Connecting => Ok(connecting(alloc, dice)),
        Theme::Running => running(alloc, dice),
        Theme::Sequencing => sequencing(alloc, dice),
        Theme::Telling => telling(alloc, dice),
    }
}

// Returns a random action that adds a child that is not a component, sets or gets a field, or adds an override.
fn adding(alloc: Global, dice: &mut Dice) -> Result<Act, AllocError> {
    match dice.below(9) {
        0 => setting(alloc, dice),
        1 => overriding(alloc, dice),
        _ => {
            let name = name(dice, &PARTS);
            Ok(added(dice, name))
        }
    }
}

/// Returns the action that adds a child called `name`, of the kind that usually has this name.
pub(crate) fn added(dice: &mut Dice, name: Name) -> Act {
    let what = match name.as_bytes() {
        b"pp" => What::Port {
            kind: PortKind::Put,
        },
        b"gp" => What::Port {
            kind: PortKind::Get,
        },
        b"ap" => What::Port {
            kind: PortKind::Analysis,
        },
        b"sp" | b"s2" => What::Port {
            kind: PortKind::Seq,
        },
        b"sq" | b"q2" => What::Sequencer {
            mode: dice.pick(&MODES, Mode::Fifo),
        },
        b"f" => What::Fifo {
            size: dice.pick(&SIZES, 1),
        },
        b"g" => What::Fifo { size: 0 },
        b"im" => What::Imp,
        _ => What::Export {
            kind: dice.pick(&KINDS, PortKind::Put),
        },
    };
    Act::Add { name, what }
}

fn setting(alloc: Global, dice: &mut Dice) -> Result<Act, AllocError> {
    let field = name(dice, &FIELDS);
    if dice.one_in(2) {
        return Ok(Act::Get { field });
    }
    Ok(Act::Set {
        glob: glob(alloc, dice)?,
        field,
        value: dice.pick(&VALUES, 0),
    })
}

fn overriding(alloc: Global, dice: &mut Dice) -> Result<Act, AllocError> {
    let original = name(dice, &["c", "d", "q", "r"]);
    let new = name(dice, &["c", "d", "q", "r", "s"]);
    if dice.one_in(2) {
        return Ok(Act::OverrideType {
            original,
            new,
            replace: dice.one_in(2),
        });
    }
    Ok(Act::OverrideInst {
        original,
        new,
        glob: glob(alloc, dice)?,
    })
}

fn connecting(alloc: Global, dice: &mut Dice) -> Act {
    let (from, to) = dice.pick(&CONNECTIONS, ("", ""));
    if dice.one_in(2) {
        return linked(alloc, from, to);
    }
    Act::Connect {
        from: path(alloc, dice, &[from]),
        to: path(alloc, dice, &[to]),
    }
}

/// Returns the action that connects two ends.
pub(crate) fn linked(alloc: Global, from: &str, to: &str) -> Act {
    Act::Connect {
        from: path_of(alloc, from),
        to: path_of(alloc, to),
    }
}

// Returns a random action of a component in the run phase.
fn running(alloc: Global, dice: &mut Dice) -> Result<Act, AllocError> {
    match dice.below(10) {
        0 => Ok(starting(alloc, dice, &SEQUENCERS)),
        1 | 2 => Ok(Act::Ask {
            port: name(dice, &["sp", "sp", "s2"]),
            how: dice.pick(&HOWS, How::Next),
        }),
        3 | 4 | 5 => Ok(passing(dice)),
        6 | 7 => Ok(timing(dice)),
        8 => setting(alloc, dice),
        _ => telling(alloc, dice),
    }
}

// Returns a random start of a sequence, mostly on one of the sequencers `on`.
fn starting(alloc: Global, dice: &mut Dice, on: &[&'static str]) -> Act {
    Act::Start {
        type_name: name(dice, &["q", "r", "s"]),
        name: name(dice, &["x", "y"]),
        on: path(alloc, dice, on),
        priority: dice.pick(&PRIORITIES, None),
    }
}

// Returns a random action on a port.
fn passing(dice: &mut Dice) -> Act {
    let item = item(dice);
    let (put, take) = (name(dice, &["pp"]), name(dice, &["gp"]));
    match dice.below(8) {
        0 => Act::Put { port: put, item },
        1 => Act::TryPut { port: put, item },
        2 => Act::Take { port: take },
        3 => Act::TryTake { port: take },
        4 => Act::Peek { port: take },
        5 => Act::ItemDone {
            port: name(dice, &["sp", "s2"]),
            response: None,
        },
        6 => Act::ItemDone {
            port: name(dice, &["sp", "s2"]),
            response: Some(item),
        },
        _ => Act::Write {
            port: name(dice, &["ap"]),
            item,
        },
    }
}

// Returns a random action on objections, drain times or waits.
fn timing(dice: &mut Dice) -> Act {
    let ticks = dice.pick(&TICKS, 0);
    match dice.below(16) {
        0 => Act::RaiseObjection {
            count: dice.pick(&OBJECTIONS, 1),
        },
        1 => Act::DropObjection {
            count: dice.pick(&OBJECTIONS, 1),
        },
        2 | 3 => Act::SetDrain { ticks },
        _ => Act::Wait {
            ticks,
            tag: dice.pick(&TAGS, 0),
        },
    }
}

// Returns a random action of a sequence.
fn sequencing(alloc: Global, dice: &mut Dice) -> Result<Act, AllocError> {
    match dice.below(16) {
        0 | 1 | 2 => Ok(Act::Request {
            priority: dice.pick(&PRIORITIES, None),
        }),
        3 => Ok(Act::Lock),
        4 => Ok(Act::Grab),
        5 | 6 => Ok(Act::Unlock),
        7 | 8 => Ok(Act::Send { item: item(dice) }),
        9 | 10 | 11 => Ok(Act::EndStep),
        12 | 13 => Ok(starting(alloc, dice, &[""])),
        14 => Ok(timing(dice)),
        _ => telling(alloc, dice),
    }
}

// Returns a random report, or a random setting of a field or for reports. Reports seldom end the run.
fn telling(alloc: Global, dice: &mut Dice) -> Result<Act, AllocError> {
    match dice.below(8) {
        0 => Ok(Act::Verbosity {
            which: which(dice),
            level: dice.pick(&LEVELS, 0),
        }),
        1 => Ok(Act::Actions {
            which: which(dice),
            actions: Actions {
                display: !dice.one_in(4),
                count: dice.one_in(4),
                exit: dice.one_in(40),
            },
        }),
        2 => Ok(Act::Severity {
            from: dice.pick(&SEVERITIES, Severity::Info),
            id: None,
            to: dice.pick(&SEVERITIES, Severity::Info),
        }),
        3 => Ok(Act::Severity {
            from: dice.pick(&SEVERITIES, Severity::Info),
            id: Some(name(dice, &IDS)),
            to: dice.pick(&SEVERITIES, Severity::Info),
        }),
        4 => setting(alloc, dice),
        _ => Ok(Act::Report {
            report: report(alloc, dice)?,
        }),
    }
}
