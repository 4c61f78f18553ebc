//! Random scripts.

use crate::random::dice::Dice;
use std::alloc::{AllocError, Global};

// Invalid heads of scripts.
const BAD_HEADS: [&str; 8] = [
    "version = 2\n",
    "",
    "version = \"1\"\n",
    "version = 1\nextra = 1\n",
    "version = 1\ntime_limit = 1000000000000000001\n",
    "version = 1\nquit_limit = 65536\n",
    "version = 1\ntime_limit = -1\n",
    "version 1\n",
];

// Invalid tests of scripts, and no test.
const BAD_TESTS: [&str; 4] = ["", "test = \"q\"\n", "test = \"nothing\"\n", "test = 1\n"];

const LIMITS: [&str; 10] = [
    "",
    "",
    "",
    "quit_limit = 1\n",
    "quit_limit = 3\n",
    "quit_limit = 65535\n",
    "time_limit = 0\n",
    "time_limit = 7\n",
    "time_limit = 1000\n",
    "time_limit = 1000000000000000000\n",
];

const TYPES: [&str; 7] = [
    "[[type]]\nname = \"t\"\nkind = \"component\"\n",
    "[[type]]\nname = \"c\"\nkind = \"component\"\n",
    "[[type]]\nname = \"d\"\nkind = \"component\"\n",
    "[[type]]\nname = \"e\"\nkind = \"component\"\n",
    "[[type]]\nname = \"q\"\nkind = \"sequence\"\n",
    "[[type]]\nname = \"r\"\nkind = \"sequence\"\n",
    "[[type]]\nname = \"s\"\nkind = \"sequence\"\n",
];

// Settings for the fatal reports of rejected actions. With most of them the run goes on.
const SOFTENINGS: [&str; 6] = [
    "",
    "[[severity]]\nscope = \"*\"\nfrom = \"FATAL\"\nto = \"WARNING\"\n",
    "[[severity]]\nscope = \"*\"\nfrom = \"FATAL\"\nto = \"INFO\"\n",
    "[[severity]]\nscope = \"*\"\nfrom = \"FATAL\"\nto = \"ERROR\"\n",
    "[[action]]\nscope = \"*\"\nseverity = \"FATAL\"\nactions = [\"display\", \"count\"]\n",
    "[[action]]\nscope = \"*\"\nactions = [\"display\"]\n",
];

// Overrides, some of which form a loop.
const OVERRIDES: [&str; 8] = [
    "[[override]]\norig = \"c\"\nnew = \"d\"\n",
    "[[override]]\norig = \"d\"\nnew = \"c\"\n",
    "[[override]]\norig = \"c\"\nnew = \"e\"\n",
    "[[override]]\norig = \"c\"\nnew = \"c\"\n",
    "[[override]]\norig = \"t\"\nnew = \"d\"\n",
    "[[override]]\norig = \"q\"\nnew = \"r\"\n",
    "[[override]]\norig = \"r\"\nnew = \"q\"\n",
    "[[override]]\norig = \"r\"\nnew = \"s\"\n",
];

// The text before the scope of an override; the last one puts the scope into a comment.
const PLACES: [&str; 3] = ["at = \"", "at = \"", "replace = false\n# \""];

// Settings of fields and of reports, without their scopes.
const SETTINGS: [&str; 14] = [
    "[[set]]\nfield = \"f\"\nvalue = 1\n",
    "[[set]]\nfield = \"g\"\nvalue = -9223372036854775808\n",
    "[[set]]\nfield = \"h\"\nvalue = 9223372036854775807\n",
    "[[verbosity]]\nlevel = 0\n",
    "[[verbosity]]\nlevel = 10000\n",
    "[[verbosity]]\nid = \"X\"\nlevel = 400\n",
    "[[verbosity]]\nseverity = \"INFO\"\nid = \"Y\"\nlevel = 100\n",
    "[[action]]\nactions = []\n",
    "[[action]]\nseverity = \"ERROR\"\nactions = [\"display\", \"count\", \"exit\"]\n",
    "[[action]]\nid = \"X\"\nactions = [\"count\"]\n",
    "[[action]]\nseverity = \"WARNING\"\nid = \"CONNERR\"\nactions = [\"display\"]\n",
    "[[severity]]\nfrom = \"INFO\"\nto = \"ERROR\"\n",
    "[[severity]]\nfrom = \"WARNING\"\nto = \"INFO\"\nid = \"X\"\n",
    "[[severity]]\nfrom = \"ERROR\"\nto = \"FATAL\"\n",
];

const SCOPES: [&str; 10] = [
    "*",
    "uvm_test_top",
    "uvm_test_top.*",
    "uvm_test_top.a",
    "*.a",
    "*.b",
    "*.a.*",
    "*.sq.x",
    "+.?",
    "nowhere",
];

// Invalid text after the types of a script.
const BAD_TABLES: [&str; 13] = [
    "[[override]]\norig = \"c\"\nnew = \"q\"\n",
    "[[override]]\norig = \"c\"\nnew = \"nothing\"\n",
    "[[override]]\norig = \"c\"\n",
    "[[set]]\nscope = \"a/b\"\nfield = \"f\"\nvalue = 1\n",
    "[[set]]\nscope = \"*\"\nfield = \"a.b\"\nvalue = 1\n",
    "[[set]]\nscope = \"*\"\nfield = \"f\"\nvalue = 9223372036854775808\n",
    "[[verbosity]]\nscope = \"*\"\nlevel = 10001\n",
    "[[action]]\nscope = \"*\"\nactions = [\"laugh\"]\n",
    "[[severity]]\nscope = \"*\"\nfrom = \"WORSE\"\nto = \"INFO\"\n",
    "[[type]]\nname = \"t\"\nkind = \"component\"\n",
    "[[probe]]\ntype = \"nothing\"\npath = \"a\"\n",
    "[[",
    "\u{0}",
];

/// Creates the text of a random script from a seed. Now and then it must be rejected. Errors: out of memory.
pub(crate) fn random_script(alloc: Global, seed: u64) -> Result<Vec<u8>, AllocError> {
    let mut dice = Dice::new(seed);
    let mut text = Vec::new(alloc);
    push_head(&mut dice, &mut text)?;
    let left_out = dice.below(50);
    for (place, row) in TYPES.iter().enumerate() {
        if place as u64 != left_out {
            push(&mut text, row)?;
        }
    }
    push(&mut text, dice.pick(&SOFTENINGS, ""))?;
    for _ in 0..dice.below(5) {
        push_table(&mut dice, &mut text)?;
    }
    if dice.one_in(24) {
        push(&mut text, dice.pick(&BAD_TABLES, ""))?;
    }
    if dice.one_in(200) {
        text.push(0xFF)?;
    }
    Ok(text)
}

fn push(text: &mut Vec<u8>, more: &str) -> Result<(), AllocError> {
    text.extend_from_slice(more.as_bytes())
}

fn push_head(dice: &mut Dice, text: &mut Vec<u8>) -> Result<(), AllocError> {
    if dice.one_in(32) {
        push(text, dice.pick(&BAD_HEADS, ""))?;
    } else {
        push(text, "version = 1\n")?;
    }
    if dice.one_in(24) {
        push(text, dice.pick(&BAD_TESTS, ""))?;
    } else {
        push(text, "test = \"t\"\n")?;
    }
    push(text, dice.pick(&LIMITS, ""))
}

// Appends an override, or a setting, with its scope. Errors: out of memory.
fn push_table(dice: &mut Dice, text: &mut Vec<u8>) -> Result<(), AllocError> {
    if dice.one_in(3) {
        push(text, dice.pick(&OVERRIDES, ""))?;
        push(text, dice.pick(&PLACES, ""))?;
    } else {
        push(text, dice.pick(&SETTINGS, ""))?;
        push(text, "scope = \"")?;
    }
    push(text, dice.pick(&SCOPES, ""))?;
    push(text, "\"\n")
}
