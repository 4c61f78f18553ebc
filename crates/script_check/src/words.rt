//! The words that a document can have at a place.

/// The kinds of types.
pub(crate) const KINDS: [&str; 2] = ["component", "sequence"];

/// The severities of reports.
pub(crate) const SEVERITIES: [&str; 4] = ["INFO", "WARNING", "ERROR", "FATAL"];

/// The actions of reports.
pub(crate) const ACTIONS: [&str; 3] = ["display", "count", "exit"];

/// The phases that take time.
pub(crate) const TASK_PHASES: [&str; 13] = [
    "run",
    "pre_reset",
    "reset",
    "post_reset",
    "pre_configure",
    "configure",
    "post_configure",
    "pre_main",
    "main",
    "post_main",
    "pre_shutdown",
    "shutdown",
    "post_shutdown",
];

/// The forms of actions.
pub(crate) const ACTS: [(&str, &str); 29] = [
    ("create", "create TYPE NAME"),
    (
        "add",
        "add NAME sequencer MODE, add NAME fifo SIZE, add NAME port KIND, add NAME export KIND or add NAME imp",
    ),
    ("connect", "connect (PATH) (PATH)"),
    (
        "override",
        "override TYPE NEW, override TYPE NEW replace or override TYPE NEW at (GLOB)",
    ),
    ("set", "set (GLOB) FIELD VALUE"),
    ("get", "get FIELD"),
    (
        "report",
        "report SEVERITY ID or report SEVERITY ID VERBOSITY TEXT",
    ),
    ("verbosity", "verbosity WHICH LEVEL"),
    ("actions", "actions WHICH ACTIONS"),
    ("severity", "severity FROM ID TO"),
    ("raise", "raise COUNT"),
    ("drop", "drop COUNT"),
    ("set_drain", "set_drain TICKS"),
    ("wait", "wait TICKS TAG"),
    ("put", "put PORT ITEM"),
    ("try_put", "try_put PORT ITEM"),
    ("take", "take PORT"),
    ("try_take", "try_take PORT"),
    ("peek", "peek PORT"),
    ("write", "write PORT ITEM"),
    ("ask", "ask PORT next, ask PORT try or ask PORT get"),
    ("item_done", "item_done PORT ITEM or item_done PORT none"),
    (
        "start",
        "start TYPE NAME (PATH) PRIORITY or start TYPE NAME (PATH) none",
    ),
    ("request", "request PRIORITY or request none"),
    ("lock", "lock"),
    ("grab", "grab"),
    ("unlock", "unlock"),
    ("send", "send ITEM"),
    ("end_step", "end_step"),
];

/// The forms of calls.
pub(crate) const CALLS: [(&str, &str); 37] = [
    ("config", "config FIELD VALUE or config FIELD none"),
    ("wake", "wake TAG"),
    ("stored", "stored PORT"),
    ("try_stored", "try_stored PORT yes or try_stored PORT no"),
    ("taken", "taken PORT ITEM"),
    ("try_taken", "try_taken PORT ITEM or try_taken PORT none"),
    ("peeked", "peeked PORT ITEM"),
    ("written", "written IMP ITEM"),
    ("next_item", "next_item PORT ITEM or next_item PORT none"),
    ("pre_start", "pre_start"),
    ("body", "body"),
    ("post_start", "post_start"),
    ("grant", "grant"),
    ("item_done", "item_done ITEM or item_done none"),
    ("held", "held"),
    ("finished", "finished NAME NUMBER"),
    ("build", "build"),
    ("connect", "connect"),
    ("end_of_elaboration", "end_of_elaboration"),
    ("start_of_simulation", "start_of_simulation"),
    ("run", "run"),
    ("extract", "extract"),
    ("check", "check"),
    ("report", "report"),
    ("final", "final"),
    ("pre_reset", "pre_reset"),
    ("reset", "reset"),
    ("post_reset", "post_reset"),
    ("pre_configure", "pre_configure"),
    ("configure", "configure"),
    ("post_configure", "post_configure"),
    ("pre_main", "pre_main"),
    ("main", "main"),
    ("post_main", "post_main"),
    ("pre_shutdown", "pre_shutdown"),
    ("shutdown", "shutdown"),
    ("post_shutdown", "post_shutdown"),
];

/// The first words of the calls that only a sequence receives.
pub(crate) const SEQUENCE_CALLS: [&str; 6] = [
    "pre_start",
    "body",
    "post_start",
    "grant",
    "item_done",
    "held",
];

/// The first words of the calls that both a component and a sequence can receive. All others come to components alone.
pub(crate) const SHARED_CALLS: [&str; 3] = ["config", "wake", "finished"];

/// Returns the first word of a line.
pub(crate) fn first_word(line: &str) -> &str {
    match line.split_once(' ') {
        Some((word, _)) => word,
        None => line,
    }
}

/// The types that built-in objects create or start, each behind the type of the object.
pub(crate) const CREATED_BY: [(&str, &str); 9] = [
    ("bus_test", "bus_env"),
    ("bus_test", "seq_smoke"),
    ("bus_env", "bus_agent"),
    ("bus_env", "bus_mem"),
    ("bus_env", "bus_scoreboard"),
    ("bus_agent", "bus_driver"),
    ("bus_agent", "bus_monitor"),
    ("seq_pair", "seq_smoke"),
    ("seq_pair", "seq_burst"),
];
