//! The first and the last lines that a client receives.

ghost use Rattle.std.specs.Prelude.{◌≡◌, ◌++◌, OnErr, OnOk, codes};
ghost use Rattle.serve_dialogue.specs.Spoken.{said};
ghost use Rattle.serve_jobs.specs.Lines.{end_line, fault_line, head_lines, last_lines};

use crate::verdicts::Verdict;
use itoa::Buffer;
use serve_dialogue::{Client, ServeError};
use std::io;

/// Says the version of the protocol and the seed. Errors: the writer's, if the client refuses a text.
pub(crate) fn say_head<C: Client>(client: &mut C, seed: u64) -> io::Result<()>
    ensures ok { OnOk result (C.spoke client.old client.new (said (head_lines seed))) }
    ensures count { C.line client.new ≡ C.line client.old }
    ensures refused { OnErr result (C.refuses client.old) }
    ensures may_refuse { C.refuses client.new → C.refuses client.old }
    ensures may_break { C.breaks client.new → C.breaks client.old }
{
    client.say(b"! serve 1\n! seed ")?;
    client.say(Buffer::new().format(seed).as_bytes())?;
    client.say(b"\n")
}

// Says why the run stopped before its end, with the number of the client's line that is wrong; 0 if none is. Errors: the writer's, if the
// client refuses a text.
fn say_fault<C: Client>(error: ServeError, client: &mut C) -> io::Result<()>
    ensures ok { OnOk result (C.spoke client.old client.new (said (fault_line error))) }
    ensures count { C.line client.new ≡ C.line client.old }
    ensures refused { OnErr result (C.refuses client.old) }
    ensures may_refuse { C.refuses client.new → C.refuses client.old }
{
    client.say(b"! fault ")?;
    client.say(Buffer::new().format(error.wrong_line()).as_bytes())?;
    client.say(b" ")?;
    client.say(error.label().as_bytes())?;
    client.say(b"\n")
}

/// Says how the run ended, and sends all that was said. Errors: the writer's, if the client refuses a text.
pub(crate) fn say_end<C: Client>(words: &[u8], client: &mut C) -> io::Result<()>
    ensures ok { OnOk result (C.spoke client.old client.new (said (end_line words.now))) }
    ensures count { C.line client.new ≡ C.line client.old }
    ensures refused { OnErr result (C.refuses client.old) }
    ensures may_refuse { C.refuses client.new → C.refuses client.old }
{
    client.say(b"! end ")?;
    client.say(words)?;
    client.send(b"\n")
}

/// Says why the run stopped before its end, if it did, then how it ended, and sends all that was said. Errors: the writer's, if the client
/// refuses a text.
pub(crate) fn say_last<C: Client>(verdict: &Verdict, client: &mut C) -> io::Result<()>
    ensures ok { OnOk result (C.spoke client.old client.new (said (last_lines verdict.now))) }
    ensures count { C.line client.new ≡ C.line client.old }
    ensures refused { OnErr result (C.refuses client.old) }
    ensures may_refuse { C.refuses client.new → C.refuses client.old }
{
    match verdict {
        Verdict::Clean => say_end(b"clean 0", client),
        Verdict::Faulty => say_end(b"faulty 1", client),
        Verdict::Refused(_) => say_end(b"refused 2", client),
        Verdict::Broken(error) => say_broken(*error, client),
    }
}

// Says why a run stopped before its end, and that it did, and sends all that was said. Errors: the writer's, if the client refuses a text.
fn say_broken<C: Client>(error: ServeError, client: &mut C) -> io::Result<()>
    ensures ok { OnOk result (C.spoke client.old client.new (said (fault_line error ++ end_line (codes "broken 3")))) }
    ensures count { C.line client.new ≡ C.line client.old }
    ensures refused { OnErr result (C.refuses client.old) }
    ensures may_refuse { C.refuses client.new → C.refuses client.old }
{
    say_fault(error, client)?;
    say_end(b"broken 3", client)
}
