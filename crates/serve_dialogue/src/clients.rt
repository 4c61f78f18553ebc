//! The client, as the kernel sees it.

use serve_answers::AnswerError;
use std::io;
use uvm_object::Acts;

/// The program that holds the objects of a testbench, as the kernel sees it. It receives lines and answers requests.
///
/// A run is proved for every client. Each request is said and sent before its answer is read, so the client knows the order of its calls.
/// [`Pipe`](crate::Pipe) is a client at the other end of two pipes.
pub trait Client {
    ghost use Rattle.std.specs.Prelude.{◌≡◌, ◌+◌, ◌++◌, ◌≤◌, ℕ, List, [], All, IfErr, IfOk, OnErr, OnOk, length};
    ghost use Rattle.serve_answers.specs.Answers.{BreaksOff, IsTellingAct, answer_text, count_after, made_text};
    ghost use Rattle.serve_answers.specs.Errors.{line_in};
    ghost use Rattle.serve_dialogue.specs.Clients.{IsUnmade, IsUnreadable};
    ghost use Rattle.serve_dialogue.specs.Spoken.{Spoken, answered, said};

    /// What the kernel and the client said between two states of the client, in the order of time.
    ghost spoke: { Self → Self → List Spoken → Type 0 };

    /// The property that the answers of the client ended between two states.
    ghost ended: { Self → Self → Type 0 };

    /// The number of the client's line that was read last, from 1; 0 before the first line. It stays at the greatest number.
    ghost line: { Self → ℕ };

    /// The property that the client has received all that was said.
    ghost sent: { Self → Type 0 };

    /// The property that the client may refuse a text, the next one or a later one.
    ghost refuses: { Self → Type 0 };

    /// The property that the client's answers may become unreadable.
    ghost breaks: { Self → Type 0 };

    /// Says a text, which the client may receive later.
    ///
    /// Errors: the writer's, if the client refuses the text. It is then unknown which part of the text was said.
    fn say(&mut self, text: &[u8]) -> io::Result<()>
        ensures ok { OnOk result (spoke self.old self.new (said text.now)) }
        ensures count { line self.new ≡ line self.old }
        ensures refused { OnErr result (refuses self.old) }
        ensures may_refuse { refuses self.new → refuses self.old }
        ensures may_break { breaks self.new → breaks self.old };

    /// Says a text, and sends all that was said.
    ///
    /// Errors: as in `say`.
    fn send(&mut self, text: &[u8]) -> io::Result<()>
        ensures ok { OnOk result (spoke self.old self.new (said text.now)) }
        ensures reaches { OnOk result (sent self.new) }
        ensures count { line self.new ≡ line self.old }
        ensures refused { OnErr result (refuses self.old) }
        ensures may_refuse { refuses self.new → refuses self.old }
        ensures may_break { breaks self.new → breaks self.old };

    /// Reads whether the client has made the requested object. Requires that all that was said was sent.
    ///
    /// Errors: the reason why its line is not an answer, with the number of the line.
    fn read_made(&mut self) -> Result<bool, AnswerError>
        requires { sent self.old }
        ensures ok { IfOk result (λ made. spoke self.old self.new (answered (made_text made))) }
        ensures err { IfErr result (λ error. IsUnmade error (λ text. spoke self.old self.new (answered text)) (ended self.old self.new)) }
        ensures count { line self.new ≡ count_after (line self.old) 1 }
        ensures number { IfErr result (λ error. line_in error ≡ line self.new) }
        ensures unreadable { IfErr result (λ error. IsUnreadable error → breaks self.old) }
        ensures may_refuse { refuses self.new → refuses self.old }
        ensures may_break { breaks self.new → breaks self.old };

    /// Reads the actions with which the client answers a call, at most 1,000. Requires that all that was said was sent.
    ///
    /// Errors: the reason why its lines are not an answer, with the number of the line at which reading stopped.
    fn read_acts(&mut self) -> Result<Acts, AnswerError>
        requires { sent self.old }
        ensures ok { IfOk result (λ acts. spoke self.old self.new (answered (answer_text acts))) }
        ensures told { IfOk result (λ acts. All IsTellingAct acts) }
        ensures few { IfOk result (λ acts. length acts ≤ 1000) }
        ensures count { IfOk result (λ acts. line self.new ≡ count_after (line self.old) (length acts + 1)) }
        ensures err { IfErr result (λ error. BreaksOff error (λ text. spoke self.old self.new (answered text)) (ended self.old self.new) (line self.old) (line self.new)) }
        ensures number { IfErr result (λ error. line_in error ≡ line self.new) }
        ensures unreadable { IfErr result (λ error. IsUnreadable error → breaks self.old) }
        ensures may_refuse { refuses self.new → refuses self.old }
        ensures may_break { breaks self.new → breaks self.old };

    /// The law that nothing is said between a state and itself.
    ghost silent: { (client : Self) → spoke client client [] };

    /// The law that two consecutive parts of a talk form one talk.
    ghost joined: { (first half last : Self) (front back : List Spoken) → spoke first half front → spoke half last back → spoke first last (front ++ back) };
}
