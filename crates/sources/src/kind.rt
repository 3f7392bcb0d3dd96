ghost use Rattle.std.specs.Prelude.{◌≡◌, ℕ, Bool, List};
ghost use Rattle.sources.specs.declared.kind.Break.{Break as BreakOf};
ghost use Rattle.sources.specs.Rules.{Rules, verdict as verdict_of, RefusalStays, ForeignIsAside, BeginsWithALine};

use crate::fault::Fault;

/// What a break means to a kind: refusal 1, or the end of the text.
#[derive(Clone, Copy, PartialEq, Eq, Debug)]
pub enum Break {
    Refuses,
    Ends,
}

/// What reads the lines of a text: it takes them one by one, and is closed then. Its rules say what each line makes of its meaning.
pub trait Kind: Sized {
    type Closed;

    const BREAK: Break;

    ghost BREAK: { BreakOf };

    ghost Meaning: { Type 0 };

    ghost means: { Self → Meaning };

    ghost rules: { Rules Meaning Self.Closed };

    // Whether foreign lines may stand here.
    ghost begun: { Meaning → Bool };

    // Which lines are foreign.
    ghost foreign: { List ℕ → Bool };

    // What a kind that writes to lent memory keeps: which memory it is. No default: each kind proves `framed` and `still` of its own frame.
    ghost frame: { Self → Self → Type 0 };

    fn take(&mut self, line: &str) -> Result<(), Fault>
        ensures next { means self.new ≡ rules.next (means self.old) line.now }
        ensures verdict { result ≡ verdict_of (rules.refused (means self.new)) }
        ensures frame { frame self.old self.new };

    // The laws that the rules keep, and that the constant is as they have it.
    ghost breaks: { BREAK ≡ rules.on_break };

    ghost stays: { RefusalStays rules };

    ghost aside: { ForeignIsAside rules begun foreign };

    ghost begins: { BeginsWithALine rules begun };

    // The memory is the same before any line, and after one more.
    ghost framed: { (a : Self) → frame a a };

    ghost still: { (a b c : Self) → frame a b → frame b c → frame a c };
}

/// A kind that is closed by value: an open one is gone then.
pub trait Close: Kind {
    fn close(self) -> Result<Self::Closed, Fault>
        ensures { result ≡ Self.Kind.rules.closed (Self.Kind.means self) };
}

/// A kind that is closed where it stands: it writes to lent memory, which its owner goes on with.
pub trait Finish: Kind {
    fn finish(&mut self) -> Result<Self::Closed, Fault>
        ensures closed { result ≡ Self.Kind.rules.closed (Self.Kind.means self.old) }
        ensures keeps { Self.Kind.means self.new ≡ Self.Kind.means self.old }
        ensures frame { Self.Kind.frame self.old self.new };
}
