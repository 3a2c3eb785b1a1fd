//! The server behind the connections.
ghost use Rattle.std.specs.Prelude.{◌≡◌, ℕ, List, Bool, Option};
ghost use Rattle.std.specs.Bool.{MatchBool};
ghost use Rattle.outbox.specs.Appends.{Appends, KeepsWork, OthersKeep, Works};

/// The outcome of [`Core::answer_next`].
#[derive(Clone, Copy, Debug, PartialEq, Eq)]
pub enum Step {
    /// A request was answered, and others may wait.
    Replied,
    /// No request waits.
    Idle,
    /// The last request of the connection was answered.
    Last,
    /// There was no memory for a reply: no further request of the connection is answered.
    Refused,
    /// A share of the work on the next request was done; the request waits on.
    Working,
}

/// A server of many connections: it takes pieces of their streams and answers the requests in them one at a time.
pub trait Core {
    /// All that its replies rest on. Work that is under way is no part of it.
    ghost Seen: { Type 0 };

    /// What is seen of it.
    ghost seen: { Self → Seen };

    /// What is seen before and after a piece of a connection's stream is taken.
    ghost takes: { ℕ → Seen → List ℕ → Seen → Type 0 };

    /// What is seen before and after a connection's next request is answered with a reply.
    ghost answers: { ℕ → Seen → List ℕ → Seen → Type 0 };

    /// No request of the connection waits.
    ghost idle: { ℕ → Seen → Type 0 };

    /// No further request of the connection is answered.
    ghost over: { ℕ → Seen → Bool };

    /// How much is left of the work that a connection has under way.
    ghost left: { ℕ → Self → Option ℕ };

    /// A connection's request is not gone on with now, where only brief work is wanted or where it is any.
    ghost holds: { Bool → ℕ → Self → Bool };

    /// Takes a piece, which is not empty. `false` if it declines the piece and changes nothing.
    fn take(&mut self, conn: u32, piece: &[u8]) -> bool
        ensures taken { MatchBool result (takes conn (seen self.old) piece.now (seen self.new) × (over conn (seen self.new) ≡ over conn (seen self.old))) (self.new ≡ self.old) }
        ensures works { KeepsWork (left conn self.old) (left conn self.new) }
        ensures others { OthersKeep left conn self.old self.new };

    /// Appends the reply to the connection's next request, or does a share of the work on it: none that may take long where only brief work
    /// is wanted.
    fn answer_next(&mut self, conn: u32, is_brief: bool, out: &mut Vec<u8>) -> Step
        ensures appends { Appends (answers conn) (idle conn) (over conn) result (seen self.old) out.old.items out.new.items (seen self.new) }
        ensures works { Works result (holds is_brief conn self.old) (left conn self.old) (left conn self.new) }
        ensures others { OthersKeep left conn self.old self.new };

    /// Whether the turn ends although requests may wait, for instance because it took long.
    fn rests(&self) -> bool {
        false
    }
}
