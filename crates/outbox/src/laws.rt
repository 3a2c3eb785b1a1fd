//! What holds over every list of events. The contract of [`crate::turn`] uses the same definitions.
ghost use Rattle.std.specs.Prelude.{◌≡◌, ℕ, ◌+◌, ◌≤◌, List, [], ◌++◌, length, sum, map};
ghost use Rattle.std.specs.List.{AllByRecursion};
ghost use Rattle.outbox.specs.Lines.{Line, Event, Writable, fresh, cap, run, read, taken, replied, sent, lost, is_short, is_sound};
ghost use Rattle.outbox.specs.Lanes.{At, own, run_all, sent_to};

/// The bytes sent, those that a fault discarded and those still owed are together the replies, in order. Without a fault nothing is
/// lost, and nothing is ever sent twice or after a fault. The bytes read are those taken, then at most one declined piece.
pub fn in_order()
    ensures all { (events : List Event) → sent fresh events ++ lost fresh events ++ (run fresh events).owed ≡ replied fresh events }
    ensures taken { (events : List Event) → (declined : List ℕ) × (read fresh events ≡ taken fresh events ++ declined) }
    ensures sound { (events : List Event) → AllByRecursion is_sound events → lost fresh events ≡ [] }
{}

/// A connection is never owed more than the cap plus the longest reply.
pub fn bounded()
    ensures { (most : ℕ) (events : List Event) → AllByRecursion (is_short most) events → length (run fresh events).owed ≤ cap + most }
{}

/// Everything owed is sent once the peer has had room for it, however small the steps.
pub fn drains()
    ensures settled { (line : Line) (rooms : List ℕ) → length line.owed ≤ sum rooms → (run line (map Writable rooms)).owed ≡ [] }
    ensures sent { (line : Line) (rooms : List ℕ) → length line.owed ≤ sum rooms → sent line (map Writable rooms) ≡ line.owed }
{}

/// The state of a connection, and what is sent to it, depend on its own events alone. A peer that fails or does not read changes
/// nothing for the others.
pub fn alone()
    ensures line { (conn : ℕ) (lines : ℕ → Line) (events : List At) → run_all lines events conn ≡ run (lines conn) (own conn events) }
    ensures sent { (conn : ℕ) (lines : ℕ → Line) (events : List At) → sent_to conn lines events ≡ sent (lines conn) (own conn events) }
{}
