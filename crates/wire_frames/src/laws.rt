//! What holds of every stream, however it comes. The contracts of `Framer` are by the same words.
ghost use Rattle.std.specs.Prelude.{◌≡◌, ℕ, List, ◌++◌, IsTrue, IsFalse};
ghost use Rattle.std.specs.List.{All};
ghost use Rattle.wire_frames.specs.Frames.{IsByte, IsSplit, front, is_whole, split, frames, rest, is_broken};
ghost use Rattle.wire_frames.specs.Frames.{after_frames};
ghost use Rattle.wire_frames.specs.Framing.{fresh};
ghost use Rattle.wire_frames.specs.Cuts.{Step, stream_of, taken, left};
ghost use Rattle.wire_frames.specs.Splitting.{Splitting};
ghost use Rattle.wire_frames.specs.Encoding.{ReadsBack};
ghost use Rattle.wire_frames.specs.Written.{ReadsOnlyWritten};

/// A stream of bytes is split in one way only.
pub fn splits_one_way()
    ensures is_one { (stream : List ℕ) → All IsByte stream → IsSplit stream (frames stream) (rest stream) }
    ensures only { (stream : List ℕ) (bodies : List (List ℕ)) (left_over : List ℕ) → All IsByte stream
        → IsSplit stream bodies left_over → split stream ≡ record { frames = bodies; rest = left_over } }
{}

/// A stream's frames are those of any prefix, then those of that prefix's rest with what follows, and its rest is the rest
/// of the latter.
pub fn prefix_comes_first()
    ensures { (stream more : List ℕ) → split (stream ++ more) ≡ after_frames (frames stream) (split (rest stream ++ more)) }
{}

/// Behind a length above the limit nothing is read as a frame: it stays at the head of the rest, whatever follows.
pub fn nothing_follows_a_fault()
    ensures { (stream more : List ℕ) → IsTrue (is_broken stream)
        → (frames (stream ++ more) ≡ frames stream) × (rest (stream ++ more) ≡ rest stream ++ more) × IsTrue (is_broken (stream ++ more)) }
{}

/// Any two ways of cutting a stream into pieces, and of taking frames between them, give the same frames in the same order,
/// once no whole frame waits. Before that, those taken are the first of them, and the others wait.
pub fn cuts_do_not_matter()
    ensures same { (steps others : List Step) → stream_of steps ≡ stream_of others
        → IsFalse (is_whole (front (left fresh steps).waiting)) → IsFalse (is_whole (front (left fresh others).waiting))
        → taken fresh steps ≡ taken fresh others }
    ensures first { (steps : List Step) → taken fresh steps ++ frames (left fresh steps).waiting ≡ frames (stream_of steps) }
{}

/// A stream is split by what it begins with, one frame after another.
pub fn splits_from_the_front()
    ensures { Splitting }
{}

/// A request that is written is read back as it was.
pub fn reads_what_is_written()
    ensures { ReadsBack }
{}

/// What is read as a request was written as that request, and the fields of a known command are refused exactly where they are those
/// of no request.
pub fn reads_only_what_is_written()
    ensures { ReadsOnlyWritten }
{}
