//! The shelf of lives, which has the files of their journals.

ghost use Rattle.std.specs.Prelude.{◌≡◌, ◌∷◌, [], IfSome};
ghost use Rattle.swim_recorder.specs.Filed.{IsTakenBack};
ghost use Rattle.swim_telling.specs.Notices.{Notices};
ghost use Rattle.swim_trail.specs.Growing.{Grows};

use swim_text::Sink;

/// Has the files of the lives' journals, one for each life, or none. What people need to know of them it writes to the
/// notices.
pub trait Shelf<V: Sink> {
    ghost use Rattle.std.specs.Prelude.{List, Option, ℕ};
    ghost use Rattle.swim_recorder.specs.Filed.{Filed};

    // what the sink of a new file was given, where that is known
    ghost fresh: { Option (List ℕ) };

    // the numbers of the lives that it was asked for files of so far, oldest first, where those are known
    ghost opened: { Self → Option (List ℕ) };

    // the files that it took back so far, oldest first, where those are known
    ghost filed: { Self → Option (List Filed) };

    /// Opens a new file for the life of this number, or returns `None` if lives have no files. If the file can't be
    /// made, its sink takes nothing.
    fn open<F: Sink>(&mut self, number: u64, notices: &mut F) -> Option<V>
        ensures opened { Grows (opened self.old) (opened self.new) (number ∷ []) }
        ensures fresh { IfSome result (λ sink. V.written sink ≡ fresh) }
        ensures filed { filed self.new ≡ filed self.old }
        ensures notices { Notices (F.written notices.old, F.failures notices.old)
            (F.written notices.new, F.failures notices.new) };

    /// Takes back the file of the life of this number, which is over. Returns whether the file is kept for good. If it
    /// is, the bytes that were handed on for it are what its sink was given, but for comments.
    fn close<F: Sink>(&mut self, number: u64, sink: V, notices: &mut F) -> bool
        ensures opened { opened self.new ≡ opened self.old }
        ensures filed { IsTakenBack number (V.written sink) result (filed self.old) (filed self.new) }
        ensures notices { Notices (F.written notices.old, F.failures notices.old)
            (F.written notices.new, F.failures notices.new) };
}
