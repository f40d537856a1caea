//! Laws of lives that were kept. Each is the contract of a function that does nothing, so that it stays proved.

ghost use Rattle.std.specs.Prelude.{◌≡◌, ℕ, false, List, [], Some};
ghost use Rattle.swim_history.specs.declared.entries.Entry.{Entry};
ghost use Rattle.swim_history.specs.Setting.{Setting};
ghost use Rattle.swim_journal.specs.Replays.{IsPlayedBack, DiffersWhereRefused};
ghost use Rattle.swim_recorder.specs.Filed.{Filed};
ghost use Rattle.swim_crew.specs.declared.pasts.Terms.{Terms};
ghost use Rattle.swim_keeper.specs.Told.{EachIsTold, IsFileOf};

use swim_recorder::laws::a_recorded_life_is_its_file;
use swim_text::Sink;

/// If a keeper opened and closed a life, and a recorder recorded its journal in between, then its line was written,
/// those who watch were told of it, the reporter heard of each of its calls, and the file that the shelf took back is
/// the life's journal file, unless the line says that the journal was cut. The bytes that were handed on for that file,
/// comments left out, are the journal file's, if a new file has nothing in it.
pub fn a_kept_life_is_told<V: Sink + Drop>()
    ensures { EachIsTold V.written V.held }
{
    a_recorded_life_is_its_file();
}

/// A life's file that isn't told as cut, of which it is known what was handed on for it: these bytes, with all their
/// comments, are played back as the life's run, but for who called, if they are played to their end without a fault. A
/// line of them is told otherwise only behind a call that was refused for want of memory.
pub fn a_whole_file_is_played_back()
    ensures played { (terms : Terms) (life : ℕ) (o : Setting) (past : List Entry) (file : Filed) (bytes : List ℕ) →
        IsFileOf (Some []) terms life o past file false → file.bytes ≡ Some bytes → IsPlayedBack bytes past }
    ensures differs { (terms : Terms) (life : ℕ) (o : Setting) (past : List Entry) (file : Filed) (bytes : List ℕ) →
        IsFileOf (Some []) terms life o past file false → file.bytes ≡ Some bytes → DiffersWhereRefused bytes }
{}
