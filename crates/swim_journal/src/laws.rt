//! Laws of who called, and of runs that are made again. Each is the contract of a function that does nothing, so that
//! it stays proved.

ghost use Rattle.std.specs.Prelude.{◌≡◌, ◌≤◌, ℕ, List, length, None};
ghost use Rattle.swim_history.specs.Setting.{Setting, IsSetting};
ghost use Rattle.swim_history.specs.Run.{IsRun};
ghost use Rattle.swim_history.specs.Drawn.{IsDrawn};
ghost use Rattle.swim_history.specs.Laws.Drawn.{IsFunctional};
ghost use Rattle.swim_history.specs.declared.entries.Entry.{Entry};
ghost use Rattle.swim_journal.specs.Seatless.{reseated, IsReplayed};
ghost use Rattle.swim_targets.specs.Draws.{of_seed};
ghost use Rattle.swim_node.specs.Following.{filings_of};
ghost use Rattle.swim_script.specs.Script.{fault_of};
ghost use Rattle.swim_journal.specs.Comments.{without_comments};
ghost use Rattle.swim_journal.specs.Headings.{header_text, IsTellable};
ghost use Rattle.swim_journal.specs.Journals.{AreReadBack};
ghost use Rattle.swim_journal.specs.Replays.{IsHeader, IsDrawnRun, IsJournalFile, IsFileText, IsPlayedBack};
ghost use Rattle.swim_journal.specs.Replays.{DiffersWhereRefused, PlaysWell, file_text};

use swim_history::drawn_laws::Drawing;

/// Who called changes nothing that the rules look at: with all its calls made by seat 0 a run is still a run, and is
/// drawn by the chooser that drew it.
pub fn who_called_changes_nothing<C: Drawing>()
    ensures run { (o : Setting) (h : List Entry) → IsRun o h → IsRun o (reseated h) }
    ensures drawn { (o : Setting) (start now : C) (h : List Entry) → IsDrawn C.orders C.places o start h now →
        IsDrawn C.orders C.places o start (reseated h) now }
{}

/// Where choosers that are the same answer the same and are the same afterwards, a run that is made again is the run:
/// seat 0 alone makes the same calls, the same chooser draws for them, and every reply and every choice is what it was.
pub fn a_replay_is_the_run<C: Drawing>()
    ensures { IsFunctional C.orders C.places C.same → (o : Setting) → IsSetting o →
        IsReplayed C.orders C.places C.same o }
{}

/// A journal file, which is a header and the text of a run's calls, whoever made them, or of a beginning of them; or
/// that text with other comments between its lines. Where it is played to its end, so that each of its lines was
/// confirmed, the run was made again: no call was refused, and every reply is the one that was written. A line of it is
/// told otherwise only behind a call that was refused for want of memory, with nothing but comments in between. And
/// nothing else is found wrong with it, where nothing is with its header, and no comment is longer than a line may be:
/// its end is reached, or its reader or its writer failed, or memory was refused.
pub fn a_journal_file_is_its_run()
    ensures played { (header : List ℕ) (h : List Entry) (text : List ℕ) → IsJournalFile header h →
        IsFileText header h text → IsPlayedBack text h }
    ensures differs { (header : List ℕ) (h : List Entry) (text : List ℕ) → IsJournalFile header h →
        IsFileText header h text → DiffersWhereRefused text }
    ensures well { (header : List ℕ) (h : List Entry) (text : List ℕ) → IsJournalFile header h →
        IsFileText header h text → PlaysWell header text }
{}

/// The header that `put_header` writes. It tells that opening, with the members that failed, that limit, and the seed,
/// from the stream of that life; and it has no fault. So with the text of a run that is drawn so it is a journal file.
/// There are no comments in that.
pub fn a_header_tells_its_opening()
    ensures tells { (o : Setting) (limit : ℕ) (seed : List ℕ) (life : ℕ) → IsTellable o limit seed life →
        IsHeader (header_text o limit seed life) o limit (record (of_seed seed) { stream = life }) }
    ensures well { (o : Setting) (limit : ℕ) (seed : List ℕ) (life : ℕ) → IsTellable o limit seed life →
        fault_of (header_text o limit seed life) ≡ None }
    ensures file { (o : Setting) (limit : ℕ) (seed : List ℕ) (life : ℕ) (h : List Entry) → IsTellable o limit seed life →
        IsDrawnRun o (record (of_seed seed) { stream = life }) h → length h ≤ limit → AreReadBack (filings_of h) →
        IsJournalFile (header_text o limit seed life) h }
    ensures plain { (o : Setting) (limit : ℕ) (seed : List ℕ) (life : ℕ) (h : List Entry) →
        IsTellable o limit seed life → AreReadBack (filings_of h) →
        without_comments (file_text (header_text o limit seed life) h) ≡ file_text (header_text o limit seed life) h }
{}
