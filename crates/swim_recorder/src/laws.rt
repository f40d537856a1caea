//! Laws of what is recorded.

ghost use Rattle.std.specs.Prelude.{ℕ, ◌≤◌, Bool, List, Option, length};
ghost use Rattle.swim_text.specs.Streams.{Puts};
ghost use Rattle.swim_history.specs.declared.entries.Entry.{Entry};
ghost use Rattle.swim_history.specs.Setting.{Setting};
ghost use Rattle.swim_targets.specs.Draws.{of_seed};
ghost use Rattle.swim_node.specs.Following.{filings_of};
ghost use Rattle.swim_journal.specs.Headings.{header_text, IsTellable};
ghost use Rattle.swim_journal.specs.Replays.{IsDrawnRun};
ghost use Rattle.swim_recorder.specs.Files.{IsLifeFile};
ghost use Rattle.swim_recorder.specs.Transcripts.{HasWritten};

use swim_journal::laws::a_header_tells_its_opening;

/// The header of a life, and behind it what a recorder wrote that has read all of the life's journal, are the life's
/// journal file; or where that isn't whole, a front of it. Where not all of the header was taken, no more was written.
pub fn a_recorded_life_is_its_file()
    ensures { (fresh page now : Option (List ℕ)) (opening : Setting) (limit : ℕ) (seed : List ℕ) (number : ℕ)
        (past : List Entry) (was whole : Bool) → IsTellable opening limit seed number →
        IsDrawnRun opening (record (of_seed seed) { stream = number }) past → length past ≤ limit →
        Puts fresh page (header_text opening limit seed number) was → HasWritten page now was (filings_of past) whole →
        IsLifeFile fresh now opening limit seed number past whole }
{
    a_header_tells_its_opening();
}
