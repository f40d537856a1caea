//! The journal files in which `web` looks verdicts up.

ghost use Rattle.std.specs.Prelude.{◌≡◌, ◌++◌, IfSome};
ghost use Rattle.swim_pages.specs.Doubts.{AreDoubts};
ghost use Rattle.swim_pages.specs.Searches.{rest_text};
ghost use Rattle.swim_pages.specs.Shelves.{ShowsLast};
ghost use Rattle.swim_verdicts.specs.Examined.{IsEvidence};
ghost use Rattle.swim_web.specs.declared.shelves.Found.TheVariants as finds;

use crate::doubts::{doubt, objection_to};
use crate::file_places::{FileMark, Place, open};
use crate::kept_files::KeptFile;
use crate::kept_pages::{KeptPage, KeptPages};
use crate::searches::Search;
use std::alloc::Global;
use std::fs::File;
use std::io::Take;
use std::marker::Model;
use std::rt::Files;
use swim_disk::{FilePath, journals_in, judged_in, path_of};
use swim_evidence::Evidence;
use swim_text::{Page as Text, Sink};
use swim_trail::{Remembered, Trail};
use swim_verdicts::{Played, evidence_of, play};
use swim_web::{Found, Shelf};
use swim_wire::Id;

/// A page that was shown, which the proofs alone know.
#[derive(Drop)]
pub struct ShownPage {
    page: Remembered<KeptPage>,
}

impl Model for ShownPage {
    ghost use Rattle.std.specs.Coded.{codes};
    ghost use Rattle.swim_pages.specs.contracts.file_places.Place as spot;
    ghost use Rattle.swim_verdicts.specs.contracts.examining.Played as file;
    ghost use Rattle.swim_pages.specs.Shelves.{PlacedSheet};

    ghost Value = { PlacedSheet };

    ghost coded = { Prim.hlevel (codes, spot.the_row.coded, file.the_row.coded) };

    ghost view = { λ s. s.page.value };
}

/// The journal files of a folder, and of the folder `judged` in it, where those with verdicts stay longer. What was
/// found in a file is kept, and holds as long as the file stands as it did.
#[derive(Drop)]
pub struct FileShelf<'r, 'p, R: Files<File = File>> {
    rt: &'r R,
    alloc: Global,
    dir: Option<&'p str>,
    kept: KeptPages,
    shown: Trail<ShownPage>,
    // The last one.
    search: Search,
}

impl<'r, 'p, R: Files<File = File>> FileShelf<'r, 'p, R> {
    /// Returns the shelf over a folder; without one it has no file.
    pub fn of(rt: &'r R, alloc: Global, dir: Option<&'p str>) -> FileShelf<'r, 'p, R> {
        FileShelf {
            rt,
            alloc,
            dir,
            kept: KeptPages::new(alloc),
            shown: Trail::new(),
            search: Search::new(alloc),
        }
    }

    /// Looks for the verdict in a folder, and then in that of judged ones in it.
    fn find_below(&mut self, dir: &str, member: Id, number: u64, text: &mut Text) -> Found
        requires { AreDoubts member number text.old.text }
        ensures page { result ≡ finds.Page → ShowsLast self.new.shown.items member number text.new.text }
        ensures nothing { result ≡ finds.Nothing → AreDoubts member number text.new.text }
    {
        let found = self.find_in(dir, member, number, text);
        if found != Found::Nothing {
            return found;
        }
        let below = judged_in(dir);
        self.find_in(below.as_str(), member, number, text)
    }

    /// Looks for the verdict in the files of a folder, the newest first.
    fn find_in(&mut self, dir: &str, member: Id, number: u64, text: &mut Text) -> Found
        requires { AreDoubts member number text.old.text }
        ensures page { result ≡ finds.Page → ShowsLast self.new.shown.items member number text.new.text }
        ensures nothing { result ≡ finds.Nothing → AreDoubts member number text.new.text }
    {
        let Ok(files) = journals_in(self.rt, self.alloc, dir) else {
            return Found::NoMemory;
        };
        let newest = self.search.newest(files.as_slice());
        for file in newest.iter().rev() {
            let path = path_of(dir, file.member, file.stamp);
            let found = self.find_at(path, member, number, text);
            if found != Found::Nothing {
                return found;
            }
        }
        Found::Nothing
    }

    /// Looks for the verdict in what lies at a path, if that is a file, and the search wants it. It isn't read if it is
    /// kept what was found in it as it stands.
    #[tactic(auto, using(crate::proofs::Doubting::one_more_doubted))]
    fn find_at(&mut self, path: FilePath, member: Id, number: u64, text: &mut Text) -> Found
        requires { AreDoubts member number text.old.text }
        ensures page { result ≡ finds.Page → ShowsLast self.new.shown.items member number text.new.text }
        ensures nothing { result ≡ finds.Nothing → AreDoubts member number text.new.text }
    {
        let Some(mark) = FileMark::at(self.rt, path.as_str()) else {
            return Found::Nothing;
        };
        let Ok(is_wanted) = self.search.see(mark) else {
            return Found::NoMemory;
        };
        if !is_wanted {
            return Found::Nothing;
        }
        let place = Place {
            path,
            mark,
            member,
            number,
        };
        if let Some(file) = self.kept.blank_at(&place) {
            return doubt(self.alloc, file.path(), file.objection(), text);
        }
        match self.kept.page_at(&place) {
            Some(kept) => show(self.alloc, kept, member, number, &mut self.shown, text),
            None => self.find_unread(place, text),
        }
    }

    /// Opens a file, and looks for the verdict in it, unless it is left out: it can't be opened, or this search has
    /// replayed too much.
    fn find_unread(&mut self, place: Place, text: &mut Text) -> Found
        requires { AreDoubts place.member place.number text.old.text }
        ensures page { result ≡ finds.Page →
            ShowsLast self.new.shown.items place.member place.number text.new.text }
        ensures nothing { result ≡ finds.Nothing → AreDoubts place.member place.number text.new.text }
    {
        let Some((file, mark)) = open(self.rt, place.path.as_str()) else {
            self.search.leave_out();
            return Found::Nothing;
        };
        if !self.search.pay(mark.length) {
            return Found::Nothing;
        }
        let opened = Place {
            path: place.path,
            mark,
            member: place.member,
            number: place.number,
        };
        self.find_anew(opened, file, text)
    }

    /// Looks for the verdict in a file that is open, and keeps what is found.
    #[tactic(auto, using(crate::proofs::Doubting::one_more_doubted))]
    fn find_anew(&mut self, place: Place, file: Take<File>, text: &mut Text) -> Found
        requires { AreDoubts place.member place.number text.old.text }
        ensures page { result ≡ finds.Page →
            ShowsLast self.new.shown.items place.member place.number text.new.text }
        ensures nothing { result ≡ finds.Nothing → AreDoubts place.member place.number text.new.text }
    {
        let played = play(self.alloc, file);
        if let Some(kept) = KeptFile::of(self.alloc, &place, &played) {
            self.kept.keep_file(kept);
        }
        let Ok(found) = &played.found else {
            return Found::NoMemory;
        };
        let member = place.member;
        let number = place.number;
        match evidence_of(found.findings.as_slice(), member, number) {
            Some(evidence) => self.show_anew(place, &played, evidence, text),
            None => doubt(self.alloc, place.path.as_str(), objection_to(&played), text),
        }
    }

    /// Writes the page about a verdict that the file of this place tells, which was played; shows it, and keeps it.
    fn show_anew(
        &mut self,
        place: Place,
        played: &Played,
        evidence: &Evidence,
        text: &mut Text,
    ) -> Found
        requires { IsEvidence played.now place.member place.number evidence.now }
        ensures page { result ≡ finds.Page →
            ShowsLast self.new.shown.items place.member place.number text.new.text }
        ensures found { result ≡ finds.Nothing → ⊥ }
    {
        let member = place.member;
        let number = place.number;
        let Ok(made) = KeptPage::write(self.alloc, place, played, evidence) else {
            return Found::NoMemory;
        };
        let found = show(self.alloc, &made, member, number, &mut self.shown, text);
        self.kept.keep_page(made);
        found
    }
}

impl<'r, 'p, R: Files<File = File>> Shelf for FileShelf<'r, 'p, R> {
    ghost use Rattle.std.specs.Prelude.{is_some};
    ghost use Rattle.swim_pages.specs.Shelves.{IsFound};

    ghost tells = { λ s found member number text.
        IsFound s.shown.items s.search.is_cut found member number text };

    ghost opened = { λ s. is_some s.dir };

    fn is_open(&self) -> bool {
        self.dir.is_some()
    }

    #[tactic(auto, using(crate::proofs::Doubting::none_doubted, crate::proofs::Doubting::rest_told))]
    fn find(&mut self, member: Id, number: u64, text: &mut Text) -> Found {
        *text = Text::new(self.alloc);
        self.search = Search::new(self.alloc);
        let Some(dir) = self.dir else {
            return Found::Nothing;
        };
        match self.find_below(dir, member, number, text) {
            Found::Nothing => tell_rest(self.search.is_cut, text),
            found => found,
        }
    }
}

/// Shows the page about the verdict on a member at the end of a period.
fn show(
    alloc: Global,
    kept: &KeptPage,
    member: Id,
    number: u64,
    shown: &mut Trail<ShownPage>,
    text: &mut Text,
) -> Found
    requires member { kept.now.place.member ≡ member }
    requires number { kept.now.place.number ≡ number }
    ensures page { result ≡ finds.Page → ShowsLast shown.new.items member number text.new.text }
    ensures found { result ≡ finds.Nothing → ⊥ }
{
    let page = kept.text();
    let of = ShownPage {
        page: Remembered::of(kept),
    };
    shown.note(&of, page);
    let Some(copy) = copied(alloc, page) else {
        return Found::NoMemory;
    };
    *text = copy;
    Found::Page
}

/// Finds nothing, and adds the line that says whether files were left out.
fn tell_rest(is_cut: bool, text: &mut Text) -> Found
    ensures nothing { result ≡ finds.Nothing → text.new.text ≡ text.old.text ++ rest_text is_cut }
    ensures page { result ≡ finds.Page → ⊥ }
{
    if !is_cut {
        return Found::Nothing;
    }
    if text.put(b"not all files were looked at\n") {
        Found::Nothing
    } else {
        Found::NoMemory
    }
}

/// Returns a text again, if there is memory.
fn copied(alloc: Global, text: &[u8]) -> Option<Text>
    ensures { IfSome result (λ copy. copy.text ≡ text.now) }
{
    let mut copy = Text::new(alloc);
    if copy.put(text) { Some(copy) } else { None }
}
