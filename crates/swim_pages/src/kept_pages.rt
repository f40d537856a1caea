//! What was found of verdicts in files, which is kept: pages, and which verdicts files tell.

ghost use Rattle.std.specs.Prelude.{◌≡◌, ◌<◌, ◌≤◌, IfOk, IfSome, length};
ghost use Rattle.swim_pages.specs.Shelves.{AreSame, IsBlankAt, IsWritten};
ghost use Rattle.swim_verdicts.specs.Examined.{IsEvidence};

use crate::file_places::Place;
use crate::kept_files::KeptFile;
use std::alloc::{AllocError, Global};
use std::marker::Model;
use swim_evidence::Evidence;
use swim_verdicts::{Played, VerdictPage, WrittenPage};

/// How many pages are kept, and the most bytes that each of them has.
const KEPT_PAGES: usize = 8;

const KEPT_BYTES: usize = 1_048_576;

/// Of how many files it is kept which verdicts they tell: all those that a search looks at in two folders.
const KEPT_FILES: usize = 2_048;

/// The most bytes of a page that is shown.
const MOST_BYTES: usize = 8_388_608;

/// A page that was written, with the place where its verdict was looked for.
#[derive(Drop)]
pub struct KeptPage {
    place: Place,
    page: WrittenPage,
}

impl Model for KeptPage {
    ghost use Rattle.std.specs.Coded.{codes};
    ghost use Rattle.swim_pages.specs.contracts.file_places.Place as spot;
    ghost use Rattle.swim_verdicts.specs.contracts.examining.Played as file;
    ghost use Rattle.swim_pages.specs.Shelves.{IsWritten, PlacedSheet};

    ghost Value = { PlacedSheet };

    ghost coded = { Prim.hlevel (codes, spot.the_row.coded, file.the_row.coded) };

    ghost view = { λ k. record { place = k.place; sheet = k.page } };

    ghost invariant = { λ k. IsWritten k.place k.page };
}

impl KeptPage {
    /// Writes the page about a verdict that the file of this place tells, which was played. Fails if memory is refused,
    /// or the page is longer than 8 MiB.
    pub fn write(
        alloc: Global,
        place: Place,
        played: &Played,
        evidence: &Evidence,
    ) -> Result<KeptPage, AllocError>
        requires { IsEvidence played.now place.member place.number evidence.now }
        ensures place { IfOk result (λ kept. kept.place ≡ place) }
        ensures short { IfOk result (λ kept. length kept.sheet.text ≤ 8388608) }
    {
        let about = VerdictPage {
            path: place.path.as_str(),
            played,
            evidence,
        };
        let page = about.write(alloc)?;
        if page.text().len() > MOST_BYTES {
            return Err(AllocError);
        }
        Ok(KeptPage { place, page })
    }

    /// Returns its bytes.
    pub fn text(&self) -> &[u8]
        ensures text { result.now ≡ self.now.sheet.text }
        ensures written { IsWritten self.now.place self.now.sheet }
    {
        self.page.text()
    }

    /// Returns the place where its verdict was looked for.
    fn place(&self) -> &Place
        ensures { result.now ≡ self.now.place }
    {
        &self.place
    }
}

/// The last pages that were written, and the last files that were played.
#[derive(Drop)]
pub struct KeptPages {
    pages: Vec<KeptPage>,
    files: Vec<KeptFile>,
}

impl KeptPages {
    /// Nothing is kept yet.
    pub fn new(alloc: Global) -> KeptPages {
        KeptPages {
            pages: Vec::new(alloc),
            files: Vec::new(alloc),
        }
    }

    /// Returns the page of a place, if it is kept: of this verdict, and of this file in the state in which it stands.
    pub fn page_at(&self, place: &Place) -> Option<&KeptPage>
        ensures { IfSome result (λ kept. AreSame kept.now.place place.now) }
    {
        for kept in self.pages.iter() {
            if kept.place().is(place) {
                return Some(kept);
            }
        }
        None
    }

    /// Returns the file of a place, if it is kept which verdicts it tells, and this one isn't among them.
    pub fn blank_at(&self, place: &Place) -> Option<&KeptFile>
        ensures { IfSome result (λ file. IsBlankAt place.now file.now) }
    {
        for file in self.files.iter() {
            if file.is_blank(place) {
                return Some(file);
            }
        }
        None
    }

    /// Keeps a page that isn't too long, in the stead of one about the same verdict of the same file, or of the oldest.
    pub fn keep_page(&mut self, page: KeptPage) {
        if page.text().len() > KEPT_BYTES {
            return;
        }
        if let Some(gone) = self.leaving(page.place()) {
            let _gone = self.pages.remove(gone);
        }
        let _is_kept = self.pages.push(page);
    }

    /// Keeps which verdicts a file tells, in the stead of what was kept of the same file, or of the oldest.
    pub fn keep_file(&mut self, file: KeptFile) {
        if let Some(gone) = self.leaving_for(file.path()) {
            let _gone = self.files.remove(gone);
        }
        let _is_kept = self.files.push(file);
    }

    /// Returns which page leaves when one of this place comes, if one has to.
    fn leaving(&self, place: &Place) -> Option<usize>
        ensures { IfSome result (λ gone. gone < length self.now.pages.items) }
    {
        for at in 0..self.pages.len() {
            if self.pages[at].place().is_about(place) {
                return Some(at);
            }
        }
        if self.pages.len() >= KEPT_PAGES {
            Some(0)
        } else {
            None
        }
    }

    /// Returns which file leaves when one with this path comes, if one has to.
    fn leaving_for(&self, path: &str) -> Option<usize>
        ensures { IfSome result (λ gone. gone < length self.now.files.items) }
    {
        for at in 0..self.files.len() {
            if self.files[at].path() == path {
                return Some(at);
            }
        }
        if self.files.len() >= KEPT_FILES {
            Some(0)
        } else {
            None
        }
    }
}
