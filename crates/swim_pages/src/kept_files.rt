//! Files that were played, which verdicts they tell, and what speaks against them.

ghost use Rattle.std.specs.Prelude.{◌≡◌, IfSome, true};
ghost use Rattle.std.specs.List.{list_any};
ghost use Rattle.swim_pages.specs.Doubts.{IsObjection};
ghost use Rattle.swim_pages.specs.Shelves.{IsBlankAt, is_verdict, verdict_in, verdicts_in};
ghost use Rattle.swim_verdicts.specs.Examined.{FindsConfirmed};

use crate::doubts::objection_to;
use crate::file_places::{FileMark, Place};
use std::alloc::Global;
use std::marker::Model;
use swim_disk::FilePath;
use swim_evidence::Finding;
use swim_trail::Remembered;
use swim_verdicts::{Objection, Played};
use swim_wire::Id;

/// How many verdicts a file may tell, if it is to be kept which they are.
const KEPT_VERDICTS: usize = 4_096;

/// A file that was played, with the verdicts that it tells: whoever each is on, and at the end of which period.
#[derive(Drop)]
pub struct KeptFile {
    path: FilePath,
    /// How the file stood when it was opened.
    mark: FileMark,
    verdicts: Vec<(Id, u64)>,
    objection: Objection,
    played: Remembered<Played>,
}

impl Model for KeptFile {
    ghost use Rattle.std.specs.Coded.{codes};
    ghost use Rattle.swim_verdicts.specs.contracts.examining.Played as file;
    ghost use Rattle.swim_pages.specs.Doubts.{IsObjection};
    ghost use Rattle.swim_pages.specs.Shelves.{AreTold, PlayedFile};

    ghost Value = { PlayedFile };

    ghost coded = { Prim.hlevel (codes, file.the_row.coded) };

    ghost view = { λ k. record {
      path = k.path.bytes;
      mark = k.mark;
      played = k.played.value;
      verdicts = k.verdicts.items;
      objection = k.objection;
    } };

    ghost invariant = { λ k. AreTold k.played.value k.verdicts.items × IsObjection k.played.value k.objection };
}

impl KeptFile {
    /// Returns the file of a place, which was played, unless it tells too many verdicts or memory is refused.
    pub fn of(alloc: Global, place: &Place, played: &Played) -> Option<KeptFile>
        requires { FindsConfirmed played.now }
        ensures path { IfSome result (λ kept. kept.path ≡ place.now.path.bytes) }
        ensures mark { IfSome result (λ kept. kept.mark ≡ place.now.mark) }
        ensures played { IfSome result (λ kept. kept.played ≡ played.now) }
    {
        let Ok(found) = &played.found else {
            return None;
        };
        let verdicts = verdicts_in(alloc, found.findings.as_slice())?;
        Some(KeptFile {
            path: place.path,
            mark: place.mark,
            verdicts,
            objection: objection_to(played),
            played: Remembered::of(played),
        })
    }

    /// Returns its path.
    pub fn path(&self) -> &str
        ensures { result.now ≡ self.now.path }
    {
        self.path.as_str()
    }

    /// Returns what is to be said against it.
    pub fn objection(&self) -> Objection
        ensures value { result ≡ self.now.objection }
        ensures is { IsObjection self.now.played result }
    {
        self.objection
    }

    /// Returns whether a verdict is looked for in it that it doesn't tell, and it stands as it did.
    #[tactic(auto, using(crate::proofs::Verdicts::lacks_unless_listed))]
    pub fn is_blank(&self, place: &Place) -> bool
        ensures { result ≡ true → IsBlankAt place.now self.now }
    {
        place.is_in(self.path(), &self.mark) && !self.tells(place.member, place.number)
    }

    /// Returns whether it tells the verdict on a member at the end of the period with this number.
    fn tells(&self, member: Id, number: u64) -> bool
        ensures told { result ≡ list_any (is_verdict member number) self.now.verdicts }
    {
        self.verdicts
            .iter()
            .any(|verdict| verdict.0 == member && verdict.1 == number)
    }
}

/// Returns the verdicts among findings, unless there are too many or memory is refused.
fn verdicts_in(alloc: Global, findings: &[Finding]) -> Option<Vec<(Id, u64)>>
    ensures { IfSome result (λ verdicts. verdicts.items ≡ verdicts_in findings.now) }
{
    let mut verdicts = Vec::new(alloc);
    for finding in findings {
        if let Some(verdict) = verdict_in(finding) {
            if verdicts.len() >= KEPT_VERDICTS {
                return None;
            }
            verdicts.push(verdict).ok()?;
        }
    }
    Some(verdicts)
}

/// Returns the verdict that a finding is, if it is one.
fn verdict_in(finding: &Finding) -> Option<(Id, u64)>
    ensures { result ≡ verdict_in finding.now }
{
    match finding {
        Finding::Judged(evidence) => Some((evidence.member, evidence.number)),
        Finding::Other(_) | Finding::Late(_) => None,
    }
}
