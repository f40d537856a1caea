//! What a journal file comes to that was played.

ghost use Rattle.std.specs.Prelude.{◌≡◌, ◌↔◌, ◌⊎◌, Some, None, true};
ghost use Rattle.swim_evidence.specs.declared.confirming.Missed.{Missed as Call};
ghost use Rattle.swim_evidence.specs.Verdicts.{IsWhole, IsCut, IsSound, standing_by};

use crate::confirming::{Confirmations, Missed};

/// What a file, or its place among others, is found to be.
#[derive(Clone, Copy, Debug, PartialEq, Eq)]
pub enum Standing {
    /// Nothing speaks against it.
    Sound,
    /// Memory to find it out was refused.
    Starved,
    /// Something speaks against it.
    Accused,
}

/// What a journal file comes to.
#[derive(Clone, Copy, Debug, PartialEq, Eq)]
pub enum Verdict<F> {
    /// Each call's answer stands in it as it was played, and it ends with a whole line.
    Whole,
    /// The same up to its last confirmed entry, behind which it ends in the midst.
    Cut,
    /// This call has no answer, though another call follows.
    Missed(Missed),
    /// It has this fault.
    Faulty(F),
    /// Memory was refused before its end, and nothing is wrong up to there.
    Starved,
}

impl<F> Verdict<F> {
    /// Whether something speaks against the file: nothing does where it is whole or cut.
    pub fn standing(&self) -> Standing
        ensures { result ≡ standing_by self.now }
    {
        match self {
            Verdict::Whole | Verdict::Cut => Standing::Sound,
            Verdict::Starved => Standing::Starved,
            Verdict::Missed(_) | Verdict::Faulty(_) => Standing::Accused,
        }
    }
}

/// The verdict on a file that was played, up to its first fault if it has one. `is_starved` says whether memory was
/// refused before its end, and `is_cut` whether it ends in the midst of a line or of its header.
#[tactic(auto, using(crate::proofs::Standings::sound_where))]
pub fn verdict_on<F: Copy>(
    fault: Option<F>,
    is_starved: bool,
    is_cut: bool,
    confirmations: &Confirmations,
) -> Verdict<F>
    // It is whole exactly where nothing is wrong,
    ensures whole { (result ≡ Verdict.Whole) ↔ IsWhole fault is_starved is_cut confirmations.now }

    // and cut exactly where nothing is wrong but its end.
    ensures cut { (result ≡ Verdict.Cut) ↔ IsCut fault is_starved is_cut confirmations.now }

    // Nothing speaks against it exactly where it is one of these.
    ensures sound { (standing_by result ≡ Standing.Sound)
        ↔ (IsWhole fault is_starved is_cut confirmations.now ⊎ IsCut fault is_starved is_cut confirmations.now) }

    // Want of memory is no fault.
    ensures starved { (result ≡ Verdict.Starved) ↔ (IsSound fault confirmations.now × (is_starved ≡ true)) }

    // A call without an answer stands before the fault that ended the run.
    ensures missed { (call : Call) → (result ≡ Verdict.Missed call) ↔ (confirmations.now.missed ≡ Some call) }
    ensures faulty { (met : F) → (result ≡ Verdict.Faulty met)
        ↔ ((confirmations.now.missed ≡ None) × (fault ≡ Some met)) }
{
    if let Some(call) = confirmations.missed {
        return Verdict::Missed(call);
    }
    match fault {
        Some(met) => Verdict::Faulty(met),
        None if is_starved => Verdict::Starved,
        None if is_cut || confirmations.waiting.is_some() => Verdict::Cut,
        None => Verdict::Whole,
    }
}
