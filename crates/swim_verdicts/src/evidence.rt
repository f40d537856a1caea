//! The evidence of one verdict.

ghost use Rattle.std.specs.Prelude.{◌≡◌, IfSome, Contains, None};
ghost use Rattle.swim_evidence.specs.declared.findings.Finding.TheVariants.{Judged};
ghost use Rattle.swim_verdicts.specs.Examined.{IsFirst, IsOther, LacksVerdict};

use swim_evidence::{Evidence, Finding};
use swim_wire::Id;

/// Returns the first of these findings that is evidence of the verdict on a member at the end of the period with this
/// number.
pub fn evidence_of<'f>(findings: &'f [Finding], member: Id, number: u64) -> Option<&'f Evidence>
    ensures found { IfSome result (λ e. (e.now.member ≡ member) × (e.now.number ≡ number)
        × Contains findings.now (Judged e.now)) }
    ensures first { IfSome result (λ e. IsFirst findings.now member number e.now) }
    ensures none { result ≡ None → LacksVerdict findings.now member number }
{
    for finding in findings {
        if let Some(evidence) = evidence_in(finding, member, number) {
            return Some(evidence);
        }
    }
    None
}

/// The evidence that a finding is, if it is that of this verdict.
fn evidence_in<'f>(finding: &'f Finding, member: Id, number: u64) -> Option<&'f Evidence>
    ensures found { IfSome result (λ e. (e.now.member ≡ member) × (e.now.number ≡ number)
        × (finding.now ≡ Judged e.now)) }
    ensures none { result ≡ None → IsOther member number finding.now }
{
    match finding {
        Finding::Judged(evidence) if evidence.member == member && evidence.number == number => {
            Some(evidence)
        }
        _ => None,
    }
}
