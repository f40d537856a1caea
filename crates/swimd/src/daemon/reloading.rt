//! The configuration file, read again while its daemon runs.

ghost use Rattle.std.specs.Prelude.{◌≡◌, IfSome, MatchResult, false};
ghost use Rattle.swim_outcomes.specs.Outcomes.{outcome_text};
ghost use Rattle.swim_reload.specs.Reloaded.{reloaded_text};
ghost use Rattle.swimd.specs.Daemon.{rejoin_of};
ghost use Rattle.swimd.specs.Reloading.{IsNotReloaded, IsReloaded, IsTextOrFront};

use arrayvec::ArrayVec;
use std::alloc::Global;
use std::fs;
use std::rt::Files;
use std::sync::Wait;
use swim_checks::{Documents, SystemDocuments};
use swim_config::{Config, ConfigFault, INPUT_BYTES};
use swim_control::ReloadText;
use swim_guard::{RingKeys, RuleBook};
use swim_outcomes::{Outcome, put_outcome};
use swim_reload::{put_reloaded, reread};
use swim_reports::TextSink;
use swim_work::TidingsBoard;

/// What a daemon needs to read its configuration file again.
#[derive(Clone, Copy)]
pub struct Reloading<'p> {
    /// Where the file is.
    pub path: &'p str,
    /// Its text when the daemon started.
    pub started: &'p [u8],
    /// The rules by which datagrams are let in and signed that are in force.
    pub book: &'p RuleBook,
    /// Where it is told which N is in force: there is a knock at each N-th start of a period.
    pub board: &'p TidingsBoard,
}

/// What came of reading the file again.
#[derive(Drop)]
pub struct Reloaded {
    /// The line that tells it.
    pub line: ReloadText,
    /// Whether the file's keys, its fence and its `rejoin` are in force now.
    pub is_taken: bool,
}

impl Reloaded {
    /// The file isn't taken, for that reason.
    fn refused(outcome: Outcome) -> Reloaded
        ensures line { IsTextOrFront (outcome_text outcome) result.line.items }
        ensures taken { result.is_taken ≡ false }
    {
        Reloaded {
            line: line_of(outcome),
            is_taken: false,
        }
    }
}

impl<'p> Reloading<'p> {
    /// The keys that are in force.
    pub fn keys<W: Wait>(&self, wait: &W) -> RingKeys {
        self.book.keys(wait)
    }

    /// Reads the file again, and brings its keys, its fence and its `rejoin` into force. Where it is refused, nothing
    /// changes.
    pub fn reload<R: Files, W: Wait>(&self, rt: &R, wait: &W, alloc: Global) -> Reloaded {
        // To open a pipe would wait for whoever writes it.
        if !is_file(rt, self.path) {
            return Reloaded::refused(Outcome::Unread);
        }
        let mut documents = SystemDocuments::new(rt);
        match read_again(alloc, self.path, self.started, &mut documents) {
            Ok((config, line)) => {
                self.board.rule(rejoin_of(&config));
                self.book.change(wait, config.keys, config.fence);
                Reloaded {
                    line,
                    is_taken: true,
                }
            }
            Err(outcome) => Reloaded::refused(outcome),
        }
    }
}

/// The configuration that the file at the path has now, and the line that tells of it where the text was that one at the
/// start; or why it isn't taken.
// Kept out of line, as the file's text is large.
#[inline(never)]
fn read_again<X: Documents>(
    alloc: Global,
    path: &str,
    started: &[u8],
    documents: &mut X,
) -> Result<(Config, ReloadText), Outcome>
    ensures { MatchResult result
        (λ taken. IsReloaded path.now started.now (X.read documents.old) (X.read documents.new) taken.0 taken.1.items)
        (IsNotReloaded path.now started.now (X.read documents.old) (X.read documents.new)) }
{
    let mut text = ArrayVec::<u8, INPUT_BYTES>::new();
    if let Err(_why) = documents.read_text(path, &mut text) {
        return Err(Outcome::Unread);
    }
    match reread(alloc, started, text.as_slice()) {
        Ok((before, config)) => match line_beside(&before, &config) {
            Some(line) => Ok((config, line)),
            None => Err(Outcome::Refused(ConfigFault::NoMemory)),
        },
        Err(fault) => Err(Outcome::Refused(fault)),
    }
}

/// The line that tells of a configuration beside the one of the start. `None` where it has no room, which it always has.
fn line_beside(before: &Config, config: &Config) -> Option<ReloadText>
    ensures { IfSome result (λ line. line.items ≡ reloaded_text before.now config.now) }
{
    let mut line = TextSink::new();
    if put_reloaded(&mut line, before, config) {
        Some(line.into_text())
    } else {
        None
    }
}

/// The line of an outcome.
#[tactic(auto, using(crate::proofs::Reloading::text_or_front))]
fn line_of(outcome: Outcome) -> ReloadText
    ensures { IsTextOrFront (outcome_text outcome) result.items }
{
    let mut line = TextSink::new();
    let _is_put = put_outcome(&mut line, outcome);
    line.into_text()
}

/// The N of a daemon of this configuration: there is a knock at each N-th start of a period. The key has no higher
/// number.
pub fn rejoin_of(config: &Config) -> u16
    ensures { result ≡ rejoin_of config.now }
{
    u16::try_from(config.rejoin).unwrap_or(u16::MAX)
}

/// Whether a file lies at a path, or where a link there leads.
fn is_file<R: Files>(rt: &R, path: &str) -> bool {
    match fs::metadata(rt, path) {
        Ok(metadata) => metadata.is_file(),
        Err(_) => false,
    }
}
