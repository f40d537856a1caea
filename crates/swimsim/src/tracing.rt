//! Journal files of several members, in which the datagrams of judged probes are looked for.

use crate::charting::{chosen, draw_probe};
use crate::files::play;
use crate::options::Options;
use crate::verifying::{object, status_of, tell_objection, tell_report, tell_unread};
use anyhow::Result;
use std::alloc::AllocError;
use std::io::ErrorKind;
use std::mem::replace;
use std::process::ExitCode;
use swim_evidence::{Evidence, Standing};
use swim_trace::{ActIndex, Case, Conclusion, ProbeName, Way, conclusion_on, ways_of};
use swim_verdicts::{
    Account, Choice, Clock, Extent, JsonFile, JsonTrace, Played, Rhythms, TraceReport, index_of,
};
use swim_wire::Id;

/// Plays the files that the options name, tells what each comes to, and what became of the datagrams of each probe
/// after which somebody was judged. One of these probes is drawn, if that is asked. The status is 0 where nothing
/// speaks against any file, and the picture was made that was asked for; 4 where that isn't known, or what became of
/// them, as memory was refused; else 1.
pub fn trace_files(rt: &HostRuntime, options: &Options<'_>) -> Result<ExitCode> {
    let choice = Choice {
        judged: options.judged,
        period: options.period,
    };
    let mut standing = Standing::Sound;
    let mut accounts = Vec::new(rt.alloc());
    for path in options.trace.as_slice() {
        let (seen, account) = account_of(rt, *path, options.json)?;
        standing = standing.worse(seen);
        if let Some(account) = account {
            standing = standing.worse(add(rt, &mut accounts, account));
        }
    }
    tell_missing_lives(rt, accounts.as_slice());
    standing = standing.worse(tell_all(rt, accounts.as_slice(), &choice, options)?);
    Ok(ExitCode::from(status_of(standing)))
}

/// Plays a file, and tells what it comes to.
fn account_of<'p>(
    rt: &HostRuntime,
    path: &'p str,
    is_json: bool,
) -> Result<(Standing, Option<Account<'p>>)> {
    match play(rt, path) {
        Ok(played) => tell_account(rt, path, played, is_json),
        Err(error) => {
            tell_unread(rt, path, &error);
            if error.kind() == ErrorKind::OutOfMemory {
                Ok((Standing::Starved, None))
            } else {
                Ok((Standing::Accused, None))
            }
        }
    }
}

/// Tells what a file comes to that was played.
fn tell_account<'p>(
    rt: &HostRuntime,
    path: &'p str,
    played: Played,
    is_json: bool,
) -> Result<(Standing, Option<Account<'p>>)> {
    let standing = played.verdict().standing();
    if !is_json {
        tell_report(rt, path, &played, Extent::Counts)?;
    }
    tell_objection(rt, path, &played);
    let account = Account::of(path, played);
    if let (true, Some(account)) = (is_json, &account) {
        let file = JsonFile { account, standing };
        print!(rt; "{file}")?;
    }
    Ok((standing, account))
}

/// Adds a file to those that are traced. Of two files of one life the longer stays.
fn add<'p>(rt: &HostRuntime, accounts: &mut Vec<Account<'p>>, account: Account<'p>) -> Standing {
    let place = place_of_same_life(accounts.as_slice(), &account);
    if place < accounts.len() {
        keep_longer(rt, accounts.as_mut_slice(), place, account);
        return Standing::Sound;
    }
    match accounts.push(account) {
        Ok(()) => Standing::Sound,
        Err(_) => starved(rt),
    }
}

/// Where a file of the same life stands among these; behind all of them where there is none.
fn place_of_same_life(accounts: &[Account<'_>], account: &Account<'_>) -> usize {
    let mut place = 0usize;
    for other in accounts {
        if account.is_same_life(other) {
            return place;
        }
        place = place.saturating_add(1);
    }
    place
}

/// Keeps the longer of two files, of which one stands at that place, and tells that the other is left out.
fn keep_longer<'p>(
    rt: &HostRuntime,
    accounts: &mut [Account<'p>],
    place: usize,
    account: Account<'p>,
) {
    let Some(kept) = accounts.get_mut(place) else {
        return;
    };
    let left_out = if account.confirmed() > kept.confirmed() {
        replace(kept, account)
    } else {
        account
    };
    let path = kept.path;
    object(
        rt,
        left_out.path,
        format_args!("left out, as {path} has the same life"),
    );
}

/// Tells which lives are missing between others of one start.
fn tell_missing_lives(rt: &HostRuntime, accounts: &[Account<'_>]) {
    for account in accounts {
        if let Some(life) = account.missing_life(accounts) {
            let id = account.member.get();
            object(
                rt,
                account.path,
                format_args!("life {life} of member {id}, before it, was not given"),
            );
        }
    }
}

/// Tells of each of these judgements what became of its probe, and then draws one, if that is asked.
fn tell_all<'r>(
    rt: &'r HostRuntime,
    accounts: &'r [Account<'_>],
    choice: &Choice,
    options: &Options<'_>,
) -> Result<Standing> {
    let Ok(index) = index_of(rt.alloc(), accounts, choice) else {
        return Ok(starved(rt));
    };
    let Ok(rhythms) = Rhythms::of(rt.alloc(), accounts) else {
        return Ok(starved(rt));
    };
    let teller = Teller {
        rt,
        accounts,
        index: &index,
        rhythms: &rhythms,
        is_json: options.json,
    };
    let mut standing = Standing::Sound;
    let mut file = 0u32;
    for account in accounts {
        standing = standing.worse(teller.tell_file(account, file, choice)?);
        file = file.saturating_add(1);
    }
    Ok(match options.timeline {
        Some(path) => standing.worse(teller.draw_at(path, options.force, choice)),
        None => standing,
    })
}

/// Tells that memory didn't suffice.
fn starved(rt: &HostRuntime) -> Standing {
    let _ = eprintln!(rt; "swimsim: no memory to trace");
    Standing::Starved
}

/// Who tells of judgements what became of their probes.
#[derive(Clone, Copy)]
struct Teller<'r, 'p> {
    rt: &'r HostRuntime,
    accounts: &'r [Account<'p>],
    index: &'r ActIndex,
    rhythms: &'r Rhythms,
    is_json: bool,
}

impl<'r, 'p> Teller<'r, 'p> {
    /// Tells of the judgements of a file.
    fn tell_file(&self, account: &Account<'_>, file: u32, choice: &Choice) -> Result<Standing> {
        let Ok(told) = self
            .rhythms
            .members_beside(self.rt.alloc(), self.accounts, file, account)
        else {
            return Ok(starved(self.rt));
        };
        let mut is_first = true;
        for finding in account.findings() {
            if let Some(evidence) = choice.judgement(finding) {
                if is_first {
                    self.tell_left_out(file, account);
                    is_first = false;
                }
                if self.tell(account, file, told.as_slice(), evidence)? == Standing::Starved {
                    return Ok(Standing::Starved);
                }
            }
        }
        Ok(Standing::Sound)
    }

    /// Tells which files have nothing to do with that one.
    fn tell_left_out(&self, file: u32, account: &Account<'_>) {
        let id = account.member.get();
        let path = account.path;
        let mut other_file = 0u32;
        for other in self.accounts {
            let is_beside = other.member == account.member
                || self.rhythms.have_met(file, account, other_file, other);
            if !is_beside {
                let other_id = other.member.get();
                object(
                    self.rt,
                    other.path,
                    format_args!(
                        "left out of {path}: no ping went between {id} and {other_id} there"
                    ),
                );
            }
            other_file = other_file.saturating_add(1);
        }
    }

    /// Tells of a judgement that stands in that file, which is the initiator's.
    fn tell<'e>(
        &'e self,
        account: &Account<'_>,
        file: u32,
        told: &'e [Id],
        evidence: &'e Evidence,
    ) -> Result<Standing> {
        let case = self.case_of(account.member, told, evidence);
        let Ok((ways, conclusion)) = self.solve(&case) else {
            return Ok(starved(self.rt));
        };
        let clock = self.clock(account, &case.probe);
        let trace = TraceReport {
            accounts: self.accounts,
            file,
            evidence,
            case,
            ways: ways.as_slice(),
            conclusion,
            clock,
        };
        if self.is_json {
            let object = JsonTrace(&trace);
            print!(self.rt; "{object}")?;
        } else {
            print!(self.rt; "{trace}")?;
        }
        Ok(Standing::Sound)
    }

    /// What became of the datagrams of a probe, and what is concluded.
    fn solve(&self, case: &Case<'_>) -> Result<(Vec<Way>, Conclusion), AllocError> {
        let ways = ways_of(self.rt.alloc(), case)?;
        let conclusion = conclusion_on(case, ways.as_slice());
        Ok((ways, conclusion))
    }

    /// Draws one of these judgements into the file of that path. Where the picture can't be made, the error names the
    /// file.
    fn draw_at(&self, path: &str, is_forced: bool, choice: &Choice) -> Standing {
        match self.draw(path, is_forced, choice) {
            Ok(()) => Standing::Sound,
            Err(error) => {
                object(self.rt, path, format_args!("{error}"));
                Standing::Accused
            }
        }
    }

    fn draw(&self, path: &str, is_forced: bool, choice: &Choice) -> Result<()> {
        let (file, account, evidence) = chosen(self.accounts, choice)?;
        let alloc = self.rt.alloc();
        let told = self
            .rhythms
            .members_beside(alloc, self.accounts, file, account)?;
        let case = self.case_of(account.member, told.as_slice(), evidence);
        let (ways, conclusion) = self.solve(&case)?;
        let clock = self.clock(account, &case.probe);
        let trace = TraceReport {
            accounts: self.accounts,
            file,
            evidence,
            case,
            ways: ways.as_slice(),
            conclusion,
            clock,
        };
        draw_probe(self.rt, path, is_forced, &trace)
    }

    /// What is known of the probe that a judgement of that member rests on.
    fn case_of<'e>(&'e self, initiator: Id, told: &'e [Id], evidence: &'e Evidence) -> Case<'e> {
        let relays = match &evidence.ask {
            Some(ask) => ask.relays.as_slice(),
            None => &[],
        };
        Case {
            probe: ProbeName {
                initiator,
                target: evidence.member,
                number: evidence.number,
            },
            relays,
            acts: self.index.acts_of(evidence.number),
            told,
        }
    }

    fn clock(&self, account: &Account<'_>, probe: &ProbeName) -> Option<Clock> {
        let opening = account.played.journal.as_ref()?.opening();
        self.rhythms.clock(self.accounts, opening, probe)
    }
}
