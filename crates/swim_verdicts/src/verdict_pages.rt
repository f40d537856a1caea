//! The page about a verdict, as HTML that needs nothing else.

ghost use Rattle.std.specs.Prelude.{◌≡◌, IfOk, string_bytes};
ghost use Rattle.swim_verdicts.specs.ShellWords.{shell_word};
ghost use Rattle.swim_verdicts.specs.VerdictPages.{IsStanding, IsVerdictPage, html_text, page_text, rest_text};
ghost use Rattle.swim_verdicts.specs.VerdictPages.{standing_text};

use crate::examining::Played;
use crate::html::put_html;
use crate::page_frame::PAGE_STYLE;
use crate::piece_texts::text_of;
use crate::shell_words::put_shell_word;
use crate::told_texts::{OfTicks, OfVerdict, picture_round, tell_time, tell_words};
use crate::verdict_lines::{End, Objection};
use crate::verdict_tables::table_of;
use std::alloc::{AllocError, Global};
use std::fmt;
use std::marker::Model;
use swim_evidence::{Evidence, Verdict};
use swim_script::ScriptFault;
use swim_text::Page as Text;
use swim_trail::Trail;
use swim_wire::{Id, Piece};

/// A verdict, and the file that tells it.
#[derive(Clone, Copy)]
pub struct VerdictPage<'a> {
    /// The path of the file.
    pub path: &'a str,
    pub played: &'a Played,
    pub evidence: &'a Evidence,
}

/// A page that was written. A contract sees its text, and what its words, its time and its picture were written of.
#[derive(Drop)]
pub struct WrittenPage {
    text: Text,
    words: Trail<OfVerdict>,
    times: Trail<OfVerdict>,
    pictures: Trail<OfTicks>,
}

impl Model for WrittenPage {
    ghost use Rattle.std.specs.Coded.{codes};
    ghost use Rattle.swim_verdicts.specs.contracts.examining.Played as file;
    ghost use Rattle.swim_verdicts.specs.ToldTexts.{Sheet};

    ghost Value = { Sheet };

    ghost coded = { Prim.hlevel (codes, file.the_row.coded) };

    ghost view = { λ p. record {
      text = p.text.text;
      words = p.words.items;
      times = p.times.items;
      pictures = p.pictures.items;
    } };
}

impl WrittenPage {
    /// Returns its bytes.
    pub fn text(&self) -> &[u8]
        ensures { result.now ≡ self.now.text }
    {
        self.text.text()
    }
}

impl<'a> VerdictPage<'a> {
    /// Writes the page: the evidence in words and as a table, whether the file is verified, the picture round the
    /// verdict, and the commands that show the same. Fails if memory is refused.
    pub fn write(&self, alloc: Global) -> Result<WrittenPage, AllocError>
        ensures { IfOk result (λ page. IsVerdictPage self.now.path.now self.now.played.now self.now.evidence.now page) }
    {
        let evidence = self.evidence;
        let path = shown(alloc, self.path.as_bytes())?;
        let word = shown_word(alloc, self.path.as_bytes())?;
        let standing = standing_of(alloc, self.played)?;
        let (words, told) = tell_words(alloc, self.played, evidence)?;
        let (time, timed) = tell_time(alloc, self.played, evidence)?;
        let table = table_of(alloc, evidence, time.as_str())?;
        let (picture, drawn) = picture_round(alloc, self.played, evidence)?;
        let rest = rest_of(
            alloc,
            evidence,
            word.text(),
            words.as_str().as_bytes(),
            table.text(),
            picture.text(),
        )?;
        let text = page_of(
            alloc,
            evidence.member,
            evidence.number,
            path.text(),
            standing.as_str().as_bytes(),
            rest.text(),
        )?;
        Ok(WrittenPage {
            text,
            words: told,
            times: timed,
            pictures: drawn,
        })
    }
}

/// Says whether a file is verified, and if it isn't, what speaks against it and where.
#[derive(Clone, Copy)]
struct Standing {
    verdict: Verdict<ScriptFault>,
    confirmed: u32,
}

impl fmt::Display for Standing {
    ghost use Rattle.std.specs.Prelude.{Some};
    ghost use Rattle.swim_verdicts.specs.VerdictPages.{standing_text};

    ghost output = { λ s. Some (standing_text s.verdict s.confirmed) };

    fn fmt<W: fmt::Write>(&self, f: &mut fmt::Formatter<W>) -> fmt::Result {
        let verdict = self.verdict;
        let confirmed = self.confirmed;
        match verdict {
            Verdict::Whole => f.write_str("<p>The file is verified, and whole.</p>\n"),
            Verdict::Cut => {
                let place = End(confirmed);
                write!(
                    f,
                    "<p>The file is verified as far as it goes: cut {place}.</p>\n"
                )
            }
            _ => {
                let objection = Objection { verdict, confirmed };
                write!(
                    f,
                    "<p class=\"alarm\" role=\"alert\">This file is not verified: {objection}.</p>\n"
                )
            }
        }
    }
}

/// Says whether a file that was played is verified.
fn standing_of(alloc: Global, played: &Played) -> Result<String, AllocError>
    ensures { IfOk result (λ text. IsStanding played.now (string_bytes text)) }
{
    let standing = Standing {
        verdict: played.verdict(),
        confirmed: played.witness.confirmations.confirmed,
    };
    format!(in alloc; "{standing}")
}

/// A text as HTML shows it.
fn shown(alloc: Global, text: &[u8]) -> Result<Text, AllocError>
    ensures { IfOk result (λ shown. shown.text ≡ html_text text.now) }
{
    let mut shown = Text::new(alloc);
    if put_html(&mut shown, text) {
        Ok(shown)
    } else {
        Err(AllocError)
    }
}

/// A path as HTML shows it in a shell's command.
fn shown_word(alloc: Global, path: &[u8]) -> Result<Text, AllocError>
    ensures { IfOk result (λ shown. shown.text ≡ html_text (shell_word path.now)) }
{
    let mut word = Text::new(alloc);
    if put_shell_word(&mut word, path) {
        shown(alloc, word.text())
    } else {
        Err(AllocError)
    }
}

/// Returns a page of these parts.
fn page_of<'x>(
    alloc: Global,
    member: Id,
    number: u64,
    path: &'x [u8],
    standing: &'x [u8],
    rest: &'x [u8],
) -> Result<Text, AllocError>
    ensures { IfOk result (λ page. page.text ≡ page_text member number path.now standing.now rest.now) }
{
    let member = u64::from(member.get());
    let pieces = [
        Piece::Text(b"<!doctype html>\n<html lang=\"en\">\n<head>\n<title>Member "),
        Piece::Number(member),
        Piece::Text(b", period "),
        Piece::Number(number),
        Piece::Text(b"</title>\n"),
        Piece::Text(PAGE_STYLE),
        Piece::Text(b"<h1>Member "),
        Piece::Number(member),
        Piece::Text(b" was judged failed in period "),
        Piece::Number(number),
        Piece::Text(b"</h1>\n<p>By the file <code>"),
        Piece::Text(path),
        Piece::Text(b"</code>.</p>\n"),
        Piece::Text(standing),
        Piece::Text(rest),
        Piece::Text(b"</main>\n</body>\n</html>\n"),
    ];
    text_of(alloc, &pieces)
}

/// Returns what follows the head of a page.
fn rest_of<'x>(
    alloc: Global,
    evidence: &Evidence,
    word: &'x [u8],
    words: &'x [u8],
    table: &'x [u8],
    picture: &'x [u8],
) -> Result<Text, AllocError>
    ensures { IfOk result (λ rest. rest.text
        ≡ rest_text evidence.now.member evidence.now.number word.now words.now table.now picture.now) }
{
    let pieces = [
        Piece::Text(b"<h2>Evidence</h2>\n<pre>"),
        Piece::Text(words),
        Piece::Text(b"</pre>\n<table>\n"),
        Piece::Text(table),
        Piece::Text(b"</table>\n<h2>The periods round it</h2>\n"),
        Piece::Text(
            b"<div class=\"wide\" role=\"region\" aria-label=\"The periods round it\" tabindex=\"0\">\n",
        ),
        Piece::Text(picture),
        Piece::Text(b"</div>\n<h2>By hand</h2>\n<pre>swimsim --verify "),
        Piece::Text(word),
        Piece::Text(b"\nswimsim --timeline run.svg --around "),
        Piece::Number(u64::from(evidence.member.get())),
        Piece::Text(b" --period "),
        Piece::Number(evidence.number),
        Piece::Text(b" "),
        Piece::Text(word),
        Piece::Text(b"\n</pre>\n"),
    ];
    text_of(alloc, &pieces)
}
