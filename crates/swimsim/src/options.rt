//! The words of the command line.

ghost use Rattle.std.specs.Prelude.{◌≡◌, ◌↔◌, ◌<◌, ◌-◌, ◌^◌, ℕ, [], None, Some, IfOk, IsTrue, codes, false, map};
ghost use Rattle.std.specs.Prelude.{option_map};
ghost use Rattle.std.specs.Option.{unwrap_or};
ghost use Rattle.clap.specs.Words.{FailsBy, app_of, fault_of, rule_of};
ghost use Rattle.swimsim.specs.Options.{TellsFlag, command_line, flag_in, flag_rule, script_in, script_rule, value_in};
ghost use Rattle.swimsim.specs.Options.{AsksForRun, AsksForScript, IsMixed, IsTwofold, IsUnplaced, IsUntraced};
ghost use Rattle.swimsim.specs.Options.{TellsNumber, number_rule};
ghost use Rattle.swimsim.specs.Options.{value_rule, values_in, values_rule, view_of};

use clap::builder::ValueParser;
use clap::{Arg, ArgAction, Command, Error};
use std::alloc::{AllocError, Global};
use std::convert::AsStr;
use swim_timeline::View;
use swim_wire::Id;

/// What the words of the command line ask for.
#[derive(Drop)]
pub struct Options<'a> {
    /// The path of the script; `None`, and `-`, for standard input.
    pub script: Option<&'a str>,
    /// Whether datagrams are put into words.
    pub decode: bool,
    /// Whether faults, numbers and the whole run are explained.
    pub explain: bool,
    /// Whether the number of each entry is written above its answer.
    pub numbers: bool,
    /// The path of a picture of the run, or of a probe that is traced; `None` where none is wanted.
    pub timeline: Option<&'a str>,
    /// The period with which the picture begins; `None` where no period is named.
    pub from: Option<u64>,
    /// The member round whose judgement the picture lies; `None` where none is named.
    pub around: Option<Id>,
    /// Whether the picture is written over whatever stands there.
    pub force: bool,
    /// The paths of journal files that are verified; none where a script is played.
    pub verify: Vec<&'a str>,
    /// The paths of journal files in which datagrams are looked for; none where a script is played.
    pub trace: Vec<&'a str>,
    /// Whose judgements are traced; `None` for those of all members.
    pub judged: Option<Id>,
    /// In which period they were made, or the one round which the picture lies; `None` for all periods, or the last.
    pub period: Option<u64>,
    /// Whether what is verified or traced is told as JSON.
    pub json: bool,
}

impl<'a> Options<'a> {
    /// Whether files are to be verified or traced, and something else is asked beside that.
    pub fn is_mixed(&self) -> bool
        ensures { IsTrue result ↔ IsMixed self.now }
    {
        (!self.verify.is_empty() && (!self.trace.is_empty() || self.asks_for_script()))
            || (!self.trace.is_empty() && self.asks_for_run())
    }

    /// Whether something is asked that has to do with a script and its picture.
    fn asks_for_script(&self) -> bool
        ensures { IsTrue result ↔ AsksForScript self.now }
    {
        self.script.is_some()
            || self.decode
            || self.explain
            || self.numbers
            || self.timeline.is_some()
            || self.from.is_some()
            || self.around.is_some()
            || self.force
    }

    /// Whether something is asked that has to do with a script, and with no probe that is traced.
    fn asks_for_run(&self) -> bool
        ensures { IsTrue result ↔ AsksForRun self.now }
    {
        self.script.is_some()
            || self.decode
            || self.explain
            || self.numbers
            || self.from.is_some()
            || self.around.is_some()
            || (self.force && self.timeline.is_none())
    }

    /// Whether some judgements are named that are to be traced, and no files; or a period, which may also be that of the
    /// picture; or JSON, which files that are verified have too.
    pub fn is_untraced(&self) -> bool
        ensures { IsTrue result ↔ IsUntraced self.now }
    {
        self.trace.is_empty()
            && (self.judged.is_some()
                || (self.period.is_some() && self.around.is_none())
                || (self.json && self.verify.is_empty()))
    }

    /// Whether a part of a picture is asked for, and no picture.
    pub fn is_unplaced(&self) -> bool
        ensures { IsTrue result ↔ IsUnplaced self.now }
    {
        (self.from.is_some() || self.around.is_some()) && self.timeline.is_none()
    }

    /// Whether two parts of a picture are asked for.
    pub fn is_twofold(&self) -> bool
        ensures { IsTrue result ↔ IsTwofold self.now }
    {
        self.from.is_some() && self.around.is_some()
    }

    /// Which periods the picture shows.
    pub fn view(&self) -> View
        ensures { result ≡ view_of self.now.from self.now.around self.now.period }
    {
        match (self.from, self.around, self.period) {
            (Some(number), _, _) => View::From(number),
            (None, Some(member), Some(number)) => View::At(member, number),
            (None, Some(member), None) => View::Around(member),
            (None, None, _) => View::Start,
        }
    }
}

/// Reads the words of the command line, of which the first is the program's name. Where they ask for help or the
/// version, or are refused, the error's text is the answer.
pub fn read_options<'a, S: AsStr>(alloc: Global, words: &'a [S]) -> Result<Options<'a>, Error>
    ensures told { IfOk result (λ options. option_map (λ path. path.now) options.script
        ≡ script_in (map S.text words.entry.now)) }
    ensures decode { IfOk result (λ options. TellsFlag options.decode
        (flag_in (codes "decode") (map S.text words.entry.now))) }
    ensures explain { IfOk result (λ options. TellsFlag options.explain
        (flag_in (codes "explain") (map S.text words.entry.now))) }
    ensures numbers { IfOk result (λ options. TellsFlag options.numbers
        (flag_in (codes "numbers") (map S.text words.entry.now))) }
    ensures timeline { IfOk result (λ options. option_map (λ path. path.now) options.timeline
        ≡ value_in (codes "timeline") (map S.text words.entry.now)) }
    ensures from { IfOk result (λ options. TellsNumber (2 ^ 64) options.from
        (flag_in (codes "from") (map S.text words.entry.now))) }
    ensures around { IfOk result (λ options. TellsNumber (2 ^ 32) options.around
        (flag_in (codes "around") (map S.text words.entry.now))) }
    ensures force { IfOk result (λ options. TellsFlag options.force
        (flag_in (codes "force") (map S.text words.entry.now))) }
    ensures verify { IfOk result (λ options. map (λ path. path.now) options.verify.items
        ≡ values_in (codes "verify") (map S.text words.entry.now)) }
    ensures trace { IfOk result (λ options. map (λ path. path.now) options.trace.items
        ≡ values_in (codes "trace") (map S.text words.entry.now)) }
    ensures judged { IfOk result (λ options. TellsNumber (2 ^ 32) options.judged
        (flag_in (codes "judged") (map S.text words.entry.now))) }
    ensures period { IfOk result (λ options. TellsNumber (2 ^ 64) options.period
        (flag_in (codes "period") (map S.text words.entry.now))) }
    ensures json { IfOk result (λ options. TellsFlag options.json
        (flag_in (codes "json") (map S.text words.entry.now))) }
    ensures refused { FailsBy (fault_of command_line (map S.text words.entry.now)) result }
{
    let command = command_line(alloc)?;
    let matches = command.try_get_matches_from(words)?;
    let verify = copied(alloc, matches.get_strs("verify"))?;
    let trace = copied(alloc, matches.get_strs("trace"))?;
    Ok(Options {
        script: matches.get_str("FILE"),
        decode: matches.get_flag("decode"),
        explain: matches.get_flag("explain"),
        timeline: matches.get_str("timeline"),
        from: matches.get_one("from"),
        around: id_of(matches.get_one("around")),
        force: matches.get_flag("force"),
        verify,
        trace,
        judged: id_of(matches.get_one("judged")),
        period: matches.get_one("period"),
        json: matches.get_flag("json"),
        numbers: matches.get_flag("numbers"),
    })
}

/// The id of a number, if there is one that is not 0.
fn id_of(number: Option<u32>) -> Option<Id>
    ensures none { number ≡ None → result ≡ None }
    ensures some { (n : ℕ) → number ≡ Some n → 0 < n → result ≡ Some n }
{
    Id::new(number?)
}

/// The paths, of which there are none where the words give none.
fn copied<'a>(alloc: Global, paths: Option<&[&'a str]>) -> Result<Vec<&'a str>, AllocError>
    ensures { IfOk result (λ copy. copy.items ≡ unwrap_or (option_map (λ all. all.now) paths.entry) []) }
{
    match paths {
        Some(paths) => Vec::from_slice(alloc, paths),
        None => Ok(Vec::new(alloc)),
    }
}

/// What the program takes on its command line.
pub(crate) fn command_line<'a>(alloc: Global) -> Result<Command<'a>, AllocError>
    ensures { IfOk result (λ command. app_of command ≡ command_line) }
{
    Command::new(alloc, "swimsim")
        .version("1.0")
        .about("Replays a script of a SWIM failure detector")
        .arg(script(alloc))?
        .arg(flag(
            alloc,
            "decode",
            "Puts each datagram that is heard or sent into words",
        ))?
        .arg(flag(
            alloc,
            "explain",
            "Explains faults and numbers, and sums the run up on standard error",
        ))?
        .arg(timeline(alloc))?
        .arg(from(alloc))?
        .arg(around(alloc))?
        .arg(flag(
            alloc,
            "force",
            "Draws over a file that holds something else than a picture of swimsim",
        ))?
        .arg(verify(alloc))?
        .arg(trace(alloc))?
        .arg(judged(alloc))?
        .arg(period(alloc))?
        .arg(flag(
            alloc,
            "json",
            "Writes what is verified or traced as JSON, an object a line",
        ))?
        .arg(numbers(alloc))
}

/// The one word that is no option.
fn script<'a>(alloc: Global) -> Arg<'a>
    ensures rule { rule_of result ≡ script_rule }
    ensures local { result.global ≡ false }
{
    Arg::new(alloc, "FILE").help("The script; - for standard input, as where none is named")
}

/// An option that takes no value.
fn flag<'a>(alloc: Global, name: &'a str, help: &'a str) -> Arg<'a>
    ensures rule { rule_of result ≡ flag_rule name.entry.now }
    ensures local { result.global ≡ false }
{
    Arg::new(alloc, name)
        .long(name)
        .action(ArgAction::SetTrue)
        .help(help)
}

/// Whether entries are numbered.
fn numbers<'a>(alloc: Global) -> Arg<'a>
    ensures rule { rule_of result ≡ flag_rule (codes "numbers") }
    ensures local { result.global ≡ false }
{
    flag(
        alloc,
        "numbers",
        "Writes the number of each entry, as --verify names it, above its answer",
    )
}

/// Where the picture goes.
fn timeline<'a>(alloc: Global) -> Arg<'a>
    ensures rule { rule_of result ≡ value_rule (codes "timeline") }
    ensures local { result.global ≡ false }
{
    Arg::new(alloc, "timeline")
        .long("timeline")
        .value_name("FILE")
        .help("Draws the run into FILE, as SVG; beside --trace a probe")
}

/// The journal files that are verified.
fn verify<'a>(alloc: Global) -> Arg<'a>
    ensures rule { rule_of result ≡ values_rule (codes "verify") }
    ensures local { result.global ≡ false }
{
    Arg::new(alloc, "verify")
        .long("verify")
        .value_name("FILE")
        .num_args(1..)
        .help(
            "Verifies journal files, lives of a daemon in their order, and tells the evidence of judgements",
        )
}

/// The journal files in which datagrams are looked for.
fn trace<'a>(alloc: Global) -> Arg<'a>
    ensures rule { rule_of result ≡ values_rule (codes "trace") }
    ensures local { result.global ≡ false }
{
    Arg::new(alloc, "trace")
        .long("trace")
        .value_name("FILE")
        .num_args(1..)
        .help(
            "Tells what became of the datagrams of judged probes, by journal files of several members",
        )
}

/// An option that takes a number from 1 up to that.
fn number<'a>(alloc: Global, name: &'a str, value: &'a str, most: u64, help: &'a str) -> Arg<'a>
    ensures rule { rule_of result ≡ number_rule name.entry.now most }
    ensures local { result.global ≡ false }
{
    Arg::new(alloc, name)
        .long(name)
        .value_name(value)
        .value_parser(ValueParser::Unsigned(1, most))
        .help(help)
}

/// With which period the picture begins.
fn from<'a>(alloc: Global) -> Arg<'a>
    ensures rule { rule_of result ≡ number_rule (codes "from") (2 ^ 64 - 1) }
    ensures local { result.global ≡ false }
{
    let most = u64::MAX;
    let help = "Begins the picture with period P";
    number(alloc, "from", "P", most, help)
}

/// Round whose judgement the picture lies.
fn around<'a>(alloc: Global) -> Arg<'a>
    ensures rule { rule_of result ≡ number_rule (codes "around") (2 ^ 32 - 1) }
    ensures local { result.global ≡ false }
{
    let most = u64::from(u32::MAX);
    let help =
        "Draws the period at whose end member ID was judged last, five before it and five behind it";
    number(alloc, "around", "ID", most, help)
}

/// Whose judgements are traced.
fn judged<'a>(alloc: Global) -> Arg<'a>
    ensures rule { rule_of result ≡ number_rule (codes "judged") (2 ^ 32 - 1) }
    ensures local { result.global ≡ false }
{
    let most = u64::from(u32::MAX);
    let help = "Traces the judgements of member ID alone";
    number(alloc, "judged", "ID", most, help)
}

/// In which period they were made.
fn period<'a>(alloc: Global) -> Arg<'a>
    ensures rule { rule_of result ≡ number_rule (codes "period") (2 ^ 64 - 1) }
    ensures local { result.global ≡ false }
{
    let most = u64::MAX;
    let help = "Traces the judgements of period P alone; beside --around draws that of period P";
    number(alloc, "period", "P", most, help)
}
