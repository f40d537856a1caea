//! Journal files of a daemon, one after the other: whether each stands behind the one before.

ghost use Rattle.std.specs.Prelude.{◌≡◌, ◌≢◌, ◌↔◌, ◌∷◌, [], List, None, false, true};
ghost use Rattle.swim_evidence.specs.Sequences.{AreGood, FollowsIf, IsSequence, IsUntold, IsWorst, StandsBehind};
ghost use Rattle.swim_evidence.specs.Sequences.{begins_anew, is_comparable, is_told, standing_of, worse};

use crate::following::{Break, Draw, Heading, first_break};
use crate::verdicts::Standing;
use swim_history::Opening;

/// How far a file tells its header.
#[derive(Clone, Copy, Debug, PartialEq, Eq)]
pub enum HeaderEnd {
    /// To its end: a call stands behind it, or it tells a seed.
    Told,
    /// Neither does, and the file ends with a whole line.
    Open,
    /// Neither does, and the file ends in the midst of a line.
    Cut,
}

/// The header of a file.
#[derive(Debug, Drop)]
pub struct Header {
    /// With what its life began.
    pub opening: Opening,
    /// What stands beside that.
    pub heading: Heading,
    pub end: HeaderEnd,
}

/// What a life leaves to the next.
#[derive(Debug, Drop)]
pub struct Left {
    /// With what the next one begins.
    pub opening: Opening,
    /// What stood beside its own opening.
    pub heading: Heading,
}

/// What was seen of a file.
#[derive(Debug, Drop)]
pub struct Seen {
    /// Whether something speaks against the file itself.
    pub standing: Standing,
    /// `None` where no line tells its opening, or that is refused.
    pub header: Option<Header>,
    /// `None` where the file isn't whole.
    pub left: Option<Left>,
}

impl Seen {
    /// A file of which nothing is known but whether something speaks against it.
    pub fn unread(standing: Standing) -> Seen
        ensures { result ≡ record { standing = standing; header = None; left = None } }
    {
        Seen {
            standing,
            header: None,
            left: None,
        }
    }
}

/// How a file stands to the one before it.
#[derive(Clone, Copy, Debug, PartialEq, Eq)]
pub enum Link {
    /// There is none.
    First,
    /// It begins a new start of its daemon.
    NewStart,
    /// It goes on from what that one left, as far as its header is told.
    Follows,
    /// It doesn't.
    Breaks(Break),
    /// What that one left isn't known, as it isn't whole.
    Unknown,
    /// The same, as memory for that one was refused.
    Untold,
}

impl Link {
    /// Whether something speaks against the file's place.
    fn standing(self) -> Standing
        ensures { result ≡ standing_of self }
    {
        match self {
            Link::First | Link::NewStart | Link::Follows => Standing::Sound,
            Link::Breaks(_) | Link::Unknown => Standing::Accused,
            Link::Untold => Standing::Starved,
        }
    }
}

/// Files that were seen one after the other: the last of them, and whether something speaks against any of them or its
/// place.
#[derive(Debug, Drop)]
pub struct Sequence {
    pub(crate) before: Option<Seen>,
    pub(crate) standing: Standing,
}

impl Sequence {
    /// No file was seen.
    pub fn new() -> Sequence
        ensures { IsSequence [] result }
    {
        Sequence {
            before: None,
            standing: Standing::Sound,
        }
    }

    /// This is the next file. It is answered how it stands to the one before it.
    pub fn add(&mut self, now: Seen) -> Link
        ensures link { (standing_of result ≡ Standing.Sound) ↔ StandsBehind self.old.before now }

        // Only where memory was refused for that one, nothing is said against this one's place, though it is unknown.
        ensures untold { (standing_of result ≡ Standing.Starved) ↔ IsUntold self.old.before now }
        ensures standing { self.new.standing ≡ worse (worse self.old.standing now.standing) (standing_of result) }
        ensures seen { (seen : List Seen) → IsSequence seen self.old → IsSequence (now ∷ seen) self.new }
    {
        let link = link_of(&self.before, &now);
        self.standing = self.standing.worse(now.standing).worse(link.standing());
        self.before = Some(now);
        link
    }

    /// Whether something speaks against one of them: the worst of what is found of them and of their places.
    pub fn standing(&self) -> Standing
        ensures value { result ≡ self.now.standing }
        ensures good { (seen : List Seen) → IsSequence seen self.now → (result ≡ Standing.Sound) ↔ AreGood seen }
        ensures worst { (seen : List Seen) → IsSequence seen self.now → IsWorst seen result }
    {
        self.standing
    }
}

impl Standing {
    /// The worse of two: what speaks against one counts more than want of memory.
    pub fn worse(self, other: Standing) -> Standing
        ensures { result ≡ worse self other }
    {
        match (self, other) {
            (Standing::Accused, _) | (_, Standing::Accused) => Standing::Accused,
            (Standing::Starved, _) | (_, Standing::Starved) => Standing::Starved,
            (Standing::Sound, Standing::Sound) => Standing::Sound,
        }
    }
}

/// How a file stands to the one before it, if there is one.
fn link_of(before: &Option<Seen>, now: &Seen) -> Link
    ensures stands { (standing_of result ≡ Standing.Sound) ↔ StandsBehind before.now now.now }
    ensures untold { (standing_of result ≡ Standing.Starved) ↔ IsUntold before.now now.now }
{
    let Some(before) = before else {
        return Link::First;
    };
    if begins_anew(&now.header) {
        return Link::NewStart;
    }
    match (&now.header, &before.left) {
        (None, _) => Link::Follows,
        (Some(header), Some(left)) => link_to(left, header),
        (Some(header), None) => link_to_unknown(before.standing, header.end),
    }
}

/// Whether a file tells that its life is the first of a start.
fn begins_anew(header: &Option<Header>) -> bool
    ensures { result ≡ begins_anew header.now }
{
    match header {
        Some(header) => match &header.heading.draw {
            Some(draw) => draw.life == 0,
            None => false,
        },
        None => false,
    }
}

/// How a file with this header stands to one that left this.
fn link_to(left: &Left, header: &Header) -> Link
    ensures stands { (standing_of result ≡ Standing.Sound)
        ↔ FollowsIf (is_comparable header.now.end left.now.heading.draw) left.now header.now }
    ensures told { standing_of result ≢ Standing.Starved }
{
    if !is_comparable(header.end, &left.heading.draw) {
        return Link::Follows;
    }
    match first_break(
        &left.opening,
        &left.heading,
        &header.opening,
        &header.heading,
    ) {
        Some(met) => Link::Breaks(met),
        None => Link::Follows,
    }
}

/// Whether a header of this end is compared with that of a file which told this draw.
fn is_comparable(end: HeaderEnd, before: &Option<Draw>) -> bool
    ensures { result ≡ is_comparable end before.now }
{
    match end {
        HeaderEnd::Told => true,
        HeaderEnd::Open => before.is_none(),
        HeaderEnd::Cut => false,
    }
}

/// How a file whose header ends so stands to one that is found to be so, and of which it isn't known what it left.
fn link_to_unknown(before: Standing, end: HeaderEnd) -> Link
    ensures stands { (standing_of result ≡ Standing.Sound) ↔ (is_told end ≡ false) }
    ensures untold { (standing_of result ≡ Standing.Starved) ↔ ((is_told end ≡ true) × (before ≡ Standing.Starved)) }
{
    match (end, before) {
        (HeaderEnd::Open | HeaderEnd::Cut, _) => Link::Follows,
        (HeaderEnd::Told, Standing::Starved) => Link::Untold,
        (HeaderEnd::Told, _) => Link::Unknown,
    }
}
