//! The keys of a configuration, as one table. Reading, faults, the texts of what was expected and the numbers of the
//! summary follow from it.

ghost use Rattle.std.specs.Prelude.{◌≡◌, false, None};
ghost use Rattle.swim_config.specs.Keys.{about_of, begins_line, default_of, entry_of, form_of, key_text, name_of};

/// A key of a configuration, or of one of its members.
#[derive(Clone, Copy, Debug, PartialEq, Eq)]
pub enum ConfigKey {
    /// This member.
    Id,
    /// Where its datagrams come in.
    Listen,
    /// The path of its control socket.
    Control,
    /// The path of the socket where events are told.
    Events,
    /// The path of the file where metrics are told.
    Metrics,
    /// Who may use the control socket.
    ControlMode,
    /// Who may use the events' socket.
    EventsMode,
    /// How many relays are asked.
    K,
    /// For how many ticks a direct ack is waited for.
    Rtt,
    /// How many ticks a period has.
    Period,
    /// How many milliseconds a tick has.
    TickMs,
    /// What is drawn from.
    Seed,
    /// How many entries the journal may have.
    Journal,
    /// The last period number that was used before.
    Last,
    /// The version of its own pings and ping-reqs.
    Wire,
    /// The keys of the group, by which datagrams are signed.
    Keys,
    /// How many datagrams a second of an address are handed on, and a burst of as many.
    Fence,
    /// The N of knocks: there is a knock at each N-th start of a period.
    Rejoin,
    /// The folder of the journal files.
    JournalDir,
    /// How many journal files stay.
    JournalKeep,
    /// Whether times in journal files have milliseconds.
    JournalMs,
    /// The other members.
    Member,
    /// Another member's id.
    MemberId,
    /// Another member's address.
    MemberAt,
}

/// What the value of a key has to be.
#[derive(Clone, Copy, Debug, PartialEq, Eq)]
pub enum ValueForm {
    /// An integer from the first number to the second.
    Number(u64, u64),
    /// A string that is an address.
    Peer,
    /// A string that is a path.
    Path,
    /// A string that is the mode of a socket.
    Mode,
    /// A string that is a seed.
    Seed,
    /// An array of 1 to 4 strings, each a key of the group.
    Keys,
    /// An array of tables, each a member.
    Members,
}

/// What the table of keys says of one.
#[derive(Clone, Copy)]
struct KeyEntry {
    /// Its name in the table where it stands.
    name: &'static str,
    /// What its value has to be.
    form: ValueForm,
    /// The number that it has where it is left out. `None`: a number has to be given.
    default: Option<u64>,
    /// What it is for.
    about: &'static str,
    /// Whether its number begins a line of the summary. The others go on with the line.
    begins_line: bool,
}

/// The keys of a configuration, in the order in which their faults are told.
pub const TOP_KEYS: [ConfigKey; 22] = [
    ConfigKey::Id,
    ConfigKey::Listen,
    ConfigKey::Control,
    ConfigKey::Events,
    ConfigKey::Metrics,
    ConfigKey::ControlMode,
    ConfigKey::EventsMode,
    ConfigKey::K,
    ConfigKey::Rtt,
    ConfigKey::Period,
    ConfigKey::TickMs,
    ConfigKey::Seed,
    ConfigKey::Journal,
    ConfigKey::Last,
    ConfigKey::Wire,
    ConfigKey::Keys,
    ConfigKey::Fence,
    ConfigKey::Rejoin,
    ConfigKey::JournalDir,
    ConfigKey::JournalKeep,
    ConfigKey::JournalMs,
    ConfigKey::Member,
];

/// The keys whose numbers a summary tells behind its first three lines, in this order.
pub const NUMBER_KEYS: [ConfigKey; 12] = [
    ConfigKey::K,
    ConfigKey::Rtt,
    ConfigKey::Period,
    ConfigKey::TickMs,
    ConfigKey::Last,
    ConfigKey::Journal,
    ConfigKey::Wire,
    ConfigKey::Keys,
    ConfigKey::Fence,
    ConfigKey::Rejoin,
    ConfigKey::JournalKeep,
    ConfigKey::JournalMs,
];

/// The keys of a member, in the order in which their faults are told.
pub const MEMBER_KEYS: [ConfigKey; 2] = [ConfigKey::MemberId, ConfigKey::MemberAt];

impl ConfigKey {
    /// What the table says of it.
    fn entry(self) -> KeyEntry
        ensures name { result.name.now ≡ (entry_of self).name }
        ensures form { result.form ≡ (entry_of self).form }
        ensures default { result.default ≡ (entry_of self).default }
        ensures about { result.about.now ≡ (entry_of self).about }
        ensures begins_line { result.begins_line ≡ (entry_of self).begins_line }
    {
        match self {
            ConfigKey::Id => required("id", ValueForm::Number(1, 4_294_967_295), "this member"),
            ConfigKey::Listen => required("listen", ValueForm::Peer, "where its datagrams come in"),
            ConfigKey::Control => required(
                "control",
                ValueForm::Path,
                "the path of the control socket",
            ),
            ConfigKey::Events => required(
                "events",
                ValueForm::Path,
                "the path of the events' socket, not that of control",
            ),
            ConfigKey::Metrics => required(
                "metrics",
                ValueForm::Path,
                "the path of the metrics' file, not that of a socket",
            ),
            ConfigKey::ControlMode => required(
                "control_mode",
                ValueForm::Mode,
                "the mode of the control socket",
            ),
            ConfigKey::EventsMode => required(
                "events_mode",
                ValueForm::Mode,
                "the mode of the events' socket",
            ),
            ConfigKey::K => KeyEntry {
                name: "k",
                form: ValueForm::Number(0, 4_294_967_295),
                default: None,
                about: "how many relays are asked, at most 8",
                begins_line: true,
            },
            ConfigKey::Rtt => required(
                "rtt",
                ValueForm::Number(0, 4_294_967_295),
                "ticks for which a direct ack is waited for, at least 1",
            ),
            ConfigKey::Period => required(
                "period",
                ValueForm::Number(0, 4_294_967_295),
                "ticks of a period, from three times rtt to 65535",
            ),
            ConfigKey::TickMs => required(
                "tick_ms",
                ValueForm::Number(1, 60_000),
                "milliseconds of a tick",
            ),
            ConfigKey::Seed => required(
                "seed",
                ValueForm::Seed,
                "what orders and places are drawn from",
            ),
            ConfigKey::Journal => required(
                "journal",
                ValueForm::Number(1, 1_000_000),
                "the most entries of the journal",
            ),
            ConfigKey::Last => KeyEntry {
                name: "last",
                form: ValueForm::Number(0, 9_223_372_036_854_775_807),
                default: Some(0),
                about: "the last period number that was used before",
                begins_line: false,
            },
            ConfigKey::Wire => KeyEntry {
                name: "wire",
                form: ValueForm::Number(1, 2),
                default: Some(1),
                about: "the version of its own pings and ping-reqs",
                begins_line: false,
            },
            ConfigKey::Keys => required(
                "keys",
                ValueForm::Keys,
                "the keys of the group, of which the first signs",
            ),
            ConfigKey::Fence => KeyEntry {
                name: "fence",
                form: ValueForm::Number(0, 4_294_967_295),
                default: Some(1_000),
                about: "datagrams a second of an address, 0 for all",
                begins_line: false,
            },
            ConfigKey::Rejoin => KeyEntry {
                name: "rejoin",
                form: ValueForm::Number(0, 65_535),
                default: Some(0),
                about: "periods between knocks at failed members, 0 for none",
                begins_line: false,
            },
            ConfigKey::JournalDir => required(
                "journal_dir",
                ValueForm::Path,
                "the folder of the journal files, not the path of another key",
            ),
            ConfigKey::JournalKeep => KeyEntry {
                name: "journal_keep",
                form: ValueForm::Number(0, 4_294_967_295),
                default: Some(16),
                about: "how many journal files stay, 0 for all",
                begins_line: true,
            },
            ConfigKey::JournalMs => KeyEntry {
                name: "journal_ms",
                form: ValueForm::Number(0, 1),
                default: Some(0),
                about: "times in journal files: 0 in seconds, 1 with milliseconds",
                begins_line: false,
            },
            ConfigKey::Member => required(
                "member",
                ValueForm::Members,
                "the other members, at most 128",
            ),
            ConfigKey::MemberId => required(
                "id",
                ValueForm::Number(1, 4_294_967_295),
                "another member",
            ),
            ConfigKey::MemberAt => required("at", ValueForm::Peer, "where another member listens"),
        }
    }

    /// Its name in the table where it stands.
    pub fn name(self) -> &'static str
        ensures { result.now ≡ name_of self }
    {
        self.entry().name
    }

    /// What its value has to be.
    pub fn form(self) -> ValueForm
        ensures { result ≡ form_of self }
    {
        self.entry().form
    }

    /// The number that it has where it is left out.
    pub fn default(self) -> Option<u64>
        ensures { result ≡ default_of self }
    {
        self.entry().default
    }

    /// What it is for.
    pub fn about(self) -> &'static str
        ensures { result.now ≡ about_of self }
    {
        self.entry().about
    }

    /// Whether its number begins a line of the summary.
    pub fn begins_line(self) -> bool
        ensures { result ≡ begins_line self }
    {
        self.entry().begins_line
    }

    /// Its name where a fault tells it.
    pub fn text(self) -> &'static str
        ensures { result.now ≡ key_text self }
    {
        match self {
            ConfigKey::MemberId => "member.id",
            ConfigKey::MemberAt => "member.at",
            key => key.name(),
        }
    }
}

/// An entry of the table without a default, whose number begins no line.
fn required(name: &'static str, form: ValueForm, about: &'static str) -> KeyEntry
    ensures name { result.name.now ≡ name.now }
    ensures form { result.form ≡ form }
    ensures default { result.default ≡ None }
    ensures about { result.about.now ≡ about.now }
    ensures begins_line { result.begins_line ≡ false }
{
    KeyEntry {
        name,
        form,
        default: None,
        about,
        begins_line: false,
    }
}
