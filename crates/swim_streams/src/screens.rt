//! A sink at whose end a terminal may be.

ghost use Rattle.std.specs.Prelude.{◌≡◌, true, map};
ghost use Rattle.swim_text.specs.Streams.{Puts, failures_if};
ghost use Rattle.swim_streams.specs.Screens.{is_shown, known, shown};

use swim_text::Sink;

/// A sink over standard output. To a terminal it writes `?` in the place of each byte that neither prints nor ends a
/// line, so that what others say can't steer it; to anything else every byte as it is. Of a terminal no contract knows
/// the bytes that stand for these.
#[derive(Drop)]
pub struct ScreenSink<W: Sink + Drop> {
    sink: W,
    is_terminal: bool,
}

impl<W: Sink + Drop> ScreenSink<W> {
    /// A sink over this one, and whether a terminal is at its end.
    pub fn new(sink: W, is_terminal: bool) -> ScreenSink<W>
        ensures sink { result.sink ≡ sink }
        ensures terminal { result.is_terminal ≡ is_terminal }
    {
        ScreenSink { sink, is_terminal }
    }
}

impl<W: Sink + Drop> Sink for ScreenSink<W> {
    ghost written = { λ s. known s.is_terminal (W.written s.sink) };

    ghost failures = { λ s. W.failures s.sink };

    ghost held = { λ s. W.held s.sink };

    #[tactic(auto, using(crate::proofs::Shown::screened, crate::proofs::Shown::unscreened))]
    fn put(&mut self, text: &[u8]) -> bool
        ensures bytes { Puts (known self.old.is_terminal (W.written self.old.sink))
            (known self.new.is_terminal (W.written self.new.sink)) text.now result }
        ensures failures { W.failures self.new.sink ≡ failures_if (W.failures self.old.sink) result }

        // What a terminal gets.
        ensures shown { self.old.is_terminal ≡ true
            → Puts (W.written self.old.sink) (W.written self.new.sink) (map shown text.now) result }
    {
        if self.is_terminal {
            put_shown(&mut self.sink, text)
        } else {
            self.sink.put(text)
        }
    }

    #[tactic(auto, using(crate::proofs::Shown::keeps_screened))]
    fn flush(&mut self) -> bool {
        self.sink.flush()
    }
}

/// Writes a text as a terminal gets it.
#[tactic(auto, using(crate::proofs::Shown::shown_more, crate::proofs::Shown::shown_failed))]
fn put_shown<W: Sink>(writer: &mut W, text: &[u8]) -> bool
    ensures bytes { Puts (W.written writer.old) (W.written writer.new) (map shown text.now) result }
    ensures failures { W.failures writer.new ≡ failures_if (W.failures writer.old) result }
{
    for byte in text {
        if !writer.put(&[shown(*byte)]) {
            return false;
        }
    }
    true
}

/// The byte that a terminal gets for one.
fn shown(byte: u8) -> u8
    ensures { result ≡ shown byte }
{
    if is_shown(byte) { byte } else { b'?' }
}

/// Whether a terminal gets a byte as it is: it prints, or ends a line.
fn is_shown(byte: u8) -> bool
    ensures { result ≡ is_shown byte }
{
    byte == b'\n' || (b' ' <= byte && byte <= b'~')
}
