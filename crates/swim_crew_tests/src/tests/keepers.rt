//! A keeper that notes what it is told.

ghost use Rattle.std.specs.Prelude.{◌≡◌};

use super::*;

/// A keeper that notes a line for each life that begins, with the last number that was used before, and one for each
/// that is over, with its reason and how many entries its journal has.
#[derive(Drop)]
pub struct NotingKeeper {
    pub page: Page,
}

impl<D: Recorder> Keeper<D> for NotingKeeper {
    ghost opens = { λ old d number opening new e. e ≡ d };

    ghost closes = { λ old d number past new e. e ≡ d };

    fn open<R: Wait>(&mut self, _rt: &R, number: u64, opening: &Opening, _recorder: &mut D) {
        let _is_put = put_numbered(&mut self.page, b"open ", number)
            && put_numbered(&mut self.page, b" after ", opening.last())
            && self.page.put(b"\n");
    }

    fn close<R: Wait>(&mut self, _rt: &R, number: u64, past: &Past, _recorder: &mut D) {
        let _is_put = put_numbered(&mut self.page, b"close ", number)
            && self.page.put(b" ")
            && self.page.put(past.why.text())
            && put_numbered(&mut self.page, b" entries ", u64::from(past.journal.len()))
            && self.page.put(b"\n");
    }
}
