//! What the header of a script tells.

ghost use Rattle.std.specs.Prelude.{◌≡◌, ◌∷◌, ◌++◌, [], List, ℕ, Some, None, Ok, MatchResult, if◌then◌else◌};
ghost use Rattle.std.specs.Result.{is_ok};
ghost use Rattle.swim_script.specs.declared.commands.Command.TheVariants as commands;
ghost use Rattle.swim_script.specs.Headers.{nothing_told, told_then, draws_with, stage_told, setting_in};
ghost use Rattle.swim_script.specs.Headers.{limit_in, chooser_in, version_with};
ghost use Rattle.swim_script.specs.Script.{fault_of_header};
ghost use Rattle.swim_script.specs.Holds.{first_rows, kept};

use crate::arguments::{OpenArguments, Opened, SEED_BYTES};
use crate::choosers::Drawer;
use crate::commands::{Draws, LineFault, Stage};
use crate::faults::{FaultKind, ScriptFault};
use crate::openings::checked;
use arrayvec::ArrayVec;
use std::alloc::{AllocError, Global};
use std::marker::Model;
use swim_history::{KNOWN_MEMBERS, Opening, Row};
use swim_targets::{Order, Scripted, Seeded};
use swim_wire::Version;

/// How many rows are kept: one more than an opening may have, so that its check can tell.
pub(crate) const KEPT_ROWS: usize = KNOWN_MEMBERS + 1;

/// What header lines told so far. Of the rows the first are kept.
#[derive(Drop)]
pub struct Header {
    opened: Option<Opened>,
    rows: ArrayVec<Row, KEPT_ROWS>,
    orders: Vec<Order>,
    places: Vec<u32>,
    seed: Option<([u8; SEED_BYTES], u64)>,
    wire: Option<Version>,
}

impl Model for Header {
    ghost use Rattle.std.specs.Prelude.{map};
    ghost use Rattle.swim_script.specs.Headers.{Told};

    ghost Value = { Told };

    ghost view = { λ h.
        record {
          opened = h.opened;
          rows = h.rows.items;
          orders = map (λ order. order.items) h.orders.items;
          places = h.places.items;
          seed = h.seed;
          wire = h.wire;
        } };
}

impl Header {
    /// A header of which no line was read.
    pub fn new(alloc: Global) -> Header
        ensures { result ≡ nothing_told }
    {
        Header {
            opened: None,
            rows: ArrayVec::new(),
            orders: Vec::new(alloc),
            places: Vec::new(alloc),
            seed: None,
            wire: None,
        }
    }

    /// An `open` line, which is the line of that number.
    pub fn open(&mut self, line: u32, arguments: OpenArguments)
        ensures { self.new ≡ told_then line (commands.Open arguments) self.old }
    {
        self.opened = Some(Opened { line, arguments });
    }

    /// A `row` line.
    pub fn add_row(&mut self, row: Row)
        ensures { self.new ≡ kept (record self.old { rows = self.old.rows ++ row ∷ [] }) }
    {
        keep_row(&mut self.rows, row);
    }

    /// An `order` line. Without memory nothing changes.
    pub fn add_order(&mut self, order: Order) -> Result<(), AllocError>
        ensures { self.new ≡ (if is_ok result then record self.old { orders = self.old.orders ++ order.items ∷ [] }
            else self.old) }
    {
        Ok(self.orders.push(order)?)
    }

    /// A `place` line. Without memory nothing changes.
    pub fn add_place(&mut self, place: u32) -> Result<(), AllocError>
        ensures { self.new ≡ (if is_ok result then record self.old { places = self.old.places ++ place ∷ [] }
            else self.old) }
    {
        Ok(self.places.push(place)?)
    }

    /// A `seed` line, with the life that draws from it.
    pub fn set_seed(&mut self, key: [u8; SEED_BYTES], life: u64)
        ensures { self.new ≡ record self.old { seed = Some (key, life) } }
    {
        self.seed = Some((key, life));
    }

    /// A `wire` line.
    pub fn set_wire(&mut self, version: Version)
        ensures { self.new ≡ record self.old { wire = Some version } }
    {
        self.wire = Some(version);
    }

    /// How far a script has come that ends with this header.
    pub fn stage(&self) -> Stage
        ensures { result ≡ stage_told self.now }
    {
        match self.opened {
            None => Stage::Blank,
            Some(_) => Stage::Header(self.draws(), self.wire.is_some()),
        }
    }

    /// What was told of who chooses.
    fn draws(&self) -> Draws
        ensures { result ≡ draws_with self.now.orders self.now.places self.now.seed }
    {
        match (&self.seed, self.orders.as_slice(), self.places.as_slice()) {
            (Some(_), _, _) => Draws::Seeded,
            (None, [], []) => Draws::Unsaid,
            _ => Draws::Scripted,
        }
    }

    /// The opening that was told, if there is one within the limits.
    pub fn opening(&self) -> Result<Opening, ScriptFault>
        ensures { MatchResult result
            (λ opening. (fault_of_header self.now ≡ None) × (opening ≡ setting_in self.now))
            (λ fault. fault_of_header self.now ≡ Some fault) }
    {
        match &self.opened {
            None => Err(ScriptFault {
                line: 0,
                kind: FaultKind::Words(LineFault::Word),
            }),
            Some(opened) => checked(opened, self.rows.as_slice(), self.version()),
        }
    }

    /// The version that was told, or else the first.
    fn version(&self) -> Version
        ensures { result ≡ version_with self.now.wire }
    {
        self.wire.unwrap_or(Version::One)
    }

    /// How many entries the journal may have.
    pub fn limit(&self) -> u32
        ensures { result ≡ limit_in self.now }
    {
        match &self.opened {
            None => 0,
            Some(opened) => opened.arguments.limit,
        }
    }

    /// Who chooses.
    pub fn into_chooser(self) -> Drawer
        ensures { result ≡ chooser_in self }
    {
        match self.seed {
            Some(seed) => {
                let key = seed.0;
                Drawer::Seeded(Seeded::life(key, seed.1))
            }
            None => Drawer::Scripted(Scripted::new(self.orders, self.places)),
        }
    }
}

/// Puts a row last, unless as many are kept as tell that there are too many.
fn keep_row(rows: &mut ArrayVec<Row, KEPT_ROWS>, row: Row)
    ensures { rows.new.items ≡ first_rows (rows.old.items ++ row ∷ []) }
{
    if rows.len() < KEPT_ROWS {
        rows.push(row);
    }
}
