//! Entries that have to do with probes, by the numbers of their periods.

ghost use Rattle.std.specs.Prelude.{◌≡◌, ◌∷◌, [], ℕ, List, Some, OnOk, length, nat_eq};
ghost use Rattle.std.specs.HashMap.{get};
ghost use Rattle.std.specs.Option.{option_map};
ghost use Rattle.swim_trace.specs.Acts.{Run, act_by, acts, if_numbered};
ghost use Rattle.swim_trace.specs.Index.{IsWanted, Knows, KeepsWanted, run_of, with_more};

use crate::acts::{Act, Spot, act_by};
use std::alloc::{AllocError, Global};
use std::collections::HashMap;
use swim_history::{Called, Journal};
use swim_wire::Id;

/// The entries of files that have to do with probes of some numbers, those that are wanted. Numbers are wanted first,
/// and then each file is gone through once: whatever is asked behind that is found by its number.
#[derive(Drop)]
pub struct ActIndex {
    alloc: Global,
    acts: HashMap<u64, Vec<Act>>,
}

impl ActIndex {
    /// Nothing is wanted, and no file was gone through.
    pub fn new(alloc: Global) -> ActIndex
        ensures { Knows [] result }
    {
        ActIndex {
            alloc,
            acts: HashMap::new(alloc),
        }
    }

    /// From now on probes of that number are wanted, too. `Err` only where memory was refused.
    pub fn want(&mut self, number: u64) -> Result<(), AllocError>
        ensures wanted { OnOk result (IsWanted number self.new) }
        ensures kept { OnOk result (KeepsWanted self.old self.new) }
        ensures empty { Knows [] self.old → OnOk result (Knows [] self.new) }
    {
        if self.acts.contains_key(&number) {
            return Ok(());
        }
        let none = Vec::new(self.alloc);
        self.acts.insert(number, none)?;
        Ok(())
    }

    /// Goes through the first entries of the next file: so many, `confirmed`, or all that there are. `file` is how many
    /// were gone through before. `Err` only where memory was refused.
    pub fn note_file(
        &mut self,
        file: u32,
        journal: &Journal,
        confirmed: u32,
    ) -> Result<(), AllocError>
        ensures knows { (runs : List Run) → Knows runs self.old → file ≡ length runs →
            OnOk result (Knows (run_of journal.now confirmed ∷ runs) self.new) }
        ensures kept { OnOk result (KeepsWanted self.old self.new) }
    {
        let me = journal.opening().me();
        for place in 0..confirmed.min(journal.len()) {
            if let Some(called) = journal.called(place) {
                self.note(Spot { file, place }, me, &called)?;
            }
        }
        Ok(())
    }

    /// What is known of a probe with that number: entries in the order of files, and of their places in a file.
    pub fn acts_of(&self, number: u64) -> &[Act]
        ensures { (runs : List Run) → Knows runs self.now → IsWanted number self.now → result.now ≡ acts number runs }
    {
        match self.acts.get(&number) {
            Some(acts) => acts.as_slice(),
            None => &[],
        }
    }

    /// Goes one entry on, which stands there.
    fn note(&mut self, spot: Spot, me: Id, called: &Called) -> Result<(), AllocError>
        ensures { OnOk result ((n : ℕ) → option_map (λ acts. acts.items) (get nat_eq self.new.acts n)
            ≡ with_more (if_numbered n (act_by spot me called.now.call called.now.reply))
            (option_map (λ acts. acts.items) (get nat_eq self.old.acts n))) }
    {
        match act_by(spot, me, called) {
            Some(act) => self.add(act),
            None => Ok(()),
        }
    }

    /// Adds what is known of a probe, where its number is wanted.
    fn add(&mut self, act: Act) -> Result<(), AllocError>
        ensures { OnOk result ((n : ℕ) → option_map (λ acts. acts.items) (get nat_eq self.new.acts n)
            ≡ with_more (if_numbered n (Some act))
            (option_map (λ acts. acts.items) (get nat_eq self.old.acts n))) }
    {
        if let Some(acts) = self.acts.get_mut(&act.probe.number) {
            acts.push(act)?;
        }
        Ok(())
    }
}
