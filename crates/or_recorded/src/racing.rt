//! The command `race`: the turns are made one by one, and the accesses to RAM that they make are added to the race report.
ghost use Rattle.std.specs.Prelude.{◌≡◌, ◌<◌, ◌≤◌, ◌⊎◌, ◌++◌, [], ◌∷◌, Bool, List, None, true, IfOk, MatchResult, length};
ghost use Rattle.or_words.specs.declared.limits.TheConstants.{IMAGE_LIMIT};
ghost use Rattle.or_race.specs.Event.{Event};
ghost use Rattle.or_race.specs.Records.{Records, cores_of, last_of};
ghost use Rattle.or_race.specs.Text.{RaceText};
ghost use Rattle.or_recorded.specs.Events.{event_at};
ghost use Rattle.or_recorded.specs.Race.{symbols_for, fault_for};
ghost use Rattle.or_recorded.specs.Refused.{Fails};

use crate::checked::Checked;
use crate::command::{RecordedCommand, Texts};
use crate::files::Files;
use crate::refused::{OwnFault, read_symbols};
use or_elf::Symbols;
use or_race::Races;
use or_replay::{Board, Placed, Refused, Watcher};
use or_words::{Config, NoMemory};
use std::alloc::Global;

/// `race`: reports the races of a recorded run, of the accesses to RAM of its turns, with or without locks.
#[derive(Clone, Copy)]
pub struct Race<const LOCKS: bool> {
    /// Whether each line tells where its accesses were made, by the image's symbols.
    pub places: bool,
}

// The accesses of the turns so far, unless memory has run out.
#[derive(Drop)]
struct Accesses {
    races: Races,
    lost: bool,
}

/// The accesses of the turns so far.
#[derive(Drop)]
pub struct RaceWatch<const LOCKS: bool> {
    accesses: Accesses,
}

impl Accesses {
    // Adds the access of a turn.
    fn add(&mut self, turn: u64, placed: &Placed)
        requires core { placed.now.access.core < cores_of self.old.races }
        requires later { last_of self.old.races < turn }
        ensures { (self.new.lost ≡ true)
            ⊎ (((locks : Bool) (events : List Event) → Records locks self.old.races events → Records locks self.new.races (events ++ event_at turn placed.now ∷ []))
            × (last_of self.new.races ≡ turn) × (cores_of self.new.races ≡ cores_of self.old.races)) }
    {
        match self.races.add(turn, placed.pc, &placed.access) {
            Ok(()) => {}
            Err(_) => self.lost = true,
        }
    }
}

impl<const LOCKS: bool> Watcher for RaceWatch<LOCKS> {
    ghost use Rattle.or_recorded.specs.Racing.{SeesRaces};

    ghost Sees = { λ watch. SeesRaces LOCKS watch.accesses };

    fn watch(&mut self, board: &mut Board, turns: &[u8], place: usize) -> Result<(), Refused> {
        if self.accesses.lost {
            return board.turn(turns[place]);
        }
        match board.observe_placed(turns[place]) {
            Ok(Some(placed)) => {
                self.accesses.add(place as u64 + 1, &placed);
                Ok(())
            }
            Ok(None) => Ok(()),
            Err(refused) => Err(refused),
        }
    }
}

impl<const LOCKS: bool> RecordedCommand for Race<LOCKS> {
    type Watch = RaceWatch<LOCKS>;

    ghost use Rattle.or_recorded.specs.Race.{race_fault, MakesRaces};

    ghost fault = { λ race. race_fault race.places };

    ghost Makes = { λ race. MakesRaces LOCKS race.places };

    fn begin(
        &self,
        alloc: Global,
        files: Files<'_>,
        config: &Config,
    ) -> Result<RaceWatch<LOCKS>, NoMemory> {
        let _ = files;
        Ok(RaceWatch {
            accesses: Accesses {
                races: Races::new(alloc, config.cores, LOCKS),
                lost: false,
            },
        })
    }

    fn make(
        &self,
        alloc: Global,
        files: Files<'_>,
        run: Checked,
        watch: RaceWatch<LOCKS>,
    ) -> Result<Texts, OwnFault> {
        let _ = run;
        if watch.accesses.lost {
            return Err(OwnFault::NoMemory);
        }
        let symbols = match symbols_for(alloc, self.places, files.image) {
            Ok(symbols) => symbols,
            Err(fault) => return Err(fault),
        };
        match report(alloc, &watch.accesses.races, &symbols) {
            Ok(console) => Ok(Texts {
                report: Vec::new(alloc),
                console,
            }),
            Err(_) => Err(OwnFault::NoMemory),
        }
    }
}

// The image's symbols, if places are told by them. Errors: their fault; NoMemory.
fn symbols_for(alloc: Global, places: bool, image: &[u8]) -> Result<Option<Symbols>, OwnFault>
    requires long { 52 ≤ length image.now }
    requires short { length image.now ≤ IMAGE_LIMIT }
    ensures { MatchResult result
        (λ symbols. (fault_for places image.now ≡ None) × (symbols ≡ symbols_for places image.now))
        (λ own. Fails own (fault_for places image.now)) }
{
    if !places {
        return Ok(None);
    }
    match read_symbols(alloc, image) {
        Ok(symbols) => Ok(Some(symbols)),
        Err(fault) => Err(fault),
    }
}

// The text of the race report.
fn report(alloc: Global, races: &Races, symbols: &Option<Symbols>) -> Result<Vec<u8>, NoMemory>
    ensures { IfOk result (λ text. (locks : Bool) (events : List Event) → Records locks races.now events → RaceText locks symbols.now events text.items) }
{
    let mut text = Vec::new(alloc);
    races.write(symbols, &mut text)?;
    Ok(text)
}
