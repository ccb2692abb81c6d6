//! The command `prof`: the turns are made one by one, and the pcs of their steps are added to the profile.
ghost use Rattle.std.specs.Prelude.{◌≡◌, ◌≤◌, [], List, IfOk, length};
ghost use Rattle.or_words.specs.declared.limits.TheConstants.{IMAGE_LIMIT};
ghost use Rattle.or_prof.specs.Profile.{Addition, IsProfile};
ghost use Rattle.or_prof.specs.Text.{IsProfText};
ghost use Rattle.or_recorded.specs.Profiling.{HasSymbols};

use crate::checked::Checked;
use crate::command::{RecordedCommand, Texts};
use crate::counting::count_turn;
use crate::files::Files;
use crate::refused::{OwnFault, read_symbols};
use or_prof::Profile;
use or_replay::{Board, Refused, Watcher};
use or_words::{Config, NoMemory};
use std::alloc::Global;

/// `prof`: writes how many steps each core made in each function, with or without the pcs outside of them.
#[derive(Clone, Copy)]
pub struct Prof<const HOT: bool>;

/// The profile of the turns so far, or why there is none: the fault of the image's symbols, which ends the command behind the
/// checks of the run, or a want of memory for a pc.
#[derive(Drop)]
pub struct ProfWatch<const HOT: bool> {
    counted: Result<Profile, OwnFault>,
}

impl<const HOT: bool> Watcher for ProfWatch<HOT> {
    ghost use Rattle.or_recorded.specs.Profiling.{SeesProfile, HasSymbols};

    ghost Sees = { λ watch. SeesProfile watch.counted };

    ghost Keeps = { λ watch. HasSymbols HOT watch.counted };

    fn watch(&mut self, board: &mut Board, turns: &[u8], place: usize) -> Result<(), Refused> {
        match &mut self.counted {
            Ok(profile) => match count_turn(board, turns[place], profile) {
                Ok(true) => Ok(()),
                Ok(false) => {
                    self.counted = Err(OwnFault::NoMemory);
                    Ok(())
                }
                Err(refused) => Err(refused),
            },
            Err(_) => board.turn(turns[place]),
        }
    }
}

impl<const HOT: bool> RecordedCommand for Prof<HOT> {
    type Watch = ProfWatch<HOT>;

    ghost use Rattle.or_recorded.specs.Prof.{prof_fault, MakesProfile};

    ghost fault = { λ _. prof_fault };

    ghost Makes = { λ _. MakesProfile HOT };

    fn begin(
        &self,
        alloc: Global,
        files: Files<'_>,
        config: &Config,
    ) -> Result<ProfWatch<HOT>, NoMemory> {
        Ok(ProfWatch {
            counted: open_profile(alloc, config.cores, files.image, HOT),
        })
    }

    fn make(
        &self,
        alloc: Global,
        files: Files<'_>,
        run: Checked,
        mut watch: ProfWatch<HOT>,
    ) -> Result<Texts, OwnFault> {
        let _ = files;
        let _ = run;
        match &mut watch.counted {
            Ok(profile) => match texts_of(alloc, profile) {
                Ok(texts) => Ok(texts),
                Err(_) => Err(OwnFault::NoMemory),
            },
            Err(fault) => Err(*fault),
        }
    }
}

// The text of a profile.
fn texts_of(alloc: Global, profile: &mut Profile) -> Result<Texts, NoMemory>
    ensures { IfOk result (λ texts. (additions : List Addition) → IsProfile profile.old additions
        → IsProfText profile.old.hot (length profile.old.cores) profile.old.symbols additions texts.console.items) }
{
    let mut console = Vec::new(alloc);
    match profile.write(&mut console) {
        Ok(()) => Ok(Texts {
            report: Vec::new(alloc),
            console,
        }),
        Err(_) => Err(NoMemory),
    }
}

// The profile of cores that have made no step. Errors: the fault of the image's symbols; NoMemory.
fn open_profile(alloc: Global, cores: u32, image: &[u8], hot: bool) -> Result<Profile, OwnFault>
    requires one { 1 ≤ cores }
    requires eight { cores ≤ 8 }
    requires long { 52 ≤ length image.now }
    requires short { length image.now ≤ IMAGE_LIMIT }
    ensures symbols { HasSymbols hot result image.now }
    ensures cores { IfOk result (λ profile. length profile.cores ≡ cores) }
    ensures profile { IfOk result (λ profile. IsProfile profile []) }
{
    let symbols = match read_symbols(alloc, image) {
        Ok(symbols) => symbols,
        Err(fault) => return Err(fault),
    };
    match Profile::open(alloc, cores, symbols, hot) {
        Ok(profile) => Ok(profile),
        Err(_) => Err(OwnFault::NoMemory),
    }
}
