//! Laws of the commands on a recorded run, as contracts of functions that do nothing.
ghost use Rattle.std.specs.Prelude.{◌≡◌, ◌<◌, ℕ, Bool, List, Option, Some, length, slice_get};
ghost use Rattle.or_model.specs.Core.{Core as CoreModel};
ghost use Rattle.or_model.specs.Turn.{Board as BoardModel, replay};
ghost use Rattle.or_replay.specs.Start.{start};
ghost use Rattle.or_prof.specs.Profile.{items_of};
ghost use Rattle.or_command.specs.Writes.{File};
ghost use Rattle.or_command.specs.Ends.{FailedCheck};
ghost use Rattle.or_command_line.specs.Names.{recorded_names};
ghost use Rattle.or_command_line.specs.declared.RaceOptions.{RaceOptions};
ghost use Rattle.or_recorded.specs.Back.{back_fault, MakesBackSession};
ghost use Rattle.or_recorded.specs.Command.{Verdict, Writes};
ghost use Rattle.or_recorded.specs.Debug.{debug_fault, MakesSession};
ghost use Rattle.or_recorded.specs.Files.{names_of, run_alone, with_script, with_report};
ghost use Rattle.or_recorded.specs.Prof.{prof_fault, MakesProfile};
ghost use Rattle.or_recorded.specs.Race.{race_fault, MakesRaces};
ghost use Rattle.or_recorded.specs.Replay.{replay_fault, IsReplayed};
ghost use Rattle.or_command_line.specs.declared.TraceOptions.{TraceOptions};
ghost use Rattle.or_recorded.specs.Trace.{trace_fault, MakesTrace};
ghost use Rattle.or_recorded.specs.Traces.{traces};

use crate::command::RecordedCommand;
use crate::files::Names;
use or_command_line::Recorded;
use or_words::Config;

/// The files of any command on a recorded run have one verdict: one check that fails first, or none.
pub fn files_have_one_verdict<C: RecordedCommand>(names: &Names<'_>, command: &C)
    ensures { (read : List (List ℕ)) (found other : Option FailedCheck) → Verdict (C.fault command.now) (C.Makes command.now) (names_of names.now) read found
        → Verdict (C.fault command.now) (C.Makes command.now) (names_of names.now) read other → found ≡ other }
{
    let _ = names;
    let _ = command;
}

/// The files of a recorded run have one replay.
pub fn files_have_one_replay(names: &Recorded<'_>, report: &str)
    ensures { (read : List (List ℕ)) (outs others : List File) (console other : List ℕ) → Writes replay_fault (IsReplayed report.now) (with_report (recorded_names names.now) report.now) read outs console
        → Writes replay_fault (IsReplayed report.now) (with_report (recorded_names names.now) report.now) read others other → (outs ≡ others) × (console ≡ other) }
{
    let _ = names;
    let _ = report;
}

/// They have one race report.
pub fn files_have_one_race_report(names: &Recorded<'_>)
    ensures { (options : RaceOptions) (read : List (List ℕ)) (outs others : List File) (console other : List ℕ) → Writes (race_fault options.places) (MakesRaces options.locks options.places) (run_alone (recorded_names names.now)) read outs console
        → Writes (race_fault options.places) (MakesRaces options.locks options.places) (run_alone (recorded_names names.now)) read others other → (outs ≡ others) × (console ≡ other) }
{
    let _ = names;
}

/// They have one profile.
pub fn files_have_one_profile(names: &Recorded<'_>)
    ensures { (hot : Bool) (read : List (List ℕ)) (outs others : List File) (console other : List ℕ) → Writes prof_fault (MakesProfile hot) (run_alone (recorded_names names.now)) read outs console
        → Writes prof_fault (MakesProfile hot) (run_alone (recorded_names names.now)) read others other → (outs ≡ others) × (console ≡ other) }
{
    let _ = names;
}

/// With a script they have one session of `debug`.
pub fn files_have_one_session(names: &Recorded<'_>, script: &str)
    ensures { (read : List (List ℕ)) (outs others : List File) (console other : List ℕ) → Writes debug_fault MakesSession (with_script (recorded_names names.now) script.now) read outs console
        → Writes debug_fault MakesSession (with_script (recorded_names names.now) script.now) read others other → (outs ≡ others) × (console ≡ other) }
{
    let _ = names;
    let _ = script;
}

/// With a script they have one session of `back`.
pub fn files_have_one_back_session(names: &Recorded<'_>, script: &str)
    ensures { (read : List (List ℕ)) (outs others : List File) (console other : List ℕ) → Writes back_fault MakesBackSession (with_script (recorded_names names.now) script.now) read outs console
        → Writes back_fault MakesBackSession (with_script (recorded_names names.now) script.now) read others other → (outs ≡ others) × (console ≡ other) }
{
    let _ = names;
    let _ = script;
}

/// They have one trace of each range of turns and core.
pub fn files_have_one_trace(names: &Recorded<'_>)
    ensures { (options : TraceOptions) (read : List (List ℕ)) (outs others : List File) (console other : List ℕ) → Writes trace_fault (MakesTrace options) (run_alone (recorded_names names.now)) read outs console
        → Writes trace_fault (MakesTrace options) (run_alone (recorded_names names.now)) read others other → (outs ≡ others) × (console ≡ other) }
{
    let _ = names;
}

/// The items that the traces of a schedule have for a core are as many as the steps that the core has then made.
pub fn items_are_steps(config: &Config, image: &[u8], input: &[u8], turns: &[u8])
    ensures { (last : BoardModel) (c : ℕ) (core : CoreModel) → replay (start config.now image.now input.now) turns.now ≡ Some last → c < config.now.cores
        → slice_get last.cores c ≡ Some core → length (items_of c (traces (start config.now image.now input.now) turns.now)) ≡ core.steps }
{
    let _ = config;
    let _ = image;
    let _ = input;
    let _ = turns;
}
