// A command line as the grammar reads it: the command with the names of its files and its numbers.
use crate::fault::CaseFault;
use or_command_line::{Command, Hunt, HuntOptions, Recorded, Run, RunOptions, Workload, parse};
use or_words::Config;

fn print_run<R: Print>(rt: &R, run: &Run<'_>) -> Result<(), CaseFault> {
    let Run {
        image,
        input,
        schedule,
        report,
        options,
    } = run;
    let RunOptions {
        config,
        stay,
        status,
    } = options;
    print!(rt;
        "run {image} {input} {schedule} {report} cores {} budget {}",
        config.cores, config.budget
    )?;
    let form = form(config);
    print!(rt; " ram {} pic {form} stay {stay}", config.ram)?;
    println!(rt; "{}", if *status { " status" } else { "" })?;
    Ok(())
}

// The form of the PIC.
fn form(config: &Config) -> &'static str {
    if config.latched { "latched" } else { "level" }
}

fn print_hunt<R: Print>(rt: &R, hunt: &Hunt<'_>) -> Result<(), CaseFault> {
    let Hunt {
        image,
        input,
        schedule,
        report,
        options,
    } = hunt;
    let HuntOptions {
        config,
        seed,
        tries,
    } = options;
    print!(rt;
        "hunt {image} {input} {schedule} {report} cores {} budget {}",
        config.cores, config.budget
    )?;
    let form = form(config);
    println!(rt; " ram {} pic {form} seed {seed} tries {tries}", config.ram)?;
    Ok(())
}

fn print_recorded<R: Print>(rt: &R, verb: &str, files: &Recorded<'_>) -> Result<(), CaseFault> {
    let Recorded {
        image,
        input,
        schedule,
    } = files;
    print!(rt; "{verb} {image} {input} {schedule}")?;
    Ok(())
}

fn print_workload<R: Print>(
    rt: &R,
    verb: &str,
    workload: &Workload,
    name: &str,
) -> Result<(), CaseFault> {
    let Workload {
        seed,
        cores,
        rounds,
    } = workload;
    print!(rt; "{verb} seed {seed} cores {cores} rounds {rounds} {name}")?;
    Ok(())
}

fn print_command<R: Print>(rt: &R, command: &Command<'_>) -> Result<(), CaseFault> {
    match command {
        Command::Run(run) => return print_run(rt, run),
        Command::Hunt(hunt) => return print_hunt(rt, hunt),
        Command::Gen { workload, source } => {
            print_workload(rt, "gen", workload, source)?;
            println!(rt; "")?;
        }
        Command::Bench {
            workload,
            schedule,
            stay,
        } => {
            print_workload(rt, "bench", workload, schedule)?;
            println!(rt; " stay {stay}")?;
        }
        Command::Asm {
            source,
            image,
            symbols,
        } => {
            print!(rt; "asm {source} {image}")?;
            println!(rt; "{}", if *symbols { " symbols" } else { "" })?;
        }
        Command::Dis { image } => println!(rt; "dis {image}")?,
        Command::Replay { files, report } => {
            print_recorded(rt, "replay", files)?;
            println!(rt; " {report}")?;
        }
        Command::Debug { files, script } => {
            print_recorded(rt, "debug", files)?;
            println!(rt; " {script}")?;
        }
        Command::Back {
            files,
            script,
            every,
        } => {
            print_recorded(rt, "back", files)?;
            println!(rt; " {script} every {every}")?;
        }
        Command::Race { files, options } => {
            print_recorded(rt, "race", files)?;
            print!(rt; "{}", if options.locks { " locks" } else { "" })?;
            println!(rt; "{}", if options.places { " where" } else { "" })?;
        }
        Command::Prof { files, hot } => {
            print_recorded(rt, "prof", files)?;
            println!(rt; "{}", if *hot { " hot" } else { "" })?;
        }
        Command::Trace { files, options } => {
            print_recorded(rt, "trace", files)?;
            if let Some(core) = options.core {
                print!(rt; " core {core}")?;
            }
            println!(rt; " from {} to {}", options.from, options.to)?;
        }
    }
    Ok(())
}

// Prints the command of these words, or `none`.
pub(crate) fn print_parsed<R: Print>(rt: &R, words: &[String]) -> Result<(), CaseFault> {
    match parse(words) {
        Some(command) => print_command(rt, &command),
        None => {
            println!(rt; "none")?;
            Ok(())
        }
    }
}
