//! The command `gen`.
ghost use Rattle.std.specs.Prelude.{◌≡◌, []};
ghost use Rattle.or_command_line.specs.Words.{IsFileName};
ghost use Rattle.or_command_line.specs.Workloads.{FitsWorkload};
ghost use Rattle.or_command.specs.Leaves.{Silent};
ghost use Rattle.or_command.specs.Ends.{end_of};
ghost use Rattle.or_command.specs.Outcomes.{LeavesAll};
ghost use Rattle.or_command.specs.Carried.{IsCarriedOut};
ghost use Rattle.or_command.specs.Answered.{Answers, IsDecided, FinishEnds};
ghost use Rattle.or_command_source.specs.Generation.{gen_loads, gen_check, GenWrites};

use crate::files::write_file;
use or_command::{Outcome, conclude};
use or_command_line::Workload;
use or_gen::program;
use or_host::Host;
use std::alloc::Global;

// Makes the source, and writes it.
fn generated<'a, H: Host>(
    alloc: Global,
    workload: &Workload,
    source: &'a str,
    host: &mut H,
) -> Outcome<'a>
    requires numbers { FitsWorkload workload.now }
    requires name { IsFileName source.now }
    ensures outcome { FinishEnds gen_check (GenWrites workload.now source.now) [] (end_of result) (H.state host.old) (H.state host.new) }
    ensures silent { Silent (H.state host.old) (H.state host.new) }
{
    let mut text = Vec::new(alloc);
    match program(workload.seed, workload.cores, workload.rounds, &mut text) {
        Ok(()) => write_file(source, &text, host),
        Err(_) => Outcome::NoMemory,
    }
}

/// Writes the source of a workload, and says how that ended.
///
/// Status: 0 all was done, 6 the source was not written, 7 no memory. After 7 nothing is written or created.
pub fn generate<H: Host>(alloc: Global, workload: &Workload, source: &str, host: &mut H) -> u8
    requires numbers { FitsWorkload workload.now }
    requires name { IsFileName source.now }
    ensures ends { Answers gen_loads gen_check (GenWrites workload.now source.now) LeavesAll result (H.state host.old) (H.state host.new) }
    ensures decided { IsDecided gen_loads gen_check (GenWrites workload.now source.now) LeavesAll result (H.state host.old) (H.state host.new) }
    ensures command { IsCarriedOut result }
{
    let outcome = generated(alloc, workload, source, host);
    conclude(host, outcome)
}
