//! When a run has failed.
ghost use Rattle.std.specs.Prelude.{◌≡◌};
ghost use Rattle.or_replay.specs.Failing.{fails, some_core_fails};

use or_core::Core;
use or_model::Stop;

/// Whether a core fails that stops so: by its budget, or with an exit value that is not 0.
pub fn is_failure(stop: Option<Stop>) -> bool
    ensures { result ≡ fails stop }
{
    match stop {
        Some(Stop::Budget) => true,
        Some(Stop::Exit(value)) => value != 0,
        None => false,
    }
}

/// Whether one of these cores fails.
pub fn has_failed(cores: &[Core]) -> bool
    ensures { result ≡ some_core_fails cores.now }
{
    let mut rest = cores;
    while let Some((core, others)) = rest.split_first() {
        if is_failure(core.stop()) {
            return true;
        }
        rest = others;
    }
    false
}
