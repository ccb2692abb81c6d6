// How a fault is noted.
ghost use Rattle.std.specs.Prelude.{◌≡◌, ◌≤◌, Some, length};
ghost use Rattle.or_words.specs.declared.limits.TheConstants.{NAME_LIMIT};
ghost use Rattle.or_host.specs.Blamed.{blamed};
ghost use Rattle.or_host.specs.Counts.{raised};

use crate::{Blame, Operation};
use arrayvec::ArrayString;

// Raises the count, and blames this operation and name.
pub(crate) fn note(faults: &mut u64, blame: &mut Option<Blame>, operation: Operation, name: &str)
    requires { length name.now ≤ NAME_LIMIT }
    ensures raised { faults.new ≡ raised faults.old }
    ensures later { faults.old ≤ faults.new }
    ensures blame { blame.new ≡ Some (blamed operation name.now) }
{
    *faults = faults.saturating_add(1);
    let mut noted = ArrayString::new();
    noted.push_str(name);
    *blame = Some(Blame {
        operation,
        name: noted,
    });
}
