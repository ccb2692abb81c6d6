// The faults of a line.
ghost use Rattle.std.specs.Prelude.{◌≡◌, nat_le};
ghost use Rattle.or_asm_read.specs.Faults.{number_of_fault, lesser};

/// What is wrong with a line, from the least to the greatest.
#[derive(Clone, Copy, Debug, PartialEq, Eq)]
pub enum Fault {
    BadLine,
    UnknownName,
    OutOfRange,
    UnknownLabel,
    RepeatedLabel,
    Overlap,
}

pub(crate) fn fault_number(fault: Fault) -> u8
    ensures { result ≡ number_of_fault fault }
{
    match fault {
        Fault::BadLine => 1,
        Fault::UnknownName => 2,
        Fault::OutOfRange => 3,
        Fault::UnknownLabel => 4,
        Fault::RepeatedLabel => 5,
        Fault::Overlap => 6,
    }
}

/// The lesser of two faults.
pub fn lesser(first: Fault, second: Fault) -> Fault
    ensures { result ≡ lesser first second }
{
    if fault_number(first) <= fault_number(second) {
        first
    } else {
        second
    }
}
