// The names of the exceptions.
ghost use Rattle.std.specs.Prelude.{◌≡◌};
ghost use Rattle.or_trace.specs.Text.{exception_name};

use or_parts::Cause;

// The name of an exception, as a trace has it.
pub fn exception_name(cause: Cause) -> &'static str
    ensures { result.now ≡ exception_name cause }
{
    match cause {
        Cause::BusError(_) => "bus-error",
        Cause::DataPageFault(_) => "data-page-fault",
        Cause::InsnPageFault(_) => "insn-page-fault",
        Cause::Tick => "tick",
        Cause::Alignment(_) => "alignment",
        Cause::Illegal => "illegal",
        Cause::External => "external",
        Cause::DataMiss(_) => "data-miss",
        Cause::InsnMiss(_) => "insn-miss",
        Cause::Range => "range",
        Cause::Syscall => "syscall",
        Cause::Trap => "trap",
    }
}
