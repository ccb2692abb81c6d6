//! All that the program does with its words.
ghost use Rattle.std.specs.Prelude.{◌≡◌, ◌↔◌, None, IfSome};
ghost use Rattle.or_command_line.specs.Words.{texts};
ghost use Rattle.or_command_line.specs.Command.{command_of};
ghost use Rattle.or_about.specs.About.{asked_by, text_of, AboutAnswers};
ghost use Rattle.or_cli.specs.Top.{IsUsage};
ghost use Rattle.or_cli.specs.Names.{TopEnds, TopDecides};

use crate::commands::top;
use or_about::{Texts, answer, asked};
use or_board::Gate;
use or_host::Host;
use std::alloc::Global;
use std::sync::Wait;
use std::thread::Threads;

/// Does what the words ask, and answers the exit status. Where they ask the program about itself, by `--help`,
/// `COMMAND --help` or `--version`, the answer goes to standard output; else it is what `top` does.
pub fn program<R: Threads + Wait + Sync, H: Host, G: Gate + Sync>(
    rt: &R,
    alloc: Global,
    about: &Texts<'_>,
    words: &[String],
    host: &mut H,
    gate: &G,
) -> u8
    ensures about { IfSome (asked_by about.now (texts words.now)) (λ question. AboutAnswers (text_of about.now question) result (H.state host.old) (H.state host.new)) }
    ensures usage { asked_by about.now (texts words.now) ≡ None → (result ≡ 2) ↔ (command_of (texts words.now) ≡ None) }
    ensures usage_line { asked_by about.now (texts words.now) ≡ None → command_of (texts words.now) ≡ None
        → IsUsage (texts words.now) (H.state host.old) (H.state host.new) }
    ensures command { asked_by about.now (texts words.now) ≡ None
        → IfSome (command_of (texts words.now)) (λ command. TopEnds command result (H.state host.old) (H.state host.new)) }
    ensures complete { asked_by about.now (texts words.now) ≡ None
        → IfSome (command_of (texts words.now)) (λ command. TopDecides command result (H.state host.old) (H.state host.new)) }
{
    match asked(about, words) {
        Some(question) => answer(alloc, about, &question, host),
        None => top(rt, alloc, words, host, gate),
    }
}
