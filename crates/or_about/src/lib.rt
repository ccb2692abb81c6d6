//! What the program answers about itself: the help of all commands, that of one, and its version.
#![tactic(auto)]

ghost use Rattle.std.specs.Prelude.{◌≡◌, ◌++◌, [], OnOk, codes};
ghost use Rattle.std.specs.List.{flat_map};
ghost use Rattle.or_command_line.specs.Words.{texts};
ghost use Rattle.or_command.specs.Leaves.{Silent};
ghost use Rattle.or_command.specs.Ends.{end_of};
ghost use Rattle.or_command.specs.Answered.{FinishEnds};
ghost use Rattle.or_about.specs.declared.Help.{Help as HelpModel};
ghost use Rattle.or_about.specs.About.{usage_of, help_named, text_of, all_help, one_help, asked_by_one, asked_by_two, asked_by, about_check, AboutWrites, AboutAnswers};

use or_command::{Outcome, conclude, write_outputs};
use or_host::Host;
use std::alloc::{AllocError, Global};

/// What is told of a command: its name, its words, what it does, and an example.
#[derive(Clone, Copy)]
pub struct Help<'a> {
    pub name: &'a str,
    pub words: &'a str,
    pub text: &'a str,
    pub example: &'a str,
}

/// What the program tells of itself: what stands before all commands and behind them, and the line of its version.
#[derive(Clone, Copy)]
pub struct Texts<'a> {
    pub head: &'a str,
    pub commands: &'a [Help<'a>],
    pub tail: &'a str,
    pub version: &'a str,
}

/// What the program is asked about itself.
#[derive(Clone, Copy)]
pub enum About<'a> {
    /// `--help`.
    All,
    /// `COMMAND --help`.
    One(Help<'a>),
    /// `--version`.
    Version,
}

/// The question about the program that the words are, or none.
pub fn asked<'a>(about: &Texts<'a>, words: &[String]) -> Option<About<'a>>
    ensures { result ≡ asked_by about.now (texts words.now) }
{
    match words {
        [word] => asked_alone(word.as_str()),
        [name, word] => asked_of(about, name.as_str(), word.as_str()),
        _ => None,
    }
}

fn asked_alone(word: &str) -> Option<About<'static>>
    ensures { result ≡ asked_by_one word.now }
{
    if word == "--help" {
        Some(About::All)
    } else if word == "--version" {
        Some(About::Version)
    } else {
        None
    }
}

fn asked_of<'a>(about: &Texts<'a>, name: &str, word: &str) -> Option<About<'a>>
    ensures { result ≡ asked_by_two about.now name.now word.now }
{
    if word != "--help" {
        return None;
    }
    match find_help(about.commands, name) {
        Some(help) => Some(About::One(help)),
        None => None,
    }
}

// What is told of the command of this name.
fn find_help<'a>(helps: &[Help<'a>], name: &str) -> Option<Help<'a>>
    ensures { result ≡ help_named helps.now name.now }
{
    for help in helps {
        if help.name == name {
            return Some(*help);
        }
    }
    None
}

fn append_usage(help: &Help<'_>, out: &mut Vec<u8>) -> Result<(), AllocError>
    ensures { OnOk result (out.new.items ≡ out.old.items ++ usage_of help.now) }
{
    out.extend_from_slice(b"or1k ")?;
    out.extend_from_slice(help.name.as_bytes())?;
    out.extend_from_slice(b" ")?;
    out.extend_from_slice(help.words.as_bytes())?;
    out.extend_from_slice(b"\n")?;
    out.extend_from_slice(help.text.as_bytes())
}

fn append_command(help: &Help<'_>, out: &mut Vec<u8>) -> Result<(), AllocError>
    ensures { OnOk result (out.new.items ≡ out.old.items ++ usage_of help.now ++ codes "\n") }
{
    append_usage(help, out)?;
    out.extend_from_slice(b"\n")
}

fn append_commands(helps: &[Help<'_>], out: &mut Vec<u8>) -> Result<(), AllocError>
    ensures { OnOk result (out.new.items ≡ out.old.items ++ flat_map (λ (help : HelpModel). usage_of help ++ codes "\n") helps.now) }
{
    for help in helps {
        append_command(help, out)?;
    }
    Ok(())
}

#[tactic(auto, unfolding(crate::specs::About::all_help))]
fn append_all(about: &Texts<'_>, out: &mut Vec<u8>) -> Result<(), AllocError>
    ensures { OnOk result (out.new.items ≡ out.old.items ++ all_help about.now) }
{
    out.extend_from_slice(about.head.as_bytes())?;
    append_commands(about.commands, out)?;
    out.extend_from_slice(about.tail.as_bytes())
}

#[tactic(auto, unfolding(crate::specs::About::one_help))]
fn append_one(help: &Help<'_>, out: &mut Vec<u8>) -> Result<(), AllocError>
    ensures { OnOk result (out.new.items ≡ out.old.items ++ one_help help.now) }
{
    append_usage(help, out)?;
    out.extend_from_slice(b"Example:\n    ")?;
    out.extend_from_slice(help.example.as_bytes())?;
    out.extend_from_slice(b"\n")
}

// Appends the answer to a question.
fn append_answer(
    about: &Texts<'_>,
    question: &About<'_>,
    out: &mut Vec<u8>,
) -> Result<(), AllocError>
    ensures { OnOk result (out.new.items ≡ out.old.items ++ text_of about.now question.now) }
{
    match question {
        About::All => append_all(about, out),
        About::One(help) => append_one(help, out),
        About::Version => out.extend_from_slice(about.version.as_bytes()),
    }
}

// Makes the answer, and writes it out.
fn answered<H: Host>(
    alloc: Global,
    about: &Texts<'_>,
    question: &About<'_>,
    host: &mut H,
) -> Outcome<'static>
    ensures outcome { FinishEnds about_check (AboutWrites (text_of about.now question.now)) [] (end_of result) (H.state host.old) (H.state host.new) }
    ensures silent { Silent (H.state host.old) (H.state host.new) }
{
    let mut text = Vec::new(alloc);
    match append_answer(about, question, &mut text) {
        Ok(()) => write_outputs(host, &[], text.as_slice()),
        Err(_) => Outcome::NoMemory,
    }
}

/// Writes the answer to a question about the program to standard output, and says how that ended.
///
/// Status: 0 all was written, 6 standard output was not written, 7 no memory. After 7 nothing is written; after 6 a prefix of
/// the text is.
pub fn answer<H: Host>(alloc: Global, about: &Texts<'_>, question: &About<'_>, host: &mut H) -> u8
    ensures { AboutAnswers (text_of about.now question.now) result (H.state host.old) (H.state host.new) }
{
    let outcome = answered(alloc, about, question, host);
    conclude(host, outcome)
}
