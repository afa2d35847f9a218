//! The command from which `clap` knows how to read the words.

ghost use Rattle.std.specs.{List.{fold, list_any}, Prelude.{◌≡◌, codes, false, IfOk, map}};
ghost use Rattle.clap.specs.Words.{App, new_app, new_rule, rule_of, with_rule, with_subcommand};
ghost use Rattle.clap_laws.specs.Commands.{by_name, IsCommand, needed, number, several};
ghost use Rattle.bac_words.specs.{bacdev, bacrp, bacrun, bactool, bactrace, bacwi, bacwp, mac_rule, port_rule};
ghost use Rattle.bac_words.specs.{retries_rule, timeout_rule};

use crate::help;
use clap::builder::ValueParser;
use clap::{Arg, Command};
use std::alloc::{AllocError, Global};

/// Returns the program, with a subcommand for each tool.
pub fn bactool<'a>(alloc: Global) -> Result<Command<'a>, AllocError>
    ensures { IfOk result (λ c. IsCommand c bactool) }
{
    let command = named(alloc, "bactool", help::ABOUT, help::TYPICAL).subcommand_required(true);
    let command = with_tool(command, bacrp(alloc))?;
    let command = with_tool(command, bacwp(alloc))?;
    let command = with_tool(command, bacwi(alloc))?;
    let command = with_tool(command, bacdev(alloc))?;
    let command = with_tool(command, bacrun(alloc))?;
    with_tool(command, Ok(bactrace(alloc)))
}

// Returns a command with one more tool, if there is memory for it.
fn with_tool<'a>(
    command: Command<'a>,
    tool: Result<Command<'a>, AllocError>,
) -> Result<Command<'a>, AllocError>
    ensures { (app added : App) → IsCommand command.entry app → IfOk tool.entry (λ t. IsCommand t added)
        → IfOk result (λ c. IsCommand c (with_subcommand app added.top)) }
{
    command.subcommand(tool?)
}

fn bacrp<'a>(alloc: Global) -> Result<Command<'a>, AllocError>
    ensures { IfOk result (λ c. IsCommand c bacrp) }
{
    let arguments = vec![in alloc;
        needed_argument(alloc, "device-instance", 0, 4_194_303, help::DEVICE),
        needed_argument(alloc, "object-type", 0, 1023, help::OBJECT_TYPE),
        needed_argument(
            alloc,
            "object-instance",
            0,
            4_194_303,
            help::OBJECT_INSTANCE
        ),
        needed_argument(alloc, "property", 0, 4_194_303, help::PROPERTY),
        number_argument(alloc, "index", 0, u32::MAX, help::ELEMENT),
        mac_arg(alloc),
        timeout_arg(alloc, help::TIMEOUT),
        retries_arg(alloc),
        port_arg(alloc, help::PORT),
    ]?;
    tool(
        named(alloc, "bacrp", help::READS, help::READ_LINES),
        arguments,
    )
}

fn bacwp<'a>(alloc: Global) -> Result<Command<'a>, AllocError>
    ensures { IfOk result (λ c. IsCommand c bacwp) }
{
    let arguments = vec![in alloc;
        needed_argument(alloc, "device-instance", 0, 4_194_303, help::DEVICE),
        needed_argument(alloc, "object-type", 0, 1023, help::OBJECT_TYPE),
        needed_argument(
            alloc,
            "object-instance",
            0,
            4_194_303,
            help::OBJECT_INSTANCE
        ),
        needed_argument(alloc, "property", 0, 4_194_303, help::PROPERTY),
        needed_argument(alloc, "priority", 0, 16, help::PRIORITY),
        index(alloc),
        pairs(alloc),
        mac_arg(alloc),
        timeout_arg(alloc, help::TIMEOUT),
        retries_arg(alloc),
        port_arg(alloc, help::PORT),
    ]?;
    tool(
        named(alloc, "bacwp", help::WRITES, help::WRITE_LINES),
        arguments,
    )
}

fn bacwi<'a>(alloc: Global) -> Result<Command<'a>, AllocError>
    ensures { IfOk result (λ c. IsCommand c bacwi) }
{
    let arguments = vec![in alloc;
        number_argument(alloc, "min", 0, 4_194_303, help::LEAST),
        number_argument(alloc, "max", 0, 4_194_303, help::MOST),
        mac_arg(alloc),
        timeout_arg(alloc, help::SEARCH_TIME),
        port_arg(alloc, help::SEARCH_PORT),
    ]?;
    tool(
        named(alloc, "bacwi", help::SEARCHES, help::SEARCH_LINES),
        arguments,
    )
}

fn bacdev<'a>(alloc: Global) -> Result<Command<'a>, AllocError>
    ensures { IfOk result (λ c. IsCommand c bacdev) }
{
    let arguments = vec![in alloc;
        own_instance_arg(alloc),
        port_arg(alloc, help::SERVE_PORT),
        option(alloc, "count", 1, 65_535, help::COUNT),
    ]?;
    tool(
        named(alloc, "bacdev", help::SERVES, help::SERVE_LINES),
        arguments,
    )
}

fn bacrun<'a>(alloc: Global) -> Result<Command<'a>, AllocError>
    ensures { IfOk result (λ c. IsCommand c bacrun) }
{
    let arguments = vec![in alloc;
        timeout_arg(alloc, help::TIMEOUT),
        retries_arg(alloc),
        port_arg(alloc, help::RUN_PORT),
        option(alloc, "window", 1, 64, help::WINDOW),
    ]?;
    tool(
        named(alloc, "bacrun", help::RUNS, help::RUN_LINES),
        arguments,
    )
}

fn bactrace<'a>(alloc: Global) -> Command<'a>
    ensures { IsCommand result bactrace }
{
    named(alloc, "bactrace", help::TRACES, help::TRACE_LINES)
}

// Returns a command with its help.
fn named<'a>(alloc: Global, name: &'a str, about: &'a str, lines: &'a str) -> Command<'a>
    ensures { IsCommand result (new_app name.entry.now) }
{
    Command::new(alloc, name).about(about).after_help(lines)
}

// Returns a tool with its arguments.
fn tool<'a>(command: Command<'a>, arguments: Vec<Arg<'a>>) -> Result<Command<'a>, AllocError>
    requires { list_any (λ a. a.global) arguments.items ≡ false }
    ensures { (app : App) → IsCommand command.entry app
        → IfOk result (λ c. IsCommand c (fold with_rule app (map rule_of arguments.entry.items))) }
{
    command.args(arguments)
}

fn index<'a>(alloc: Global) -> Arg<'a>
    ensures rule { rule_of result ≡ needed (new_rule (codes "index")) }
    ensures local { result.global ≡ false }
{
    Arg::new(alloc, "index")
        .required(true)
        .help(help::WRITTEN_ELEMENT)
}

fn pairs<'a>(alloc: Global) -> Arg<'a>
    ensures rule { rule_of result ≡ needed (several (new_rule (codes "tag value"))) }
    ensures local { result.global ≡ false }
{
    Arg::new(alloc, "tag value")
        .num_args(1..)
        .required(true)
        .help(help::PAIRS)
}

fn mac_arg<'a>(alloc: Global) -> Arg<'a>
    ensures rule { rule_of result ≡ mac_rule }
    ensures local { result.global ≡ false }
{
    Arg::new(alloc, "mac")
        .long("mac")
        .required(true)
        .help(help::MAC)
}

fn timeout_arg<'a>(alloc: Global, help: &'a str) -> Arg<'a>
    ensures rule { rule_of result ≡ timeout_rule }
    ensures local { result.global ≡ false }
{
    option(alloc, "apdu-timeout", 1, 60_000, help)
}

fn retries_arg<'a>(alloc: Global) -> Arg<'a>
    ensures rule { rule_of result ≡ retries_rule }
    ensures local { result.global ≡ false }
{
    option(alloc, "apdu-retries", 0, 9, help::RETRIES)
}

fn port_arg<'a>(alloc: Global, help: &'a str) -> Arg<'a>
    ensures rule { rule_of result ≡ port_rule }
    ensures local { result.global ≡ false }
{
    option(alloc, "port", 0, 65_535, help)
}

// Returns the argument for the instance of `bacdev`; the greatest number stands for every device.
fn own_instance_arg<'a>(alloc: Global) -> Arg<'a>
    ensures rule { rule_of result ≡ needed (number (codes "device-instance") 0 4194302) }
    ensures local { result.global ≡ false }
{
    needed_argument(alloc, "device-instance", 0, 4_194_302, help::OWN_INSTANCE)
}

// Returns the argument for an optional number, which is given with its name.
fn option<'a>(alloc: Global, id: &'a str, least: u32, most: u32, help: &'a str) -> Arg<'a>
    ensures rule { rule_of result ≡ by_name (number id.entry.now least most) }
    ensures local { result.global ≡ false }
{
    number_argument(alloc, id, least, most, help).long(id)
}

// Returns the argument for a number that is required.
fn needed_argument<'a>(alloc: Global, id: &'a str, least: u32, most: u32, help: &'a str) -> Arg<'a>
    ensures rule { rule_of result ≡ needed (number id.entry.now least most) }
    ensures local { result.global ≡ false }
{
    number_argument(alloc, id, least, most, help).required(true)
}

// Returns the argument for a number from `least` to `most`.
fn number_argument<'a>(alloc: Global, id: &'a str, least: u32, most: u32, help: &'a str) -> Arg<'a>
    ensures rule { rule_of result ≡ number id.entry.now least most }
    ensures local { result.global ≡ false }
{
    Arg::new(alloc, id)
        .value_parser(ValueParser::signed(i64::from(least), i64::from(most)))
        .help(help)
}
