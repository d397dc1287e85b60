//! The words of a command line.
ghost use Rattle.std.specs.Prelude.{◌≡◌, ◌≤◌, ◌∷◌, ℕ, List, MatchOption, IfOk, IfErr, IfSome, map, string_bytes, codes};
ghost use Rattle.command_options.specs.Given.{value_given};
ghost use Rattle.run_cli.specs.Asked.{ImageAsked, SetupAsked, RunAsked, ReplayAsked, Asked, image_in, setup_in, run_in, replay_in, asked_in};
ghost use Rattle.run_cli.specs.Words.{IsNumber, AskForImage, AskForSetup, AskForRun, AskForReplay, AreOptions, run_table, replay_table, map_table, ReadsOffline};
ghost use Rattle.run_cli.specs.Forms.{SaysNothing, words_ending};

use crate::ending::Ending;
use crate::limits::{MOST_QUANTUM, USUAL_HEAP, USUAL_LANE, USUAL_QUANTUM, USUAL_STACK};
use crate::options::{ImageOptions, OfflineCommand, ReplayOptions, RunOptions, SetupOptions};
use command_options::{OptionRow, Options, WordsFault, number_in, read_options};
use elf_image::limits::{MOST_HEAP, MOST_STACK};
use record_lane::limits::MOST_LANE;
use std::alloc::Global;
use syscall_drain::limits::MOST_BUDGET;
use trap_report::limits::{MOST_LIMIT, REPORTED_CORES};

/// The options of a run.
const RUN: [OptionRow<'static>; 10] = [
    OptionRow {
        name: "image",
        required: true,
    },
    OptionRow {
        name: "input",
        required: false,
    },
    OptionRow {
        name: "policy",
        required: false,
    },
    OptionRow {
        name: "cores",
        required: false,
    },
    OptionRow {
        name: "lane",
        required: false,
    },
    OptionRow {
        name: "quantum",
        required: false,
    },
    OptionRow {
        name: "budget",
        required: false,
    },
    OptionRow {
        name: "limit",
        required: false,
    },
    OptionRow {
        name: "stack",
        required: false,
    },
    OptionRow {
        name: "heap",
        required: false,
    },
];

/// The options of a replay.
const REPLAY: [OptionRow<'static>; 4] = [
    OptionRow {
        name: "image",
        required: true,
    },
    OptionRow {
        name: "report",
        required: true,
    },
    OptionRow {
        name: "input",
        required: false,
    },
    OptionRow {
        name: "policy",
        required: false,
    },
];

/// The options of a map.
const INSPECT: [OptionRow<'static>; 4] = [
    OptionRow {
        name: "image",
        required: true,
    },
    OptionRow {
        name: "cores",
        required: false,
    },
    OptionRow {
        name: "stack",
        required: false,
    },
    OptionRow {
        name: "heap",
        required: false,
    },
];

/// The number of an option, `usual` where it is not given.
fn number(options: &Options<'_>, name: &str, low: u32, high: u32, usual: u32) -> Option<u32>
    requires usual_low { low ≤ usual }
    requires usual_high { usual ≤ high }
    ensures number { MatchOption result ((n : ℕ) → IsNumber low high usual (value_given options.now name.now) n → ⊥)
        (IsNumber low high usual (value_given options.now name.now)) }
    ensures low { IfSome result (λ n. low ≤ n) }
    ensures high { IfSome result (λ n. n ≤ high) }
{
    match options.value(name) {
        Some(text) => number_in(text, low, high),
        None => Some(usual),
    }
}

/// The image that the options ask for.
fn image_asked<'a>(options: &Options<'a>) -> Option<ImageOptions<'a>>
    ensures { MatchOption result ((asked : ImageAsked) → AskForImage options.now asked → ⊥) (λ o. AskForImage options.now (image_in o)) }
{
    Some(ImageOptions {
        name: options.value("image")?,
        cores: number(options, "cores", 1, REPORTED_CORES, 1)? as u8,
        stack: number(options, "stack", 1, MOST_STACK, USUAL_STACK)?,
        heap: number(options, "heap", 0, MOST_HEAP, USUAL_HEAP)?,
    })
}

/// The setup that the options ask for.
fn setup_asked<'a>(options: &Options<'a>) -> Option<SetupOptions<'a>>
    ensures { MatchOption result ((o : SetupAsked) → AskForSetup options.now o → ⊥) (λ o. AskForSetup options.now (setup_in o)) }
{
    Some(SetupOptions {
        image: image_asked(options)?,
        input: options.value("input"),
        policy: options.value("policy"),
        budget: number(options, "budget", 1, MOST_BUDGET, MOST_BUDGET)?,
        limit: number(options, "limit", 1, MOST_LIMIT, MOST_LIMIT)?,
    })
}

/// The run that the options ask for.
fn run_asked<'a>(options: &Options<'a>) -> Option<RunOptions<'a>>
    ensures { MatchOption result ((o : RunAsked) → AskForRun options.now o → ⊥) (λ o. AskForRun options.now (run_in o)) }
{
    Some(RunOptions {
        setup: setup_asked(options)?,
        lane: number(options, "lane", 1, MOST_LANE, USUAL_LANE)?,
        quantum: number(options, "quantum", 1, MOST_QUANTUM, USUAL_QUANTUM)?,
    })
}

/// The replay that the options ask for.
fn replay_asked<'a>(options: &Options<'a>) -> Option<ReplayOptions<'a>>
    ensures { MatchOption result ((o : ReplayAsked) → AskForReplay options.now o → ⊥) (λ o. AskForReplay options.now (replay_in o)) }
{
    Some(ReplayOptions {
        image: options.value("image")?,
        report: options.value("report")?,
        input: options.value("input"),
        policy: options.value("policy"),
    })
}

/// The ending where words give no options.
fn words_ending(fault: WordsFault) -> Ending
    ensures { result ≡ words_ending fault }
{
    match fault {
        WordsFault::Other => Ending::Words,
        WordsFault::NoMemory => Ending::Memory,
    }
}

/// The options of a run, in the words after `run`.
pub fn run_options<'a>(alloc: Global, rest: &'a [String]) -> Result<RunOptions<'a>, Ending>
    ensures read { IfOk result (λ o. AreOptions run_table AskForRun (map string_bytes rest.entry.now) (run_in o)) }
    ensures refused { IfErr result (SaysNothing ((o : RunAsked) → AreOptions run_table AskForRun (map string_bytes rest.entry.now) o → ⊥)) }
{
    match read_options(alloc, &RUN, rest) {
        Ok(options) => run_asked(&options).ok_or(Ending::Words),
        Err(fault) => Err(words_ending(fault)),
    }
}

/// The options of a replay, in the words after `replay`.
fn replay_options<'a>(alloc: Global, rest: &'a [String]) -> Result<ReplayOptions<'a>, Ending>
    ensures read { IfOk result (λ o. AreOptions replay_table AskForReplay (map string_bytes rest.entry.now) (replay_in o)) }
    ensures refused { IfErr result (SaysNothing ((o : ReplayAsked) → AreOptions replay_table AskForReplay (map string_bytes rest.entry.now) o → ⊥)) }
{
    match read_options(alloc, &REPLAY, rest) {
        Ok(options) => replay_asked(&options).ok_or(Ending::Words),
        Err(fault) => Err(words_ending(fault)),
    }
}

/// The options of a map, in the words after `inspect`.
fn map_options<'a>(alloc: Global, rest: &'a [String]) -> Result<ImageOptions<'a>, Ending>
    ensures read { IfOk result (λ o. AreOptions map_table AskForImage (map string_bytes rest.entry.now) (image_in o)) }
    ensures refused { IfErr result (SaysNothing ((o : ImageAsked) → AreOptions map_table AskForImage (map string_bytes rest.entry.now) o → ⊥)) }
{
    match read_options(alloc, &INSPECT, rest) {
        Ok(options) => image_asked(&options).ok_or(Ending::Words),
        Err(fault) => Err(words_ending(fault)),
    }
}

/// The words after `run`, where that is the first one.
pub fn words_after_run<'a>(words: &'a [String]) -> Option<&'a [String]>
    ensures { MatchOption result ((rest : List (List ℕ)) → map string_bytes words.entry.now ≡ codes "run" ∷ rest → ⊥)
        (λ rest. map string_bytes words.entry.now ≡ codes "run" ∷ map string_bytes rest.now) }
{
    let (command, rest) = words.split_first()?;
    match command.as_str() {
        "run" => Some(rest),
        _ => None,
    }
}

/// What the words of a command line ask for beside a run.
pub fn read_offline<'a>(alloc: Global, words: &'a [String]) -> Result<OfflineCommand<'a>, Ending>
    ensures read { IfOk result (λ command. ReadsOffline (map string_bytes words.entry.now) (asked_in command)) }
    ensures refused { IfErr result (SaysNothing ((asked : Asked) → ReadsOffline (map string_bytes words.entry.now) asked → ⊥)) }
{
    let Some((command, rest)) = words.split_first() else {
        return Err(Ending::Words);
    };
    match command.as_str() {
        "replay" => Ok(OfflineCommand::Replay(replay_options(alloc, rest)?)),
        "inspect" => Ok(OfflineCommand::Inspect(map_options(alloc, rest)?)),
        _ => Err(Ending::Words),
    }
}
