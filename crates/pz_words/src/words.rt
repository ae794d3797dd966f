ghost use Rattle.std.specs.Prelude.{◌≡◌, IfOk, List, ℕ, map, string_bytes};
ghost use Rattle.pz_words.specs.declared.jobs.Job.{Job as AnyJob};
ghost use Rattle.pz_words.specs.Jobs.{Asks, IsAsked, is_name as names};
ghost use Rattle.pz_words.specs.devices.Reading as device;

use crate::jobs::{Choice, FileName, Job, MOST_STATIONS, RunLimits};
use crate::numbers::number_within;
use crate::options::Options;
use crate::reading::read_options;
use pz_items::Items;
use std::alloc::{AllocError, Global};

/// The job that the words of a command line ask for, if they ask for one. The only error is want of
/// memory.
pub fn read_words(alloc: Global, words: &[String]) -> Result<Option<Job>, AllocError>
    ensures reads { IfOk result (λ found. IsAsked (map string_bytes words.now) found) }
{
    let [command, words @ ..] = words else {
        return Ok(None);
    };
    read_job(alloc, command.as_str(), words)
}

/// Words ask for one job at most.
pub fn one_job()
    ensures { (words : List (List ℕ)) (a b : AnyJob) → Asks words a → Asks words b → a ≡ b }
{}

/// What words ask for can be computed.
pub fn job_is_computed()
    ensures { (words : List (List ℕ)) → IsAsked words (device.job_in words) }
{}

fn read_job(alloc: Global, command: &str, words: &[String]) -> Result<Option<Job>, AllocError>
    ensures { IfOk result (λ found. found ≡ device.job_of command.now
        (map string_bytes words.now)) }
{
    if command == "run" {
        return read_run(alloc, words);
    }
    if command == "menu" {
        return read_menu(alloc, words);
    }
    if command == "replay" {
        return read_replay(alloc, words);
    }
    if command == "check" {
        return read_check(words);
    }
    if command == "make" {
        return Ok(read_make(words));
    }
    if command == "ring" {
        return read_ring(alloc, words);
    }
    if command == "format" {
        return read_format(words);
    }
    if command == "watch" {
        return read_watch(alloc, words);
    }
    if command == "drive" {
        return read_drive(alloc, words);
    }
    Ok(None)
}

fn is_name(word: &str) -> bool
    ensures { result ≡ names word.now }
{
    match word.as_bytes() {
        [] => false,
        [first, ..] => *first != b'-',
    }
}

/// The name of a file, if the word is one. The only error is want of memory.
fn file_name(word: &String) -> Result<Option<FileName>, AllocError>
    ensures { IfOk result (λ name. name ≡ device.name_of (string_bytes word.now)) }
{
    if is_name(word.as_str()) {
        Ok(Some(FileName::new(word.clone()?)))
    } else {
        Ok(None)
    }
}

fn read_run(alloc: Global, words: &[String]) -> Result<Option<Job>, AllocError>
    ensures { IfOk result (λ found. found ≡ device.run_of (map string_bytes words.now)) }
{
    let [model, options @ ..] = words else {
        return Ok(None);
    };
    let Some(options) = read_options(alloc, options)? else {
        return Ok(None);
    };
    let Some(model) = file_name(model)? else {
        return Ok(None);
    };
    let (limits, summary) = (options.limits(), options.summary);
    Ok(Some(Job::Run {
        model,
        choice: options.into_choice(Choice::First),
        limits,
        summary,
    }))
}

fn read_menu(alloc: Global, words: &[String]) -> Result<Option<Job>, AllocError>
    ensures { IfOk result (λ found. found ≡ device.menu_of (map string_bytes words.now)) }
{
    let [model, options @ ..] = words else {
        return Ok(None);
    };
    let Some(options) = read_options(alloc, options)? else {
        return Ok(None);
    };
    if options.summary {
        return Ok(None);
    }
    let Some(model) = file_name(model)? else {
        return Ok(None);
    };
    let limits = options.limits();
    Ok(Some(Job::Menu {
        model,
        choice: options.into_choice(Choice::List(Items::new(alloc))),
        limits,
    }))
}

/// Whether nothing is said but units.
fn says_only_units(options: &Options) -> bool
    ensures { result ≡ device.says_only_units options.now }
{
    options.choice.is_none()
        && options.steps.is_none()
        && options.until.is_none()
        && !options.summary
}

/// The units that the words of options give each evaluation, where they say nothing else. The only
/// error is want of memory.
fn read_units(alloc: Global, words: &[String]) -> Result<Option<u64>, AllocError>
    ensures { IfOk result (λ units. units ≡ device.units_in (map string_bytes words.now)) }
{
    let Some(options) = read_options(alloc, words)? else {
        return Ok(None);
    };
    if says_only_units(&options) {
        Ok(Some(options.units()))
    } else {
        Ok(None)
    }
}

fn read_replay(alloc: Global, words: &[String]) -> Result<Option<Job>, AllocError>
    ensures { IfOk result (λ found. found ≡ device.replay_of (map string_bytes words.now)) }
{
    let [model, trace, options @ ..] = words else {
        return Ok(None);
    };
    let Some(units) = read_units(alloc, options)? else {
        return Ok(None);
    };
    let Some(model) = file_name(model)? else {
        return Ok(None);
    };
    let Some(trace) = file_name(trace)? else {
        return Ok(None);
    };
    Ok(Some(Job::Replay {
        model,
        trace,
        units,
    }))
}

fn read_check(words: &[String]) -> Result<Option<Job>, AllocError>
    ensures { IfOk result (λ found. found ≡ device.check_of (map string_bytes words.now)) }
{
    let [model] = words else {
        return Ok(None);
    };
    let Some(model) = file_name(model)? else {
        return Ok(None);
    };
    Ok(Some(Job::Check { model }))
}

/// The stations that the word gives a ring.
fn stations(word: &str) -> Option<u32>
    ensures { result ≡ device.stations_of word.now }
{
    let n = number_within(word, 2, MOST_STATIONS)?;
    u32::try_from(n).ok()
}

fn read_make(words: &[String]) -> Option<Job>
    ensures { result ≡ device.make_of (map string_bytes words.now) }
{
    let [stations_word] = words else {
        return None;
    };
    let n = stations(stations_word.as_str())?;
    Some(Job::Make { n })
}

fn read_ring(alloc: Global, words: &[String]) -> Result<Option<Job>, AllocError>
    ensures { IfOk result (λ found. found ≡ device.ring_of (map string_bytes words.now)) }
{
    let [size, options @ ..] = words else {
        return Ok(None);
    };
    let Some(n) = stations(size.as_str()) else {
        return Ok(None);
    };
    let Some(options) = read_options(alloc, options)? else {
        return Ok(None);
    };
    if options.summary {
        return Ok(None);
    }
    let limits = options.limits();
    Ok(Some(Job::Ring {
        n,
        choice: options.into_choice(Choice::First),
        limits,
    }))
}

fn read_format(words: &[String]) -> Result<Option<Job>, AllocError>
    ensures { IfOk result (λ found. found ≡ device.format_of (map string_bytes words.now)) }
{
    let [model] = words else {
        return Ok(None);
    };
    let Some(model) = file_name(model)? else {
        return Ok(None);
    };
    Ok(Some(Job::Format { model }))
}

/// What the words of options say, where they do not ask for the summary. The only error is want of
/// memory.
fn read_unsummed(alloc: Global, words: &[String]) -> Result<Option<Options>, AllocError>
    ensures { IfOk result (λ found. found ≡ device.unsummed (map string_bytes words.now)) }
{
    let Some(options) = read_options(alloc, words)? else {
        return Ok(None);
    };
    if options.summary {
        Ok(None)
    } else {
        Ok(Some(options))
    }
}

/// A model and a second file, and how the model is run.
struct Pair {
    model: FileName,
    second: FileName,
    choice: Choice,
    limits: RunLimits,
}

/// What the words behind the name of a job say that is done with two files, if they say it. The only error
/// is want of memory.
fn read_pair(alloc: Global, words: &[String]) -> Result<Option<Pair>, AllocError>
    ensures { IfOk result (λ found. found ≡ device.pair_of (map string_bytes words.now)) }
{
    let [model, second, options @ ..] = words else {
        return Ok(None);
    };
    let Some(options) = read_unsummed(alloc, options)? else {
        return Ok(None);
    };
    let Some(model) = file_name(model)? else {
        return Ok(None);
    };
    let Some(second) = file_name(second)? else {
        return Ok(None);
    };
    let limits = options.limits();
    Ok(Some(Pair {
        model,
        second,
        choice: options.into_choice(Choice::First),
        limits,
    }))
}

fn read_watch(alloc: Global, words: &[String]) -> Result<Option<Job>, AllocError>
    ensures { IfOk result (λ found. found ≡ device.watch_of (map string_bytes words.now)) }
{
    let Some(pair) = read_pair(alloc, words)? else {
        return Ok(None);
    };
    let Pair {
        model,
        second,
        choice,
        limits,
    } = pair;
    Ok(Some(Job::Watch {
        model,
        watches: second,
        choice,
        limits,
    }))
}

fn read_drive(alloc: Global, words: &[String]) -> Result<Option<Job>, AllocError>
    ensures { IfOk result (λ found. found ≡ device.drive_of (map string_bytes words.now)) }
{
    let Some(pair) = read_pair(alloc, words)? else {
        return Ok(None);
    };
    let Pair {
        model,
        second,
        choice,
        limits,
    } = pair;
    Ok(Some(Job::Drive {
        model,
        script: second,
        choice,
        limits,
    }))
}
