//! The words of a call.
ghost use Rattle.std.specs.Prelude.{◌≡◌, ◌≤◌, IfOk, IsSome, OnErr, map, option_map, string_bytes};
ghost use Rattle.policy_ext.specs.NumberReading.{number_of, plain_of};
ghost use Rattle.json_values.specs.Names.{is_name};
ghost use Rattle.policy_gate.specs.Command.{command_of, four_words, one_word, own_document, page_after, shape_of, size_of, three_words, two_words, uid_of_words};

use json_document::Shape;
use json_samples::sample_document;
use json_values::laws::names_are_reported;
use json_values::read_type_name;
use policy_values::{Eid, EntityUID, Name, Text};
use std::alloc::{AllocError, Global};
use std::marker::Model;

// The greatest level that policies are checked for.
const MAX_LEVEL: u64 = 200;

// The most users that a document is made with, and the most principals of a page.
const MAX_SIZE: u64 = 10_000;

/// How many principals a page may have: one or more.
#[derive(Debug, Drop)]
pub struct PageLimit {
    most: usize,
}

impl Model for PageLimit {
    ghost use Rattle.std.specs.Prelude.{ℕ, ◌≤◌};

    ghost Value = { ℕ };

    ghost view = { λ l. l.most };

    ghost invariant = { λ l. 1 ≤ l.most };
}

impl PageLimit {
    /// So many.
    pub fn new(most: usize) -> PageLimit
        requires { 1 ≤ most }
        ensures { result ≡ most }
    {
        PageLimit { most }
    }

    /// How many.
    pub fn get(&self) -> usize
        ensures value { result ≡ self.now }
        ensures some { 1 ≤ result }
    {
        self.most
    }
}

/// What a run is asked to do.
#[derive(Debug, Drop)]
pub enum Command {
    /// Say what is found of the document's policies.
    Check,
    /// Say what is found of them where they are checked for a level.
    Level(u32),
    /// Say whether the document's request and its store conform to the schema.
    Request,
    /// Say what the document's policies read of stores, for each type of requests.
    Manifest,
    /// Cut the document's store to what its policies may read, and decide on the cut store.
    Slice,
    /// Decide on the whole store.
    Decide,
    /// Cut the store of a document that a number makes, and say how much is kept and what is decided.
    Sample {
        /// The number that the document is made from.
        seed: u64,
        /// How many users the document has.
        size: u64,
    },
    /// Decide on each of the document's requests, over its whole store.
    Batch,
    /// Make the edits of the document one after another, and say what the policies that they leave read of
    /// stores.
    Live,
    /// Say on which types of requests each policy can be true, and the least level at which each passes.
    Review,
    /// Say which principals of the store may do what the request asks, a page of them.
    List {
        /// How many they are at most.
        limit: PageLimit,
        /// The id that they come after; the first ones without it.
        after: Option<EntityUID>,
    },
}

fn one_word(word: &str) -> Option<Command>
    ensures { result ≡ one_word word.now }
{
    match word {
        "check" => Some(Command::Check),
        "request" => Some(Command::Request),
        "manifest" => Some(Command::Manifest),
        "slice" => Some(Command::Slice),
        "decide" => Some(Command::Decide),
        "batch" => Some(Command::Batch),
        "live" => Some(Command::Live),
        "review" => Some(Command::Review),
        _ => None,
    }
}

fn two_words(word: &str, other: &str) -> Option<Command>
    ensures { result ≡ two_words word.now other.now }
{
    match word {
        "level" => match level_of(other.as_bytes()) {
            Some(level) => Some(Command::Level(level)),
            None => None,
        },
        "list" => match limit_of(other.as_bytes()) {
            Some(limit) => Some(Command::List { limit, after: None }),
            None => None,
        },
        _ => None,
    }
}

fn level_of(digits: &[u8]) -> Option<u32>
    ensures { result ≡ plain_of 200 digits.now }
{
    let level = plain(digits, MAX_LEVEL)?;
    Some(level as u32)
}

// The number, up to the most, of digits with no zero before others.
fn plain(digits: &[u8], most: u64) -> Option<u64>
    ensures { result ≡ plain_of most digits.now }
{
    let value = number(digits)?;
    if value > most || (digits[0] == b'0' && digits.len() > 1) {
        None
    } else {
        Some(value)
    }
}

// The number that one or more digits write, where it has 64 bits.
fn number(digits: &[u8]) -> Option<u64>
    ensures { result ≡ number_of 10 digits.now }
{
    if digits.is_empty() {
        return None;
    }
    let mut n: u64 = 0;
    for c in digits {
        let digit = char::from(*c).to_digit(10)?;
        n = n.checked_mul(10)?.checked_add(digit as u64)?;
    }
    Some(n)
}

fn three_words(word: &str, seed: &str, size: &str) -> Option<Command>
    ensures { result ≡ three_words word.now seed.now size.now }
{
    match word {
        "sample" => {
            let seed = plain(seed.as_bytes(), u64::MAX)?;
            let size = size_of(size.as_bytes())?;
            Some(Command::Sample { seed, size })
        }
        _ => None,
    }
}

// A size of documents that are made, or a limit of pages.
fn size_of(digits: &[u8]) -> Option<u64>
    ensures { result ≡ size_of digits.now }
{
    match plain(digits, MAX_SIZE) {
        Some(size) if size > 0 => Some(size),
        _ => None,
    }
}

fn limit_of(digits: &[u8]) -> Option<PageLimit>
    ensures { result ≡ size_of digits.now }
{
    match plain(digits, MAX_SIZE) {
        Some(size) if size > 0 => Some(PageLimit::new(size as usize)),
        _ => None,
    }
}

fn four_words(
    alloc: Global,
    word: &str,
    limit: &str,
    name: &str,
    eid: &str,
) -> Result<Option<Command>, AllocError>
    ensures read { IfOk result (λ o. o ≡ four_words word.now limit.now name.now eid.now) }
    ensures memory { OnErr result (IsSome (four_words word.now limit.now name.now eid.now)) }
{
    match word {
        "list" => page_after(alloc, limit, name, eid),
        _ => Ok(None),
    }
}

fn page_after(
    alloc: Global,
    limit: &str,
    name: &str,
    eid: &str,
) -> Result<Option<Command>, AllocError>
    ensures read { IfOk result (λ o. o ≡ page_after limit.now name.now eid.now) }
    ensures memory { OnErr result (IsSome (page_after limit.now name.now eid.now)) }
{
    let Some(limit) = limit_of(limit.as_bytes()) else {
        return Ok(None);
    };
    match uid_of_words(alloc, name, eid)? {
        Some(uid) => Ok(Some(Command::List {
            limit,
            after: Some(uid),
        })),
        None => Ok(None),
    }
}

// Whether the word names a type.
fn is_type(word: &str) -> bool
    ensures { result ≡ is_name word.now }
{
    names_are_reported();
    Name::is_name(word)
}

fn uid_of_words(alloc: Global, name: &str, eid: &str) -> Result<Option<EntityUID>, AllocError>
    ensures read { IfOk result (λ o. o ≡ uid_of_words name.now eid.now) }
    ensures memory { OnErr result (IsSome (uid_of_words name.now eid.now)) }
{
    if !is_type(name) {
        return Ok(None);
    }
    let Some(entity_type) = read_type_name(alloc, name)? else {
        return Ok(None);
    };
    let eid = Eid::new(Text::from_str(alloc, eid)?);
    Ok(Some(EntityUID { entity_type, eid }))
}

/// The document that the command has of its own, if it has one.
pub(crate) fn own_document(alloc: Global, command: &Command) -> Result<Option<String>, AllocError>
    ensures { IfOk result (λ o. option_map string_bytes o ≡ own_document command.now) }
{
    match command {
        Command::Sample { seed, size } => Ok(Some(sample_document(alloc, *seed, *size)?)),
        Command::Check
        | Command::Level(_)
        | Command::Request
        | Command::Manifest
        | Command::Slice
        | Command::Decide
        | Command::Batch
        | Command::Live
        | Command::Review
        | Command::List { .. } => Ok(None),
    }
}

/// What a document for the command asks about.
pub(crate) fn shape_of(command: &Command) -> Shape
    ensures { result ≡ shape_of command.now }
{
    match command {
        Command::Batch => Shape::Batch,
        Command::Live => Shape::Live,
        _ => Shape::Whole,
    }
}

/// The command that the words are, if they are one. It takes memory only for words that are one.
pub fn command_of(alloc: Global, words: &Vec<String>) -> Result<Option<Command>, AllocError>
    ensures read { IfOk result (λ o. o ≡ command_of (map string_bytes words.now.items)) }
    ensures memory { OnErr result (IsSome (command_of (map string_bytes words.now.items))) }
{
    match words.as_slice() {
        [word] => Ok(one_word(word.as_str())),
        [word, other] => Ok(two_words(word.as_str(), other.as_str())),
        [word, seed, size] => Ok(three_words(word.as_str(), seed.as_str(), size.as_str())),
        [word, limit, name, eid] => four_words(
            alloc,
            word.as_str(),
            limit.as_str(),
            name.as_str(),
            eid.as_str(),
        ),
        [] => Ok(None),
        [_, _, _, _, _, ..] => Ok(None),
    }
}
