//! The words of a call, and what they ask for.

ghost use Rattle.std.specs.Prelude.{◌≡◌, ◌≤◌, [], ◌∷◌, ℕ, List, map, drop, string_bytes, option_map, IfSome, ◌<◌, length};
ghost use Rattle.atac_words.specs.Words.{pick_words, watch_words, watched_words, one_operand, seed_of, self_words, is_operand, are_operands, number_in, limit_of, operand_list, check_words, list_words, instrument_words, run_words, cover_words, merge_words, tell_words, turns_first, reads, more_words};
ghost use Rattle.atac_words.specs.Stops.{command_of, IsFew, turns_of};

/// The most turns of a run, where the words don't say.
const TURN_LIMIT: u64 = 1_000_000;

/// The most that they may say.
const TURNS_MOST: u64 = 100_000_000;

/// The most that they may say where a watcher is told of the run.
const WATCHED_MOST: u64 = 2_000_000;

/// The most inputs or traces of one call.
const OTHERS_MOST: usize = 1_000;

/// What is told of traces: the report, the source with what is uncovered, the number of runs of each item, or the report as JSON.
#[derive(Clone, Copy, Debug, PartialEq, Eq)]
pub enum View {
    Report,
    Show,
    Hits,
    Json,
}

/// What the words ask for: a program is checked; its items are listed; it is kept with its probes under another name; it is
/// run on inputs, one after the other, each within so many turns, and what this covers is reported; it is run on one input,
/// and no more; it is run so, and the run is added to the trace under a name; the sum of traces is kept under the name in
/// front of theirs; what traces say of a program is told; it is run on inputs, and which of these runs to keep is said; it is
/// run on one input, and what a watcher says of this is said; or a program and inputs are made from a number and covered.
#[derive(Clone, Copy, Debug)]
pub enum Asked<'a> {
    Check(&'a str),
    List(&'a str),
    Instrument(&'a str, &'a str),
    Cover(u64, &'a str, &'a [String]),
    Run(u64, &'a str, &'a str),
    RunInto(u64, &'a str, &'a str, &'a str),
    Merge(&'a str, &'a [String]),
    Tell(View, &'a str, &'a [String]),
    Pick(u64, &'a str, &'a [String]),
    Watch(u64, &'a str, &'a str, &'a str),
    SelfCover(u64, u64),
}

fn may_be_operand(word: &str) -> bool
    ensures { result ≡ is_operand word.now }
{
    match word.as_bytes() {
        [first, ..] => *first != b'-',
        [] => true,
    }
}

/// A number from 1 to `most`, in decimal with no zero in front.
#[tactic(auto, using(crate::proofs::Limits::empty_none, crate::proofs::Limits::plus_none, crate::proofs::Limits::zero_none))]
fn number_in(most: u64, word: &str) -> Option<u64>
    ensures number { result ≡ number_in most word.now }
    ensures few { IfSome result (λ n. n ≤ most) }
{
    let bytes = word.as_bytes();
    if bytes.len() == 0 || bytes[0] == b'+' || bytes[0] == b'0' {
        return None;
    }
    match word.parse::<u64>() {
        Ok(number) => {
            if number > most {
                return None;
            }
            Some(number)
        }
        Err(_) => None,
    }
}

/// Reads the words in the one way in which they are read.
pub fn read_words(words: &Vec<String>) -> Option<Asked<'_>>
    ensures command { option_map command_of result ≡ reads (map string_bytes words.now.items) }
    ensures few { IfSome result IsFew }
{
    let (word, words) = words.as_slice().split_first()?;
    let word = word.as_str();
    if word == "check" {
        return asks_check(words);
    }
    if word == "list" {
        return asks_list(words);
    }
    if word == "instrument" {
        return asks_instrument(words);
    }
    if word == "run" {
        let turns = turns_first(words)?;
        return asks_run(turns.limit, turns.words);
    }
    if word == "cover" {
        let turns = turns_first(words)?;
        return asks_cover(turns.limit, turns.words);
    }
    if word == "merge" {
        return asks_merge(words);
    }
    if word == "report" {
        return asks_tell(View::Report, words);
    }
    if word == "show" {
        return asks_tell(View::Show, words);
    }
    if word == "hits" {
        return asks_tell(View::Hits, words);
    }
    if word == "json" {
        return asks_tell(View::Json, words);
    }
    asks_more(word, words)
}

// Reads the words of the other commands that run a program.
fn asks_more<'a>(word: &str, words: &'a [String]) -> Option<Asked<'a>>
    ensures command { option_map command_of result ≡ more_words word.now (map string_bytes words.now) }
    ensures few { IfSome result IsFew }
{
    if word == "pick" {
        let turns = turns_first(words)?;
        return asks_pick(turns.limit, turns.words);
    }
    if word == "watch" {
        let turns = turns_first(words)?;
        return asks_watch(turns.limit, turns.words);
    }
    if word == "self" {
        let turns = turns_first(words)?;
        return asks_self(turns.limit, turns.words);
    }
    None
}

/// How many turns the words allow, and the words behind that.
#[derive(Clone, Copy, Debug)]
pub struct Turns<'a> {
    limit: u64,
    words: &'a [String],
}

// The turns that the words allow, as `-t N` in front of the others, or none.
fn turns_first(words: &[String]) -> Option<Turns<'_>>
    ensures turns { option_map turns_of result ≡ turns_first (map string_bytes words.now) }
    ensures few { IfSome result (λ t. t.limit ≤ 100000000) }
{
    let all = Turns {
        limit: TURN_LIMIT,
        words,
    };
    let Some((option, rest)) = words.split_first() else {
        return Some(all);
    };
    let Some((turns, operands)) = rest.split_first() else {
        return Some(all);
    };
    if option.as_str() != "-t" {
        return Some(all);
    }
    let limit = number_in(TURNS_MOST, turns.as_str())?;
    Some(Turns {
        limit,
        words: operands,
    })
}

fn asks_check(words: &[String]) -> Option<Asked<'_>>
    ensures command { option_map command_of result ≡ check_words (map string_bytes words.now) }
    ensures few { IfSome result IsFew }
{
    let program = only(words)?;
    Some(Asked::Check(program))
}

fn asks_list(words: &[String]) -> Option<Asked<'_>>
    ensures command { option_map command_of result ≡ list_words (map string_bytes words.now) }
    ensures few { IfSome result IsFew }
{
    let program = only(words)?;
    Some(Asked::List(program))
}

// The one word, where it may be an operand.
fn only(words: &[String]) -> Option<&str>
    ensures check { option_map (λ w. command_of (Asked.Check w)) result ≡ check_words (map string_bytes words.now) }
    ensures list { option_map (λ w. command_of (Asked.List w)) result ≡ list_words (map string_bytes words.now) }
{
    let (program, rest) = words.split_first()?;
    if !rest.is_empty() || !may_be_operand(program.as_str()) {
        return None;
    }
    Some(program.as_str())
}

fn asks_instrument(words: &[String]) -> Option<Asked<'_>>
    ensures command { option_map command_of result ≡ instrument_words (map string_bytes words.now) }
    ensures few { IfSome result IsFew }
{
    let (program, rest) = words.split_first()?;
    let (out, rest) = rest.split_first()?;
    if !rest.is_empty() || !(may_be_operand(program.as_str()) && may_be_operand(out.as_str())) {
        return None;
    }
    Some(Asked::Instrument(program.as_str(), out.as_str()))
}

fn asks_run(limit: u64, words: &[String]) -> Option<Asked<'_>>
    requires { limit ≤ 100000000 }
    ensures command { option_map command_of result ≡ run_words limit (map string_bytes words.now) }
    ensures few { IfSome result IsFew }
{
    let (program, rest) = words.split_first()?;
    let (input, rest) = rest.split_first()?;
    if !(may_be_operand(program.as_str()) && may_be_operand(input.as_str())) {
        return None;
    }
    let Some((trace, rest)) = rest.split_first() else {
        return Some(Asked::Run(limit, program.as_str(), input.as_str()));
    };
    if !rest.is_empty() || !may_be_operand(trace.as_str()) {
        return None;
    }
    Some(Asked::RunInto(limit, program.as_str(), input.as_str(), trace.as_str()))
}

fn asks_cover(limit: u64, words: &[String]) -> Option<Asked<'_>>
    requires { limit ≤ 100000000 }
    ensures command { option_map command_of result ≡ cover_words limit (map string_bytes words.now) }
    ensures few { IfSome result IsFew }
{
    let (program, inputs) = one_and_others(words)?;
    Some(Asked::Cover(limit, program, inputs))
}

fn asks_merge(words: &[String]) -> Option<Asked<'_>>
    ensures command { option_map command_of result ≡ merge_words (map string_bytes words.now) }
    ensures few { IfSome result IsFew }
{
    let (out, traces) = one_and_others(words)?;
    Some(Asked::Merge(out, traces))
}

fn asks_tell(view: View, words: &[String]) -> Option<Asked<'_>>
    ensures command { option_map command_of result ≡ tell_words view (map string_bytes words.now) }
    ensures few { IfSome result IsFew }
{
    let (program, traces) = one_and_others(words)?;
    Some(Asked::Tell(view, program, traces))
}

fn asks_pick(limit: u64, words: &[String]) -> Option<Asked<'_>>
    requires { limit ≤ 100000000 }
    ensures command { option_map command_of result ≡ pick_words limit (map string_bytes words.now) }
    ensures few { IfSome result IsFew }
{
    let (program, inputs) = one_and_others(words)?;
    Some(Asked::Pick(limit, program, inputs))
}

fn asks_watch(limit: u64, words: &[String]) -> Option<Asked<'_>>
    ensures command { option_map command_of result ≡ watch_words limit (map string_bytes words.now) }
    ensures few { IfSome result IsFew }
{
    if limit > WATCHED_MOST {
        return None;
    }
    asks_watched(limit, words)
}

fn asks_watched(limit: u64, words: &[String]) -> Option<Asked<'_>>
    requires { limit ≤ 2000000 }
    ensures command { option_map command_of result ≡ watched_words limit (map string_bytes words.now) }
    ensures few { IfSome result IsFew }
{
    let (program, rest) = words.split_first()?;
    let (input, rest) = rest.split_first()?;
    if !(may_be_operand(program.as_str()) && may_be_operand(input.as_str())) {
        return None;
    }
    let name = one_operand(rest)?;
    Some(Asked::Watch(limit, program.as_str(), input.as_str(), name))
}

// The one word, where it may be an operand.
fn one_operand(words: &[String]) -> Option<&str>
    ensures { option_map (λ w. w.now) result ≡ one_operand (map string_bytes words.now) }
{
    let (word, rest) = words.split_first()?;
    if !rest.is_empty() || !may_be_operand(word.as_str()) {
        return None;
    }
    Some(word.as_str())
}

/// Zero, or a number of 64 bits, in decimal with no zero in front.
fn seed_of(word: &str) -> Option<u64>
    ensures { result ≡ seed_of word.now }
{
    if word == "0" {
        return Some(0);
    }
    number_in(u64::MAX, word)
}

fn asks_self(limit: u64, words: &[String]) -> Option<Asked<'_>>
    requires { limit ≤ 100000000 }
    ensures command { option_map command_of result ≡ self_words limit (map string_bytes words.now) }
    ensures few { IfSome result IsFew }
{
    let (seed, rest) = words.split_first()?;
    if !rest.is_empty() {
        return None;
    }
    let seed = seed_of(seed.as_str())?;
    Some(Asked::SelfCover(limit, seed))
}

// One operand, and those behind it, 1 to 1,000.
fn one_and_others(words: &[String]) -> Option<(&str, &[String])>
    ensures operands { option_map (λ o. (o.0.now, map string_bytes o.1.now)) result ≡ operand_list (map string_bytes words.now) }
    ensures some { IfSome result (λ o. 0 < length o.1.now) }
{
    let (first, others) = words.split_first()?;
    if others.is_empty() || others.len() > OTHERS_MOST {
        return None;
    }
    if !may_be_operands(words) {
        return None;
    }
    Some((first.as_str(), others))
}

fn may_be_operands(words: &[String]) -> bool
    ensures { result ≡ are_operands (map string_bytes words.now) }
{
    for word in words {
        if !may_be_operand(word.as_str()) {
            return false;
        }
    }
    true
}
