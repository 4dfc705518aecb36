ghost use Rattle.std.specs.Prelude.{◌≡◌, ◌≤◌, ◌+◌, IfSome};
ghost use Rattle.npa_answers.specs.Commands.{word_at, option_at, budget, workers, with_words, search_of, gen_of, command_of};

use npa_text::{Words, numeral_in};

/// What the words of a command line ask for. FILE, AIM and CERT or RUN are the words 1, 2 and 3.
#[derive(Clone, Copy, Debug, PartialEq, Eq)]
pub enum Command {
    /// All checks of the module of FILE.
    Check,
    /// The search for AIM, with at most so many expansions and so many workers.
    Search { budget: u32, workers: u32 },
    /// The certificate CERT for AIM.
    Verify,
    /// The run RUN against AIM.
    Replay,
    /// The module of `n`, searched with so many workers.
    Gen { n: u32, workers: u32 },
}

/// The command that the words behind the program's name ask for. Options stand in the order of the
/// usage line, each at most once; a number is decimal, without sign or leading zero, and in its range.
#[tactic(auto, unfolding(crate::specs::Commands::command_of))]
pub fn read_command(words: &Words) -> Option<Command>
    ensures { result ≡ command_of words.now }
{
    let command = word(words, 0).as_bytes();
    if command == b"check".as_slice() {
        return with_words(words, 2, Command::Check);
    }
    if command == b"search".as_slice() {
        return read_search(words);
    }
    if command == b"verify".as_slice() {
        return with_words(words, 4, Command::Verify);
    }
    if command == b"replay".as_slice() {
        return with_words(words, 4, Command::Replay);
    }
    if command == b"gen".as_slice() {
        return read_gen(words);
    }
    None
}

/// The word at a place, or the empty one.
pub(crate) fn word(words: &Words, at: usize) -> &str
    ensures { result.now ≡ word_at words.now at }
{
    match words.get(at) {
        Some(word) => word.as_str(),
        None => "",
    }
}

// A command that has so many words, its own among them.
fn with_words(words: &Words, count: usize, command: Command) -> Option<Command>
    ensures { result ≡ with_words count command words.now }
{
    if words.len() != count {
        return None;
    }
    Some(command)
}

fn read_search(words: &Words) -> Option<Command>
    ensures { result ≡ search_of words.now }
{
    let (budget, at) = budget_at(words, 3)?;
    let (workers, at) = workers_at(words, at)?;
    if at != words.len() {
        return None;
    }
    Some(Command::Search { budget, workers })
}

fn read_gen(words: &Words) -> Option<Command>
    ensures { result ≡ gen_of words.now }
{
    let n = numeral_in(word(words, 1).as_bytes(), 1, 1_000)?;
    let (workers, at) = workers_at(words, 2)?;
    if at != words.len() {
        return None;
    }
    Some(Command::Gen { n, workers })
}

// The budget, which may stand at a place, and the place behind it.
fn budget_at(words: &Words, at: usize) -> Option<(u32, usize)>
    requires { at ≤ 5 }
    ensures value { result ≡ option_at words.now budget at }
    ensures within { IfSome result (λ r. r.1 ≤ at + 2) }
{
    option_at(words, at, b"--budget", 0, 100_000, 10_000)
}

// The number of workers, which may stand at a place, and the place behind it.
fn workers_at(words: &Words, at: usize) -> Option<(u32, usize)>
    requires { at ≤ 5 }
    ensures value { result ≡ option_at words.now workers at }
    ensures within { IfSome result (λ r. r.1 ≤ at + 2) }
{
    option_at(words, at, b"--workers", 1, 16, 4)
}

// The number of an option that may stand at a place, from `least` to `most`, and the place behind it.
fn option_at(
    words: &Words,
    at: usize,
    option: &[u8],
    least: u32,
    most: u32,
    usual: u32,
) -> Option<(u32, usize)>
    requires { at ≤ 5 }
    ensures value { result ≡ option_at words.now (record { word = option.now; least = least; most = most; usual = usual }) at }
    ensures within { IfSome result (λ r. r.1 ≤ at + 2) }
{
    if word(words, at).as_bytes() != option {
        return Some((usual, at));
    }
    match numeral_in(word(words, at + 1).as_bytes(), least, most) {
        Some(number) => Some((number, at + 2)),
        None => None,
    }
}
