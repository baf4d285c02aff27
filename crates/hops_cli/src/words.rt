//! The words of the command line.

ghost use Rattle.std.specs.Prelude.{◌≡◌, true, Some, None, if◌then◌else◌, map};
ghost use Rattle.std.specs.List.{list_all};
ghost use Rattle.std.specs.Str.Parse.{digits_value};
ghost use Rattle.std.specs.String.{string_bytes};
ghost use Rattle.hops_cli.specs.Words.{is_digit, is_number, is_number_in, number_at, ended, gen_asked, asked_by};

/// What the program is asked for.
#[derive(Clone, Copy, Debug, PartialEq, Eq)]
pub enum Command {
    /// `run`: a script is read and run, and its report is written.
    Run,
    /// `gen SEED CLIENTS CALLS`: the script of the seed is written, of so many clients, each with so many calls.
    Gen { seed: u32, clients: u32, calls: u32 },
}

// The most clients of a generated script, and the most calls of each.
const MOST_CLIENTS: u64 = 64;

const MOST_CALLS: u64 = 5_000;

/// What the words ask for. Where they are no command, the place of the first bad word, or how many words there
/// are where one is missing.
pub fn asked_by(words: &[String]) -> Result<Command, u64>
    ensures { result ≡ asked_by (map string_bytes words.now) }
{
    let Some(first) = words.first() else {
        return Err(0);
    };
    if first.as_str() == "run" {
        ended(words, 1, Command::Run)
    } else if first.as_str() == "gen" {
        gen_asked(words)
    } else {
        Err(0)
    }
}

fn gen_asked(words: &[String]) -> Result<Command, u64>
    ensures { result ≡ gen_asked (map string_bytes words.now) }
{
    let seed = number_at(words, 1, 0, u64::from(u32::MAX))?;
    let clients = number_at(words, 2, 1, MOST_CLIENTS)?;
    let calls = number_at(words, 3, 0, MOST_CALLS)?;
    let command = Command::Gen {
        seed: seed as u32,
        clients: clients as u32,
        calls: calls as u32,
    };
    ended(words, 4, command)
}

// The command, where there are no more words than it has.
fn ended(words: &[String], count: usize, command: Command) -> Result<Command, u64>
    ensures { result ≡ ended (map string_bytes words.now) count command }
{
    if words.len() > count {
        return Err(count as u64);
    }
    Ok(command)
}

// The number in this range at a place of the words.
fn number_at(words: &[String], place: usize, lowest: u64, highest: u64) -> Result<u64, u64>
    ensures { result ≡ number_at (map string_bytes words.now) place lowest highest }
{
    match words.get(place) {
        Some(word) => number_in(word.as_str(), lowest, highest).ok_or(place as u64),
        None => Err(place as u64),
    }
}

// The number that a word is, where it is one in this range.
fn number_in(word: &str, lowest: u64, highest: u64) -> Option<u64>
    ensures { result ≡ (if is_number_in lowest highest word.now then Some (digits_value 10 word.now) else None) }
{
    if !is_number(word) {
        return None;
    }
    let number = value_of(word);
    if lowest <= number && number <= highest {
        Some(number)
    } else {
        None
    }
}

// Whether the word is 1 to 10 digits.
fn is_number(word: &str) -> bool
    ensures { result ≡ is_number word.now }
{
    match word.len() {
        1..=10 => has_digits_alone(word.as_bytes()),
        _ => false,
    }
}

fn has_digits_alone(bytes: &[u8]) -> bool
    ensures { result ≡ list_all is_digit bytes.now }
{
    bytes.iter().all(|byte| is_digit(*byte))
}

fn is_digit(byte: u8) -> bool
    ensures { result ≡ is_digit byte }
{
    b'0' <= byte && byte <= b'9'
}

fn value_of(word: &str) -> u64
    requires { is_number word.now ≡ true }
    ensures { result ≡ digits_value 10 word.now }
{
    match word.parse::<u64>() {
        Ok(number) => number,
        Err(_) => unreachable!(),
    }
}
