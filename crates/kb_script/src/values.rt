ghost use Rattle.std.specs.Prelude.{◌≡◌, ◌≤◌, ◌<◌, ◌^◌, true, IfOk};
ghost use Rattle.std.specs.Option.{SomeIff};
ghost use Rattle.kb_name.specs.Moments.{last_second};
ghost use Rattle.kb_script.specs.Table.{last_u32};
ghost use Rattle.kb_script.specs.Words.{is_digits, is_number, value, number_answer, data_answer, seed_answer};
ghost use Rattle.kb_script.specs.Gives.{GivesLine};

use super::faults::{LineFault, Why};
use hex::FromHex;
use kb_name::{Moment, unescape};
use kb_ops::Bytes;
use std::alloc::Global;

fn is_number(word: &str) -> bool
    ensures { result ≡ is_number word.now }
{
    let digits = word.as_bytes();
    is_all_digits(digits) && !digits.is_empty() && (digits.len() == 1 || digits[0] != b'0')
}

/// The number that a word is, from `low` to `high`.
pub fn number(word: &str, low: u64, high: u64) -> Result<u64, LineFault>
    ensures value { GivesLine (λ n. n) result (number_answer low high word.now) }
    ensures above { IfOk result (λ n. low ≤ n) }
    ensures below { IfOk result (λ n. n ≤ high) }
{
    if !is_number(word) {
        return Err(LineFault::Bad(Why::Number));
    }
    let Some(n) = parsed(word) else {
        return Err(LineFault::Bad(Why::Number));
    };
    if low <= n && n <= high {
        Ok(n)
    } else {
        Err(LineFault::Bad(Why::Number))
    }
}

fn parsed(word: &str) -> Option<u64>
    requires { is_number word.now ≡ true }
    ensures { SomeIff result (value word.now < 2 ^ 64) (value word.now) }
{
    word.parse::<u64>().ok()
}

fn is_all_digits(word: &[u8]) -> bool
    ensures { result ≡ is_digits word.now }
{
    word.iter().all(|b| b.is_ascii_digit())
}

/// A number of bytes.
pub fn small(word: &str) -> Result<u32, LineFault>
    ensures { GivesLine (λ n. n) result (number_answer 0 last_u32 word.now) }
{
    let n = number(word, 0, 4_294_967_295)?;
    Ok(n as u32)
}

pub fn moment(word: &str) -> Result<Moment, LineFault>
    ensures { GivesLine (λ m. m) result (number_answer 0 last_second word.now) }
{
    let seconds = number(word, 0, 253_402_300_799)?;
    match Moment::new(seconds) {
        Some(moment) => Ok(moment),
        None => Err(LineFault::Bad(Why::Number)),
    }
}

/// The bytes of a data word: `=` and percent-escaped bytes.
pub fn data(alloc: Global, word: &str) -> Result<Bytes, LineFault>
    ensures { GivesLine (λ b. b) result (data_answer word.now) }
{
    match word.as_bytes() {
        [b'=', rest @ ..] => {
            let bytes = unescape(alloc, rest)?;
            Ok(Bytes::new(bytes))
        }
        _ => Err(LineFault::Bad(Why::Choice)),
    }
}

/// The bytes of a seed: 64 hexadecimal digits.
pub fn seed_word(word: &str) -> Result<[u8; 32], LineFault>
    ensures { GivesLine (λ s. s) result (seed_answer word.now) }
{
    match <[u8; 32] as FromHex>::from_hex(word) {
        Ok(seed) => Ok(seed),
        Err(_) => Err(LineFault::Bad(Why::Hex)),
    }
}
