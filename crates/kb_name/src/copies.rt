ghost use Rattle.std.specs.Prelude.{◌≡◌, ℕ, ◌/◌, ◌^◌, ◌<◌, ◌≤◌, true, IfOk, pos, length, take, drop};
ghost use Rattle.std.specs.String.{string_bytes};
ghost use Rattle.kb_name.specs.Conflicted.{Day, conflicted_text, added, dated, extension, from_last_dot, stem, cut_to, ends_character, day_of, IsDay};
ghost use Rattle.kb_name.specs.Moments.{last_second};
ghost use Rattle.kb_name.specs.Names.{is_name};

use super::moments::Moment;
use super::names::{DeviceName, Name};
use jiff::ToSpan;
use jiff::civil::{Date, date};
use kb_edge::Memory;
use std::alloc::{AllocError, Global};

const LONGEST_NAME: usize = 255;

const LONGEST_EXTENSION: usize = 32;

const FIRST_COPY: u64 = 1;

const SECONDS_OF_DAY: u64 = 86_400;

/// The name of the `k`-th copy of a row, from 1 on: `STEM.conflicted (DEVICE copy YYYY-MM-DD K)EXTENSION`, the first
/// without ` K`. The day is that of the moment in UTC. The extension runs from the last dot that isn't the first
/// byte, if it has at most 32 bytes; the stem is the rest, cut at the end of a character so that the whole has at
/// most 255 bytes.
pub fn conflicted(
    alloc: Global,
    name: &Name,
    device: &DeviceName,
    moment: Moment,
    k: u64,
) -> Result<Name, Memory>
    requires { 1 ≤ k }
    ensures text { IfOk result (λ n. n ≡ conflicted_text name.now device.now moment k) }
    ensures name { is_name (conflicted_text name.now device.now moment k) ≡ true }
    ensures apart { (j : ℕ) → 1 ≤ j → j < 2 ^ 64
        → conflicted_text name.now device.now moment j ≡ conflicted_text name.now device.now moment k
        → j ≡ k }
{
    let text = conflicted_text(alloc, name.bytes(), device.bytes(), moment, k)?;
    Ok(Name::of_text(text))
}

fn conflicted_text(
    alloc: Global,
    name: &[u8],
    device: &[u8],
    moment: Moment,
    k: u64,
) -> Result<Vec<u8>, AllocError>
    requires { 1 ≤ k }
    ensures { IfOk result (λ v. v.items ≡ conflicted_text name.now device.now moment k) }
{
    let added = added(alloc, device, moment, k)?;
    let (stem, extension) = name.split_at(extension_start(name));
    let room = LONGEST_NAME
        .saturating_sub(added.len())
        .saturating_sub(extension.len());
    let mut text = Vec::from_slice(alloc, cut_to(stem, room))?;
    text.extend_from_slice(&added)?;
    text.extend_from_slice(extension)?;
    Ok(text)
}

fn added(alloc: Global, device: &[u8], moment: Moment, k: u64) -> Result<Vec<u8>, AllocError>
    requires { 1 ≤ k }
    ensures { IfOk result (λ v. v.items ≡ added device.now moment k) }
{
    let dated = dated(alloc, day_of(moment), k)?;
    let mut text = Vec::from_slice(alloc, b".conflicted (")?;
    text.extend_from_slice(device)?;
    text.extend_from_slice(dated.as_bytes())?;
    Ok(text)
}

/// ` copy YYYY-MM-DD K)`, the first copy without ` K`.
fn dated(alloc: Global, day: Date, k: u64) -> Result<String, AllocError>
    requires { 1 ≤ k }
    ensures { IfOk result (λ s. (d : Day) → IsDay d day → string_bytes s ≡ dated d k) }
{
    if k == FIRST_COPY {
        return format!(in alloc; " copy {day})");
    }
    format!(in alloc; " copy {day} {k})")
}

fn day_of(moment: Moment) -> Date
    ensures { IsDay (day_of moment) result }
{
    let days = moment.seconds() / SECONDS_OF_DAY;
    match date(1970, 1, 1).checked_add((days as i64).days()) {
        Ok(day) => day,
        Err(_) => unreachable!(),
    }
}

/// Where the extension of a name begins; where it has none, its end.
fn extension_start(name: &[u8]) -> usize
    ensures within { result ≤ length name.now }
    ensures stem { take result name.now ≡ stem name.now }
    ensures extension { drop result name.now ≡ extension name.now }
{
    let start = last_dot(name);
    if name.len() - start <= LONGEST_EXTENSION {
        start
    } else {
        name.len()
    }
}

/// The place of the last dot that isn't the first byte; where there is none, the end.
fn last_dot(name: &[u8]) -> usize
    ensures within { result ≤ length name.now }
    ensures dot { drop result name.now ≡ from_last_dot (drop 1 name.now) }
{
    for i in (1..name.len()).rev() {
        if name[i] == b'.' {
            return i;
        }
    }
    name.len()
}

/// The longest part of a text with at most so many bytes that ends with a character.
fn cut_to(text: &[u8], room: usize) -> &[u8]
    ensures { result.now ≡ cut_to room text.now }
{
    let mut end = text.len().min(room);
    while end > 0 && !ends_character(text, end) {
        end -= 1;
    }
    &text[..end]
}

fn ends_character(text: &[u8], end: usize) -> bool
    ensures { result ≡ ends_character text.now end }
{
    match text.get(end) {
        Some(byte) => !(*byte >= 128 && *byte < 192),
        None => true,
    }
}
