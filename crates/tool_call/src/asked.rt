ghost use Rattle.std.specs.Prelude.{◌≡◌, ◌≤◌, length, map, string_bytes, Some, IfOk, IfSome};
ghost use Rattle.ecmbx_words.specs.of_scenario_keys.Keys.{is_printed, is_name};
ghost use Rattle.ecmbx_words.specs.Form.{number_in};
ghost use Rattle.tool_call.specs.Asked.{is_ask, ranged_in, index_in, sub_in, fitting, octets_in, upload_of, download_of, read_in, write_in, one_in, two_in, three_in, act_in, asked_with, asked_in, file_in, IsAct, IsAsked};

use ec_fields::{NoMemory, Octets, buffer_of};
use ecmbx_words::number;
use file_store::Name;
use hex::FromHexError;
use object_dictionary::SdoService;
use segment_plan::Service;
use std::alloc::Global;

/// The most octets that a download has.
const MOST: usize = 8000;

/// The lengths that a mailbox may have.
const LEAST_AREA: u16 = 64;

const MOST_AREA: u16 = 1486;

/// What is asked of a slave.
#[derive(Drop)]
pub enum Act {
    /// A service whose words say all of it.
    Whole(Service),
    /// A write of the file of this name, whose octets are in a file of one's own.
    Write(Name),
}

/// A slave behind a gateway: its station, and the lengths of its mailboxes, the one that requests go through and the one for answers.
#[derive(Clone, Copy)]
pub struct Slave {
    pub station: u16,
    pub out_len: u16,
    pub in_len: u16,
}

/// Which slave is asked, and what.
#[derive(Drop)]
pub struct Asked {
    pub slave: Slave,
    pub act: Act,
}

/// Whether the first word is `ask`.
pub fn is_ask(words: &[String]) -> bool
    ensures { result ≡ is_ask (map string_bytes words.now) }
{
    match words {
        [word, ..] => word.as_str() == "ask",
        [] => false,
    }
}

// A number from `least` to `most`.
fn ranged(word: &str, least: u16, most: u16) -> Option<u16>
    ensures value { result ≡ ranged_in least most (number_in word.now) }
    ensures within { IfSome result (λ n. n ≤ most) }
{
    match number(word) {
        Some(number) if u32::from(least) <= number && number <= u32::from(most) => {
            Some(number as u16)
        }
        _ => None,
    }
}

fn index(word: &str) -> Option<u16>
    ensures { result ≡ index_in word.now }
{
    ranged(word, 0, 65_535)
}

fn subindex(word: &str) -> Option<u8>
    ensures { result ≡ sub_in word.now }
{
    match ranged(word, 0, 255) {
        Some(sub) => Some(sub as u8),
        None => None,
    }
}

// So many octets that a download has them.
fn fitting(octets: Octets) -> Option<Octets>
    ensures value { result ≡ fitting (Some octets) }
    ensures within { IfSome result (λ o. (1 ≤ length o) × (length o ≤ 8000)) }
{
    if octets.len() >= 1 && octets.len() <= MOST {
        Some(octets)
    } else {
        None
    }
}

// The octets that pairs of hexadecimal digits write.
fn octets(alloc: Global, word: &str) -> Result<Option<Octets>, NoMemory>
    ensures value { IfOk result (λ o. o ≡ octets_in word.now) }
    ensures within { IfOk result (λ o. IfSome o (λ octets. (1 ≤ length octets) × (length octets ≤ 8000))) }
{
    match hex::decode(alloc, word) {
        Ok(octets) => Ok(fitting(Octets::from_vec(octets))),
        Err(FromHexError::OutOfMemory) => Err(NoMemory),
        Err(_) => Ok(None),
    }
}

fn is_printed(word: &str) -> bool
    ensures { result ≡ is_printed 0x21 word.now }
{
    word.as_bytes().iter().all(|c| 0x21 <= *c && *c <= 0x7E)
}

// A name: 1 to 32 characters from 0x21 to 0x7E.
fn is_name(word: &str) -> bool
    ensures { result ≡ is_name word.now }
{
    let fits = 1 <= word.len() && word.len() <= 32;
    fits && is_printed(word)
}

fn upload(first: &str, second: &str) -> Option<Act>
    ensures value { result ≡ upload_of (index_in first.now) (sub_in second.now) }
    ensures form { IfSome result IsAct }
{
    match (index(first), subindex(second)) {
        (Some(index), Some(sub)) => Some(Act::Whole(Service::Sdo(SdoService::Upload {
            index,
            sub,
        }))),
        _ => None,
    }
}

fn download(alloc: Global, first: &str, second: &str, third: &str) -> Result<Option<Act>, NoMemory>
    ensures value { IfOk result (λ o. o ≡ download_of (index_in first.now) (sub_in second.now) (octets_in third.now)) }
    ensures form { IfOk result (λ o. IfSome o IsAct) }
{
    let octets = octets(alloc, third)?;
    match (index(first), subindex(second), octets) {
        (Some(index), Some(sub), Some(bytes)) => {
            Ok(Some(Act::Whole(Service::Sdo(SdoService::Download { index, sub, bytes }))))
        }
        _ => Ok(None),
    }
}

fn read_file(name: &str) -> Option<Act>
    ensures value { result ≡ read_in name.now }
    ensures form { IfSome result IsAct }
{
    if is_name(name) {
        let name = buffer_of(name.as_bytes());
        Some(Act::Whole(Service::ReadFile { name, pass: 0 }))
    } else {
        None
    }
}

fn write_file(name: &str) -> Option<Act>
    ensures value { result ≡ write_in name.now }
    ensures form { IfSome result IsAct }
{
    if is_name(name) {
        Some(Act::Write(buffer_of(name.as_bytes())))
    } else {
        None
    }
}

// What is to be done, with one argument.
fn one(act: &str, name: &str) -> Option<Act>
    ensures value { result ≡ one_in act.now name.now }
    ensures form { IfSome result IsAct }
{
    if act == "read_file" {
        read_file(name)
    } else {
        None
    }
}

// With two.
fn two(act: &str, first: &str, second: &str) -> Option<Act>
    ensures value { result ≡ two_in act.now first.now second.now }
    ensures form { IfSome result IsAct }
{
    if act == "upload" {
        upload(first, second)
    } else if act == "write_file" {
        write_file(first)
    } else {
        None
    }
}

// With three.
fn three(
    alloc: Global,
    act: &str,
    first: &str,
    second: &str,
    third: &str,
) -> Result<Option<Act>, NoMemory>
    ensures value { IfOk result (λ o. o ≡ three_in act.now first.now second.now third.now) }
    ensures form { IfOk result (λ o. IfSome o IsAct) }
{
    if act == "download" {
        download(alloc, first, second, third)
    } else {
        Ok(None)
    }
}

// What is to be done, and its arguments.
fn act_of(alloc: Global, words: &[String]) -> Result<Option<Act>, NoMemory>
    ensures value { IfOk result (λ o. o ≡ act_in (map string_bytes words.now)) }
    ensures form { IfOk result (λ o. IfSome o IsAct) }
{
    match words {
        [act, name] => Ok(one(act.as_str(), name.as_str())),
        [act, first, second] => Ok(two(act.as_str(), first.as_str(), second.as_str())),
        [act, first, second, third] => {
            three(
                alloc,
                act.as_str(),
                first.as_str(),
                second.as_str(),
                third.as_str(),
            )
        }
        _ => Ok(None),
    }
}

// What is asked of the slave that the words name.
fn asked_with(
    word: &str,
    station: &str,
    out_len: &str,
    in_len: &str,
    act: Option<Act>,
) -> Option<Asked>
    requires { IfSome act IsAct }
    ensures value { result ≡ asked_with word.now station.now out_len.now in_len.now act }
    ensures asked { IfSome result IsAsked }
{
    if word != "ask" {
        return None;
    }
    let station = ranged(station, 1, 65_535);
    let out_len = ranged(out_len, LEAST_AREA, MOST_AREA);
    let in_len = ranged(in_len, LEAST_AREA, MOST_AREA);
    match (station, out_len, in_len, act) {
        (Some(station), Some(out_len), Some(in_len), Some(act)) => {
            let slave = Slave {
                station,
                out_len,
                in_len,
            };
            Some(Asked { slave, act })
        }
        _ => None,
    }
}

/// What the words `ask STATION OUT IN DO ARGS` ask for: the station is 1 to 65,535, OUT and IN are the lengths of its mailboxes, 64 to 1,486, and
/// `DO ARGS` is `upload INDEX SUB`, `download INDEX SUB OCTETS`, `read_file NAME` or `write_file NAME FILE`, with 1 to 8,000 octets in
/// hexadecimal digits and a name of 1 to 32 characters. None of other words.
pub fn asked_of(alloc: Global, words: &[String]) -> Result<Option<Asked>, NoMemory>
    ensures value { IfOk result (λ o. o ≡ asked_in (map string_bytes words.now)) }
    ensures asked { IfOk result (λ o. IfSome o IsAsked) }
{
    match words {
        [word, station, out_len, in_len, act @ ..] => {
            let act = act_of(alloc, act)?;
            Ok(asked_with(
                word.as_str(),
                station.as_str(),
                out_len.as_str(),
                in_len.as_str(),
                act,
            ))
        }
        _ => Ok(None),
    }
}

/// The file that `write_file NAME FILE` loads; no name where the words are others.
pub fn file_of(words: &[String]) -> &str
    ensures { result.now ≡ file_in (map string_bytes words.now) }
{
    match words {
        [_, _, _, _, _, _, file] => file.as_str(),
        _ => "",
    }
}
