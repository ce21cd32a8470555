//! What bench/run.sh times from outside.
//!
//! `bench N [D [WAY]]` calls `next_in_box` on boxes and addresses from a fixed generator, N times for each number of
//! dimensions (or for D alone), and prints a checksum of the answers, which bench/checksum.py finds by another way. WAY
//! `bits` takes `next_by_bits` instead, `making` makes the boxes and addresses alone, `events` calls `least_value` on one box and
//! spans like the regions of 200,000 rows, `interleave` makes addresses of points, and `spread` points of addresses.
//!
//! `bench pages D N` reads a page of 64 rows with D dimensions and one measure into one region N times, filters it by a box each time,
//! and prints a checksum of the masks.
//!
//! `bench` alone does what the lines of standard input ask for, each of which has such words.
#![tactic(auto)]

mod addresses;
mod events;
mod generator;
mod jumps;
mod pages;
mod table;

use addresses::{interleaved, spread_out};
use events::events;
use jumps::{Way, jumped};
use pages::read_and_filter;
use std::{env, io};
use ub_zaddr::Shape;

// The checksum of so many calls, as a word asks for, in a space of this shape.
fn checksum(word: &str, shape: Shape, calls: u64) -> u128 {
    match word {
        "events" => events(shape, calls),
        "interleave" => interleaved(shape, calls),
        "spread" => spread_out(shape, calls),
        "bits" => jumped(Way::Bits, shape, calls),
        "making" => jumped(Way::Making, shape, calls),
        _ => jumped(Way::Words, shape, calls),
    }
}

// The number that a word writes, if it writes one.
fn number(word: &str) -> Option<u64> {
    word.parse::<u64>().ok()
}

// Prints a checksum of the masks of a page that is read so many times.
fn tell_pages<R: Print>(rt: &R, dims: Option<u64>, times: Option<u64>) -> io::Result<()> {
    let dims = dims.unwrap_or(2).clamp(1, 4) as u32;
    match read_and_filter(dims, times.unwrap_or(1)) {
        Ok(sum) => println!(rt; "{sum}"),
        Err(fault) => println!(rt; "! {fault}"),
    }
}

// Prints the checksum of so many calls, for each number of dimensions or for the one asked.
fn tell_checksums<R: Print>(
    rt: &R,
    calls: Option<u64>,
    only: Option<u64>,
    word: &str,
) -> io::Result<()> {
    let calls = calls.unwrap_or(1000);
    for dims in 1..=4u32 {
        let is_asked = only.unwrap_or(u64::from(dims)) == u64::from(dims);
        if let Ok(shape) = Shape::new(dims)
            && is_asked
        {
            println!(rt; "{dims} {}", checksum(word, shape, calls))?;
        }
    }
    Ok(())
}

// The first word of a line, and what is behind it.
fn cut(line: &str) -> (&str, &str) {
    line.split_once(' ').unwrap_or((line, ""))
}

// Does what a line asks for.
fn answer<R: Print>(rt: &R, line: &str) -> io::Result<()> {
    let (first, rest) = cut(line);
    let (second, rest) = cut(rest);
    let (third, _) = cut(rest);
    match first {
        "pages" => tell_pages(rt, number(second), number(third)),
        _ => tell_checksums(rt, number(first), number(second), third),
    }
}

// The words of the command line on one line, or standard input where there are none.
fn asked(rt: &HostRuntime) -> io::Result<String> {
    let mut text = String::new(rt.alloc());
    for word in env::args(rt)?.skip(1) {
        text.push_str(word.as_str()).and(text.push(' '))?;
    }
    if text.is_empty() {
        return io::read_to_string(rt.alloc(), rt.reader());
    }
    Ok(text)
}

fn main(rt: HostRuntime) -> io::Result<()> {
    let text = asked(&rt)?;
    for line in text.as_str().lines() {
        answer(&rt, line)?;
    }
    Ok(())
}
