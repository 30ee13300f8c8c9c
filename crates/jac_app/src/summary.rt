//! What a demo counts.
ghost use Rattle.std.specs.Prelude.{◌≡◌, ◌<◌, ◌-◌, ◌^◌, [], None, if◌then◌else◌};
ghost use Rattle.jac_replies.specs.Refused.{refusal};
ghost use Rattle.jac_app.specs.Demo.{IsBounded, summary_of, summary_after, tally_of, labels_shown, counts_text, sizes_text, summary_line};
ghost use Rattle.jac_replies.specs.Failed.{status_of_stop};
ghost use Rattle.jac_serve_events.specs.Outside.{IsPut, span};

use itoa::Buffer;
use jac_io::{Failed, Sink};
use jac_keep::Stop;
use jac_replies::Answer;
use jac_serve_events::{put, put_five};
use jac_world::Assignment;

/// The numbers of a log: its requests, those of POST and of GET, the bytes of all bodies, and the
/// labels in the audit lines of GETs.
#[derive(Clone, Copy, PartialEq, Eq)]
pub struct Summary {
    pub asks: u64,
    pub posts: u64,
    pub gets: u64,
    pub bytes: u128,
    pub labels: u128,
}

/// The numbers of one answer: the bytes of its body, and the labels in its audit line.
#[derive(Clone, Copy, PartialEq, Eq)]
pub struct Tally {
    pub bytes: usize,
    pub labels: usize,
}

/// The summary of no requests.
pub fn none_counted() -> Summary
    ensures none { result ≡ summary_of [] }
    ensures bounded { IsBounded result }
{
    Summary {
        asks: 0,
        posts: 0,
        gets: 0,
        bytes: 0,
        labels: 0,
    }
}

/// The summary after one more request with this method.
pub fn counted(summary: Summary, method: &[u8], tally: Tally) -> Summary
    requires few { summary.asks < 2 ^ 64 - 1 }
    requires bounded { IsBounded summary }
    ensures more { result ≡ summary_after summary method.now tally }
    ensures bounded { IsBounded result }
{
    let is_post = method == b"POST".as_slice();
    let is_get = method == b"GET".as_slice();
    Summary {
        asks: summary.asks + 1,
        posts: summary.posts + u64::from(is_post),
        gets: summary.gets + u64::from(is_get),
        bytes: summary.bytes + tally.bytes as u128,
        labels: summary.labels + labels_if(is_get, tally.labels),
    }
}

fn labels_if(counts: bool, labels: usize) -> u128
    ensures { result ≡ (if counts then labels else 0) }
{
    if counts { labels as u128 } else { 0 }
}

pub fn tally_of(answer: &Answer) -> Tally
    ensures { result ≡ tally_of answer.now }
{
    Tally {
        bytes: answer.body.as_slice().len(),
        labels: labels_shown(&answer.shown),
    }
}

fn labels_shown(shown: &Option<Assignment>) -> usize
    ensures { result ≡ labels_shown shown.now }
{
    match shown {
        None => 0,
        Some(labels) => labels.as_slice().len(),
    }
}

/// The tally of the answer that is given if memory ran out or the keeper failed.
pub fn failed_tally(stop: Stop) -> Tally
    ensures { result ≡ tally_of (refusal (status_of_stop stop) None) }
{
    Tally {
        bytes: failed_body(stop).len(),
        labels: 0,
    }
}

fn failed_body(stop: Stop) -> &'static [u8]
    ensures { result.now ≡ (refusal (status_of_stop stop) None).body }
{
    match stop {
        Stop::Keeper => b"503 Service Unavailable\n",
        Stop::Memory => b"500 Internal Server Error\n",
    }
}

/// Puts the line of a summary: `asks N posts P gets G bytes B labels L`. It needs no memory.
pub fn put_summary<O: Sink>(out: &mut O, summary: &Summary) -> Result<(), Failed>
    ensures { IsPut (span (O.seen out.old) (O.seen out.new)) (summary_line summary.now) result }
{
    match put_counts(out, summary) {
        Ok(()) => match put_sizes(out, summary) {
            Ok(()) => put(out, b"\n"),
            Err(Failed) => Err(Failed),
        },
        Err(Failed) => Err(Failed),
    }
}

fn put_counts<O: Sink>(out: &mut O, summary: &Summary) -> Result<(), Failed>
    ensures { IsPut (span (O.seen out.old) (O.seen out.new)) (counts_text summary.now) result }
{
    let mut asks_buffer = Buffer::new();
    let mut posts_buffer = Buffer::new();
    let asks = asks_buffer.format(summary.asks);
    let posts = posts_buffer.format(summary.posts);
    put_five(
        out,
        b"asks ",
        asks.as_bytes(),
        b" posts ",
        posts.as_bytes(),
        b" gets ",
    )
}

fn put_sizes<O: Sink>(out: &mut O, summary: &Summary) -> Result<(), Failed>
    ensures { IsPut (span (O.seen out.old) (O.seen out.new)) (sizes_text summary.now) result }
{
    let mut gets_buffer = Buffer::new();
    let mut bytes_buffer = Buffer::new();
    let mut labels_buffer = Buffer::new();
    let gets = gets_buffer.format(summary.gets);
    let bytes = bytes_buffer.format(summary.bytes);
    let labels = labels_buffer.format(summary.labels);
    put_five(
        out,
        gets.as_bytes(),
        b" bytes ",
        bytes.as_bytes(),
        b" labels ",
        labels.as_bytes(),
    )
}
