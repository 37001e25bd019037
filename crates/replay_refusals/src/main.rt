// Replays the recorded refusals of refusals.txt: says how many calls were replayed, how many answers differ, and how many lines
// could not be read.
//
// A line is: rewrite, schema, predicate, pool, list limit, the four rooms, answer; apart by one space. Bytes are hex, - if there are
// none; XX*N. stands for N times byte XX.
#![tactic(auto)]

ghost use Rattle.std.specs.Prelude.{◌≤◌, ◌<◌, length, IfSome};
ghost use Rattle.replay_refusals.specs.Reading.{Leads};

use predicate::Rooms;
use std::fs::File;
use std::io;
use std::io::Read;
use std::rt::Files;
use walking::Request;

// Bytes at the front of a room of N.
#[derive(Drop)]
struct Buffer<const N: usize> {
    room: [u8; N],
    len: usize,
    ghost inside: { len ≤ N },
}

impl<const N: usize> Buffer<N> {
    fn new() -> Self {
        Buffer {
            room: [0; N],
            len: 0,
        }
    }

    fn bytes(&self) -> &[u8] {
        &self.room[..self.len]
    }

    fn is_full(&self) -> bool {
        self.len == N
    }

    fn clear(&mut self) {
        self.len = 0;
    }

    // Puts a byte behind the others so many times, if there is room.
    fn put(&mut self, byte: u8, times: usize) -> Option<()> {
        if N - self.len < times {
            return None;
        }
        let room = &mut self.room[..];
        room[self.len..self.len + times].fill(byte);
        self.len += times;
        Some(())
    }

    // Puts bytes behind the others, as many as there is room for.
    fn append(&mut self, bytes: &[u8]) {
        let n = bytes.len().min(N - self.len);
        let room = &mut self.room[..];
        room[self.len..self.len + n].copy_from_slice(&bytes[..n]);
        self.len += n;
    }

    // Reads a field's bytes in place of those that it has.
    fn fill(&mut self, field: &[u8]) -> Option<()> {
        self.clear();
        if field == b"-".as_slice() {
            return Some(());
        }
        let mut rest = field;
        while !rest.is_empty() {
            let run = run_of(rest)?;
            self.put(run.byte, run.times)?;
            rest = run.rest;
        }
        Some(())
    }
}

// A byte that a field has so many times, and the field behind it.
#[derive(Clone, Copy)]
struct Run<'a> {
    byte: u8,
    times: usize,
    rest: &'a [u8],
}

// How many lines were replayed, how many of those answer otherwise, and how many could not be read.
#[derive(Drop)]
struct Counts {
    replayed: u64,
    differ: u64,
    unread: u64,
}

// The fields of a line that are bytes. One serves every line: to make one writes a zero in each place of each room.
#[derive(Drop)]
struct Fields {
    schema: Buffer<512>,
    predicate: Buffer<4096>,
    pool: Buffer<66000>,
    answer: Buffer<8>,
}

// A file as it is replayed: the line so far, room for its fields, and the counts of the lines before it.
#[derive(Drop)]
struct Replay {
    line: Buffer<4096>,
    fields: Fields,
    counts: Counts,
}

// A decimal field's number; parse would take a sign too.
fn number_of(field: &[u8]) -> Option<usize> {
    if field.is_empty() {
        return None;
    }
    let mut n: usize = 0;
    for b in field {
        if !b.is_ascii_digit() {
            return None;
        }
        n = n.checked_mul(10)?.checked_add(usize::from(*b - b'0'))?;
    }
    Some(n)
}

// A hex digit's value.
fn digit(b: u8) -> Option<u8>
    ensures { IfSome result (λ d. d < 16) }
{
    match b {
        b'0'..=b'9' => Some(b - b'0'),
        b'A'..=b'F' => Some(b - b'A' + 10),
        _ => None,
    }
}

// The run at the front of a field.
fn run_of(field: &[u8]) -> Option<Run<'_>>
    ensures { Leads 0 (length field.now) result }
{
    let [high, low, rest @ ..] = field else {
        return None;
    };
    let byte = digit(*high)? * 16 + digit(*low)?;
    let Some((b'*', times)) = rest.split_first() else {
        return Some(Run {
            byte,
            times: 1,
            rest,
        });
    };
    let end = times.iter().position(|b| *b == b'.')?;
    Some(Run {
        byte,
        times: number_of(&times[..end])?,
        rest: &times[end + 1..],
    })
}

impl Fields {
    // Calls rewriting's checks, and says whether the answer is the recorded one.
    fn replay(&mut self, line: &[u8]) -> Option<bool> {
        let mut fields = line.split(|b| *b == b' ').skip(1);
        self.schema.fill(fields.next()?)?;
        self.predicate.fill(fields.next()?)?;
        self.pool.fill(fields.next()?)?;
        let mut n = [0; 5];
        for x in &mut n {
            *x = number_of(fields.next()?)?;
        }
        self.answer.fill(fields.next()?)?;
        if !self.answer.is_full() {
            return None;
        }
        let request = Request {
            schema: self.schema.bytes(),
            pool: self.pool.bytes(),
            words: self.predicate.bytes(),
            limit: n[0],
        };
        let rooms = Rooms {
            table: n[1],
            pool: n[2],
            statistics: n[3],
            guarantees: n[4],
        };
        let fault = match checking::rewrite_fault(&request, rooms) {
            Ok(()) => 0,
            Err(refusal) => u8::from(refusal),
        };
        Some(self.answer.room == [fault, 0, 0, 0, 0, 0, 0, 0])
    }
}

impl Counts {
    // Counts a line by what it came to.
    fn count(&mut self, same: Option<bool>) {
        let Some(same) = same else {
            self.unread = self.unread.saturating_add(1);
            return;
        };
        self.replayed = self.replayed.saturating_add(1);
        if !same {
            self.differ = self.differ.saturating_add(1);
        }
    }
}

impl Replay {
    // Ends the line; one that fills its buffer may be longer, and is not read.
    fn end_line(&mut self) {
        let same = if self.line.is_full() {
            None
        } else {
            self.fields.replay(self.line.bytes())
        };
        self.counts.count(same);
        self.line.clear();
    }

    // Takes in a part of the file. Each piece of it but the first begins a line, so it ends the one before.
    fn take(&mut self, part: &[u8]) {
        for (i, piece) in part.split(|b| *b == b'\n').enumerate() {
            if 0 < i {
                self.end_line();
            }
            self.line.append(piece);
        }
    }

    // Takes in a file; its end ends a line too. No file has as many parts as turns are counted.
    fn read(&mut self, file: &mut (impl Read + Drop)) -> io::Result<()> {
        for _ in 0..u64::MAX {
            let mut part = [0u8; 4096];
            let n = file.read(&mut part)?;
            if n == 0 {
                if 0 < self.line.len {
                    self.end_line();
                }
                return Ok(());
            }
            self.take(&part[..n]);
        }
        Ok(())
    }
}

// Replays the file of a name.
fn replay_named(rt: &impl Files, name: &str) -> io::Result<Counts> {
    let mut replay = Replay {
        line: Buffer::new(),
        fields: Fields {
            schema: Buffer::new(),
            predicate: Buffer::new(),
            pool: Buffer::new(),
            answer: Buffer::new(),
        },
        counts: Counts {
            replayed: 0,
            differ: 0,
            unread: 0,
        },
    };
    let mut file = File::open(rt, name)?;
    replay.read(&mut file)?;
    Ok(replay.counts)
}

fn main(rt: HostRuntime) -> io::Result<()> {
    let n = replay_named(&rt, "refusals.txt")?;
    println!(rt;
        "{} replayed, {} differ, {} unread",
        n.replayed, n.differ, n.unread
    )
}
