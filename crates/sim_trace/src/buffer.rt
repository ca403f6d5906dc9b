//! Where a line is put together.
ghost use Rattle.std.specs.Prelude.{◌≡◌, ◌+◌, ◌<◌, ◌≤◌, [], ◌∷◌, ◌++◌, length, decimal};
ghost use Rattle.sim_trace.specs.Begins.{event_begin};

use crate::digits::{Leading, digit_count, put_digits};
use crate::words::{append_number, append_signed_digits};
use itoa::write_digits;
use sim_types::EventId;
use std::marker::Model;

/// No line is longer, in bytes.
pub(crate) const LONGEST_LINE: usize = 256;

/// What the line of an event begins with, and where that ends.
#[derive(Clone, Copy)]
struct Begin {
    time: i64,
    priority: u8,
    end: usize,
}

/// A line, as bytes. It takes no memory.
#[derive(Drop)]
pub struct LineBuf {
    bytes: [u8; LONGEST_LINE],
    /// How many of them are the line.
    count: usize,
    /// What it begins with, where it is that of an event: the next one mostly begins so too, and then it stays.
    begin: Option<Begin>,
    /// The leading digits of the number and of the event in the line of an event: those of the next one are mostly the same.
    number: Leading,
    event: Leading,
}

impl Model for LineBuf {
    ghost use Rattle.std.specs.Prelude.{List, ℕ, ◌≤◌, take};
    ghost use Rattle.std.specs.Option.{IfSome};
    ghost use Rattle.sim_trace.specs.Begins.{BeginsWith};

    ghost Value = { List ℕ };

    ghost view = { λ a. take a.count a.bytes };

    ghost invariant = { λ a. (a.count ≤ 256) × IfSome a.begin (BeginsWith (take a.count a.bytes)) };
}

impl LineBuf {
    /// An empty line.
    pub fn new() -> LineBuf
        ensures { result ≡ [] }
    {
        LineBuf {
            bytes: [0; LONGEST_LINE],
            count: 0,
            begin: None,
            number: Leading::new(),
            event: Leading::new(),
        }
    }

    /// The bytes that were put last.
    pub fn bytes(&self) -> &[u8]
        ensures { result.now ≡ self.now }
    {
        &self.bytes[..self.count]
    }

    /// Begins a line with this word, in place of the one that stood there.
    pub(crate) fn begin(&mut self, word: &[u8])
        requires { length word.now ≤ 256 }
        ensures { self.new ≡ word.now }
    {
        self.begin = None;
        self.count = 0;
        self.append(word);
    }

    /// Begins the line of an event with its time and its priority, in place of the one that stood there.
    pub(crate) fn begin_event(&mut self, time: i64, priority: u8)
        ensures items { self.new ≡ event_begin time priority }
        ensures len { length self.new ≤ 44 }
    {
        match self.begin {
            Some(begin) if begin.time == time && begin.priority == priority => {
                self.count = begin.end;
            }
            _ => self.write_begin(time, priority),
        }
    }

    /// Writes what the line of an event begins with.
    fn write_begin(&mut self, time: i64, priority: u8)
        ensures items { self.new ≡ event_begin time priority }
        ensures len { length self.new ≤ 44 }
    {
        self.begin(b"@");
        append_signed_digits(time, self);
        append_number(u64::from(priority), self);
        self.push(b' ');
        self.begin = Some(Begin {
            time,
            priority,
            end: self.count,
        });
    }

    pub(crate) fn push(&mut self, byte: u8)
        requires { length self.old < 256 }
        ensures items { self.new ≡ self.old ++ byte ∷ [] }
        ensures length { length self.new ≡ length self.old + 1 }
    {
        self.bytes[self.count] = byte;
        self.count += 1;
    }

    pub(crate) fn append(&mut self, text: &[u8])
        requires { length self.old + length text.now ≤ 256 }
        ensures items { self.new ≡ self.old ++ text.now }
        ensures length { length self.new ≡ length self.old + length text.now }
    {
        let end = self.count + text.len();
        self.bytes[self.count..end].copy_from_slice(text);
        self.count = end;
    }

    /// Appends the digits of a number, written where they stay. Many numbers have just one.
    #[tactic(auto, using(std::proofs::lemmas::Fmt::decimal_digit))]
    pub(crate) fn append_digits(&mut self, number: u64)
        requires { length self.old + 20 ≤ 256 }
        ensures items { self.new ≡ self.old ++ decimal number }
        ensures length { length self.new ≤ length self.old + 20 }
    {
        if number < 10 {
            self.push(b'0' + number as u8);
        } else {
            let end = self.count + digit_count(number);
            write_digits(number, &mut self.bytes, end);
            self.count = end;
        }
    }

    /// Appends the number by which an event was scheduled.
    pub(crate) fn append_number_of_event(&mut self, number: u64)
        requires { length self.old + 22 ≤ 256 }
        ensures items { self.new ≡ self.old ++ decimal number }
        ensures length { length self.new ≤ length self.old + 20 }
    {
        self.count = put_digits(&mut self.number, number, &mut self.bytes, self.count);
    }

    /// Appends the event itself.
    pub(crate) fn append_event(&mut self, event: EventId)
        requires { length self.old + 22 ≤ 256 }
        ensures items { self.new ≡ self.old ++ decimal event.0 }
        ensures length { length self.new ≤ length self.old + 20 }
    {
        self.count = put_digits(&mut self.event, event.0, &mut self.bytes, self.count);
    }
}
