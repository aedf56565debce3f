//! The bytes that are held until they fill a piece.
ghost use Rattle.std.specs.Prelude.{◌≡◌, ◌+◌, ◌<◌, ◌≤◌, ◌++◌, [], ◌∷◌, length, decimal, OnOk};
ghost use Rattle.chain_core.specs.Literal.{IsPlace};
ghost use Rattle.chain_core.specs.Text.{literal_word};
ghost use Rattle.edge_core.specs.Outside.{Sends};
ghost use Rattle.stream_core.specs.Stream.{Streams};

use chain_core::Literal;
use edge_core::{Failed, Sink, put_all};
use itoa::write_digits;
use std::marker::Model;

/// How many bytes fill a piece: 32 KiB. The word that fills it goes out with it. Only the last piece has fewer bytes.
const PIECE_BYTES: usize = 32_768;

/// The most bytes that are held: room for a piece and for what fills it.
const MOST_HELD: usize = 32_832;

/// Bytes that are not sent yet, in order. They lie in an array, so no memory is taken.
#[derive(Drop)]
pub struct Piece {
    bytes: [u8; MOST_HELD],
    used: usize,
}

impl Model for Piece {
    ghost use Rattle.std.specs.Prelude.{ℕ, List, ◌≤◌, take};
    ghost use Rattle.stream_core.specs.declared.piece.TheConstants.{MOST_HELD};

    ghost Value = { List ℕ };

    ghost view = { λ a. take a.used a.bytes };

    ghost invariant = { λ a. a.used ≤ MOST_HELD };
}

impl Piece {
    /// Nothing is held.
    pub fn new() -> Piece
        ensures { result ≡ [] }
    {
        Piece {
            bytes: [0; MOST_HELD],
            used: 0,
        }
    }

    /// Sends what is held.
    pub fn send<O: Sink>(&mut self, sink: &mut O) -> Result<(), Failed>
        ensures sends { Sends (O.state sink.old) (O.state sink.new) self.old result }
        ensures empty { OnOk result (self.new ≡ []) }
    {
        put_all(sink, &self.bytes[..self.used])?;
        self.used = 0;
        Ok(())
    }

    /// Sends what is held if it fills a piece. Afterwards there is room for 64 bytes more.
    pub fn make_room<O: Sink>(&mut self, sink: &mut O) -> Result<(), Failed>
        ensures streams { Streams (O.state sink.old) (O.state sink.new) self.old self.new [] result }
        ensures room { OnOk result (length self.new + 64 ≤ MOST_HELD) }
    {
        if self.used < PIECE_BYTES {
            return Ok(());
        }
        self.send(sink)
    }

    /// Holds one byte more.
    pub fn add_byte(&mut self, byte: u8)
        requires { length self.old < MOST_HELD }
        ensures { self.new ≡ self.old ++ byte ∷ [] }
    {
        self.bytes[self.used] = byte;
        self.used += 1;
    }

    /// Holds a text more.
    pub fn add_text(&mut self, text: &[u8])
        requires { length self.old + length text.now ≤ MOST_HELD }
        ensures { self.new ≡ self.old ++ text.now }
    {
        let end = self.used + text.len();
        self.bytes[self.used..end].copy_from_slice(text);
        self.used = end;
    }

    /// Holds a number more.
    pub fn add_number(&mut self, number: u32)
        requires { length self.old + 10 ≤ MOST_HELD }
        ensures text { self.new ≡ self.old ++ decimal number }
        ensures short { length self.new ≤ length self.old + 10 }
    {
        let end = self.used + digit_count(number);
        write_digits(u64::from(number), &mut self.bytes, end);
        self.used = end;
    }

    /// Holds a literal more.
    pub fn add_literal(&mut self, literal: Literal)
        requires { length self.old + 11 ≤ MOST_HELD }
        ensures text { self.new ≡ self.old ++ literal_word literal }
        ensures short { length self.new ≤ length self.old + 11 }
        ensures reach { IsPlace literal }
    {
        if literal.has_minus() {
            self.add_byte(b'-');
        }
        self.add_number(literal.variable());
    }
}

/// How many digits a number has.
fn digit_count(number: u32) -> usize
    ensures digits { result ≡ length (decimal number) }
    ensures few { result ≤ 10 }
{
    if number < 100_000 {
        match number {
            0..10 => 1,
            10..100 => 2,
            100..1_000 => 3,
            1_000..10_000 => 4,
            _ => 5,
        }
    } else {
        match number {
            0..1_000_000 => 6,
            1_000_000..10_000_000 => 7,
            10_000_000..100_000_000 => 8,
            100_000_000..1_000_000_000 => 9,
            _ => 10,
        }
    }
}
