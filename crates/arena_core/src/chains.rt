//! For each literal a chain of the seats that watch it.
ghost use Rattle.std.specs.Prelude.{◌≡◌, ◌*◌, ◌/◌, ◌<◌, ◌≤◌, length, slice_get, OnErr, OnOk, IfOk, replicate, max, [], Contains};
ghost use Rattle.arena_core.specs.declared.lit.TheConstants.{MOST_VARIABLES};
ghost use Rattle.arena_core.specs.Chains.{chain_at, put_first, taken_out, IsSeated, IsNext, AreApart};

use crate::links::{Link, NONE, link_in, move_in};
use crate::lit::Lit;
use crate::seat::{MOST_SEATS, Seat};
use std::alloc::{AllocError, Global};
use std::marker::Model;

/// One list of seats for each place of a literal, linked both ways, and room for the seats of `room` clauses.
///
/// A seat is in one chain at most. Only `new` and `reserve` take memory; the other calls take constant time.
#[derive(Drop)]
pub struct Chains<L: Lit> {
    heads: Vec<u32>,
    links: Vec<Link<L>>,
    room: u32,
}

impl<L: Lit> Model for Chains<L> {
    ghost use Rattle.arena_core.specs.Chains.{Chained};

    ghost Value = { Chained };

    ghost use Rattle.arena_core.specs.Links.{chains_of, HasRoom};

    ghost view = { λ a. record { chains = chains_of a.heads.items a.links.items; room = a.room } };

    ghost invariant = { λ a. HasRoom L.table_place a.heads.items a.links.items a.room };
}

impl<L: Lit> Chains<L> {
    /// Empty chains for the literals of variables below `variables`, and no room.
    pub fn new(alloc: Global, variables: u32) -> Result<Chains<L>, AllocError>
        requires { variables ≤ MOST_VARIABLES }
        ensures chains { IfOk result (λ c. c.chains ≡ replicate (2 * variables) []) }
        ensures room { IfOk result (λ c. c.room ≡ 0) }
    {
        let heads = Vec::from_elem(alloc, NONE, 2 * variables as usize)?;
        Ok(Chains {
            heads,
            links: Vec::new(alloc),
            room: 0,
        })
    }

    /// Makes room for the seats of the clauses below `clauses`, and never less than there was.
    ///
    /// The vector doubles when it is full, so that asking again with each clause costs constant time a clause.
    pub fn reserve(&mut self, clauses: u32) -> Result<(), AllocError>
        ensures chains { self.new.chains ≡ self.old.chains }
        ensures ok { OnOk result (self.new.room ≡ max self.old.room clauses) }
        ensures err { OnErr result (self.new.room ≡ self.old.room) }
    {
        if clauses > self.room {
            let size = (2 * clauses as usize).min(MOST_SEATS as usize);
            let free = Link {
                next: NONE,
                before: NONE,
                owner: None,
            };
            self.links.resize(size, free)?;
            self.room = clauses;
        }
        Ok(())
    }

    /// A seat that is in no chain goes first in the chain of a literal.
    #[inline]
    pub fn link(&mut self, seat: Seat, literal: L)
        requires free { IsSeated self.old.chains seat → ⊥ }
        requires room { seat / 2 < self.old.room }
        requires place { L.table_place literal < length self.old.chains }
        ensures chains { self.new.chains ≡ put_first self.old.chains (L.table_place literal) seat }
        ensures room { self.new.room ≡ self.old.room }
    {
        link_in(
            self.heads.as_mut_slice(),
            self.links.as_mut_slice(),
            seat.slot(),
            literal,
        );
    }

    /// A seat leaves its chain, whose other seats keep their order, and goes first in the chain of `to`.
    #[inline]
    pub fn move_seat(&mut self, seat: Seat, to: L)
        requires seated { IsSeated self.old.chains seat }
        requires place { L.table_place to < length self.old.chains }
        ensures chains { self.new.chains ≡ put_first (taken_out self.old.chains seat) (L.table_place to) seat }
        ensures room { self.new.room ≡ self.old.room }
    {
        move_in(
            self.heads.as_mut_slice(),
            self.links.as_mut_slice(),
            seat.slot(),
            to,
        );
    }

    /// The first seat of a literal's chain; None exactly when the chain is empty.
    #[inline]
    pub fn first(&self, literal: L) -> Option<Seat>
        requires { L.table_place literal < length self.now.chains }
        ensures value { result ≡ slice_get (chain_at self.now.chains (L.table_place literal)) 0 }
        ensures apart { AreApart self.now.chains }
    {
        let number = self.heads[literal.place() as usize];
        if number == NONE {
            None
        } else {
            Some(Seat::at(number))
        }
    }

    /// The literal in whose chain a seat is.
    #[inline]
    pub fn literal_of(&self, seat: Seat) -> L
        requires { IsSeated self.now.chains seat }
        ensures { Contains (chain_at self.now.chains (L.table_place result)) seat }
    {
        self.links[seat.slot() as usize].owner.unwrap()
    }

    /// The seat after a seat in its chain; None exactly when it is the last.
    #[inline]
    pub fn next(&self, seat: Seat) -> Option<Seat>
        requires { IsSeated self.now.chains seat }
        ensures value { IsNext self.now.chains seat result }
        ensures apart { AreApart self.now.chains }
    {
        let number = self.links[seat.slot() as usize].next;
        if number == NONE {
            None
        } else {
            Some(Seat::at(number))
        }
    }
}
