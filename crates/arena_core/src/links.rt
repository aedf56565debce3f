//! Chains in two flat arrays: the first seat of each literal, and for each seat its neighbours.
ghost use Rattle.std.specs.Prelude.{◌≡◌, ◌≢◌, ◌<◌, ◌≤◌, ◌⊎◌, ◌==◌, if◌then◌else◌, length, slice_index_or, slice_set};
ghost use Rattle.arena_core.specs.Chains.{put_first, taken_out, IsSeated, AreApart};
ghost use Rattle.arena_core.specs.Links.{none, place_in, nexts, befores, owners, chains_of, Keeps};

use crate::lit::Lit;

/// No seat: a number above all of them.
pub const NONE: u32 = 4294967295;

/// The next seat of a seat, the one before, and the literal in whose chain it is, if any.
///
/// A move reads and writes all three, so they lie together.
#[derive(Clone, Copy)]
pub struct Link<L> {
    pub next: u32,
    pub before: u32,
    pub owner: Option<L>,
}

/// Writes the next seat of a seat.
#[inline]
fn set_next<L: Lit>(links: &mut [Link<L>], i: usize, value: u32)
    requires { i < length links.old }
    ensures next { nexts links.new ≡ slice_set (nexts links.old) i value }
    ensures before { befores links.new ≡ befores links.old }
    ensures owner { owners L.table_place links.new ≡ owners L.table_place links.old }
{
    let link = &mut links[i];
    link.next = value;
}

/// Writes the seat before a seat.
#[inline]
fn set_before<L: Lit>(links: &mut [Link<L>], i: usize, value: u32)
    requires { i < length links.old }
    ensures next { nexts links.new ≡ nexts links.old }
    ensures before { befores links.new ≡ slice_set (befores links.old) i value }
    ensures owner { owners L.table_place links.new ≡ owners L.table_place links.old }
{
    let link = &mut links[i];
    link.before = value;
}

/// Writes the literal of a seat.
#[inline]
fn set_owner<L: Lit>(links: &mut [Link<L>], i: usize, value: Option<L>)
    requires { i < length links.old }
    ensures next { nexts links.new ≡ nexts links.old }
    ensures before { befores links.new ≡ befores links.old }
    ensures owner { owners L.table_place links.new
        ≡ slice_set (owners L.table_place links.old) i (place_in L.table_place value) }
{
    let link = &mut links[i];
    link.owner = value;
}

/// The link of a seat.
#[inline]
fn link_at<L: Lit>(links: &[Link<L>], i: usize) -> Link<L>
    requires { i < length links.now }
    ensures next { result.next ≡ slice_index_or (nexts links.now) i none }
    ensures before { result.before ≡ slice_index_or (befores links.now) i none }
    ensures owner { place_in L.table_place result.owner ≡ slice_index_or (owners L.table_place links.now) i none }
{
    links[i]
}

/// A seat goes first in the chain of a literal.
#[inline]
pub(crate) fn link_in<L: Lit>(heads: &mut [u32], links: &mut [Link<L>], seat: u32, literal: L)
    requires held { Keeps L.table_place heads.old links.old }
    requires place { L.table_place literal < length heads.old }
    requires seat { seat < length links.old }
    requires free { slice_index_or (owners L.table_place links.old) seat none ≡ none }
    ensures held { Keeps L.table_place heads.new links.new }
    ensures chains { chains_of heads.new links.new
        ≡ put_first (chains_of heads.old links.old) (L.table_place literal) seat }
{
    let s = seat as usize;
    let place = literal.place() as usize;
    let head = heads[place];
    set_next(links, s, head);
    set_before(links, s, NONE);
    set_owner(links, s, Some(literal));
    heads[place] = seat;
    if head != NONE {
        set_before(links, head as usize, seat);
    }
}

/// Writes the next seat of a seat, if it is one.
#[inline]
fn put_next<L: Lit>(links: &mut [Link<L>], i: u32, value: u32)
    requires seat { (i < length links.old) ⊎ (i ≡ none) }
    requires few { length links.old ≤ none }
    ensures next { nexts links.new ≡ slice_set (nexts links.old) i value }
    ensures before { befores links.new ≡ befores links.old }
    ensures owner { owners L.table_place links.new ≡ owners L.table_place links.old }
{
    if i != NONE {
        set_next(links, i as usize, value);
    }
}

/// Writes the seat before a seat, if it is one.
#[inline]
fn put_before<L: Lit>(links: &mut [Link<L>], i: u32, value: u32)
    requires seat { (i < length links.old) ⊎ (i ≡ none) }
    requires few { length links.old ≤ none }
    ensures next { nexts links.new ≡ nexts links.old }
    ensures before { befores links.new ≡ slice_set (befores links.old) i value }
    ensures owner { owners L.table_place links.new ≡ owners L.table_place links.old }
{
    if i != NONE {
        set_before(links, i as usize, value);
    }
}

/// Writes the first seat of a literal, if no seat is before.
#[inline]
fn put_head(heads: &mut [u32], place: usize, before: u32, value: u32)
    requires { place < length heads.old }
    ensures { heads.new ≡ (if before == none then slice_set heads.old place value else heads.old) }
{
    if before == NONE {
        heads[place] = value;
    }
}

/// A seat leaves its chain.
#[inline]
fn unlink_from<L: Lit>(heads: &mut [u32], links: &mut [Link<L>], seat: u32)
    requires held { Keeps L.table_place heads.old links.old }
    requires seat { seat < length links.old }
    requires owned { slice_index_or (owners L.table_place links.old) seat none ≢ none }
    ensures held { Keeps L.table_place heads.new links.new }
    ensures chains { chains_of heads.new links.new ≡ taken_out (chains_of heads.old links.old) seat }
    ensures free { slice_index_or (owners L.table_place links.new) seat none ≡ none }
{
    let s = seat as usize;
    let link = link_at(links, s);
    let place = link.owner.unwrap().place() as usize;
    put_head(heads, place, link.before, link.next);
    put_next(links, link.before, link.next);
    put_before(links, link.next, link.before);
    set_owner(links, s, None);
}

/// A seat leaves its chain and goes first in that of a literal.
#[inline]
pub(crate) fn move_in<L: Lit>(heads: &mut [u32], links: &mut [Link<L>], seat: u32, literal: L)
    requires held { Keeps L.table_place heads.old links.old }
    requires place { L.table_place literal < length heads.old }
    requires seated { IsSeated (chains_of heads.old links.old) seat }
    ensures held { Keeps L.table_place heads.new links.new }
    ensures chains { chains_of heads.new links.new
        ≡ put_first (taken_out (chains_of heads.old links.old) seat) (L.table_place literal) seat }
    ensures apart { AreApart (chains_of heads.new links.new) }
{
    unlink_from(heads, links, seat);
    link_in(heads, links, seat, literal);
}
