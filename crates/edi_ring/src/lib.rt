//! `M` lists over the nodes `0` to `N - 1`, each kept in a fixed array in its order. `N` is at most 256, so that a node is a byte.
#![tactic(auto)]

ghost use Rattle.std.specs.Prelude.{◌≡◌, ℕ, ◌+◌, ◌-◌, ◌<◌, ◌≤◌, ◌==◌, ◌^◌, if◌then◌else◌, Some, None, [], length, replicate, IsSome, IfSome, slice_get, slice_index_or, slice_set};
ghost use Rattle.std.specs.Option.{ForSome};
ghost use Rattle.edi_ring.specs.Lists.{list_at, home_of, appended, without, IsSound};
ghost use Rattle.edi_ring.specs.Links.{no_row, row_at, nodes_of, end_of, at_front, roomy, lengthened, shortened, rest_of, IsAmong, IsShort};

use std::marker::Model;

/// A number or none, in one word: 0 is none, and every other word is the number plus 1. Contracts see an `Option`.
#[derive(Clone, Copy, Debug)]
struct Link {
    word: usize,
}

impl Model for Link {
    ghost use Rattle.std.specs.Prelude.{ℕ, Option};
    ghost use Rattle.edi_ring.specs.Words.{number_in, word_of, word_of-number_in};

    ghost Value = { Option ℕ };

    ghost view = { λ s. number_in s.word };

    ghost inverse = { λ o. record { word = word_of o } };

    ghost inverse_ok = { λ s h i. record { word = word_of-number_in s.word i } };
}

impl Link {
    #[inline(always)]
    fn none() -> Link
        ensures { result ≡ None }
    {
        Link { word: 0 }
    }

    #[inline(always)]
    fn to(number: usize) -> Link
        requires { number + 1 < 2 ^ 64 }
        ensures { result ≡ Some number }
    {
        Link { word: number + 1 }
    }

    #[inline(always)]
    fn number(self) -> Option<usize>
        ensures { result ≡ self }
    {
        if self.word == 0 {
            return None;
        }
        Some(self.word - 1)
    }

    // The number, which is there, so no test is made.
    #[inline(always)]
    fn there(self) -> usize
        requires { IsSome self }
        ensures { self ≡ Some result }
    {
        self.word - 1
    }
}

/// As many nodes there are at most.
const PLACES: usize = 256;

/// The nodes of one list, from the front to the back: `len` of these, from `start` on.
#[derive(Clone, Copy, Debug)]
struct Row {
    nodes: [u8; PLACES],
    start: usize,
    len: usize,
}

/// `M` lists of nodes. A node is a number below `N`, and it stands in one list at most.
///
/// Contracts see the lists themselves, each as the list of its nodes from the front to the back. No call allocates. `take_at`, `take` and
/// `to_back` move the nodes behind the one that they take away; `take` and `to_back` look for it first. `push_back` moves all nodes of a
/// list to the front where the last place of its array is taken. All others take a few steps.
#[derive(Debug, Drop)]
pub struct Lists<const N: usize, const M: usize> {
    rows: [Row; M],
    home: [Link; N],
}

// The link that is kept at a node.
#[tactic(auto, using(crate::proofs::Elements::link_there))]
#[inline(always)]
fn link_at<const N: usize>(links: &[Link; N], node: usize) -> Link
    requires { node < N }
    ensures { result ≡ slice_index_or links.now node None }
{
    links[node]
}

// The node at an index of a list.
#[inline(always)]
fn node_at<const M: usize>(rows: &[Row; M], list: usize, i: usize) -> usize
    requires list_in_range { list < M }
    requires short { IsShort 256 (row_at rows.now list) }
    requires there { i < (row_at rows.now list).len }
    ensures { slice_get (nodes_of (row_at rows.now list)) i ≡ Some result }
{
    usize::from(rows[list].nodes[rows[list].start + i])
}

// How many nodes a list has.
#[inline(always)]
fn len_at<const M: usize>(rows: &[Row; M], list: usize) -> usize
    requires { list < M }
    ensures { result ≡ (row_at rows.now list).len }
{
    rows[list].len
}

// Moves the nodes of a row to the front of its array.
#[inline(never)]
fn move_to_front(row: &mut Row)
    requires { IsShort 256 row.old }
    ensures { row.new ≡ at_front row.old }
{
    row.nodes.copy_within(row.start..row.start + row.len, 0);
    row.start = 0;
}

// Has a place behind the last node of a row.
#[inline(always)]
fn make_room(row: &mut Row)
    requires short { IsShort 256 row.old }
    requires room { row.old.len < 256 }
    ensures is { row.new ≡ roomy row.old }
    ensures room { end_of row.new < 256 }
{
    if row.start + row.len == PLACES {
        move_to_front(row);
    }
}

// Puts the node behind the last one of a row.
#[inline(always)]
fn lengthen(row: &mut Row, node: usize)
    requires short { IsShort 256 row.old }
    requires room { row.old.len < 256 }
    requires small { node < 256 }
    ensures { row.new ≡ lengthened row.old node }
{
    make_room(row);
    // Read once: LLVM does not know that the byte which is written is none of it.
    let len = row.len;
    row.nodes[row.start + len] = node as u8;
    row.len = len + 1;
}

// The same of a row among others.
#[inline(always)]
fn lengthen_in<const M: usize>(rows: &mut [Row; M], list: usize, node: usize)
    requires list_in_range { list < M }
    requires short { IsShort 256 (row_at rows.old list) }
    requires room { (row_at rows.old list).len < 256 }
    requires small { node < 256 }
    ensures { rows.new ≡ slice_set rows.old list (lengthened (row_at rows.old list) node) }
{
    lengthen(&mut rows[list], node);
}

// Takes the node at an index out of a row: those behind it go one place to the front.
#[inline(always)]
fn shorten(row: &mut Row, i: usize)
    requires short { IsShort 256 row.old }
    requires there { i < row.old.len }
    ensures { row.new ≡ shortened row.old i }
{
    let part = &mut row.nodes[row.start + i..row.start + row.len];
    part.copy_within(1.., 0);
    row.len -= 1;
}

// The same of a row among others.
#[inline(always)]
fn shorten_in<const M: usize>(rows: &mut [Row; M], list: usize, i: usize)
    requires list_in_range { list < M }
    requires short { IsShort 256 (row_at rows.old list) }
    requires there { i < (row_at rows.old list).len }
    ensures { rows.new ≡ slice_set rows.old list (shortened (row_at rows.old list) i) }
{
    shorten(&mut rows[list], i);
}

// Takes the first node out of a row.
#[inline(always)]
fn shorten_front(row: &mut Row)
    requires short { IsShort 256 row.old }
    requires some { 0 < row.old.len }
    ensures { row.new ≡ rest_of row.old }
{
    row.start += 1;
    row.len -= 1;
}

// The same of a row among others.
#[inline(always)]
fn shorten_front_in<const M: usize>(rows: &mut [Row; M], list: usize)
    requires list_in_range { list < M }
    requires short { IsShort 256 (row_at rows.old list) }
    requires some { 0 < (row_at rows.old list).len }
    ensures { rows.new ≡ slice_set rows.old list (rest_of (row_at rows.old list)) }
{
    shorten_front(&mut rows[list]);
}

impl<const N: usize, const M: usize> Model for Lists<N, M> {
    ghost use Rattle.std.specs.Prelude.{ℕ, List};
    ghost use Rattle.edi_ring.specs.Links.{lists_in, IsListed};

    ghost Value = { List (List ℕ) };

    ghost view = { λ s. lists_in s.rows };

    ghost invariant = { λ s. IsListed s.home s.rows (lists_in s.rows) };
}

impl<const N: usize, const M: usize> Lists<N, M> {
    /// All lists empty.
    pub fn new() -> Self
        requires { N ≤ 256 }
        ensures exact { result ≡ replicate M [] }
        ensures sound { IsSound N M result }
    {
        let none = Link::none();
        let empty = Row {
            nodes: [0; PLACES],
            start: 0,
            len: 0,
        };
        Lists {
            rows: [empty; M],
            home: [none; N],
        }
    }

    /// Puts the node, which is in no list, at the back of the list.
    pub fn push_back(&mut self, list: usize, node: usize)
        requires list_in_range { list < M }
        requires node_in_range { node < N }
        requires free { home_of self.old node ≡ None }
        ensures exact { self.new ≡ appended self.old list node }
        ensures homes { (q : ℕ) → home_of self.new q ≡ (if q == node then Some list else home_of self.old q) }
        ensures sound { IsSound N M self.new }
    {
        let home = Link::to(list);
        self.home[node] = home;
        lengthen_in(&mut self.rows, list, node);
    }

    /// Removes the node, which is in a list, from there.
    pub fn take(&mut self, node: usize)
        requires node_in_range { node < N }
        requires listed { IsSome (home_of self.old node) }
        ensures exact { self.new ≡ without self.old node }
        ensures homes { (q : ℕ) → home_of self.new q ≡ (if q == node then None else home_of self.old q) }
        ensures sound { IsSound N M self.new }
    {
        let list = link_at(&self.home, node).there();
        let at = self.place(list, node);
        let _node = self.take_at(list, at);
    }

    /// Removes the first node of the list, which has one, from there.
    pub fn take_front(&mut self, list: usize) -> usize
        requires list_in_range { list < M }
        requires some { 0 < length (list_at self.old list) }
        ensures was { slice_get (list_at self.old list) 0 ≡ Some result }
        ensures exact { self.new ≡ without self.old result }
        ensures homes { (q : ℕ) → home_of self.new q ≡ (if q == result then None else home_of self.old q) }
        ensures sound { IsSound N M self.new }
    {
        let node = self.at(list, 0);
        let none = Link::none();
        shorten_front_in(&mut self.rows, list);
        self.home[node] = none;
        node
    }

    /// Removes the node at index `i` of the list, which has one there, from there; counted from 0 at the front.
    pub fn take_at(&mut self, list: usize, i: usize) -> usize
        requires list_in_range { list < M }
        requires there { i < length (list_at self.old list) }
        ensures was { slice_get (list_at self.old list) i ≡ Some result }
        ensures within { result < N }
        ensures exact { self.new ≡ without self.old result }
        ensures homes { (q : ℕ) → home_of self.new q ≡ (if q == result then None else home_of self.old q) }
        ensures sound { IsSound N M self.new }
    {
        let node = self.at(list, i);
        let none = Link::none();
        shorten_in(&mut self.rows, list, i);
        self.home[node] = none;
        node
    }

    /// Makes the node, which is in a list, the last of that list.
    pub fn to_back(&mut self, node: usize)
        requires node_in_range { node < N }
        requires listed { IsSome (home_of self.old node) }
        ensures exact { IfSome (home_of self.old node) (λ list. self.new ≡ appended (without self.old node) list node) }
        ensures homes { (q : ℕ) → home_of self.new q ≡ home_of self.old q }
        ensures sound { IsSound N M self.new }
    {
        let list = link_at(&self.home, node).there();
        self.take(node);
        self.push_back(list, node);
    }

    /// The first node of the list; `None` exactly where the list is empty.
    pub fn front(&self, list: usize) -> Option<usize>
        requires { list < M }
        ensures exact { result ≡ slice_get (list_at self.now list) 0 }
        ensures sound { IsSound N M self.now }
    {
        self.nth(list, 0)
    }

    /// The node at index `i` of the list, counted from 0 at the front; `None` exactly where the
    /// list has no node there.
    #[tactic(auto, using(crate::proofs::Calls::past_end))]
    pub fn nth(&self, list: usize, i: usize) -> Option<usize>
        requires { list < M }
        ensures exact { result ≡ slice_get (list_at self.now list) i }
        ensures sound { IsSound N M self.now }
    {
        if i < self.len(list) {
            return Some(self.at(list, i));
        }
        None
    }

    // Where the node stands in its list.
    fn place(&self, list: usize, node: usize) -> usize
        requires list_in_range { list < M }
        requires listed { IsAmong node (list_at self.now list) }
        ensures { slice_get (list_at self.now list) result ≡ Some node }
    {
        let len = self.len(list);
        for i in 0..len {
            if self.at(list, i) == node {
                return i;
            }
        }
        unreachable!()
    }

    /// The node at index `i` of the list, which has one there; counted from 0 at the front.
    pub fn at(&self, list: usize, i: usize) -> usize
        requires list_in_range { list < M }
        requires there { i < length (list_at self.now list) }
        ensures exact { slice_get (list_at self.now list) i ≡ Some result }
        ensures within { result < N }
        ensures sound { IsSound N M self.now }
    {
        node_at(&self.rows, list, i)
    }

    /// How many nodes the list has.
    pub fn len(&self, list: usize) -> usize
        requires { list < M }
        ensures exact { result ≡ length (list_at self.now list) }
        ensures bound { result ≤ N }
        ensures sound { IsSound N M self.now }
    {
        len_at(&self.rows, list)
    }

    /// The list that has the node; `None` exactly where no list has it.
    pub fn home(&self, node: usize) -> Option<usize>
        requires { node < N }
        ensures exact { result ≡ home_of self.now node }
        ensures sound { IsSound N M self.now }
    {
        link_at(&self.home, node).number()
    }
}
