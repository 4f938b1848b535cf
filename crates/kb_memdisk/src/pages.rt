//! A row of bytes in pages, of which only those that were added take memory.
ghost use Rattle.std.specs.Prelude.{◌≡◌, ◌+◌, ◌*◌, ◌≤◌, ◌<◌, ◌^◌, ◌/◌, ◌==◌, ◌&&◌, ◌++◌, [], ◌∷◌, ℕ, None, Some, if◌then◌else◌, length, replicate, vec_capacity, slice_index, IfOk, IfSome, IsSome};
ghost use Rattle.std.specs.Option.{option_map};
ghost use Rattle.kb_edge.specs.Disk.{overlay};
ghost use Rattle.kb_memdisk.specs.Pages.{ArePages, is_there};

use kb_edge::Memory;
use std::alloc::Global;

/// The bytes of a page.
pub const PAGE: usize = 512;

/// Pages, of which those that are there lie one behind the other in the order in which they were added. A page's seat
/// tells where it lies, and counts only where that place names the page, so all pages are dropped at once.
#[derive(Drop)]
pub struct Pages {
    pub seats: Vec<u32>,
    pub order: Vec<u32>,
    pub bytes: Vec<u8>,
    pub ghost are_pages: { ArePages seats.items order.items (length bytes.items) (vec_capacity order) (vec_capacity bytes) },
}

fn put_at(bytes: &mut Vec<u8>, at: usize, part: &[u8])
    requires { at + length part.now ≤ length bytes.old.items }
    ensures items { bytes.new.items ≡ overlay bytes.old.items at part.now }
    ensures room { vec_capacity bytes.new ≡ vec_capacity bytes.old }
{
    bytes[at..at + part.len()].copy_from_slice(part);
}

fn fill_at(bytes: &mut Vec<u8>, at: usize, n: usize, value: u8)
    requires { at + n ≤ length bytes.old.items }
    ensures items { bytes.new.items ≡ overlay bytes.old.items at (replicate n value) }
    ensures room { vec_capacity bytes.new ≡ vec_capacity bytes.old }
{
    bytes[at..at + n].fill(value);
}

// Puts a number behind the others.
fn push_on(order: &mut Vec<u32>, page: u32)
    requires { length order.old.items < vec_capacity order.old }
    ensures items { order.new.items ≡ order.old.items ++ page ∷ [] }
    ensures room { vec_capacity order.old ≤ vec_capacity order.new }
{
    if order.push(page).is_err() {
        unreachable!()
    }
}

// Puts bytes behind the others.
fn append_on(bytes: &mut Vec<u8>, text: &[u8])
    requires { length bytes.old.items + length text.now ≤ vec_capacity bytes.old }
    ensures items { bytes.new.items ≡ bytes.old.items ++ text.now }
    ensures room { vec_capacity bytes.old ≤ vec_capacity bytes.new }
{
    if bytes.extend_from_slice(text).is_err() {
        unreachable!()
    }
}

impl Pages {
    ghost use Rattle.kb_memdisk.specs.Rows.{page_of, count_of};

    /// No page, and room for all of a row of this size.
    #[tactic(auto, using(crate::proofs::Seats::none_in))]
    pub fn new(alloc: Global, size: u32) -> Result<Pages, Memory>
        ensures none { IfOk result (λ pages. (page : ℕ) → page_of pages page ≡ None) }
        ensures count { IfOk result (λ pages. count_of pages ≡ size / 512 + 1) }
    {
        let count = size as usize / PAGE + 1;
        let seats = vec![in alloc; 0u32; count]?;
        let order = Vec::with_capacity(alloc, count)?;
        let bytes = Vec::with_capacity(alloc, count * PAGE)?;
        Ok(Pages {
            seats,
            order,
            bytes,
        })
    }

    // The seat of a page that is there.
    fn seat(&self, page: usize) -> Option<usize>
        requires { page < count_of self.now }
        ensures { result ≡ (if is_there self.now.seats.items self.now.order.items page then Some (slice_index self.now.seats.items page) else None) }
    {
        let seat = self.seats[page] as usize;
        if seat < self.order.len() && self.order[seat] as usize == page {
            return Some(seat);
        }
        None
    }

    /// The bytes of a page that is there.
    #[tactic(auto, unfolding(crate::specs::Pages::page_in))]
    pub fn page(&self, page: usize) -> Option<&[u8]>
        requires { page < count_of self.now }
        ensures found { option_map (λ found. found.now) result ≡ page_of self.now page }
        ensures size { IfSome result (λ found. length found.now ≡ 512) }
    {
        let seat = self.seat(page)?;
        Some(&self.bytes[PAGE * seat..PAGE * seat + PAGE])
    }

    /// Adds a page that isn't there.
    pub fn add(&mut self, page: usize, text: &[u8])
        requires size { length text.now ≡ 512 }
        requires inside { page < count_of self.old }
        requires absent { page_of self.old page ≡ None }
        ensures pages { (other : ℕ) → page_of self.new other ≡ (if other == page then Some text.now else page_of self.old other) }
        ensures count { count_of self.new ≡ count_of self.old }
    {
        self.seats[page] = self.order.len() as u32;
        push_on(&mut self.order, page as u32);
        append_on(&mut self.bytes, text);
    }

    /// Writes bytes over a part of a page that is there.
    pub fn put(&mut self, page: usize, from: usize, part: &[u8])
        requires inside { page < count_of self.old }
        requires there { IsSome (page_of self.old page) }
        requires fits { from + length part.now ≤ 512 }
        ensures pages { (other : ℕ) → page_of self.new other ≡ (if other == page then option_map (λ text. overlay text from part.now) (page_of self.old page) else page_of self.old other) }
        ensures count { count_of self.new ≡ count_of self.old }
    {
        let Some(seat) = self.seat(page) else {
            unreachable!()
        };
        put_at(&mut self.bytes, PAGE * seat + from, part);
    }

    /// Writes one byte all over a part of a page that is there.
    pub fn fill(&mut self, page: usize, from: usize, n: usize, value: u8)
        requires inside { page < count_of self.old }
        requires there { IsSome (page_of self.old page) }
        requires fits { from + n ≤ 512 }
        ensures pages { (other : ℕ) → page_of self.new other ≡ (if other == page then option_map (λ text. overlay text from (replicate n value)) (page_of self.old page) else page_of self.old other) }
        ensures count { count_of self.new ≡ count_of self.old }
    {
        let Some(seat) = self.seat(page) else {
            unreachable!()
        };
        fill_at(&mut self.bytes, PAGE * seat + from, n, value);
    }

    /// Drops all pages.
    #[tactic(auto, using(crate::proofs::Seats::none_in))]
    pub fn clear(&mut self)
        ensures none { (page : ℕ) → page_of self.new page ≡ None }
        ensures count { count_of self.new ≡ count_of self.old }
    {
        self.order.clear();
        self.bytes.clear();
    }
}
