//! The bytes of a disk: now, after the last sync, and where they may differ.
ghost use Rattle.std.specs.Prelude.{◌≡◌, ◌+◌, ◌-◌, ◌≤◌, ◌<◌, ◌^◌, ◌/◌, ◌%◌, ◌*◌, ◌==◌, ◌||◌, ℕ, false, None, Some, length, replicate, slice_index, slice_range, nat_lt, min, IfOk, IsSome, if◌then◌else◌};
ghost use Rattle.kb_edge.specs.Disk.{within, overlay, MayLeave};
ghost use Rattle.kb_memdisk.specs.Cells.{AreCells, is_dirty, now_at, stable_at, dirty_at, picked};
ghost use Rattle.kb_memdisk.specs.Pages.{or_zeros, byte_or};
ghost use Rattle.kb_memdisk.specs.Rows.{page_of, count_of};

use crate::pages::{PAGE, Pages};
use kb_edge::{Memory, Pick};
use std::alloc::Global;

const ZEROS: [u8; PAGE] = [0; PAGE];

/// The bytes now, of which a page that isn't there has zeros. Of each page that was written since the last sync there
/// is what it was then, and a flag for each place that was written, so a sync and a power cut cost no more than these.
#[derive(Drop)]
pub struct Cells {
    pub size: u32,
    pub latest: Pages,
    pub kept: Pages,
    pub flags: Pages,
    pub ghost are_cells: { AreCells (count_of latest) (count_of kept) (count_of flags) size },
}

// Makes a page be there, of zeros if it wasn't.
fn touch(pages: &mut Pages, page: usize)
    requires { page < count_of pages.old }
    ensures pages { (other : ℕ) → page_of pages.new other ≡ (if other == page then Some (or_zeros (page_of pages.old page)) else page_of pages.old other) }
    ensures count { count_of pages.new ≡ count_of pages.old }
{
    if pages.page(page).is_some() {
        return;
    }
    pages.add(page, &ZEROS)
}

// Keeps what a page is now, unless what it was earlier is kept.
fn keep(kept: &mut Pages, now: &Pages, page: usize)
    requires inside { page < count_of kept.old }
    requires inside_now { page < count_of now.now }
    ensures there { IsSome (page_of kept.new page) }
    ensures stable { (place : ℕ) → stable_at (page_of now.now) (page_of kept.new) place ≡ stable_at (page_of now.now) (page_of kept.old) place }
    ensures others { (other : ℕ) → IsSome (page_of kept.old other) → IsSome (page_of kept.new other) }
    ensures count { count_of kept.new ≡ count_of kept.old }
{
    if kept.page(page).is_some() {
        return;
    }
    match now.page(page) {
        Some(text) => kept.add(page, text),
        None => kept.add(page, &ZEROS),
    }
}

// Flags places of a page.
fn flag(flags: &mut Pages, place: usize, n: usize)
    requires inside { place / 512 < count_of flags.old }
    requires fits { place % 512 + n ≤ 512 }
    ensures dirty { (other : ℕ) → dirty_at (page_of flags.new) other ≡ (dirty_at (page_of flags.old) other || within place n other) }
    ensures count { count_of flags.new ≡ count_of flags.old }
{
    touch(flags, place / PAGE);
    flags.fill(place / PAGE, place % PAGE, n, 1)
}

// Writes places of a page.
fn put(now: &mut Pages, place: usize, part: &[u8])
    requires inside { place / 512 < count_of now.old }
    requires fits { place % 512 + length part.now ≤ 512 }
    ensures now { (other : ℕ) → now_at (page_of now.new) other ≡ (if within place (length part.now) other then slice_index part.now (other - place) else now_at (page_of now.old) other) }
    ensures count { count_of now.new ≡ count_of now.old }
{
    touch(now, place / PAGE);
    now.put(place / PAGE, place % PAGE, part)
}

// How many of these places lie in the page of the first.
fn part_of(place: usize, n: usize) -> usize
    ensures { result ≡ min (512 - place % 512) n }
{
    (PAGE - place % PAGE).min(n)
}

// The byte of a place, or another where its page isn't there.
fn byte_of(pages: &Pages, place: usize, other: u8) -> u8
    requires { place / 512 < count_of pages.now }
    ensures { result ≡ byte_or (page_of pages.now (place / 512)) (place % 512) other }
{
    match pages.page(place / PAGE) {
        Some(text) => text[place % PAGE],
        None => other,
    }
}

fn put_over(into: &mut [u8], at: usize, part: &[u8])
    requires { at + length part.now ≤ length into.old }
    ensures { into.new ≡ overlay into.old at part.now }
{
    into[at..at + part.len()].copy_from_slice(part);
}

fn clear_part(into: &mut [u8], at: usize, n: usize)
    requires { at + n ≤ length into.old }
    ensures { into.new ≡ overlay into.old at (replicate n 0) }
{
    into[at..at + n].fill(0);
}

// Reads places of a page.
fn read_part(now: &Pages, place: usize, into: &mut [u8], done: usize, n: usize)
    requires inside { place / 512 < count_of now.now }
    requires fits { place % 512 + n ≤ 512 }
    requires room { done + n ≤ length into.old }
    ensures read { (k : ℕ) → slice_index into.new k ≡ (if within done n k then now_at (page_of now.now) (place + (k - done)) else slice_index into.old k) }
    ensures size { length into.new ≡ length into.old }
{
    let from = place % PAGE;
    match now.page(place / PAGE) {
        Some(text) => put_over(into, done, &text[from..from + n]),
        None => clear_part(into, done, n),
    }
}

// What a power cut leaves in a place.
fn pick_one(pick: Pick, dirty: bool, stable: u8, now: u8, place: usize) -> u8
    requires { place < 2 ^ 40 }
    ensures { result ≡ picked pick dirty stable now place }
{
    if !dirty {
        return now;
    }
    match pick {
        Pick::Old => stable,
        Pick::New => now,
        Pick::Noise => ((37 * place + 11) % 256) as u8,
    }
}

// What a power cut leaves in a place of these pages.
#[tactic(auto, unfolding(crate::specs::Cells::now_at, crate::specs::Cells::stable_at, crate::specs::Cells::dirty_at))]
fn left_in(now: &Pages, kept: &Pages, flags: &Pages, place: usize, pick: Pick) -> u8
    requires now { place / 512 < count_of now.now }
    requires kept { place / 512 < count_of kept.now }
    requires flags { place / 512 < count_of flags.now }
    requires small { place < 2 ^ 40 }
    ensures { result ≡ picked pick (dirty_at (page_of flags.now) place) (stable_at (page_of now.now) (page_of kept.now) place) (now_at (page_of now.now) place) place }
{
    let is_dirty = byte_of(flags, place, 0) > 0;
    let byte = byte_of(now, place, 0);
    let stable = byte_of(kept, place, byte);
    pick_one(pick, is_dirty, stable, byte, place)
}

// Cuts the power of one page.
fn cut_page(now: &mut Pages, kept: &Pages, flags: &Pages, page: usize, pick: Pick)
    requires inside { page < count_of now.old }
    requires inside_kept { page < count_of kept.now }
    requires inside_flags { page < count_of flags.now }
    requires small { page < 2 ^ 30 }
    ensures picked { (place : ℕ) → now_at (page_of now.new) place ≡ (if within (512 * page) 512 place
        then picked pick (dirty_at (page_of flags.now) place) (stable_at (page_of now.old) (page_of kept.now) place) (now_at (page_of now.old) place) place
        else now_at (page_of now.old) place) }
    ensures count { count_of now.new ≡ count_of now.old }
{
    for k in 0..PAGE {
        let place = PAGE * page + k;
        let left = left_in(now, kept, flags, place, pick);
        put(now, place, &[left]);
    }
}

// Cuts the power of all pages that were written since the last sync.
fn cut_pages(now: &mut Pages, kept: &Pages, flags: &Pages, pick: Pick)
    requires kept { count_of kept.now ≡ count_of now.old }
    requires flags { count_of flags.now ≡ count_of now.old }
    requires small { count_of now.old < 2 ^ 30 }
    ensures picked { (place : ℕ) → now_at (page_of now.new) place
        ≡ picked pick (dirty_at (page_of flags.now) place) (stable_at (page_of now.old) (page_of kept.now) place) (now_at (page_of now.old) place) place }
    ensures count { count_of now.new ≡ count_of now.old }
{
    for index in 0..flags.order.len() {
        let page = flags.order[index] as usize;
        cut_page(now, kept, flags, page, pick);
    }
}

impl Cells {
    ghost use Rattle.kb_memdisk.specs.Kept.{now_of, stable_of, dirty_of};

    /// Zeros.
    pub fn new(alloc: Global, size: u32) -> Result<Cells, Memory>
        ensures now { IfOk result (λ cells. now_of cells ≡ replicate size 0) }
        ensures stable { IfOk result (λ cells. stable_of cells ≡ replicate size 0) }
        ensures dirty { IfOk result (λ cells. dirty_of cells ≡ replicate size false) }
        ensures size { IfOk result (λ cells. cells.size ≡ size) }
    {
        let latest = Pages::new(alloc, size)?;
        let kept = Pages::new(alloc, size)?;
        let flags = Pages::new(alloc, size)?;
        Ok(Cells {
            size,
            latest,
            kept,
            flags,
        })
    }

    /// These bytes, as after a sync.
    pub fn with_image(alloc: Global, image: &[u8]) -> Result<Cells, Memory>
        requires { length image.now < 2 ^ 32 }
        ensures now { IfOk result (λ cells. now_of cells ≡ image.now) }
        ensures stable { IfOk result (λ cells. stable_of cells ≡ image.now) }
        ensures dirty { IfOk result (λ cells. dirty_of cells ≡ replicate (length image.now) false) }
    {
        let mut cells = Cells::new(alloc, image.len() as u32)?;
        cells.write(0, image);
        cells.sync();
        Ok(cells)
    }

    /// How many they are.
    #[tactic(auto, using(crate::proofs::Rowed::row_size))]
    pub fn size(&self) -> u32
        ensures { result ≡ length (now_of self.now) }
    {
        self.size
    }

    /// Fills `into` with the bytes from `at` on.
    pub fn read(&self, at: usize, into: &mut [u8])
        requires { at + length into.old ≤ length (now_of self.now) }
        ensures { into.new ≡ slice_range (now_of self.now) at (at + length into.old) }
    {
        let mut done = 0;
        while done < into.len() {
            let n = part_of(at + done, into.len() - done);
            read_part(&self.latest, at + done, into, done, n);
            done += n;
        }
    }

    // Marks places of one page as written.
    fn mark_part(&mut self, place: usize, n: usize)
        requires inside { place + n ≤ self.old.size }
        requires fits { place % 512 + n ≤ 512 }
        ensures there { IsSome (page_of self.new.kept (place / 512)) }
        ensures stable { (other : ℕ) → stable_at (page_of self.new.latest) (page_of self.new.kept) other ≡ stable_at (page_of self.old.latest) (page_of self.old.kept) other }
        ensures dirty { (other : ℕ) → dirty_at (page_of self.new.flags) other ≡ (dirty_at (page_of self.old.flags) other || within place n other) }
        ensures latest { self.new.latest ≡ self.old.latest }
        ensures size { self.new.size ≡ self.old.size }
    {
        keep(&mut self.kept, &self.latest, place / PAGE);
        flag(&mut self.flags, place, n);
    }

    // Writes places of one page, and marks them.
    fn write_part(&mut self, place: usize, part: &[u8])
        requires inside { place + length part.now ≤ self.old.size }
        requires fits { place % 512 + length part.now ≤ 512 }
        ensures now { (other : ℕ) → now_at (page_of self.new.latest) other ≡ (if within place (length part.now) other then slice_index part.now (other - place) else now_at (page_of self.old.latest) other) }
        ensures stable { (other : ℕ) → stable_at (page_of self.new.latest) (page_of self.new.kept) other ≡ stable_at (page_of self.old.latest) (page_of self.old.kept) other }
        ensures dirty { (other : ℕ) → dirty_at (page_of self.new.flags) other ≡ (dirty_at (page_of self.old.flags) other || within place (length part.now) other) }
        ensures size { self.new.size ≡ self.old.size }
    {
        self.mark_part(place, part.len());
        put(&mut self.latest, place, part);
    }

    /// Marks places as written.
    pub fn mark(&mut self, at: usize, n: usize)
        requires { at + n ≤ length (now_of self.old) }
        ensures now { now_of self.new ≡ now_of self.old }
        ensures stable { stable_of self.new ≡ stable_of self.old }
        ensures dirty { (place : ℕ) → is_dirty (dirty_of self.new) place ≡ (is_dirty (dirty_of self.old) place || within at n place) }
    {
        let mut done = 0;
        while done < n {
            let part = part_of(at + done, n - done);
            self.mark_part(at + done, part);
            done += part;
        }
    }

    /// Writes, and marks what was written.
    pub fn write(&mut self, at: usize, bytes: &[u8])
        requires { at + length bytes.now ≤ length (now_of self.old) }
        ensures now { now_of self.new ≡ overlay (now_of self.old) at bytes.now }
        ensures stable { stable_of self.new ≡ stable_of self.old }
        ensures dirty { (place : ℕ) → is_dirty (dirty_of self.new) place ≡ (is_dirty (dirty_of self.old) place || within at (length bytes.now) place) }
    {
        let mut done = 0;
        while done < bytes.len() {
            let n = part_of(at + done, bytes.len() - done);
            self.write_part(at + done, &bytes[done..done + n]);
            done += n;
        }
    }

    /// Marks what a write that fails may have changed, and writes it where the bytes still enter.
    pub fn fail_to_write(&mut self, at: usize, bytes: &[u8], enters: bool)
        requires { at + length bytes.now ≤ length (now_of self.old) }
        ensures now { now_of self.new ≡ (if enters then overlay (now_of self.old) at bytes.now else now_of self.old) }
        ensures elsewhere { MayLeave (now_of self.old) (within at (length bytes.now)) (now_of self.new) }
        ensures stable { stable_of self.new ≡ stable_of self.old }
        ensures dirty { (place : ℕ) → is_dirty (dirty_of self.new) place ≡ (is_dirty (dirty_of self.old) place || within at (length bytes.now) place) }
    {
        if enters {
            self.write(at, bytes);
            return;
        }
        self.mark(at, bytes.len());
    }

    /// What is there now is what a power cut leaves.
    pub fn sync(&mut self)
        ensures now { now_of self.new ≡ now_of self.old }
        ensures stable { stable_of self.new ≡ now_of self.old }
        ensures dirty { (place : ℕ) → is_dirty (dirty_of self.new) place ≡ false }
        ensures clean { dirty_of self.new ≡ replicate (length (now_of self.old)) false }
    {
        self.kept.clear();
        self.flags.clear();
    }

    /// Cuts the power.
    pub fn cut(&mut self, pick: Pick)
        ensures size { length (now_of self.new) ≡ length (now_of self.old) }
        ensures picked { (place : ℕ) → place < length (now_of self.old) → slice_index (now_of self.new) place
            ≡ picked pick (is_dirty (dirty_of self.old) place) (slice_index (stable_of self.old) place) (slice_index (now_of self.old) place) place }
        ensures stable { stable_of self.new ≡ now_of self.new }
        ensures dirty { (place : ℕ) → is_dirty (dirty_of self.new) place ≡ false }
    {
        cut_pages(&mut self.latest, &self.kept, &self.flags, pick);
        self.sync();
    }
}
