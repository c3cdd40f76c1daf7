ghost use Rattle.std.specs.Prelude.{◌≡◌, ℕ, ◌+◌, ◌-◌, ◌<◌, ◌≤◌, [], ◌∷◌, ◌++◌, min, length, take, drop, List, slice_get, IsOk, OnOk, OnErr, IsTrue, MatchOption, ◌↔◌};
ghost use Rattle.ring.specs.Slots.{slot_of};

use std::marker::Model;

/// There is no room for what was to be listed.
#[derive(Clone, Copy, PartialEq, Eq, Debug)]
pub struct Full;

/// A list of records of one kind, kept in memory that is lent to it. A record's place is the number of records listed before it, modulo
/// 2^64, and a reader keeps the place that it stands at. A clause sees the records, the oldest first, how many were listed so far, modulo
/// 2^64, and how many there is room for in all.
#[derive(Drop)]
pub struct Ring<'a, T: Copy> {
    slots: &'a mut [T],
    first: usize,
    len: usize,
    listed: u64,
}

impl<'a, T: Copy> Model for Ring<'a, T> {
    ghost use Rattle.std.specs.Prelude.{◌≤◌, length};
    ghost use Rattle.ring.specs.Listing.{Listing, listing, listing_code};

    ghost Value = { Listing T };

    ghost coded = { listing_code T.code };

    ghost use Rattle.ring.specs.Slots.{window};

    ghost view = { λ r. listing (window r.first r.len r.slots.now) r.listed (length r.slots.now) };

    ghost invariant = { λ r. (r.first ≤ length r.slots.now) × (r.len ≤ length r.slots.now) };
}

// The slot of the record that i others stand before, where the oldest stands in slot `first` of `size`.
fn slot(size: usize, first: usize, i: usize) -> usize
    requires { (first ≤ size) × (i ≤ size) }
    ensures slot { result ≡ slot_of size first i }
    ensures within { result ≤ size }
    ensures stored { i < size → result < size }
{
    let before_end = size - first;
    if i < before_end {
        first + i
    } else {
        i - before_end
    }
}

impl<'a, T: Copy> Ring<'a, T> {
    ghost use Rattle.ring.specs.Listing.{Listing, listing};
    ghost use Rattle.ring.specs.Places.{place_of, IsPlace, index_of, unread_from, read_at, with_more, without_oldest};

    /// A list with nothing listed, with room for as many records as there are slots; what the slots hold counts for nothing.
    pub fn new(slots: &'a mut [T]) -> Ring<'a, T>
        ensures { result ≡ listing [] 0 (length slots.old) }
    {
        Ring {
            slots,
            first: 0,
            len: 0,
            listed: 0,
        }
    }

    /// How many records are stored.
    pub fn len(&self) -> usize
        ensures len { result ≡ length self.now.records }
        ensures within { result ≤ self.now.capacity }
    {
        self.len
    }

    /// Whether no record is stored.
    pub fn is_empty(&self) -> bool
        ensures { IsTrue result ↔ (self.now.records ≡ []) }
    {
        self.len == 0
    }

    /// How many records there is room for in all.
    pub fn capacity(&self) -> usize
        ensures { result ≡ self.now.capacity }
    {
        self.slots.len()
    }

    /// How many more records there is room for.
    pub fn room(&self) -> usize
        ensures { result + length self.now.records ≡ self.now.capacity }
    {
        self.slots.len() - self.len
    }

    // The record that i others stand before.
    fn stored(&self, i: usize) -> T
        requires { i < length self.now.records }
        ensures { slice_get self.now.records i ≡ Some result }
    {
        self.slots[slot(self.slots.len(), self.first, i)]
    }

    // Its place, or the end.
    fn place(&self, i: usize) -> u64
        requires { i ≤ length self.now.records }
        ensures { result ≡ place_of self.now i }
    {
        self.listed.wrapping_sub((self.len - i) as u64)
    }

    // How many stored records stand before the one that a place means.
    fn index(&self, place: u64) -> usize
        ensures index { result ≡ index_of self.now place }
        ensures within { result ≤ length self.now.records }
    {
        let away = place.wrapping_sub(self.place(0));
        if away <= self.len as u64 {
            away as usize
        } else {
            0
        }
    }

    /// The place of the oldest record, or the end where none is stored.
    pub fn oldest_place(&self) -> u64
        ensures { result ≡ place_of self.now 0 }
    {
        self.place(0)
    }

    /// The place behind the newest record, which the next one to be listed will have: how many were listed so far, modulo 2^64.
    pub fn end_place(&self) -> u64
        ensures end { result ≡ place_of self.now (length self.now.records) }
        ensures listed { result ≡ self.now.listed }
    {
        self.listed
    }

    /// The record that was listed last, if it is still stored.
    pub fn newest(&self) -> Option<T>
        ensures { result ≡ slice_get self.now.records (length self.now.records - 1) }
    {
        if self.len == 0 {
            return None;
        }
        Some(self.stored(self.len - 1))
    }

    /// Lists one more record. Refused with `Full` where there is no room, and nothing changes.
    pub fn push(&mut self, latest: T) -> Result<(), Full>
        ensures room { IsOk result ↔ (length self.old.records < self.old.capacity) }
        ensures ok { OnOk result (self.new ≡ with_more self.old (latest ∷ [])) }
        ensures full { OnErr result (self.new ≡ self.old) }
        // Each record keeps its place, and a reader there, or at the end, has the new record behind what it had.
        ensures places { OnOk result ((i : ℕ) → i ≤ length self.old.records →
            place_of self.new i ≡ place_of self.old i) }
        ensures readers { OnOk result ((i : ℕ) → i ≤ length self.old.records →
            unread_from self.new (place_of self.old i) ≡ drop i self.old.records ++ latest ∷ []) }
    {
        let size = self.slots.len();
        if self.len == size {
            return Err(Full);
        }
        let end = slot(size, self.first, self.len);
        self.slots[end] = latest;
        self.len += 1;
        self.listed = self.listed.wrapping_add(1);
        Ok(())
    }

    /// Lists records in their order. Refused with `Full` where they don't all fit, and nothing changes.
    pub fn push_all(&mut self, latest: &[T]) -> Result<(), Full>
        ensures room { IsOk result ↔
            (length self.old.records + length latest.now ≤ self.old.capacity) }
        ensures ok { OnOk result (self.new ≡ with_more self.old latest.now) }
        ensures full { OnErr result (self.new ≡ self.old) }
        // Each record keeps its place, and a reader there, or at the end, has the new records behind what it had.
        ensures places { OnOk result ((i : ℕ) → i ≤ length self.old.records →
            place_of self.new i ≡ place_of self.old i) }
        ensures readers { OnOk result ((i : ℕ) → i ≤ length self.old.records →
            unread_from self.new (place_of self.old i) ≡ drop i self.old.records ++ latest.now) }
    {
        if latest.len() > self.slots.len() - self.len {
            return Err(Full);
        }
        for record in latest {
            self.push(*record)?;
        }
        Ok(())
    }

    /// Takes out the oldest record and answers it, or answers `None` where none is stored; its room is used again.
    pub fn remove(&mut self) -> Option<T>
        ensures oldest { result ≡ slice_get self.old.records 0 }
        ensures rest { self.new ≡ without_oldest self.old 1 }
        // Each record that stays keeps its place, and a reader there, or at the end, has the same before it as it had; one at the place of
        // the record that went has now all that stayed.
        ensures places { (i : ℕ) → i < length self.old.records →
            place_of self.new i ≡ place_of self.old (i + 1) }
        ensures readers { (i : ℕ) → i < length self.old.records →
            unread_from self.new (place_of self.old (i + 1)) ≡ drop (i + 1) self.old.records }
        ensures passed { unread_from self.new (place_of self.old 0) ≡ self.new.records }
    {
        if self.len == 0 {
            return None;
        }
        let oldest = self.stored(0);
        self.first = slot(self.slots.len(), self.first, 1);
        self.len -= 1;
        Some(oldest)
    }

    /// The record at a place, with the next place; `None` at the end. A place that is neither a stored record's nor the end means the
    /// oldest record.
    pub fn read(&self, place: u64) -> Option<(T, u64)>
        ensures is { result ≡ read_at self.now place }
        // A reader gets the first of what it has still to read, and has the rest before it at the next place.
        ensures goes_on { MatchOption result
            (unread_from self.now place ≡ [])
            (λ p. unread_from self.now place ≡ p.0 ∷ unread_from self.now p.1) }
        ensures at_place { (i : ℕ) → i ≤ length self.now.records → place ≡ place_of self.now i →
            unread_from self.now place ≡ drop i self.now.records }
        ensures elsewhere { (IsPlace self.now place → ⊥) →
            unread_from self.now place ≡ self.now.records }
    {
        let i = self.index(place);
        if i == self.len {
            return None;
        }
        Some((self.stored(i), self.place(i + 1)))
    }

    /// Reads on from a place until `into` is full or no record is left. Answers how many records it read, and the place behind them.
    pub fn read_on(&self, place: u64, into: &mut [T]) -> (usize, u64)
        ensures count { result.0 ≡ min (length into.old) (length (unread_from self.now place)) }
        ensures gets { into.new ≡
            take result.0 (unread_from self.now place) ++ drop result.0 into.old }
        ensures left { unread_from self.now result.1 ≡ drop result.0 (unread_from self.now place) }
        ensures none { result.0 ≡ 0 → result.1 ≡ place }
        // Whoever reads on from the place that a record, or the end, had in an earlier list gets each record from there to the newest:
        // those that stood behind it then, and those listed since. What was removed before that place changes nothing of it.
        ensures carried { (earlier : Listing T) (i gone : ℕ) (more : List T) →
            gone ≤ i → i ≤ length earlier.records →
            self.now ≡ with_more (without_oldest earlier gone) more →
            place ≡ place_of earlier i →
            (unread_from self.now place ≡ drop i earlier.records ++ more) ×
            (into.new ≡ take result.0 (drop i earlier.records ++ more) ++ drop result.0 into.old) }
    {
        let most = into.len().min(self.len());
        let mut at = place;
        for i in 0..most {
            let Some((got, next)) = self.read(at) else {
                return (i, at);
            };
            into[i] = got;
            at = next;
        }
        (most, at)
    }
}

#[cfg(test)]
mod tests;
