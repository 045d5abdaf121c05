ghost use Rattle.std.specs.Prelude.{◌≡◌, ◌≤◌, ◌<◌, ℕ, Bool, length, vec_len, IsTrue};
ghost use Rattle.ct_regex.specs.Met.{marks_in};

use ct_base::NoMemory;
use std::alloc::Global;

/// A set of live positions that a scan has met.
#[derive(Drop)]
pub struct Met {
    pub marks: Vec<bool>,
    /// Whether a match ends here, if the text does.
    pub last: bool,
    /// The `digest` of the marks, which makes the search for a set fast.
    pub digest: u32,
}

/// The sets that were met, by number, and the set that each byte leads to from each of them. Set 0 is
/// the one before the first byte, and stays.
#[derive(Drop)]
pub struct Memory {
    /// The first `count` sets were met; the others are room for more.
    pub sets: Vec<Met>,
    pub count: u16,
    /// How many marks a set has.
    pub width: usize,
    /// For each set and byte, the set that the byte leads to, if it is known.
    pub next: Vec<Option<u16>>,
    ghost few: { count ≤ vec_len sets },
    ghost begun: { 0 < count },
    ghost room: { 1 < vec_len sets },
    ghost short: { vec_len sets < 65536 },
    ghost wide: { (at : ℕ) → at < vec_len sets → length (marks_in sets.items at) ≡ width },
}

impl Memory {
    ghost use Rattle.std.specs.Prelude.{◌≡◌, ◌≤◌, ◌<◌, ◌+◌, ◌*◌, ℕ, List, Bool, Some, [], drop, length, vec_len, IfOk, IfSome, IsTrue, nat_le};
    ghost use Rattle.ct_regex.specs.Walk.{Step};
    ghost use Rattle.ct_regex.specs.Stand.{Stand, a_stand, behind_bytes};
    ghost use Rattle.ct_regex.specs.Memory.{stand_at, entry_at, Remembers, Leads, LeadsBy};

    /// Makes a memory with one set, and room for `room` sets.
    pub(crate) fn new(
        alloc: Global,
        room: u16,
        marks: &[bool],
        last: bool,
    ) -> Result<Memory, NoMemory>
        requires room { 1 < room }
        ensures remembers { IfOk result (λ memory. (steps : List Step) → Remembers steps memory) }
        ensures first { IfOk result (λ memory. stand_at memory 0 ≡ a_stand marks.now last) }
        ensures count { IfOk result (λ memory. memory.count ≡ 1) }
        ensures width { IfOk result (λ memory. memory.width ≡ length marks.now) }
    {
        let mut sets = Vec::with_capacity(alloc, room as usize)?;
        let digest = digest(marks);
        for made in 0..room {
            let _ = made;
            let marks = Vec::from_slice(alloc, marks)?;
            sets.push_reserved(Met {
                marks,
                last,
                digest,
            });
        }
        let next = Vec::from_elem(alloc, None, room as usize * 256)?;
        Ok(Memory {
            sets,
            count: 1,
            width: marks.len(),
            next,
        })
    }

    /// Returns the set that the byte leads to, if it is known.
    fn next(&self, at: u16, byte: u8) -> Option<u16>
        ensures { result ≡ entry_at self.now at byte }
    {
        match self.next.get(at as usize * 256 + byte as usize) {
            Some(to) => *to,
            None => None,
        }
    }

    /// Follows the bytes of a piece from a set, for as long as the next set is known. Returns the
    /// last set and how many bytes were followed.
    pub(crate) fn follow(&self, from: u16, piece: &[u8]) -> (u16, usize)
        requires within { from < self.now.count }
        ensures behind { (steps : List Step) → Remembers steps self.now →
            behind_bytes steps (stand_at self.now result.0) (drop result.1 piece.now)
            ≡ behind_bytes steps (stand_at self.now from) piece.now }
        ensures known { (steps : List Step) → Remembers steps self.now →
            result.0 < self.now.count }
        ensures within { result.1 ≤ length piece.now }
    {
        let mut at = from;
        let mut known = 0;
        'bytes: while known < piece.len() {
            match self.next(at, piece[known]) {
                Some(to) if to == at => known += 1 + self.stays(at, &piece[known + 1..]),
                Some(to) => {
                    at = to;
                    known += 1;
                }
                None => return (at, known),
            }
        }
        (at, known)
    }

    /// Counts the bytes that lead from the set to itself, up to the first byte that does not.
    fn stays(&self, at: u16, piece: &[u8]) -> usize
        ensures behind { (steps : List Step) → Remembers steps self.now →
            behind_bytes steps (stand_at self.now at) (drop result piece.now)
            ≡ behind_bytes steps (stand_at self.now at) piece.now }
        ensures within { result ≤ length piece.now }
    {
        for i in 0..piece.len() {
            if !self.leads_back(at, piece[i]) {
                return i;
            }
        }
        piece.len()
    }

    fn leads_back(&self, at: u16, byte: u8) -> bool
        ensures { IsTrue result → entry_at self.now at byte ≡ Some at }
    {
        match self.next(at, byte) {
            Some(to) => to == at,
            None => false,
        }
    }

    /// Returns whether a match ends at the set, if the text ends there.
    pub(crate) fn last(&self, at: u16) -> bool
        ensures { result ≡ (stand_at self.now at).last }
    {
        match self.sets.get(at as usize) {
            Some(met) => met.last,
            None => false,
        }
    }

    pub(crate) fn marks(&self, at: u16) -> &[bool]
        requires met { at < self.now.count }
        ensures marks { result.now ≡ (stand_at self.now at).marks }
        ensures wide { length result.now ≡ self.now.width }
    {
        &self.sets[at as usize].marks
    }

    /// Returns the number of the set that the bytes lead to, and remembers where a single byte leads.
    ///
    /// If there is no room for one more set, it forgets all but the first one.
    pub(crate) fn learn(&mut self, from: u16, bytes: &[u8], marks: &[bool], last: bool) -> u16
        requires met { from < self.old.count }
        requires wide { length marks.now ≡ self.old.width }
        ensures remembers { (steps : List Step) → Remembers steps self.old →
            behind_bytes steps (stand_at self.old from) bytes.now ≡ a_stand marks.now last →
            Remembers steps self.new }
        ensures met { result < self.new.count }
        ensures same { stand_at self.new result ≡ a_stand marks.now last }
        ensures first { stand_at self.new 0 ≡ stand_at self.old 0 }
        ensures width { self.new.width ≡ self.old.width }
    {
        let digest = digest(marks);
        if let Some(to) = self.find(digest, marks, last) {
            self.link(from, bytes, to);
            return to;
        }
        if self.is_full() {
            self.forget();
            return self.add(digest, marks, last);
        }
        let to = self.add(digest, marks, last);
        self.link(from, bytes, to);
        to
    }

    /// Returns the number of the set, if it was met.
    fn find(&self, digest: u32, marks: &[bool], last: bool) -> Option<u16>
        ensures met { IfSome result (λ at. at < self.now.count) }
        ensures same { IfSome result (λ at. stand_at self.now at ≡ a_stand marks.now last) }
    {
        for at in 0..self.count {
            let met = &self.sets[at as usize];
            if met.digest == digest && is_same(met, marks, last) {
                return Some(at);
            }
        }
        None
    }

    pub(crate) fn is_full(&self) -> bool
        ensures { result ≡ nat_le (vec_len self.now.sets) self.now.count }
    {
        self.sets.len() <= self.count as usize
    }

    /// Adds a set that was not met, and returns its number.
    fn add(&mut self, digest: u32, marks: &[bool], last: bool) -> u16
        requires room { self.old.count < vec_len self.old.sets }
        requires wide { length marks.now ≡ self.old.width }
        ensures remembers { (steps : List Step) →
            Remembers steps self.old → Remembers steps self.new }
        ensures number { result ≡ self.old.count }
        ensures same { stand_at self.new result ≡ a_stand marks.now last }
        ensures count { self.new.count ≡ self.old.count + 1 }
        ensures kept { (at : ℕ) → at < self.old.count →
            stand_at self.new at ≡ stand_at self.old at }
        ensures width { self.new.width ≡ self.old.width }
    {
        let at = self.count;
        let met = &mut self.sets[at as usize];
        met.marks.copy_from_slice(marks);
        met.last = last;
        met.digest = digest;
        self.count = at + 1;
        at
    }

    /// Remembers where a single byte leads from a set.
    fn link(&mut self, at: u16, bytes: &[u8], to: u16)
        ensures remembers { (steps : List Step) → Remembers steps self.old →
            LeadsBy steps self.old at bytes.now to → Remembers steps self.new }
        ensures sets { self.new.sets ≡ self.old.sets }
        ensures count { self.new.count ≡ self.old.count }
        ensures width { self.new.width ≡ self.old.width }
    {
        if bytes.len() == 1 {
            self.link_byte(at, bytes[0], to);
        }
    }

    fn link_byte(&mut self, at: u16, byte: u8, to: u16)
        ensures remembers { (steps : List Step) → Remembers steps self.old →
            Leads steps self.old at byte to → Remembers steps self.new }
        ensures sets { self.new.sets ≡ self.old.sets }
        ensures count { self.new.count ≡ self.old.count }
        ensures width { self.new.width ≡ self.old.width }
    {
        let place = at as usize * 256 + byte as usize;
        if place < self.next.len() {
            self.next[place] = Some(to);
        }
    }

    /// Forgets all sets but the first one.
    fn forget(&mut self)
        ensures remembers { (steps : List Step) → Remembers steps self.new }
        ensures room { self.new.count < vec_len self.new.sets }
        ensures count { self.new.count ≡ 1 }
        ensures first { stand_at self.new 0 ≡ stand_at self.old 0 }
        ensures width { self.new.width ≡ self.old.width }
    {
        self.count = 1;
        self.next.fill(None);
    }
}

fn is_same(met: &Met, marks: &[bool], last: bool) -> bool
    ensures last { IsTrue result → met.now.last ≡ last }
    ensures marks { IsTrue result → met.now.marks.items ≡ marks.now }
{
    met.last == last && met.marks.as_slice() == marks
}

/// Computes a number that mostly differs where the marks differ. Only speed depends on it.
fn digest(marks: &[bool]) -> u32 {
    let mut digest: u32 = 0;
    for i in 0..marks.len() {
        digest = digest.wrapping_mul(31).wrapping_add(marks[i] as u32);
    }
    digest
}
