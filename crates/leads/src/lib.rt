// The bytes that a match of a pattern can begin with, as a range.
#![tactic(auto)]

ghost use Rattle.std.specs.Prelude.{◌≡◌, ◌≤◌, length};
ghost use Rattle.definitions.specs.Patterns.{Pattern};
ghost use Rattle.marks.specs.Sweeping.{Reads};
ghost use Rattle.leads.specs.Leading.{may_begin, first_lead, last_lead, leads_of, is_lead, NextLead};

use marks::idle::is_idle;
use marks::{NEVER, sweep};

// The bytes from low to high, of those from 32 to 127; none where low is more than high.
#[derive(Clone, Copy)]
pub struct Leads {
    pub low: u8,
    pub high: u8,
}

// May a match begin with the byte. Of bytes that are no text nothing is known.
pub fn leads_with(r: Leads, b: u8) -> bool
    ensures { result ≡ is_lead r b }
{
    if b < 32 {
        return true;
    }
    if b >= 128 {
        return true;
    }
    if b < r.low {
        return false;
    }
    b <= r.high
}

// The first place from i on, before `end`, that a match may begin at; else `end`.
pub fn next_lead(r: Leads, line: &[u8], i: usize, end: usize) -> usize
    requires { (i ≤ end) × (end ≤ length line.now) }
    ensures { NextLead r line.now i end result }
{
    for k in i..end {
        if leads_with(r, line[k]) {
            return k;
        }
    }
    end
}

// Can a match of the pattern begin with the byte: the empty match is out at once, any other has set a mark after its first byte.
fn may_begin(pattern: &[u8], b: u8) -> bool
    requires { (length pattern.now ≤ 255) × ((p : Pattern) × Reads pattern.now p) }
    ensures { (p : Pattern) → Reads pattern.now p → result ≡ may_begin p b }
{
    let mut marks = [NEVER; 256];
    let out = sweep(pattern, b, 0, &mut marks);
    if out != NEVER {
        return true;
    }
    !is_idle(&marks, pattern.len())
}

// The first byte from 32 on that a match can begin with; 128 where there is none.
fn first_lead(pattern: &[u8]) -> u8
    requires { (length pattern.now ≤ 255) × ((p : Pattern) × Reads pattern.now p) }
    ensures { (result ≤ 128) × ((p : Pattern) → Reads pattern.now p → result ≡ first_lead p 32 96) }
{
    for b in 32..128 {
        if may_begin(pattern, b) {
            return b;
        }
    }
    128
}

// The last byte before 128 that a match can begin with; 0 where there is none.
fn last_lead(pattern: &[u8]) -> u8
    requires { (length pattern.now ≤ 255) × ((p : Pattern) × Reads pattern.now p) }
    ensures { (result ≤ 127) × ((p : Pattern) → Reads pattern.now p → result ≡ last_lead p 128) }
{
    for b in (0..128).rev() {
        if may_begin(pattern, b) {
            return b;
        }
    }
    0
}

// The bytes that a match of the pattern can begin with, from the first to the last.
pub fn leads_of(pattern: &[u8]) -> Leads
    requires { (length pattern.now ≤ 255) × ((p : Pattern) × Reads pattern.now p) }
    ensures { (result.low ≤ 128) × (result.high ≤ 127) × ((p : Pattern) → Reads pattern.now p → result ≡ leads_of p) }
{
    Leads {
        low: first_lead(pattern),
        high: last_lead(pattern),
    }
}
