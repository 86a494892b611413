// The part of the text that a pattern takes.
ghost use Rattle.std.specs.Prelude.{◌≡◌, ◌≤◌, length};
ghost use Rattle.definitions.specs.Matching.{text};
ghost use Rattle.definitions.specs.Patterns.{Pattern};
ghost use Rattle.wordset.specs.Sets.{in_set};
ghost use Rattle.marks.specs.Sweeping.{Reads};
ghost use Rattle.leads.specs.Leading.{leads_of};
ghost use Rattle.taking.specs.Ways.{anchor_by, found_of};
ghost use Rattle.matching.specs.Quals.{anchor_of, lead_number, pattern_in};

use super::Quals;
use leads::Leads;
use taking::{Found, Way};

// What the qualifiers ask for.
fn way_of(q: Quals) -> Way
    ensures { (anchor_by result.left result.right ≡ anchor_of q.anchor) × (result.last ≡ q.last) × (result.word ≡ q.word) }
{
    if q.anchor == 2 {
        return Way {
            left: false,
            right: true,
            last: q.last,
            word: q.word,
        };
    }
    Way {
        left: q.anchor != 0,
        right: q.anchor > 2,
        last: q.last,
        word: q.word,
    }
}

// The part of the text from start to end that the pattern takes.
pub fn find_pattern(
    set: &[u32],
    line: &[u8],
    start: usize,
    end: usize,
    q: Quals,
    s: &[u8],
) -> Option<Found>
    requires { (3 ≤ length set.now) × (start ≤ end) × (end ≤ length line.now) × (length line.now ≤ 255) × (length s.now ≤ 255) × ((pat : Pattern) × Reads s.now pat × (q.count ≡ lead_number (leads_of pat))) }
    ensures { (pat : Pattern) → Reads s.now pat → found_of result ≡ pattern_in (in_set set.now 0) q pat line.now (text start end) }
{
    let leads = Leads {
        low: (q.count % 256) as u8,
        high: (q.count / 256) as u8,
    };
    taking::find(set, leads, line, start, end, s, way_of(q))
}
