// What is told of tables in which some bytes are others: by a check, and by an upgrade. And upgrades over stores that fail.
use crate::bench::{Answering, Bench};
use crate::told::Told;
use crate::words::cut;

impl<A: Answering> Bench<A> {
    /// Whether the check of a table, for which the words stand, tells this, twice. It changes nothing that the readers tell, and no page.
    pub fn checks(&mut self, wanted: &str) -> bool {
        self.ask("open $;shape;trace;count");
        self.wanted.fill("$; $", wanted);
        self.wanted
            .put(self.told.as_str().strip_prefix("ok").unwrap_or(""));
        self.wanted.put("; ok; yes");
        self.goes("check;check;shape;trace;count;close;same $")
    }

    /// Whether the upgrade of a table, for which the words stand, tells this, and leaves it as it was; and opening the new store tells
    /// what is left, where that is said.
    pub fn upgrades(&mut self, wanted: &str, left: &str) -> bool {
        self.wanted.fill("ok; $; yes", wanted);
        if left.is_empty() {
            return self.goes("table old = $;bring 0 0;old same old");
        }
        self.wanted.put("; ");
        self.wanted.put(left);
        self.goes("table old = $;bring 0 0;old same old;open")
    }

    /// Whether the upgrade of a table ends so, by its name, and for each of these upgrades at which calls the old store and the new one
    /// fail.
    pub fn ends(&mut self, words: &str, wanted: &str) -> bool {
        let (name, ends) = cut(words);
        self.words.set(name);
        let mut is_so = self.is_so("table old = $", "ok");
        for calls in ends.split(';') {
            if is_so {
                self.words.set(calls.trim());
                is_so = self.ends_at(wanted);
            }
        }
        is_so
    }

    // Whether one of them ends so, for whose calls the words stand. The old table is as it was; where it goes well, both stores fail at their
    // next calls, and else the new one is unclean.
    fn ends_at(&mut self, wanted: &str) -> bool {
        if wanted == "ok" {
            return self.is_so("bring $;old due;close;old same old", "ok; yes; Device; yes");
        }
        self.wanted.fill("$; Unclean page 0; yes", wanted);
        self.goes("bring $;open;old same old")
    }

    /// Whether the upgrade of a table of five rows makes these calls of both stores, by its name and the letters for them, and ends at
    /// each that fails.
    pub fn stops(&mut self, words: &str) -> bool {
        let (name, letters) = cut(words);
        self.words.set(name);
        let mut is_so = self.is_so("table old = $", "ok");
        for i in 0..=letters.len() {
            is_so = is_so && self.stops_at(letters.as_bytes(), i);
        }
        is_so
    }

    // Whether that is so of the i-th call: both stores fail at the call after those before it. Past the last call both fail at their next
    // ones.
    fn stops_at(&mut self, calls: &[u8], i: usize) -> bool {
        let old = count_calls(calls, i, b'o');
        self.words.set("");
        self.words.number(old.saturating_add(1) as u128);
        self.words.put(" ");
        self.words
            .number(i.saturating_sub(old).saturating_add(1) as u128);
        if i >= calls.len() {
            return self.is_so("bring $;old due;close;old same old", "ok; yes; Device; yes");
        }
        stopped(&mut self.wanted, calls, i);
        self.goes("bring $;old due;due;size;open;old same old;bring;count;close;old same old")
    }
}

// Puts what is told then: the store of that call has failed, and the other one hasn't; the new one has the pages that were added, and isn't
// opened as a table; the old table is the same, and is upgraded once it doesn't fail.
fn stopped(wanted: &mut Told, calls: &[u8], i: usize) {
    wanted.set(match calls.get(i) {
        Some(b'o') => "Device; no; yes; ",
        _ => "Device; yes; no; ",
    });
    wanted.number(count_calls(calls, i, b'e') as u128);
    wanted.put(opened_after(i));
    wanted.put("; yes; ok; rows 5 regions 3; ok; yes");
}

// How many of the first i calls are such ones.
fn count_calls(calls: &[u8], i: usize, wanted: u8) -> usize {
    let mut count = 0usize;
    for (j, call) in calls.iter().enumerate() {
        if j < i && *call == wanted {
            count = count.saturating_add(1);
        }
    }
    count
}

// What opening the new store answers after so many calls: it has no page, one of zeros, or one that tells of a change.
fn opened_after(calls: usize) -> &'static str {
    match calls {
        0 | 1 => "; NoPage",
        2 => "; WrongKind page 0",
        _ => "; Unclean page 0",
    }
}
