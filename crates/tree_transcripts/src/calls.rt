// How many calls of its store each line makes, and what is left where one of them fails.
use crate::bench::{Answering, Bench};
use crate::words::Words;

// A line of a block, what it is answered, and the calls of the store that it makes, in order: how many pages it reads, how many it adds
// then, and how many calls write a page or sync after that, which the runs don't tell from each other.
#[derive(Drop)]
struct Call<'a> {
    line: &'a str,
    wanted: &'a str,
    reads: u32,
    adds: u32,
    all: u32,
}

// How many calls of the store still go well, and how many pages it has; whether all went so, and whether no other line is tried.
#[derive(Drop)]
struct Place {
    good: u32,
    pages: u32,
    is_so: bool,
    is_over: bool,
}

// What the readers of a tree are asked; what is asked where a call of the tree has failed, and of the store that it leaves; and what that is
// answered, with what the readers had told: it tells the same, can begin anew, and answers nothing else, and closing it hands the store back.
const READERS: &str = "shape;trace;count";

const STOPPED: &str =
    "shape;trace;count;insert 0 0 0;remove 0 1;seek 0;meet 0;span 0;span least on 1;walk;check;shape;trace;count;begin;trace;\
insert 0 0 0;remove 0 1;seek 0;meet 0;span 0;span least on 1;walk;check;close;size";

const ANSWERED: &str =
    "$ failed; Failed; Failed; Failed; Failed; Failed; Failed; Failed; Failed; $ failed; ok; none; \
Failed; Failed; Failed; Failed; Failed; Failed; Failed; Failed; Failed; ";

// The call of a line such as `insert 0 0 0 -> 15 | 1 0 2`; of another line it is one that isn't answered as it says.
fn call_of(text: &str) -> Call<'_> {
    let (line, numbers) = text.split_once(" | ").unwrap_or((text, ""));
    let (line, wanted) = line.split_once(" -> ").unwrap_or((line, ""));
    let mut numbers = Words::new(numbers);
    let (reads, adds, writes) = (numbers.short(), numbers.short(), numbers.short());
    Call {
        line,
        wanted: if numbers.is_wrong { "" } else { wanted },
        reads,
        adds,
        all: reads.saturating_add(adds).saturating_add(writes),
    }
}

// How many calls of the store the lines make.
fn count_calls(lines: &str) -> u32 {
    let mut count = 0u32;
    for line in lines.lines() {
        count = count.saturating_add(call_of(line).all);
    }
    count
}

impl<A: Answering> Bench<A> {
    /// Whether the lines go so over a store of a table's pages that fails at its first call, at its second, and so on.
    pub fn plays(&mut self, table: &str, lines: &str) -> bool {
        let mut is_so = true;
        for good in 0..=count_calls(lines) {
            is_so = is_so && self.goes_over(table, lines, good);
        }
        is_so
    }

    // Whether the lines go so over a store of these pages of which so many calls go well, and the next one fails.
    fn goes_over(&mut self, table: &str, lines: &str, good: u32) -> bool {
        let mut place = self.begin(table, good);
        for line in lines.lines() {
            if !place.is_over {
                self.take(&call_of(line), &mut place);
            }
        }
        place.is_so && (place.is_over || self.is_sized(place.pages))
    }

    // The place before the first line.
    fn begin(&mut self, table: &str, good: u32) -> Place {
        self.words.set(table);
        self.words.put(" fail ");
        self.words.number(good.saturating_add(1) as u128);
        self.ask("store $");
        Place {
            good,
            pages: Words::new(self.told.as_str()).short(),
            is_so: true,
            is_over: false,
        }
    }

    // Takes a line.
    fn take(&mut self, call: &Call<'_>, place: &mut Place) {
        if place.good < call.all {
            self.fail(call, place);
        }
        if !place.is_over {
            place.good = place.good.saturating_sub(call.all);
            place.pages = place.pages.saturating_add(call.adds);
            place.is_so = self.is_so(call.line, call.wanted);
            place.is_over = !place.is_so;
        }
    }

    // Takes a line in which a call fails. Where it was a read, the line can be taken again, and no other call fails.
    fn fail(&mut self, call: &Call<'_>, place: &mut Place) {
        let added = place.good.saturating_sub(call.reads).min(call.adds);
        self.ask(READERS);
        self.words.set(self.told.as_str());
        place.is_over = place.good >= call.reads;
        place.good = u32::MAX;
        place.is_so = self.is_so(call.line, "Device")
            && (!place.is_over || self.is_left(call.line, place.pages.saturating_add(added)));
        place.is_over |= !place.is_so;
    }

    // Whether all is left as it should be by a line that failed, with so many pages in the store, of a tree that had told the words before:
    // where it was the closing, the store was handed back.
    fn is_left(&mut self, line: &str, pages: u32) -> bool {
        if line == "close" {
            return self.is_so("close", "none") && self.is_sized(pages);
        }
        self.wanted.fill(ANSWERED, self.words.as_str());
        self.wanted.number(pages as u128);
        self.goes(STOPPED)
    }

    // Whether the store that the tree left has so many pages.
    fn is_sized(&mut self, pages: u32) -> bool {
        self.wanted.set("");
        self.wanted.number(pages as u128);
        self.goes("size")
    }
}
