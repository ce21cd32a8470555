use crate::bench::{Answering, Bench};
use crate::told::Told;
use crate::words::cut;
use std::alloc::Global;

/// Takes the lines of a text, and holds what they are answered against what they say.
#[derive(Drop)]
pub struct Player<'a, A: Answering> {
    bench: Bench<A>,
    // The tables that are hurt by the lines that follow, and what is told of the new table where they are upgraded.
    names: &'a str,
    left: &'a str,
    // The table of the block that hasn't ended, and its lines up to now.
    block: Option<&'a str>,
    lines: Told,
    number: u64,
    right: usize,
    wrong: u64,
    // What is told of the lines that were wrong.
    told: Told,
}

impl<'a, A: Answering> Player<'a, A> {
    /// One before the first line, who has this one's answers.
    pub fn new(alloc: Global, answering: A) -> Player<'a, A> {
        Player {
            bench: Bench::new(alloc, answering),
            names: "",
            left: "",
            block: None,
            lines: Told::new(alloc),
            number: 0,
            right: 0,
            wrong: 0,
            told: Told::new(alloc),
        }
    }

    /// Takes the next line.
    pub fn take(&mut self, line: &'a str) {
        self.number = self.number.saturating_add(1);
        if line.is_empty() || line.starts_with('#') {
            return;
        }
        match self.block {
            Some(_) if line != "end" => {
                self.lines.put(line);
                self.lines.put("\n");
            }
            Some(name) => self.end_block(name),
            None => self.take_alone(line),
        }
    }

    // Ends a block, and judges its lines.
    fn end_block(&mut self, name: &str) {
        let is_so = self.bench.plays(name, self.lines.as_str());
        let count = self.lines.as_str().lines().count();
        self.judge(name, is_so, count);
        self.block = None;
        self.lines.set("");
    }

    // Takes a line that stands in no block.
    fn take_alone(&mut self, line: &'a str) {
        let (head, words) = cut(line);
        match head {
            "checks" => (self.names, self.left) = (words, ""),
            "upgrades" => {
                (self.names, self.left) = words.split_once(" left ").unwrap_or((words, ""));
            }
            "calls" => self.block = Some(words),
            _ => self.ask(line),
        }
    }

    // Takes a line that says what it is answered; one of a table doesn't, and is answered `ok`.
    fn ask(&mut self, line: &str) {
        let (asked, wanted) = line.split_once(" -> ").unwrap_or((line, "ok"));
        let (head, words) = cut(asked);
        let is_so = match head {
            "hurt" => return self.hurt_all(words, wanted),
            "upgrade" => self.upgrades(words, wanted),
            "ends" => self.bench.ends(words, wanted),
            "stops" => wanted == "ok" && self.bench.stops(words),
            _ => self.bench.is_so(asked, wanted),
        };
        self.judge(line, is_so, usize::from(asked.len() < line.len()));
    }

    // Whether the upgrade of a table tells this.
    fn upgrades(&mut self, table: &str, wanted: &str) -> bool {
        self.bench.words.set(table);
        self.bench.upgrades(wanted, "")
    }

    // Takes a line that hurts tables in each of these ways.
    fn hurt_all(&mut self, hurts: &str, wanted: &str) {
        for hurt in hurts.split(';') {
            let is_so = self.hurt(hurt, wanted);
            self.judge(hurt, is_so, 1);
        }
    }

    // Whether this is told of each of the tables that are hurt so.
    fn hurt(&mut self, hurts: &str, wanted: &str) -> bool {
        let mut is_so = !self.names.is_empty();
        for name in self.names.split_whitespace() {
            if is_so {
                self.bench.words.set(name);
                self.bench.words.put(" with ");
                self.bench.words.put(hurts);
                is_so = self.hurt_table(wanted);
            }
        }
        is_so
    }

    // Whether it is told of one of them, for which the words stand.
    fn hurt_table(&mut self, wanted: &str) -> bool {
        if self.left.is_empty() {
            self.bench.checks(wanted)
        } else {
            self.bench.upgrades(wanted, self.left)
        }
    }

    // Counts so many lines as right, or one as wrong, which is told with its number, and with what was answered.
    fn judge(&mut self, line: &str, is_so: bool, lines: usize) {
        if is_so {
            self.right = self.right.saturating_add(lines);
            return;
        }
        self.wrong = self.wrong.saturating_add(1);
        self.told.number(self.number as u128);
        self.told.put(": ");
        self.told.put(line);
        self.told.put("\n    ");
        self.told.put(self.bench.told.as_str());
        self.told.put("\n");
    }

    /// Puts what is printed at the end, and gives whether no line was wrong; a block that hasn't ended is.
    pub fn end(&mut self, told: &mut Told) -> bool {
        if self.block.is_some() {
            self.judge("no end", false, 0);
        }
        told.put(self.told.as_str());
        told.number(self.right as u128);
        told.put(" right, ");
        told.number(self.wrong as u128);
        told.put(" wrong");
        let is_out = self.lines.is_out() || self.told.is_out() || self.bench.is_out();
        self.wrong == 0 && !is_out && !told.is_out()
    }
}
