use ub_store::Page;

// A page in which items are put from an offset on, and whether one of them was no item, or had no room; `turn` is how often a step is
// added to a number.
#[derive(Drop)]
struct Spelled {
    page: Page,
    at: usize,
    turn: u128,
    is_wrong: bool,
}

/// Puts the bytes of items into a page, from an offset on, and gives whether these are items, and there is room.
pub fn put_items(page: &mut Page, at: usize, items: &str, turn: u32) -> bool {
    let mut spelled = Spelled {
        page: *page,
        at,
        turn: turn as u128,
        is_wrong: false,
    };
    for item in items.split_whitespace() {
        spelled.add(item);
    }
    *page = spelled.page;
    !spelled.is_wrong
}

impl Spelled {
    // Adds an item.
    fn add(&mut self, item: &str) {
        if let Some(text) = item.strip_prefix('\'') {
            return self.text(text.as_bytes(), 0);
        }
        if let Some(name) = item.strip_prefix('.') {
            self.put(1, name.len() as u128);
            return self.text(name.as_bytes(), 32);
        }
        match item.strip_prefix('e') {
            Some(entries) => self.entries(entries),
            None => self.numbers(item),
        }
    }

    // Adds a text, and zeros up to so many bytes.
    fn text(&mut self, text: &[u8], room: usize) {
        self.bytes(text);
        for _ in text.len()..room {
            self.byte(0);
        }
    }

    // Adds a number, the same one several times, or those from one to another.
    fn numbers(&mut self, item: &str) {
        let (numbers, width) = item.split_once('/').unwrap_or((item, "1"));
        let width = self.number(width);
        if let Some((from, to)) = numbers.split_once('~') {
            let (from, to) = (self.number(from), self.number(to));
            return self.run(width, from, 1, to.saturating_sub(from).saturating_add(1));
        }
        if let Some((number, count)) = numbers.split_once('*') {
            let (number, count) = (self.number(number), self.number(count));
            return self.run(width, number, 0, count);
        }
        let number = self.stepped(numbers, self.turn);
        self.put(width, number);
    }

    // Adds so many numbers, the first one and each further one a step away from the one before.
    fn run(&mut self, width: u128, first: u128, step: u128, count: u128) {
        let mut number = first;
        for _ in 0..count {
            self.put(width, number);
            number = number.saturating_add(step);
        }
    }

    // Adds an entry of an index or a directory, or a run of them.
    fn entries(&mut self, words: &str) {
        let (keys, pages) = words.split_once('>').unwrap_or((words, ""));
        let (key, count) = keys.split_once('*').unwrap_or((keys, "1"));
        let (address, number) = key.split_once(':').unwrap_or((key, "0"));
        let (number, count) = (self.number(number), self.number(count));
        for turn in 0..count {
            let (address, page) = (self.stepped(address, turn), self.stepped(pages, turn));
            self.put(16, address);
            self.put(4, number);
            self.put(4, page);
        }
    }

    // Adds a number on so many bytes, the highest byte first.
    fn put(&mut self, width: u128, number: u128) {
        let bytes = number.to_be_bytes();
        let from = 16u128.saturating_sub(width) as usize;
        self.bytes(&bytes[from..]);
    }

    // Adds bytes.
    fn bytes(&mut self, bytes: &[u8]) {
        for byte in bytes {
            self.byte(*byte);
        }
    }

    // Adds a byte, where there is room.
    fn byte(&mut self, byte: u8) {
        if self.at < self.page.len() {
            self.page[self.at] = byte;
            self.at += 1;
        } else {
            self.is_wrong = true;
        }
    }

    // A number, or one and a step that is added so often, and another one that is added for each page before.
    fn stepped(&mut self, words: &str, turn: u128) -> u128 {
        let (from, steps) = words.split_once('+').unwrap_or((words, "0"));
        let (step, more) = steps.split_once('+').unwrap_or((steps, "0"));
        let all = self.number(step).saturating_mul(turn);
        let pages = self.number(more).saturating_mul(self.turn);
        self.number(from).saturating_add(all).saturating_add(pages)
    }

    // The number that a word spells.
    fn number(&mut self, word: &str) -> u128 {
        match word.parse::<u128>() {
            Ok(number) => number,
            Err(_) => {
                self.is_wrong = true;
                0
            }
        }
    }
}
