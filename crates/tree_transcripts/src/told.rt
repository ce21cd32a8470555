use std::alloc::Global;
use ub_tree::TreeFault;

/// A text in the making. Where memory was refused for a part of it words are missing: that is kept, and asked once at the end, so that
/// what puts parts need not stop there.
#[derive(Drop)]
pub struct Told {
    text: String,
    // Where the list begins whose parts are put.
    begun: usize,
    is_out: bool,
}

impl Told {
    /// The empty text.
    pub fn new(alloc: Global) -> Told {
        Told {
            text: String::new(alloc),
            begun: 0,
            is_out: false,
        }
    }

    /// The text up to now.
    pub fn as_str(&self) -> &str {
        self.text.as_str()
    }

    /// Whether memory was refused for a part of it, or of a text before it.
    pub fn is_out(&self) -> bool {
        self.is_out
    }

    /// Takes this text in place of the one before.
    pub fn set(&mut self, words: &str) {
        self.text.clear();
        self.put(words);
    }

    /// The same of a text that has these words in the place of each `$`.
    pub fn fill(&mut self, text: &str, words: &str) {
        self.text.clear();
        for (i, part) in text.split('$').enumerate() {
            if i != 0 {
                self.put(words);
            }
            self.put(part);
        }
    }

    /// Puts words.
    pub fn put(&mut self, words: &str) {
        self.is_out |= self.text.push_str(words).is_err();
    }

    /// Puts a number.
    pub fn number(&mut self, number: u128) {
        self.is_out |= write!(self.text, "{number}").is_err();
    }

    /// Puts a number with its sign.
    pub fn signed(&mut self, number: i128) {
        self.is_out |= write!(self.text, "{number}").is_err();
    }

    /// Puts the words of a fault.
    pub fn fault(&mut self, fault: TreeFault) {
        match fault {
            TreeFault::Failed => self.put("Failed"),
            TreeFault::Memory => self.is_out = true,
            fault => self.is_out |= write!(self.text, "{fault}").is_err(),
        }
    }

    /// Begins a list.
    pub fn begin(&mut self) {
        self.begun = self.text.len();
    }

    /// Whether the list has no part yet.
    pub fn is_begun(&self) -> bool {
        self.text.len() == self.begun
    }

    /// Puts this between the parts of a list: nothing before the first one.
    pub fn part(&mut self, between: &str) {
        if !self.is_begun() {
            self.put(between);
        }
    }

    /// Puts one of two words, or those of a fault.
    pub fn answer(&mut self, answer: Result<bool, TreeFault>, yes: &str, no: &str) {
        match answer {
            Ok(true) => self.put(yes),
            Ok(false) => self.put(no),
            Err(fault) => self.fault(fault),
        }
    }
}
